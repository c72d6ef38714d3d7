pub use inv_base::Many;
