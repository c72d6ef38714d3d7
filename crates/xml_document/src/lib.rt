//! A loaded document and a walk over it: what bindings, expressions and rule files start from.
#![tactic(auto)]

mod loading;
mod walk;
mod whole;

pub use loading::{LoadFault, Loaded, load, load_giving, load_sized};
pub use walk::Walk;
pub use whole::{WholeFault, read_whole};
