//! Invoices written as documents: straight from the entries through a pen, with no tree and no memory.
#![tactic(auto)]

mod cells;
mod documents;
mod holding;
mod looking;
mod roots;
mod sizes;
mod source;
mod spots;
mod types;
mod walking;
mod wording;

pub use documents::write;
pub use sizes::measure;
pub use types::is_of_type;
