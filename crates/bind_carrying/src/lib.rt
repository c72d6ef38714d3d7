//! Whether a binding table can carry an invoice, and by which table an invoice is written.
#![tactic(auto)]

mod carrying;
mod conditions;
mod placing;
mod tables;

pub use carrying::{NotCarried, carries};
pub use tables::target;
