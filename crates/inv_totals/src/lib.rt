//! The totals of an invoice beside what the calculation model of EN 16931-1 makes of its other values: where they
//! differ, and how that is printed.
#![tactic(auto)]

mod adding;
mod categories;
mod comparing;
mod found;
mod keys;
mod numbers;
mod printing;
mod stated;
mod sums;

pub use comparing::differences;
pub use found::{Difference, Differences};
pub use keys::number_text;
pub use printing::write_differences;
