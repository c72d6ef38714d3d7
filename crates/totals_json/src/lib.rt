//! The differences between an invoice's totals and what its other values make of them, as JSON text.
#![tactic(auto)]

mod numbers;
mod printing;

pub use printing::print_totals;
