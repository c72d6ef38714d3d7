//! What a validation tells, as JSON text.
#![tactic(auto)]

mod elements;
mod findings;
mod members;
mod printing;

pub use printing::print_validation;
