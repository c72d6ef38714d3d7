//! The job that validates an invoice: all that is wrong with it as an invoice of its table, the elements that the table passes over, and what
//! the built-in rules of EN 16931 find.
#![tactic(auto)]

mod built_in;
mod validating;

pub use validating::validate;
