//! Exact decimal numbers, amounts that keep their written digits, and calendar days.
//! No call takes memory.
#![tactic(auto)]

mod calendar;
mod decimal;
mod fault;
pub mod laws;
mod printing;
mod reading;
mod scaled_decimal;
mod whole;
mod wide;

pub use calendar::Day;
pub use decimal::Dec;
pub use fault::{DecFault, DivisionByZero, Overflow};
pub use scaled_decimal::Scaled;
