//! From the picks of a table's rows to picks with the occurrences of groups in which they stand.
#![tactic(auto)]

mod currencies;
mod input;
mod known;
mod marks;
mod numbered_picks;
mod occurrences;
mod placeholders;
mod rowed;
mod texts;

pub use numbered_picks::{NumberedPicks, number_occurrences};
