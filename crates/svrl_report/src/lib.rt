//! What was found, written: as a plain report for a person, and in the Schematron Validation Report Language. Both go
//! straight to a sink, without memory.
#![tactic(auto)]

mod elements;
mod plain;
mod svrl;
mod tally;

pub use plain::{
    failed_word, print_counts, print_id, print_message, print_number, print_outcome, print_text,
    write_plain,
};
pub use svrl::write_svrl;
pub use tally::Tally;
