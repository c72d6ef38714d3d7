//! What rule files find in a document, as JSON text.
#![tactic(auto)]

mod findings;
mod printing;

pub use findings::{put_head, put_message, put_tally};
pub use printing::print_findings;
