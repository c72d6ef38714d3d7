//! A trial of the whole tool: a generated invoice is written, read, written in the other syntax, read again and judged.
#![tactic(auto)]

mod comparing;
mod judging;
mod printing;
mod reading;
mod rule_file;
mod trial;

pub use printing::write_trial;
pub use trial::{Trial, run_trial};
