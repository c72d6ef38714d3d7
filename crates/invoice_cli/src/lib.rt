//! The program: what its words ask for, and the one call that answers them.
#![tactic(auto)]

mod adapters;
mod conversions;
mod options;
mod program;
mod trials;
mod usage;
mod version;
mod words;

pub use adapters::{FileShelf, OutputSink};
pub use job_protocol::{Status, exit_number};
pub use program::run;
