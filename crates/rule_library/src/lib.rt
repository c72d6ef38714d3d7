//! A rule file with the parts that it takes of other files put in: one document, and whose place each place is.
#![tactic(auto)]

mod asking;
mod faults;
mod files;
mod joining;
mod library;
mod loading;
mod moves;
mod parts;
mod walk;

pub use faults::{LoadFault, LoadKind};
pub use library::Library;
pub use loading::load;
