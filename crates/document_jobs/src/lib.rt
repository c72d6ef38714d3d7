//! Jobs on any XML document: its outline, the value of an expression at it, and what rule files find in it.
#![tactic(auto)]

mod checks;
mod outlines;
mod printing;
mod queries;
mod refusals;

pub use checks::{Checking, check};
pub use outlines::outline;
pub use queries::query;
