//! Which nodes of a document a pattern matches (XSLT 2.0, section 5.5.3).
#![tactic(auto)]

mod first_steps;
mod inside;
mod law;
mod marking;
mod marks;
mod predicates;
mod steps;

pub use law::{marks_are_found, patterns_have_their_shape};
pub use marks::{Marks, marks_of};
