//! Plans: expressions whose names are looked up, which own all that they are made of.
#![tactic(auto)]

mod compiling;
mod forms;
pub mod laws;
mod leaves;
mod marks;
mod names;
mod plan;
pub mod plan_node;

pub use names::NameTable;
pub use plan::{Plan, compile};
