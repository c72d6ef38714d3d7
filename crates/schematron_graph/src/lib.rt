//! Rules of a rule file that put the bodies of other rules, over numbers alone: which of them end, how large they are,
//! and what stands at their places.
//!
//! `specs/Rules.antt` says what stands at the place of a rule. `Graph` finds it for all rules at once.
#![tactic(auto)]

mod back;
mod budget;
mod building;
mod graph;
mod guess;
mod once;
mod part;
mod ranked;
mod walk;

pub use budget::Budget;
pub use graph::Graph;
pub use part::{Part, Spot, Thing};
