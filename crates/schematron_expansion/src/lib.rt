//! What stands where in a Schematron rule file: the things of an element, what abstract rules and patterns put where
//! they are used, and how many assertions there are.
#![tactic(auto)]

mod abstracts;
mod bodies;
mod counting;
mod file;
mod found;
mod inclusions;
mod instances;
mod links;
mod sizes;
mod sorts;

pub use bodies::graph_of;
pub use counting::counted;
pub use file::{RuleFile, Sort};
pub use found::{Found, sooner};
pub use inclusions::Inclusion;
pub use instances::Instance;
pub use sizes::{assertions, assertions_inside};
pub use sorts::is_parameter;
