//! Locations of nodes: the path from the root down that picks one node alone, in a form that XPath 2.0 reads.
#![tactic(auto)]

mod counting;
mod locations;
mod ordinals;
mod texts;

pub use locations::push_location;
pub use ordinals::Ordinals;
