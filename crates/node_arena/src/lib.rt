//! A document in memory: its nodes in document order, linked, their texts placed once in an arena and lent from it.
#![tactic(auto)]

mod builder;
mod chains;
mod doc;
mod growing;
mod laws;
mod link;
mod moves;
mod slot;
mod strings;

pub use builder::Builder;
pub use doc::{Doc, NodeId};
pub use inv_base::{Kind, Str};
pub use laws::{
    chains_are_of_expanded_names, events_build_a_whole_document,
    events_build_the_nodes_of_their_tree, insides_are_intervals, moves_lead_on,
    names_are_found_by_number,
};
