//! The elements of a Schematron rule file that count, read from its document.
#![tactic(auto)]

mod chains;
mod declared;
mod entry;
mod keys;
mod laws;
mod naming;
mod places;
mod reading;
mod roles;
mod showing;

pub use chains::Chains;
pub use declared::first_declared;
pub use entry::{Entry, Given, value_of};
pub use laws::{
    items_stand_behind, nodes_are_in_order, numbers_are_of_nodes, numbers_rise, rules_follow,
};
pub use reading::read;
