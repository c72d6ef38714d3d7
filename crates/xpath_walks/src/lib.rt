//! The axes of a document by its links, tests of nodes by number, and order without duplicates.
#![tactic(auto)]

mod axes;
mod behind;
mod chain;
mod children;
mod forward;
mod law;
mod order;
mod reverse;
mod step;
mod test;
mod walk;

pub use axes::{axis_nodes, named_nodes};
pub use children::child_items;
pub use law::documents_are_walkable;
pub use order::{in_order, rising_nodes_are_in_order};
pub use step::Step;
pub use test::{is_passing, numbers_in};
pub use walk::is_around;
