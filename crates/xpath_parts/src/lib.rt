//! What the evaluation of a plan does without going into its parts: names and nodes that it runs over, slots, values that are at hand,
//! what links and kinds make of values, turns, and walks along the chain of a name (XPath 2.0, section 3).
#![tactic(auto)]

pub mod at_hand;
pub mod calling;
mod dynamic;
pub mod finishing;
pub mod linking;
mod named;
pub mod parts;
pub mod simple;
mod sizes;
mod slots;
pub mod turns;
pub mod values;

pub use dynamic::DynamicContext;
pub use named::{Walk, child_name, is_chain, node_of, step_name, walk_in, walked};
pub use slots::Slots;
