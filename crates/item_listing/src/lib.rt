//! How the value of an expression is listed for a person: a line an item, or the code of its error.
#![tactic(auto)]

mod codes;
mod items;
mod lines;

pub use items::write_items;
