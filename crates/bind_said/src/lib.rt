//! Which elements and attributes of a document are said: a value that is read by a term, a constant of the table, or what is judged
//! with the value of its element.
#![tactic(auto)]

mod along;
mod attributes;
mod constants;
mod judged;
mod marks;
mod paths;
mod picked;
mod said;
mod schemes;
mod words;

pub use said::said_nodes;
