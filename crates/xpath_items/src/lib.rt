//! What expressions evaluate to: items, sequences of items, and errors with their codes (XPath 2.0, sections 2.3 and 2.4).
#![tactic(auto)]

mod codes;
mod fault;
mod item;
mod outcome;
mod seq;

pub use codes::code_of;
pub use fault::Fault;
pub use inv_base::Str;
pub use item::Item;
pub use outcome::{DynError, Focus, Outcome};
pub use seq::Seq;
