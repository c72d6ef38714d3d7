//! The lists from which the codes of an invoice come: which lists there are, the two that are built in,
//! the others from a file, and whether a list allows a code.
#![tactic(auto)]

mod codes;
mod fault;
mod file;
mod keys;
mod lists;
mod names;

pub use codes::is_code;
pub use fault::ListFault;
pub use keys::other_key;
pub use lists::CodeLists;
pub use names::List;
