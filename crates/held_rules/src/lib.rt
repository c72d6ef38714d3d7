//! Rule files whose texts the program holds in memory: a text as a document, what it says as a rule file with what is active of it by
//! default, and what that finds in a document.
#![tactic(auto)]

mod documents;
mod ready;

pub use documents::document_in;
pub use ready::{Ready, ready_rules};
