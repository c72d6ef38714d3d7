//! What a file of extension terms gives: terms that a user adds to the semantic model, each with its number, its type,
//! its place in the invoice and the path of its element in each syntax.
#![tactic(auto)]

mod extension;
mod fault;
mod file;
mod keys;
mod paths;
mod tables;
mod terms;
mod words;

pub use extension::{Extension, file_terms_are_extensions};
pub use fault::ExtFault;
pub use terms::{ExtPlace, ExtTerm, Paths};
