//! What a document says as an invoice by a table of rows, and what is wrong with it: definitions, the types of picks and
//! of faults, and which form a row writes a term in.
#![tactic(auto)]

mod elements;
mod fault;
mod forms;
mod picked;
mod tables;

pub use bind_rows::DocumentType;
pub use elements::{is_blank_at, is_element};
pub use fault::{BindFault, BindKind};
pub use forms::{form_for, type_of};
pub use picked::{Picked, PlacedPick, Seated};
pub use tables::Syntax;
