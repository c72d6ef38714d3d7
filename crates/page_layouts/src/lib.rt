//! Layouts and tables on the page of an invoice, in HTML 5: rows, paragraphs and cells in the invoice or in each occurrence of a group, and
//! sections that are begun only where something comes.
#![tactic(auto)]

mod items;
mod layouts;
mod pens;
mod tables;

pub use layouts::put_layout;
pub use pens::{Head, Pen, open};
pub use tables::put_rows;
