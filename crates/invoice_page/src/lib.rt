//! The page of an invoice (EN 16931-1) that people read, in HTML 5.
#![tactic(auto)]

mod differing;
mod page;
mod sections;

pub use page::print_page;
