//! The semantic model of an electronic invoice (EN 16931-1): the business terms and groups, the contexts in which terms
//! stand, and the order in which an invoice lists them.
#![tactic(auto)]

mod contexts;
mod groups;
mod laws;
mod names;
mod places;
mod rows;
mod runs;
mod terms;

pub use contexts::{Context, ROOT, Seat, Slot};
pub use groups::{Group, Occurrence};
pub use laws::{
    entries_of_a_context_are_a_run, equal_places_are_one_seat, placed_contexts_are_nested,
    places_are_ordered, terms_have_one_type,
};
pub use names::term_name;
pub use places::{ListingPlace, first_row, place_at, place_of};
pub use rows::{data_type_in, data_type_of, has_context, list_in, row_in, row_of};
pub use runs::{Run, Seated, run_in, run_near};
pub use terms::{DataType, Mark, Term, TermRow, term_row, term_rows};
