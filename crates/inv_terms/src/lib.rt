//! An electronic invoice (EN 16931-1) as a list of entries, values of business terms in the order of the semantic
//! model, its attached documents, and what it lacks: mandatory terms and groups, and codes that aren't in their lists.
#![tactic(auto)]

mod attachments;
mod counts;
mod entries;
mod invoice;
mod laws;
mod listing;
mod looking;
mod missing;
mod presence;
mod spaces;
mod validity;
mod values;
mod violation_laws;
mod violations;

pub use attachments::{AttachFault, attachment};
pub use counts::Counts;
pub use entries::Entry;
pub use invoice::{Invoice, PushFault};
pub use laws::{
    invoices_are_in_listing_order, invoices_with_the_same_entries_are_equal,
    push_refuses_what_makes_no_invoice, spelled_values_are_read_back,
};
pub use listing::index_in;
pub use looking::value_in;
pub use missing::{all_missing, first_missing};
pub use presence::Presence;
pub use spaces::{is_blank, trimmed};
pub use term_table::{Context, DataType, Group, Mark, Slot, Term, TermRow, term_row};
pub use validity::{check, is_outside, is_unlisted};
pub use values::Value;
pub use violation_laws::{
    contexts_are_those_of_the_entries, first_lacks_are_first, first_missing_is_first_of_all,
    valid_invoices_lack_nothing,
};
pub use violations::{ModelViolation, Name, TermFault};
