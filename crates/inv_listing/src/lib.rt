//! How an invoice is listed for a person: its entries, a line each, and the names of terms and groups.
#![tactic(auto)]

mod fronts;
mod names;
mod printing;

pub use names::{print_context, print_name, print_term, put_slot, put_term};
pub use printing::print_listing;
