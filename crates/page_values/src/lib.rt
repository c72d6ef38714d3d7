//! Values on the page of an invoice, in HTML 5: what a term has in a place, escaped, with its title and its meaning, and what is attached.
#![tactic(auto)]

mod escapes;
mod parts;
mod places;
mod sizes;
mod values;
mod words;

pub use parts::{any_stands, put_parts};
pub use places::{Place, count_in, has_value, occurrence, value_at};
pub use sizes::sizes_of;
pub use values::{put_plain, put_text_at, put_title, put_value};
pub use words::kind_word;
