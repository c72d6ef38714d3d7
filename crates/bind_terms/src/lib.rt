//! From the picks of a binding table, each with its context, to the invoice that a document is, or its faults: what
//! strings say as values of business terms, what is wrong at one node, and all of them judged together.
#![tactic(auto)]

mod attributes;
mod causes;
mod checks;
mod currency;
mod entries;
mod firsts;
mod found;
mod indicators;
mod input;
mod insides;
mod judging;
mod keeping;
mod laws;
mod notes;
mod parsed_values;
mod rowed;
mod telling;
mod values;
mod violations;
mod words;

pub use input::ReadingInput;
pub use insides::has_element_inside;
pub use judging::{faults, judge};
pub use laws::first_faults_are_first_of_all;
pub use parsed_values::{ParsedValue, ParsedValues, parse_values};
pub use words::is_word;
