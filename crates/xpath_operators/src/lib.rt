//! Operators on values (XPath 2.0, section 3): truth, atomising, comparisons, arithmetic, ranges, sets and casts.
#![tactic(auto)]

mod atomising;
mod casts;
mod comparing;
mod comparisons;
mod known;
mod numbers;
mod ranges;
mod ranking;
mod readings;
mod rows;
mod searching;
mod spaces;
mod strings;
mod texts;
mod truths;
mod values;

pub use atomising::{atom, atomise, atoms};
pub use casts::{cast, type_called};
pub use comparing::{compare, is_general, text_cmp};
pub use comparisons::compared;
pub use known::KnownItems;
pub use numbers::{arithmetic, in_range, number_of, signed};
pub use ranges::range;
pub use readings::{read_boolean, read_day, read_number, read_whole_number};
pub use spaces::trimmed;
pub use texts::{push, text_of};
pub use truths::truth;
pub use values::{boolean, counted, number, one, outcome};
