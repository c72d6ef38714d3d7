//! The functions that expressions may call (XQuery 1.0 and XPath 2.0 Functions and Operators, in a subset), at the values of
//! their arguments.
#![tactic(auto)]

mod arguments;
mod calling;
mod casing;
mod distinguishing;
mod domains;
mod finding;
mod joining;
mod names;
mod numbers;
mod patterns;
mod places;
mod pushing;
mod sequences;
mod spacing;
mod texts;
mod totals;
mod translating;

pub use calling::{call, is_concat};
pub use patterns::found;
pub use sequences::{count, empty, exists};
pub use xpath_items::{DynError, Fault, Focus, Item, Outcome, Seq, Str};
pub use xpath_operators::{atomise, compare, compared, truth};
