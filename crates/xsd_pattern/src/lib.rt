//! Patterns after those of XML Schema: whether a text is one, and whether it is found in a text.
#![tactic(auto)]

mod block;
mod classes;
mod compiling;
mod fault;
mod frames;
mod going;
mod laws;
mod lexing;
mod machine;
mod mode;
mod parts;
mod places;
mod regex;
mod step;
mod token;

pub use fault::PatternFault;
pub use laws::one_reading;
pub use regex::{Regex, holds, parse};
