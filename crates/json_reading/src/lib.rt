//! Reads JSON text (RFC 8259) into a flat list of its values, each with its place, its spelling and its name.
#![tactic(auto)]

mod bytes;
mod fault;
mod item;
mod mode;
mod numbers;
mod reader;
mod reading;
mod strings;
mod texts;
mod turns;
mod words;

pub use fault::{JsonFault, JsonKind};
pub use item::{Container, Item, ItemKind, Span};
pub use mode::{Form, Inside, Letters, Mode, NumberMode, Role, Tail, TextMode, Turn, WordMode};
pub use reader::Open;
pub use reading::{JsonLimits, JsonText, LIMITS, read};
pub use texts::{Digits, Pending, Said};
