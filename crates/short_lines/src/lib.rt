//! Short texts that are composed on the stack, and printed as one piece.
#![tactic(auto)]

mod lines;
mod plain;
mod short;

pub use lines::{print_quoted_line, put_quoted_line};
pub use plain::is_plain;
pub use short::{Short, put};
