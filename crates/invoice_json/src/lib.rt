//! An invoice (EN 16931-1) as JSON text.
#![tactic(auto)]

mod names;
mod occurrences;
mod printing;

pub use names::array_name;
pub use printing::print_json;
