//! The parts of evaluation that don't recurse (XPath 2.0, section 3): steps, document order, sets of nodes, operators on
//! values, predicates' answers, and variables.
#![tactic(auto)]

mod bindings;
mod children;
mod insides;
mod keeping;
mod lending;
mod nodes;
mod operating;
mod ordering;
mod sets;
mod stepping;
mod variables;

pub use bindings::{bound_at, lent_at};
pub use keeping::keeps;
pub use lending::{Lent, copy_of, lend};
pub use nodes::{all_nodes, any_node, is_node};
pub use operating::operated;
pub use ordering::{document_ordered, of_turns, settled};
pub use sets::set_of;
pub use stepping::{inside_named, inside_over, root_of, step_from, stepped_from, steps_over};
pub use variables::Env;
