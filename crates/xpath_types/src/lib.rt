//! The typing of expressions and patterns: what kinds of items the value of each part may have,
//! what each part uses of the place that it is evaluated at, and the first refusal.
#![tactic(auto)]

mod facts;
mod fault;
mod forms;
mod functions;
pub mod heights;
mod kinds;
pub mod laws;
mod leaves;
mod names;
mod part;
mod patterns;
mod places;
mod refusals;
mod resolving;
mod scope;
mod typed;
mod uses;
mod variables;
mod walk;

pub use fault::{TypeFault, TypeKind};
pub use functions::Resolved;
pub use kinds::Kinds;
pub use names::{local, prefix, written};
pub use part::Part;
pub use patterns::is_matches;
pub use resolving::{function_called, namespace, type_named};
pub use scope::Scope;
pub use typed::{Typed, check, check_pattern};
