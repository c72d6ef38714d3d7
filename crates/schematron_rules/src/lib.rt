//! What a Schematron rule file says, ready to be judged by: types, what the definitions see of them, phases by name, and
//! expressions judged in the scopes in which they stand.
#![tactic(auto)]

mod expressions;
mod numbers;
mod phases;
mod rules;
mod scopes;

pub use expressions::{fault_of, judged, plan_of};
pub use numbers::number_of;
pub use rules::{Active, Assertion, Compiled, Expanded, Let, Part, Phase, Rule, Rules, Shown};
pub use scopes::{declare_let, declare_lets, prefixes};
