//! Schematron rule files, compiled: what a file says, ready to be judged by, or its first fault.
#![tactic(auto)]

mod assertions;
mod budget;
mod building;
mod compiling;
mod lets;
mod messages;
mod patterns;
mod phases;
mod picking;
mod places;
mod rules;
mod texts;

pub use compiling::{RuleFault, compile};
pub use schematron_meaning::{AssertionKind, Attribute, ExpressionFault, PhaseFault, RuleKind};
pub use schematron_rules::{Active, Assertion, Expanded, Let, Part, Phase, Rule, Rules, Shown};
