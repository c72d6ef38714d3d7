//! What the rules of a file find in a document (ISO/IEC 19757-3).
#![tactic(auto)]

mod assertions;
mod firsts;
mod input;
mod judging;
mod law;
mod lending;
mod lets;
mod messages;
mod nodes;
mod patterns;
mod ready;
mod values;

pub use judging::judge;
pub use law::compiled_rules_have_patterns;
pub use schematron_findings::{Finding, FindingKind, Findings, Line};
