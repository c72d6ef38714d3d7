//! What expressions and patterns of a stated subset of XPath 2.0 are, which tokens spell which, and the laws of that grammar.
#![tactic(auto)]

pub mod expr;
pub mod functions;
pub mod laws;
pub mod machine;
pub mod many;
pub mod operators;
pub mod pattern;
pub mod step;
pub mod words;
