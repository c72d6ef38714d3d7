//! The evaluation of plans over a document (XPath 2.0, section 3).
#![tactic(auto)]

mod evaluating;
mod run;
mod whole;

pub use evaluating::evaluate;
pub use run::Run;
pub use xpath_steps::Env;
