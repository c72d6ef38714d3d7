//! What judging a document by a rule file finds: the lines of a report, in order.
#![tactic(auto)]

mod finding;
mod findings;
mod lent;
mod level;

pub use finding::{Finding, FindingKind, Line};
pub use findings::Findings;
pub use lent::Lent;
pub use level::{Level, level_of};
