//! What stands behind the tokens of a document: the open elements with their namespaces, the names, and counts; which
//! tokens may stand there, and what they tell (XML 1.0, fifth edition; Namespaces in XML 1.0).
#![tactic(auto)]

mod duplicates;
mod fault;
mod limits;
mod naming;
mod numbering;
mod open_elements;
mod recent;
mod registry;
mod scopes;
mod tags;
mod telling;
mod text;
mod written;

pub use fault::XmlFault;
pub use limits::{DOCUMENT_LIMITS, Limits, RULE_LIMITS};
pub use open_elements::OpenElements;
