//! The reader of documents: from bytes, in pieces, to events, or the first fault (XML 1.0, fifth edition, and
//! Namespaces in XML 1.0, in the profile of docs/FORMATS.md).
#![tactic(auto)]

mod cursor;
mod laws;
mod reader;

pub use laws::{settled_is_first, settled_stays, want_of_memory_is_no_fault};
pub use reader::Reader;
pub use xml_events::{Events, NameId, NameTable};
pub use xml_state::{DOCUMENT_LIMITS, Limits, RULE_LIMITS, XmlFault};
pub use xml_tokens::XmlKind;
