//! What a reader tells of a document, and the names in it: its events in order, and expanded names numbered in first-seen order
//! (Namespaces in XML 1.0).
#![tactic(auto)]

mod events;
mod kept;
mod names;
mod spaces;

pub use events::Events;
pub use kept::{Kept, KeptNames};
pub use names::{NameId, NameTable, number_kept, number_space};
pub use spaces::Spaces;
