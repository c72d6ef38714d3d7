//! What the rows of a binding table pick in a document, by one walk over the table's lines and the document: names by
//! their numbers there, and the guards of elements, judged there.
#![tactic(auto)]

mod chains;
mod finds;
mod guards;
mod input;
mod lines;
mod losses;
mod names;
mod passed;
mod picks;
mod sorting;
mod strings;
mod walk;

pub use chains::chains_lead_on;
pub use guards::{FoundGuard, are_met, find_guards};
pub use input::WalkInput;
pub use losses::{Losses, losses_of};
pub use names::{FoundLeaf, element_number, has_name, leaf_number};
pub use picks::{Picks, pick_all};
