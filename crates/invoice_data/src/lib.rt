//! The invoice (EN 16931-1) that the members of a JSON text say, or all faults of its content.
#![tactic(auto)]

mod data;
mod faults;
mod guesses;
mod input;
mod lacks;
mod members;
mod names;
mod parts;
mod printing;
mod reading;
mod schemes;
mod telling;
mod values;

pub use data::Data;
pub use faults::{DataFault, DataKind, DataName};
pub use guesses::Guess;
pub use members::Numbers;
pub use names::{Member, Room};
pub use printing::print_fault;
pub use reading::read_members;
pub use telling::Found;
