//! The line and the column of a place in a file, whose bytes are given piece by piece.
#![tactic(auto)]

mod place;
mod receiver;
mod starts;

pub use place::LinePlace;
pub use receiver::{ByteReceiver, Unheeded};
pub use starts::LineStarts;
