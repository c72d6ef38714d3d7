//! An ordered map of values that say their own keys, for values that come nearly in the order of their keys.
#![tactic(auto)]

mod keyed;
mod map;
mod merging;
mod places;

pub use keyed::Keyed;
pub use map::OrderedMap;
