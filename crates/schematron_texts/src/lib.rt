//! Texts of a rule file: parameters of an abstract pattern put into attributes, and messages with their white space
//! squeezed.
#![tactic(auto)]

mod messages;
mod parameters;
mod pushing;
mod replacing;

pub use messages::Message;
pub use parameters::Parameters;
pub use replacing::{replaced, replaced_within};
