//! What a validation tells, written: the faults of reading an invoice, what of its document is passed over, unread or
//! misplaced, and what rules find, as lines for a person and in the Schematron Validation Report Language.
#![tactic(auto)]

mod places;
mod printing;
mod reading;
mod texts;
mod validation;
mod values;

pub use places::{Located, Spot, Spots, Unread};
pub use reading::ReadingFindings;
pub use validation::{Parts, Validation};
