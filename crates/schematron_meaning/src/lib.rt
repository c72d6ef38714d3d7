//! What a Schematron rule file says (ISO/IEC 19757-3), in a subset, and what is wrong with it: definitions, and the
//! types of roles and of faults.
#![tactic(auto)]

mod around;
mod assertion;
mod attribute;
mod caps;
mod fault;
mod key;
mod role;
mod tag;

pub use around::Around;
pub use assertion::AssertionKind;
pub use attribute::Attribute;
pub use caps::{
    MOST_BUILT_BYTES, MOST_JUDGED_BYTES, MOST_THINGS, MOST_THINGS_OF_A_RULE, MOST_TURNS,
};
pub use fault::{ExpressionFault, Fault, PhaseFault, RuleKind};
pub use key::Space;
pub use role::Role;
pub use tag::Tag;
