//! The binding table of CII D16B, after CEN/TS 16931-3-3.
#![tactic(auto)]

mod conditions;
mod laws;
mod table;

pub use laws::{cii_is_well_formed, cii_is_writable};
pub use table::cii;
