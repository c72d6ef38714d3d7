//! The binding tables of UBL 2.1 Invoice and CreditNote, after CEN/TS 16931-3-2.
#![tactic(auto)]

mod conditions;
mod laws;
mod tables;

pub use laws::{
    credit_note_is_well_formed, credit_note_is_writable, invoice_is_well_formed,
    invoice_is_writable,
};
pub use tables::{credit_note, invoice};
