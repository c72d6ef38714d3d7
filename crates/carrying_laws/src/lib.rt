//! Laws of carrying: each invoice that a table carries is read back from its document exactly.
#![tactic(auto)]

mod laws;

pub use laws::{
    carried_invoices_are_converted_back, carried_invoices_are_held,
    carried_invoices_are_read_exactly, carried_invoices_meet_each_condition,
    complete_tables_hold_carried_invoices, some_invoice_is_carried, tables_are_complete,
};
