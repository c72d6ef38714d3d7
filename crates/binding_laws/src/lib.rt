//! Laws of reading and writing invoices: what is read of the document that an invoice is written as.
#![tactic(auto)]

mod laws;

pub use laws::{
    invoices_of_covered_rows_are_converted_back, invoices_of_covered_rows_are_read_back,
    nothing_is_passed_over, picks_say_the_entries_where_they_stand,
    plain_attributes_pick_the_values_beside_their_main_terms, plain_rows_are_computed,
    plain_rows_pick_the_values_of_their_terms, rows_apart_pick_what_is_written,
    tables_have_plain_rows, tables_leave_terms_out, valid_invoices_are_converted_back,
    valid_invoices_are_read_exactly,
};
