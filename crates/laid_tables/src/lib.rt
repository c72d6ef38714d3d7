//! Whether invoices can be written by a table: the conditions of `bind_write`, asked of any table.
#![tactic(auto)]

mod ends;
mod names;
mod numbers;
mod tables;

pub use tables::can_be_written;
