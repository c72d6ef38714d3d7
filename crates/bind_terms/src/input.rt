//! What the picks of a document are judged by.

use bind_table::Binding;
use code_lists::CodeLists;
use node_arena::Doc;
use std::alloc::Global;

/// A document, with what says what it is as an invoice: the table whose rows pick in it, the code lists, and the currency
/// that it names for the invoice.
#[derive(Clone, Copy)]
pub struct ReadingInput<'s, 'd> {
    pub alloc: Global,
    pub doc: &'s Doc<'d>,
    pub table: &'s Binding,
    pub lists: &'s CodeLists,
    pub invoice_currency: Option<&'s str>,
}
