//! What picks are judged over.

use bind_rows::Row;
use node_arena::Doc;
use std::alloc::Global;

/// A document, and the rows of the table that pick in it.
#[derive(Clone, Copy)]
pub(crate) struct NumberingInput<'s, 'd> {
    pub(crate) alloc: Global,
    pub(crate) doc: &'s Doc<'d>,
    pub(crate) rows: &'s [Row],
}
