//! Picks beside the rows that pick them.

use bind_meaning::PlacedPick;
use bind_rows::Row;

/// A pick, with the row that picks it.
#[derive(Clone, Copy)]
pub(crate) struct RowedPick<'p> {
    pub(crate) row: &'p Row,
    pub(crate) pick: &'p PlacedPick,
}
