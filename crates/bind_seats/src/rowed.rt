//! Picks beside the rows that pick them, and the elements around their nodes.

ghost use Rattle.std.specs.Prelude.{◌≡◌, ◌<◌, ◌≤◌, length};
ghost use Rattle.node_arena.specs.Moves.{tree_nodes};
ghost use Rattle.bind_meaning.specs.Picks as picks;
ghost use Rattle.bind_seats.specs.Rowed as spec;

use bind_meaning::Picked;
use bind_rows::{Content, Leaf, Row};
use inv_base::Steps;
use node_arena::{Doc, NodeId};
use std::sync::ledger::Ledger;
use term_table::Term;

/// The row that picks.
pub(crate) fn row_of<'r>(rows: &'r [Row], pick: &Picked) -> &'r Row
    requires row { 0 < pick.now.row }
    requires within { pick.now.row ≤ length rows.now }
    ensures { result.now ≡ spec.row_at rows.now pick.now.row }
{
    &rows[pick.row as usize - 1]
}

/// The term of a row, if it has one.
pub(crate) fn term_in(row: &Row) -> Option<Term>
    ensures { result ≡ picks.term_in row.now.content }
{
    match row.content {
        Content::Term(term) => Some(term),
        Content::Constant(_) => None,
    }
}

/// Whether the row has the term.
pub(crate) fn has_term(row: &Row, term: Term) -> bool
    ensures { result ≡ picks.has_term term row.now }
{
    match term_in(row) {
        None => false,
        Some(own) => own.is_same(term),
    }
}

/// The element or the document that a node is right inside; the document for the document.
fn above<L: Ledger>(doc: &Doc<'_>, n: NodeId, steps: &mut Steps<L>) -> NodeId
    requires { n < length doc.now.nodes }
    ensures node { result ≡ spec.above (tree_nodes doc.now) n }
    ensures within { result < length doc.now.nodes }
{
    match doc.parent(n, steps) {
        Some(m) => m,
        None => doc.document(),
    }
}

/// The element around the last element of a row's path, at a node that the row picks.
pub(crate) fn holder<L: Ledger>(doc: &Doc<'_>, row: &Row, n: NodeId, steps: &mut Steps<L>) -> NodeId
    requires { n < length doc.now.nodes }
    ensures { result ≡ spec.holder (tree_nodes doc.now) row.now.leaf n }
{
    let element = match row.leaf {
        Leaf::Element => n,
        Leaf::Attribute(_) => above(doc, n, steps),
    };
    above(doc, element, steps)
}
