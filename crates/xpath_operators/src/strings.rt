//! The string of a node (XQuery 1.0 and XPath 2.0 Data Model, section 5.13).
ghost use Rattle.std.specs.Prelude.{◌≡◌, ◌<◌, length, IfOk};
ghost use Rattle.node_arena.specs.Moves.{tree_nodes};
ghost use Rattle.xpath_meaning.specs.Items.{string_at};

use inv_base::Steps;
use node_arena::{Doc, NodeId};
use std::alloc::{AllocError, Global};
use std::marker::Brand;
use std::sync::ledger::{Blank, Ledger};
use xpath_items::Str;

/// The string of a node, by steps that nobody counts.
fn string_by<'a, L: Ledger>(
    alloc: Global,
    doc: &Doc<'a>,
    node: NodeId,
    ledger: Blank,
) -> Result<Str<'a>, AllocError>
    requires name { ledger.name ≡ L.name }
    requires parts { ledger.parts ≡ L.parts }
    requires some { 0 < ledger.parts }
    requires within { node < length doc.now.nodes }
    ensures { IfOk result (λ text. text ≡ string_at (tree_nodes doc.now) node) }
{
    let mut steps = Steps::<L>::new(ledger);
    doc.string(alloc, node, &mut steps)
}

/// The string of a node: lent where one text of the document alone has it, else joined.
pub(crate) fn string_at<'a>(
    alloc: Global,
    doc: &Doc<'a>,
    node: NodeId,
) -> Result<Str<'a>, AllocError>
    requires { node < length doc.now.nodes }
    ensures { IfOk result (λ text. text ≡ string_at (tree_nodes doc.now) node) }
{
    string_by::<Brand>(alloc, doc, node, Blank::new(1))
}
