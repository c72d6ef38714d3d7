//! Values in document order (XPath 2.0, sections 2.4.1 and 3.2).
ghost use Rattle.std.specs.Prelude.{◌≡◌, length, IfOk, Ok};
ghost use Rattle.node_arena.specs.Moves.{tree_nodes};
ghost use Rattle.xpath_items.specs.Faults.{Gives};
ghost use Rattle.xpath_meaning.specs.Steps as meaning;
ghost use Rattle.xpath_operators.specs.Nodes.{AreWithin};

use crate::nodes::{all_nodes, any_node, nodes_among, ordered, put_in_order};
use node_arena::Doc;
use std::alloc::Global;
use xpath_items::{DynError, Fault, Item, Seq};
use xpath_walks::documents_are_walkable;

/// The nodes among the items in document order, each once.
pub fn document_ordered<'a>(
    alloc: Global,
    doc: &Doc<'_>,
    items: &[Item<'_>],
) -> Result<Seq<'a>, Fault>
    requires { AreWithin (length doc.now.nodes) items.now }
    ensures value { Gives result (Ok (meaning.in_document_order (tree_nodes doc.now) items.now)) }
    ensures within { IfOk result (λ found. AreWithin (length doc.now.nodes) found) }
{
    documents_are_walkable(doc);
    let nodes = nodes_among(alloc, items)?;
    Ok(ordered(alloc, doc, nodes)?)
}

/// The same of items that are handed over, which are given back as they are where they are in that order already.
pub fn settled<'a>(alloc: Global, doc: &Doc<'_>, items: Seq<'a>) -> Result<Seq<'a>, Fault>
    requires { AreWithin (length doc.now.nodes) items }
    ensures value { Gives result (Ok (meaning.in_document_order (tree_nodes doc.now) items.entry)) }
    ensures within { IfOk result (λ found. AreWithin (length doc.now.nodes) found) }
{
    documents_are_walkable(doc);
    Ok(put_in_order(alloc, doc, items)?)
}

/// What the turns of a path come to: nodes in document order, each once, or other items as they come. A mixture is XPTY0018.
pub fn of_turns<'a>(alloc: Global, doc: &Doc<'_>, items: Seq<'a>) -> Result<Seq<'a>, Fault>
    requires { AreWithin (length doc.now.nodes) items }
    ensures value { Gives result (meaning.of_turns (tree_nodes doc.now) items.entry) }
    ensures within { IfOk result (λ found. AreWithin (length doc.now.nodes) found) }
{
    if all_nodes(items.as_slice()) {
        return settled(alloc, doc, items);
    }
    if any_node(items.as_slice()) {
        Err(Fault::Error(DynError::XPTY0018))
    } else {
        Ok(items)
    }
}
