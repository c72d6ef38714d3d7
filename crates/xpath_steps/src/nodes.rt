//! Nodes among items, and their numbers.
ghost use Rattle.std.specs.Prelude.{◌≡◌, length, IfOk};
ghost use Rattle.std.specs.List.{list_all, list_any};
ghost use Rattle.node_arena.specs.Moves.{tree_nodes};
ghost use Rattle.xpath_meaning.specs.Steps as meaning;
ghost use Rattle.xpath_operators.specs.Nodes.{AreWithin};
ghost use Rattle.xpath_steps.specs.Numbers as spec;
ghost use Rattle.xpath_steps.specs.Numbers.{numbers_among};
ghost use Rattle.xpath_walks.specs.Order.{node_items};

use node_arena::{Doc, NodeId};
use std::alloc::{AllocError, Global};
use xpath_items::{Item, Seq};
use xpath_walks::{documents_are_walkable, in_order, rising_nodes_are_in_order};

/// Whether it is a node.
pub fn is_node(item: &Item<'_>) -> bool
    ensures { result ≡ meaning.is_node item.now }
{
    match item {
        Item::Node(_) => true,
        _ => false,
    }
}

/// Whether all items are nodes.
pub fn all_nodes(items: &[Item<'_>]) -> bool
    ensures { result ≡ list_all meaning.is_node items.now }
{
    items.iter().all(|item| is_node(item))
}

/// Whether some item is a node.
pub fn any_node(items: &[Item<'_>]) -> bool
    ensures { result ≡ list_any meaning.is_node items.now }
{
    items.iter().any(|item| is_node(item))
}

/// Whether an item is a node behind the one with the number in document order, and its number.
fn node_behind(last: NodeId, item: &Item<'_>) -> Option<NodeId>
    ensures { result ≡ spec.node_behind last item.now }
{
    match item {
        Item::Node(n) if last.number() < n.number() => Some(*n),
        _ => None,
    }
}

/// Whether the items are nodes behind the first one, each before the next in document order.
fn rise_behind(first: NodeId, items: &[Item<'_>]) -> bool
    ensures { result ≡ spec.rise_behind first items.now }
{
    let mut last = first;
    'items: for item in items {
        match node_behind(last, item) {
            Some(n) => last = n,
            None => return false,
        }
    }
    true
}

/// The number of an item that is a node.
fn number_of(item: &Item<'_>) -> Option<NodeId>
    ensures { result ≡ spec.number_of item.now }
{
    match item {
        Item::Node(n) => Some(*n),
        _ => None,
    }
}

/// Whether the items are nodes, each before the next in document order.
fn are_rising(items: &[Item<'_>]) -> bool
    ensures { result ≡ spec.rise items.now }
{
    let Some((first, others)) = items.split_first() else {
        return true;
    };
    match number_of(first) {
        Some(n) => rise_behind(n, others),
        None => false,
    }
}

/// The nodes among the items, as they stand.
pub(crate) fn nodes_among(alloc: Global, items: &[Item<'_>]) -> Result<Vec<NodeId>, AllocError>
    ensures { IfOk result (λ nodes. nodes.items ≡ numbers_among items.now) }
{
    let mut nodes = Vec::with_capacity(alloc, items.len())?;
    'items: for item in items {
        if let Item::Node(node) = item {
            nodes.push(*node)?;
        }
    }
    Ok(nodes)
}

/// The nodes as items.
fn items_of<'a>(alloc: Global, nodes: &[NodeId]) -> Result<Vec<Item<'a>>, AllocError>
    ensures { IfOk result (λ items. items.items ≡ node_items nodes.now) }
{
    let mut items = Vec::with_capacity(alloc, nodes.len())?;
    'nodes: for node in nodes {
        items.push(Item::Node(*node))?;
    }
    Ok(items)
}

/// The nodes as a value.
pub(crate) fn of_nodes<'a>(alloc: Global, nodes: &[NodeId]) -> Result<Seq<'a>, AllocError>
    ensures { IfOk result (λ items. items ≡ node_items nodes.now) }
{
    Ok(Seq::of_items(items_of(alloc, nodes)?))
}

/// The nodes in document order, each once, as a value.
pub(crate) fn ordered<'a>(
    alloc: Global,
    doc: &Doc<'_>,
    nodes: Vec<NodeId>,
) -> Result<Seq<'a>, AllocError>
    ensures { AreWithin (length doc.now.nodes) (node_items nodes.items)
        → IfOk result (λ items. items ≡ meaning.in_document_order (tree_nodes doc.now) (node_items nodes.items)) }
{
    documents_are_walkable(doc);
    of_nodes(alloc, &in_order(nodes))
}

/// The nodes among the items in document order, each once.
fn reordered<'a>(alloc: Global, doc: &Doc<'_>, items: &[Item<'_>]) -> Result<Seq<'a>, AllocError>
    ensures { AreWithin (length doc.now.nodes) items.now
        → IfOk result (λ found. found ≡ meaning.in_document_order (tree_nodes doc.now) items.now) }
{
    let nodes = nodes_among(alloc, items)?;
    ordered(alloc, doc, nodes)
}

/// The same of items that are handed over, which are given back as they are where they are in that order already.
pub(crate) fn put_in_order<'a>(
    alloc: Global,
    doc: &Doc<'_>,
    items: Seq<'a>,
) -> Result<Seq<'a>, AllocError>
    ensures { AreWithin (length doc.now.nodes) items.entry
        → IfOk result (λ found. found ≡ meaning.in_document_order (tree_nodes doc.now) items.entry) }
{
    documents_are_walkable(doc);
    rising_nodes_are_in_order();
    if are_rising(items.as_slice()) {
        return Ok(items);
    }
    let found = reordered(alloc, doc, items.as_slice());
    drop(items);
    found
}
