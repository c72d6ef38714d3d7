//! The names of nodes (Functions and Operators, sections 14.2 and 14.3).
ghost use Rattle.std.specs.Prelude.{◌≡◌, ◌<◌, ◌∷◌, [], length, IfOk};
ghost use Rattle.node_arena.specs.Moves.{tree_nodes, tree_node};
ghost use Rattle.xpath_items.specs.Faults.{Gives};
ghost use Rattle.xpath_meaning.specs.Functions as meaning;
ghost use Rattle.xpath_operators.specs.Nodes.{IsWithin, AreWithin};

use crate::arguments::empty_text;
use node_arena::{Doc, NodeId};
use std::alloc::{AllocError, Global};
use xpath_items::{DynError, Fault, Item, Seq, Str};
use xpath_operators::one;

/// The local name of a node, empty where it has no name.
fn local_name_of<'a>(alloc: Global, doc: &Doc<'a>, node: NodeId) -> Result<Str<'a>, AllocError>
    requires { node < length doc.now.nodes }
    ensures { IfOk result (λ text. text ≡ meaning.local_part (tree_node (tree_nodes doc.now) node).name) }
{
    match doc.name(node) {
        Some(name) => Ok(Str::made(String::from_str(alloc, doc.names().local(name))?)),
        None => Ok(empty_text()),
    }
}

/// The namespace name of a node, empty where it has none or no name.
fn namespace_uri_of<'a>(alloc: Global, doc: &Doc<'a>, node: NodeId) -> Result<Str<'a>, AllocError>
    requires { node < length doc.now.nodes }
    ensures { IfOk result (λ text. text ≡ meaning.uri_part (tree_node (tree_nodes doc.now) node).name) }
{
    match doc.name(node) {
        Some(name) => Ok(Str::made(String::from_str(alloc, doc.names().uri(name))?)),
        None => Ok(empty_text()),
    }
}

/// `local-name` of an item.
pub(crate) fn local_name_at<'a>(
    alloc: Global,
    doc: &Doc<'a>,
    item: &Item<'a>,
) -> Result<Seq<'a>, Fault>
    requires { IsWithin (length doc.now.nodes) item.now }
    ensures { Gives result (meaning.name_part (tree_nodes doc.now) meaning.local_part (item.now ∷ [])) }
{
    match item {
        Item::Node(node) => one(alloc, Item::String(local_name_of(alloc, doc, *node)?)),
        _ => Err(Fault::Error(DynError::XPTY0004)),
    }
}

/// `local-name`
pub(crate) fn local_name<'a>(alloc: Global, doc: &Doc<'a>, x: &[Item<'a>]) -> Result<Seq<'a>, Fault>
    requires { AreWithin (length doc.now.nodes) x.now }
    ensures { Gives result (meaning.name_part (tree_nodes doc.now) meaning.local_part x.now) }
{
    match x {
        [] => one(alloc, Item::String(empty_text())),
        [item] => local_name_at(alloc, doc, item),
        _ => Err(Fault::Error(DynError::XPTY0004)),
    }
}

/// `namespace-uri` of an item.
pub(crate) fn namespace_uri_at<'a>(
    alloc: Global,
    doc: &Doc<'a>,
    item: &Item<'a>,
) -> Result<Seq<'a>, Fault>
    requires { IsWithin (length doc.now.nodes) item.now }
    ensures { Gives result (meaning.name_part (tree_nodes doc.now) meaning.uri_part (item.now ∷ [])) }
{
    match item {
        Item::Node(node) => one(alloc, Item::String(namespace_uri_of(alloc, doc, *node)?)),
        _ => Err(Fault::Error(DynError::XPTY0004)),
    }
}

/// `namespace-uri`
pub(crate) fn namespace_uri<'a>(
    alloc: Global,
    doc: &Doc<'a>,
    x: &[Item<'a>],
) -> Result<Seq<'a>, Fault>
    requires { AreWithin (length doc.now.nodes) x.now }
    ensures { Gives result (meaning.name_part (tree_nodes doc.now) meaning.uri_part x.now) }
{
    match x {
        [] => one(alloc, Item::String(empty_text())),
        [item] => namespace_uri_at(alloc, doc, item),
        _ => Err(Fault::Error(DynError::XPTY0004)),
    }
}
