//! Atomising (XPath 2.0, section 2.4.2).
ghost use Rattle.std.specs.Prelude.{◌≡◌, ◌<◌, length, map, IfOk};
ghost use Rattle.node_arena.specs.Moves.{tree_nodes};
ghost use Rattle.xpath_meaning.specs.Items as spec;
ghost use Rattle.xpath_operators.specs.Nodes.{IsWithin, AreWithin};

use crate::strings::string_at;
use node_arena::Doc;
use std::alloc::{AllocError, Global};
use xpath_items::{Item, Seq};

/// The atomic value of an item: of a node its string, of no type.
pub fn atom<'a>(alloc: Global, doc: &Doc<'a>, item: &Item<'a>) -> Result<Item<'a>, AllocError>
    requires { IsWithin (length doc.now.nodes) item.now }
    ensures { IfOk result (λ atom. atom ≡ spec.atom (tree_nodes doc.now) item.now) }
{
    match item {
        Item::Node(node) => Ok(Item::Untyped(string_at(alloc, doc, *node)?)),
        _ => item.copied(alloc),
    }
}

/// The atomic values of items.
pub fn atoms<'a>(
    alloc: Global,
    doc: &Doc<'a>,
    items: &[Item<'a>],
) -> Result<Vec<Item<'a>>, AllocError>
    requires { AreWithin (length doc.now.nodes) items.now }
    ensures atoms { IfOk result (λ atoms. atoms.items ≡ spec.atomised (tree_nodes doc.now) items.now) }
    ensures within { IfOk result (λ atoms. AreWithin (length doc.now.nodes) atoms.items) }
{
    let mut atoms = Vec::with_capacity(alloc, items.len())?;
    'items: for item in items {
        atoms.push(atom(alloc, doc, item)?)?;
    }
    Ok(atoms)
}

/// The items with each node's string in place of the node. A text's or an attribute's string is lent from the document, and
/// so is an element's where one text alone has it.
pub fn atomise<'a>(alloc: Global, doc: &Doc<'a>, s: &Seq<'a>) -> Result<Seq<'a>, AllocError>
    requires { AreWithin (length doc.now.nodes) s.now }
    ensures atoms { IfOk result (λ atoms. atoms ≡ spec.atomised (tree_nodes doc.now) s.now) }
    ensures within { IfOk result (λ atoms. AreWithin (length doc.now.nodes) atoms) }
{
    Ok(Seq::of_items(atoms(alloc, doc, s.as_slice())?))
}
