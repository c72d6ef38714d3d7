//! Names of a table as a document has them.

ghost use Rattle.std.specs.Prelude.{◌≡◌, ◌<◌, length, IfOk};
ghost use Rattle.node_arena.specs.Document.{node_at};
ghost use Rattle.node_arena.specs.Moves.{has_found};
ghost use Rattle.bind_walk.specs.Found as spec;

use bind_rows::{ElementName, Leaf, uri_of};
use node_arena::{Doc, NodeId};
use std::alloc::{AllocError, Global};
use xml_events::NameId;

/// Where a path ends: at its last element, or at an attribute of it, whose name has this number in the document, if any.
#[derive(Clone, Copy)]
pub enum FoundLeaf {
    Element,
    Attribute(Option<u32>),
}

/// The number that an element's name has in the document, if the document has the name.
pub fn element_number(
    alloc: Global,
    doc: &Doc<'_>,
    name: &ElementName,
) -> Result<Option<u32>, AllocError>
    ensures { IfOk result (λ number. number ≡ spec.found_element doc.now name.now) }
{
    let found = doc
        .names()
        .find(alloc, uri_of(name.namespace), name.local.as_str())?;
    Ok(number_of(found))
}

/// A path's end as the document has it.
pub fn leaf_number(alloc: Global, doc: &Doc<'_>, leaf: &Leaf) -> Result<FoundLeaf, AllocError>
    ensures { IfOk result (λ found. found ≡ spec.found_leaf doc.now leaf.now) }
{
    match leaf {
        Leaf::Element => Ok(FoundLeaf::Element),
        Leaf::Attribute(local) => {
            let found = doc.names().find(alloc, "", local.as_str())?;
            Ok(FoundLeaf::Attribute(number_of(found)))
        }
    }
}

fn number_of(found: Option<NameId>) -> Option<u32>
    ensures { result ≡ found }
{
    match found {
        Some(name) => Some(name.number()),
        None => None,
    }
}

/// Whether a node has the name of that number.
pub fn has_name(doc: &Doc<'_>, n: NodeId, name: Option<u32>) -> bool
    requires { n < length doc.now.nodes }
    ensures { result ≡ has_found name (node_at doc.now.nodes n) }
{
    match name {
        None => false,
        Some(name) => is_name(number_of(doc.name(n)), name),
    }
}

fn is_name(found: Option<u32>, name: u32) -> bool
    ensures { result ≡ spec.is_number name found }
{
    match found {
        None => false,
        Some(other) => other == name,
    }
}

/// Whether the name that was found, if any, has the number.
pub(crate) fn is_number(found: Option<u32>, name: u32) -> bool
    ensures { result ≡ spec.is_same_number found name }
{
    match found {
        Some(own) => name == own,
        None => false,
    }
}
