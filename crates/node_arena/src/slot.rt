ghost use Rattle.std.specs.Prelude.{◌≡◌, ◌<◌, length, IfSome};
ghost use Rattle.node_arena.specs.Document.{node_at};
ghost use Rattle.node_arena.specs.Keys.{is_attribute_kind};
ghost use Rattle.node_arena.specs.Moves.{nearest};
ghost use Rattle.node_arena.specs.Slots.{kept, around, AreBelow};

use inv_base::{Kind, Place};
use xml_events::NameId;

/// A node as it is kept, with the number of the node around it. The document is inside none.
#[derive(Drop)]
pub(crate) struct Slot<'a> {
    pub(crate) kind: Kind,
    pub(crate) name: Option<NameId>,
    pub(crate) parent: u32,
    pub(crate) text: &'a str,
    pub(crate) place: Place,
}

/// The number of the node around a node.
pub(crate) fn parent_at(nodes: &[Slot<'_>], n: u32) -> Option<u32>
    requires within { n < length nodes.now }
    requires below { AreBelow 0 nodes.now }
    ensures parent { result ≡ nearest (node_at (kept nodes.now) n).above }
    ensures around { (node_at (kept nodes.now) n).above ≡ around (kept nodes.now) result }
    ensures before { IfSome result (λ p. p < n) }
{
    let node = &nodes[n as usize];
    match node.kind {
        Kind::Document => None,
        Kind::Element | Kind::Attribute | Kind::Text => Some(node.parent),
    }
}

/// The node is an attribute.
pub(crate) fn is_attribute(nodes: &[Slot<'_>], n: usize) -> bool
    requires { n < length nodes.now }
    ensures { result ≡ is_attribute_kind (node_at (kept nodes.now) n).kind }
{
    let node = &nodes[n];
    match node.kind {
        Kind::Attribute => true,
        Kind::Document | Kind::Element | Kind::Text => false,
    }
}

/// The number of the name of an element or an attribute.
pub(crate) fn name_number(nodes: &[Slot<'_>], n: usize) -> Option<u32>
    requires { n < length nodes.now }
    ensures { result ≡ (node_at (kept nodes.now) n).name }
{
    let node = &nodes[n];
    match node.name {
        Some(name) => Some(name.number()),
        None => None,
    }
}
