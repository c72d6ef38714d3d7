ghost use Rattle.std.specs.Prelude.{◌≡◌, ℕ, ◌^◌, ◌<◌, length, take, chars, IfSome, IfOk};
ghost use Rattle.node_arena.specs.Document.{node_at, IsNumbered, AreNumbered, AreNamed};
ghost use Rattle.node_arena.specs.Linked.{AreEnds};
ghost use Rattle.node_arena.specs.Moves.{IsOfATree};
ghost use Rattle.node_arena.specs.Slots.{placed, kept, AreBelow};
ghost use Rattle.xml_events.specs.Names.{AreDistinct};

use crate::chains::Links;
use crate::slot::Slot;
use inv_base::{Kind, Place};
use std::alloc::{AllocError, Global};
use std::marker::Model;
use xml_events::{NameId, NameTable};

/// The number of a node in its document: how many nodes stand before it in document order.
#[derive(Clone, Copy, PartialEq, Eq, Hash, PartialOrd, Ord)]
pub struct NodeId {
    pub(crate) number: u32,
}

impl Model for NodeId {
    ghost Value = { ℕ };

    ghost view = { λ id. id.number };

    ghost inverse = { λ n. record { number = n } };
}

impl NodeId {
    /// The number itself.
    pub fn number(self) -> u32
        ensures { result ≡ self }
    {
        self.number
    }
}

/// A document: its nodes in document order, which is a node before its attributes and these before its
/// children. The document is node 0. Texts are lent from the arena that the builder was given.
///
/// A move answers None exactly where the tree has no such node, and takes one step.
pub struct Doc<'a> {
    pub(crate) nodes: Vec<Slot<'a>>,
    pub(crate) ends: Vec<u32>,
    pub(crate) links: Links,
    pub(crate) names: NameTable,
}

impl Drop for Doc<'_> {
    fn drop(self) {
        let Doc {
            nodes,
            ends,
            links,
            names,
        } = self;
        drop(nodes);
        drop(ends);
        drop(links);
        drop(names);
    }
}

impl<'a> Model for Doc<'a> {
    ghost use Rattle.node_arena.specs.Document.{Document};

    ghost Value = { Document };

    ghost use Rattle.node_arena.specs.Slots.{kept};
    ghost use Rattle.node_arena.specs.Linked.{IsLinked};

    ghost view = { λ doc. record { nodes = kept doc.nodes.items; names = doc.names } };

    ghost invariant = { λ doc. IsLinked doc.nodes.items doc.ends.items doc.links doc.names };
}

impl<'a> Doc<'a> {
    pub(crate) fn new(
        alloc: Global,
        nodes: Vec<Slot<'a>>,
        ends: Vec<u32>,
        names: NameTable,
    ) -> Result<Doc<'a>, AllocError>
        requires numbered { IsNumbered (kept nodes.items) names }
        requires of_a_tree { IsOfATree (record { nodes = kept nodes.items; names = names }) }
        requires below { AreBelow 0 nodes.items }
        requires ends { AreEnds nodes.items ends.items }
        requires long { length ends.items ≡ length nodes.items }
        ensures { IfOk result (λ doc. doc ≡ record { nodes = kept nodes.entry.items; names = names }) }
    {
        let links = Links::of(alloc, &nodes, names.len())?;
        Ok(Doc {
            nodes,
            ends,
            links,
            names,
        })
    }

    /// What callers may know of every document, however it came about. It has no code.
    pub fn is_of_a_tree(&self)
        ensures tree { IsOfATree self.now }
        ensures rooted { 1 < length self.now.nodes }
        ensures few { length self.now.nodes < 2 ^ 32 }
        ensures numbers { AreNumbered 0 self.now.nodes }
        ensures named { AreNamed (length self.now.names) self.now.nodes }
        ensures distinct { AreDistinct self.now.names }
    {
        self.names.names_differ();
    }

    /// The document's own node, which is around the root element.
    pub fn document(&self) -> NodeId
        ensures number { result ≡ 0 }
        ensures within { result < length self.now.nodes }
    {
        let _ = &self.nodes;
        NodeId { number: 0 }
    }

    /// The root element, which is the node behind the document's.
    pub fn root(&self) -> NodeId
        ensures number { result ≡ 1 }
        ensures within { result < length self.now.nodes }
    {
        let _ = &self.nodes;
        NodeId { number: 1 }
    }

    /// What a node is.
    #[tactic(auto, using(crate::proofs::KeptLemmas::kept_length))]
    pub fn kind(&self, n: NodeId) -> Kind
        requires { n < length self.now.nodes }
        ensures { result ≡ (node_at self.now.nodes n).kind }
    {
        slot_at(&self.nodes, n).kind
    }

    /// The name of an element or an attribute.
    #[tactic(auto, using(crate::proofs::KeptLemmas::kept_length))]
    pub fn name(&self, n: NodeId) -> Option<NameId>
        requires { n < length self.now.nodes }
        ensures value { result ≡ (node_at self.now.nodes n).name }
        ensures within { IfSome result (λ name. name < length self.now.names) }
    {
        slot_at(&self.nodes, n).name
    }

    /// The characters of a text or the value of an attribute, else nothing.
    #[tactic(auto, using(crate::proofs::KeptLemmas::kept_length))]
    pub fn text(&self, n: NodeId) -> &'a str
        requires { n < length self.now.nodes }
        ensures { chars result.now ≡ (node_at self.now.nodes n).text }
    {
        slot_at(&self.nodes, n).text
    }

    /// Where an element's tag begins, or a text; an attribute has its element's place, and the document 0.
    #[tactic(auto, using(crate::proofs::KeptLemmas::kept_length))]
    pub fn place(&self, n: NodeId) -> Place
        requires { n < length self.now.nodes }
        ensures { result.byte ≡ (node_at self.now.nodes n).place }
    {
        slot_at(&self.nodes, n).place
    }

    /// The names of elements and attributes in first-seen order.
    pub fn names(&self) -> &NameTable
        ensures { result.now ≡ self.now.names }
    {
        &self.names
    }
}

/// The node of that number, as it is kept.
fn slot_at<'s, 'a>(nodes: &'s [Slot<'a>], n: NodeId) -> &'s Slot<'a>
    requires { n < length nodes.now }
    ensures { placed (take n (kept nodes.now)) result.now ≡ node_at (kept nodes.now) n }
{
    &nodes[n.number as usize]
}
