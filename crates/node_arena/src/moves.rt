//! Moves from node to node of a document.
ghost use Rattle.std.specs.Prelude.{◌≡◌, ◌+◌, ◌<◌, ◌≤◌, length, get_or, slice_index, None, IfSome, SomeIff};
ghost use Rattle.node_arena.specs.Moves.{Leads, tree_nodes, parent, first_child, next_sibling, last_inside, first_attribute, next_attribute, first_named};
ghost use Rattle.node_arena.specs.Moves.{next_named};

use crate::doc::{Doc, NodeId};
use crate::link::Link;
use crate::slot::parent_at;
use inv_base::{Kind, Steps};
use std::sync::ledger::Ledger;
use xml_events::NameId;

impl<'a> Doc<'a> {
    /// The element or the document that a node is right inside. Only the document has none.
    #[tactic(auto, using(crate::proofs::KeptLemmas::kept_length))]
    pub fn parent<L: Ledger>(&self, n: NodeId, steps: &mut Steps<L>) -> Option<NodeId>
        requires { n < length self.now.nodes }
        ensures node { result ≡ parent (tree_nodes self.now) n }
        ensures before { IfSome result (λ m. m < n) }
        ensures step { steps.new ≡ steps.old + 1 }
    {
        steps.tick();
        match parent_at(&self.nodes, n.number) {
            Some(number) => Some(NodeId { number }),
            None => None,
        }
    }

    /// The first element or text right inside a node.
    pub fn first_child<L: Ledger>(&self, n: NodeId, steps: &mut Steps<L>) -> Option<NodeId>
        requires { n < length self.now.nodes }
        ensures { Leads self.now n (first_child (tree_nodes self.now) n) result steps.old steps.new }
    {
        steps.tick();
        linked(&self.links.first_child, n)
    }

    /// The next element or text right inside the same node. An attribute has none.
    pub fn next_sibling<L: Ledger>(&self, n: NodeId, steps: &mut Steps<L>) -> Option<NodeId>
        requires { n < length self.now.nodes }
        ensures { Leads self.now n (next_sibling (tree_nodes self.now) n) result steps.old steps.new }
    {
        steps.tick();
        match self.kind(n) {
            Kind::Attribute => None,
            Kind::Document | Kind::Element | Kind::Text => linked(&self.links.next_beside, n),
        }
    }

    /// The last node inside a node at any depth, attributes too, or the node itself.
    #[tactic(auto, using(crate::proofs::KeptLemmas::kept_length))]
    pub fn last_inside<L: Ledger>(&self, n: NodeId, steps: &mut Steps<L>) -> NodeId
        requires { n < length self.now.nodes }
        ensures node { result ≡ last_inside (tree_nodes self.now) n }
        ensures within { (n ≤ result) × (result < length self.now.nodes) }
        ensures step { steps.new ≡ steps.old + 1 }
    {
        steps.tick();
        end_at(&self.ends, n)
    }

    /// The first attribute of an element.
    pub fn first_attribute<L: Ledger>(&self, n: NodeId, steps: &mut Steps<L>) -> Option<NodeId>
        requires { n < length self.now.nodes }
        ensures { Leads self.now n (first_attribute (tree_nodes self.now) n) result steps.old steps.new }
    {
        steps.tick();
        linked(&self.links.first_attribute, n)
    }

    /// The next attribute of an attribute's element.
    pub fn next_attribute<L: Ledger>(&self, n: NodeId, steps: &mut Steps<L>) -> Option<NodeId>
        requires { n < length self.now.nodes }
        ensures { Leads self.now n (next_attribute (tree_nodes self.now) n) result steps.old steps.new }
    {
        steps.tick();
        match self.kind(n) {
            Kind::Attribute => linked(&self.links.next_beside, n),
            Kind::Document | Kind::Element | Kind::Text => None,
        }
    }

    /// The first element or attribute of a name.
    pub fn first_named<L: Ledger>(&self, name: NameId, steps: &mut Steps<L>) -> Option<NodeId>
        requires { name < length self.now.names }
        ensures node { result ≡ first_named self.now.nodes name }
        ensures within { IfSome result (λ m. m < length self.now.nodes) }
        ensures step { steps.new ≡ steps.old + 1 }
    {
        steps.tick();
        first_of(&self.links.first_named, name)
    }

    /// The next element or attribute of a node's name.
    pub fn next_named<L: Ledger>(&self, n: NodeId, steps: &mut Steps<L>) -> Option<NodeId>
        requires { n < length self.now.nodes }
        ensures { Leads self.now n (next_named self.now.nodes n) result steps.old steps.new }
    {
        steps.tick();
        linked(&self.links.next_named, n)
    }
}

impl<'a> Doc<'a> {
    /// The next node in document order, where a node comes before its attributes and these before its
    /// children. A walk over all nodes goes by it from the document's own.
    #[tactic(auto, using(crate::proofs::KeptLemmas::kept_length))]
    pub fn next_node<L: Ledger>(&self, n: NodeId, steps: &mut Steps<L>) -> Option<NodeId>
        requires { n < length self.now.nodes }
        ensures node { SomeIff result (n + 1 < length self.now.nodes) (n + 1) }
        ensures step { steps.new ≡ steps.old + 1 }
    {
        steps.tick();
        let next = n.number as usize + 1;
        if next < self.nodes.len() {
            Some(NodeId {
                number: next as u32,
            })
        } else {
            None
        }
    }
}

/// The node that a node's link leads to.
fn linked(links: &[Link], n: NodeId) -> Option<NodeId>
    requires { n < length links.now }
    ensures { result ≡ get_or links.now n None }
{
    match links[n.number as usize].get() {
        Some(number) => Some(NodeId { number }),
        None => None,
    }
}

/// The node that is kept as the last inside a node.
fn end_at(ends: &[u32], n: NodeId) -> NodeId
    requires { n < length ends.now }
    ensures { result ≡ slice_index ends.now n }
{
    NodeId {
        number: ends[n.number as usize],
    }
}

/// The first node of a name's chain.
fn first_of(links: &[Link], name: NameId) -> Option<NodeId>
    requires { name < length links.now }
    ensures { result ≡ get_or links.now name None }
{
    match links[name.number() as usize].get() {
        Some(number) => Some(NodeId { number }),
        None => None,
    }
}
