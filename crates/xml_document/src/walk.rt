//! A walk over all nodes of a document, in document order.
ghost use Rattle.std.specs.Prelude.{◌≡◌, true};
ghost use Rattle.std.proofs.Common.{◌⊎◌};
ghost use Rattle.node_arena.specs.Moves.{tree_nodes, tree_node, is_inside};
ghost use Rattle.xml_document.specs.Walking.{IsWalkable, StandsIn, GoesOn};

use inv_base::Steps;
use node_arena::{Doc, NodeId, moves_lead_on};
use std::sync::ledger::Ledger;

/// Where a walk stands: a node, and how many nodes it is inside.
#[derive(Clone, Copy)]
pub struct Walk {
    /// The node where it stands.
    pub node: NodeId,
    /// How many nodes that one is inside: 0 of the document's own, 1 of the root element.
    pub level: usize,
}

impl Walk {
    /// A walk at the document's own node.
    pub fn begin(doc: &Doc<'_>) -> Walk
        ensures node { result.node ≡ 0 }
        ensures stands { StandsIn doc.now result }
    {
        is_walkable(doc);
        Walk {
            node: doc.document(),
            level: 0,
        }
    }

    /// The walk at the next node in document order, none behind the last. From node to node it takes a
    /// step for each level that it leaves, and two more.
    pub fn next<L: Ledger>(&self, doc: &Doc<'_>, steps: &mut Steps<L>) -> Option<Walk>
        requires { StandsIn doc.now self.now }
        ensures { GoesOn doc.now self.now result }
    {
        is_walkable(doc);
        let node = match doc.next_node(self.node, steps) {
            Some(node) => node,
            None => return None,
        };
        match doc.parent(node, steps) {
            Some(around) => Some(Walk {
                node,
                level: climb(doc, self, around, steps).level + 1,
            }),
            // Only the document's own node is inside none, and it is the next of none.
            None => None,
        }
    }
}

/// The walk at a node that is the one where it stands, or around it.
fn climb<L: Ledger>(doc: &Doc<'_>, at: &Walk, to: NodeId, steps: &mut Steps<L>) -> Walk
    requires stands { StandsIn doc.now at.now }
    requires around { (to ≡ at.now.node) ⊎ (is_inside to (tree_node (tree_nodes doc.now) at.now.node) ≡ true) }
    ensures node { result.node ≡ to }
    ensures stands { StandsIn doc.now result }
{
    is_walkable(doc);
    let mut inner = *at;
    'around: while inner.node != to {
        match doc.parent(inner.node, steps) {
            Some(node) => {
                inner = Walk {
                    node,
                    level: inner.level - 1,
                };
            }
            None => return inner,
        }
    }
    inner
}

/// What holds of every document: laws of node_arena, which have no code, in one.
fn is_walkable(doc: &Doc<'_>)
    ensures { IsWalkable doc.now }
{
    doc.is_of_a_tree();
    moves_lead_on();
}
