//! The string of a node: its own text, and the texts inside it.
ghost use Rattle.std.specs.Prelude.{◌≡◌, ◌+◌, ◌-◌, ◌<◌, ◌≤◌, [], ◌∷◌, ◌++◌, length, take, drop, chars, IfOk, OnOk, MatchResult};
ghost use Rattle.inv_base.specs.Tree.{string_of};
ghost use Rattle.node_arena.specs.Moves.{tree_nodes, tree_node, last_inside};
ghost use Rattle.node_arena.specs.Strings.{texts_of};

use crate::doc::{Doc, NodeId};
use crate::slot::Slot;
use inv_base::{Kind, Steps, Str};
use std::alloc::{AllocError, Global};
use std::sync::ledger::Ledger;

impl<'a> Doc<'a> {
    /// The string of a node, as XPath and the bindings read it: its own text and then all texts inside it, in
    /// document order. It is lent from the arena where one text alone has it. It takes a step for each node
    /// inside, and one to find the last.
    pub fn string<L: Ledger>(
        &self,
        alloc: Global,
        n: NodeId,
        steps: &mut Steps<L>,
    ) -> Result<Str<'a>, AllocError>
        requires { n < length self.now.nodes }
        ensures string { IfOk result (λ string. string ≡ string_of (tree_nodes self.now) (tree_node (tree_nodes self.now) n)) }
        ensures steps { OnOk result (steps.new + n ≡ steps.old + 1 + last_inside (tree_nodes self.now) n) }
    {
        let last = self.last_inside(n, steps);
        let (front, _) = self.nodes.split_at(last.number as usize + 1);
        let (_, inside) = front.split_at(n.number as usize + 1);
        join_texts(alloc, self.text(n), inside, steps)
    }
}

/// A text, and those of the nodes behind it.
fn join_texts<'a, L: Ledger>(
    alloc: Global,
    first: &'a str,
    nodes: &[Slot<'a>],
    steps: &mut Steps<L>,
) -> Result<Str<'a>, AllocError>
    ensures string { IfOk result (λ string. string ≡ chars first.entry.now ++ texts_of nodes.now) }
    ensures steps { OnOk result (steps.new ≡ steps.old + length nodes.now) }
{
    let mut string = Str::lent(first);
    'nodes: for node in nodes {
        steps.tick();
        match node.kind {
            Kind::Text => string = string.followed_by(alloc, node.text)?,
            Kind::Document | Kind::Element | Kind::Attribute => {}
        }
    }
    Ok(string)
}
