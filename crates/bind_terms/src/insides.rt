//! Elements inside a node.
ghost use Rattle.std.specs.Prelude.{◌≡◌, ◌<◌, length};
ghost use Rattle.node_arena.specs.Moves.{tree_nodes, is_inside};
ghost use Rattle.bind_meaning.specs.Elements as spec;

use bind_meaning::is_element;
use inv_base::Steps;
use node_arena::{Doc, NodeId, insides_are_intervals};
use std::sync::ledger::Ledger;

/// Whether an element stands inside the node, at any depth. It goes over what is inside up to the first one.
pub fn has_element_inside<L: Ledger>(doc: &Doc<'_>, n: NodeId, steps: &mut Steps<L>) -> bool
    requires { n < length doc.now.nodes }
    ensures { result ≡ spec.has_element_inside (tree_nodes doc.now) n }
{
    insides_are_intervals();
    doc.is_of_a_tree();
    let last = doc.last_inside(n, steps);
    let mut at = n;
    'inside: while at.number() < last.number() {
        match doc.next_node(at, steps) {
            Some(next) => {
                if is_element(doc.kind(next)) {
                    return true;
                }
                at = next;
            }
            None => return false,
        }
    }
    false
}
