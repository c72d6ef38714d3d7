//! What nodes stand in.
ghost use Rattle.std.specs.Prelude.{◌≡◌, ◌<◌, ◌∷◌, [], length};
ghost use Rattle.node_arena.specs.Moves.{tree_nodes, tree_node};
ghost use Rattle.schematron_meaning.specs.Entries as spec;

use inv_base::Steps;
use node_arena::{Doc, NodeId};
use schematron_meaning::{Around, Role};
use std::sync::ledger::Ledger;

/// The document's own node is in none.
const OUTERMOST: Around = Around {
    role: Role::Passed,
    number: 0,
};

/// What a node stands in, where it is known what those before it are.
pub(crate) fn around_node<L: Ledger>(
    doc: &Doc<'_>,
    seen: &[Around],
    n: NodeId,
    steps: &mut Steps<L>,
) -> Around
    requires { n < length doc.now.nodes }
    ensures { result ≡ spec.nearest_of seen.now (tree_node (tree_nodes doc.now) n).above }
{
    match doc.parent(n, steps) {
        Some(parent) => around_at(seen, parent.number() as usize),
        None => OUTERMOST,
    }
}

fn around_at(seen: &[Around], n: usize) -> Around
    ensures { result ≡ spec.nearest_of seen.now (n ∷ []) }
{
    if n < seen.len() { seen[n] } else { OUTERMOST }
}

/// What the node is to those that stand in it.
pub(crate) fn around_by(role: Role, number: u32, parent: u32) -> Around
    ensures { result ≡ spec.around_by role number parent }
{
    match role {
        Role::Wording => Around {
            role,
            number: parent,
        },
        _ => Around { role, number },
    }
}
