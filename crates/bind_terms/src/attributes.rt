//! Attributes of an element by their name.
ghost use Rattle.std.specs.Prelude.{◌≡◌, ◌<◌, [], ◌∷◌, ◌++◌, length, chars, All, IfOk, OnOk, if◌then◌else◌};
ghost use Rattle.node_arena.specs.Moves.{tree_nodes, tree_node};
ghost use Rattle.bind_meaning.specs.Elements as spec;
ghost use Rattle.bind_meaning.specs.Names.{has_plain_name};

use inv_base::{Steps, is_same_text};
use node_arena::{Doc, NodeId};
use std::alloc::{AllocError, Global};
use std::sync::ledger::Ledger;

/// The attributes of an element that have the local name and no namespace: one at most. It goes over the attributes.
pub(crate) fn attributes_named<L: Ledger>(
    alloc: Global,
    doc: &Doc<'_>,
    local: &str,
    n: NodeId,
    steps: &mut Steps<L>,
) -> Result<Vec<NodeId>, AllocError>
    requires { n < length doc.now.nodes }
    ensures nodes { IfOk result (λ found. found.items ≡ spec.attributes_named (tree_nodes doc.now) (chars local.now) n) }
    ensures within { IfOk result (λ found. All (λ m. m < length doc.now.nodes) found.items) }
{
    doc.is_of_a_tree();
    let mut found = Vec::new(alloc);
    let mut at = doc.first_attribute(n, steps);
    'attributes: while let Some(m) = at {
        keep_named(doc, local, m, &mut found)?;
        at = doc.next_attribute(m, steps);
    }
    Ok(found)
}

// Puts the node behind the others if it has the name.
fn keep_named(
    doc: &Doc<'_>,
    local: &str,
    n: NodeId,
    found: &mut Vec<NodeId>,
) -> Result<(), AllocError>
    requires { n < length doc.now.nodes }
    ensures { OnOk result (found.new.items ≡ found.old.items ++ (if has_plain_name (chars local.now) (tree_node (tree_nodes doc.now) n) then n ∷ [] else [])) }
{
    if has_plain_name(doc, local, n) {
        found.push(n)?;
    }
    Ok(())
}

// Whether the node has the local name, in no namespace.
fn has_plain_name(doc: &Doc<'_>, local: &str, n: NodeId) -> bool
    requires { n < length doc.now.nodes }
    ensures { result ≡ has_plain_name (chars local.now) (tree_node (tree_nodes doc.now) n) }
{
    match doc.name(n) {
        Some(name) => {
            is_same_text(local, doc.names().local(name)) && is_same_text("", doc.names().uri(name))
        }
        None => false,
    }
}
