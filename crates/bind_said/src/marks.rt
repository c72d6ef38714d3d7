//! One mark for each node of a document.

ghost use Rattle.std.specs.Prelude.{◌≡◌, [], ◌∷◌, false, length, replicate, IfOk};
ghost use Rattle.bind_said.specs.Marks as spec;

use inv_base::Steps;
use node_arena::{Doc, NodeId, moves_lead_on};
use std::alloc::{AllocError, Global};
use std::sync::ledger::Ledger;

/// No node is marked.
pub(crate) fn no_marks<L: Ledger>(
    alloc: Global,
    doc: &Doc<'_>,
    steps: &mut Steps<L>,
) -> Result<Vec<bool>, AllocError>
    ensures { IfOk result (λ marks. marks.items ≡ replicate (length doc.now.nodes) false) }
{
    let count = count_nodes(doc, steps);
    let marks = vec![in alloc; false; count]?;
    Ok(marks)
}

fn count_nodes<L: Ledger>(doc: &Doc<'_>, steps: &mut Steps<L>) -> usize
    ensures { result ≡ length doc.now.nodes }
{
    doc.is_of_a_tree();
    moves_lead_on();
    let last = doc.last_inside(doc.document(), steps);
    last.number() as usize + 1
}

/// Marks a node.
pub(crate) fn mark(marks: &mut Vec<bool>, n: NodeId)
    ensures { marks.new.items ≡ spec.mark_all marks.old.items (n ∷ []) }
{
    let place = n.number() as usize;
    if place < marks.len() {
        marks[place] = true;
    }
}
