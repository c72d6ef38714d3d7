//! What is known of every document. The calls do nothing: what they ensure is the law.

ghost use Rattle.node_arena.specs.Moves.{tree_nodes};
ghost use Rattle.bind_seats.specs.Nodes.{Sound};

use node_arena::{Doc, insides_are_intervals, moves_lead_on};

/// The nodes of a document are those of a tree.
pub(crate) fn nodes_are_sound(doc: &Doc<'_>)
    ensures { Sound (tree_nodes doc.now) }
{
    doc.is_of_a_tree();
    moves_lead_on();
    insides_are_intervals();
}
