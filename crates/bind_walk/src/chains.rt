//! How the moves lead through the children and the attributes of a node.

ghost use Rattle.bind_walk.specs.Chains.{IsChained};

use node_arena::Doc;

/// The moves to the first child and the next lead through all children of a node and no others, in document order, and those
/// to its attributes through these. It has no code.
pub fn chains_lead_on(doc: &Doc<'_>)
    ensures { IsChained doc.now }
{
    doc.is_of_a_tree();
}
