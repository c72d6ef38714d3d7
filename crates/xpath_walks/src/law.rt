ghost use Rattle.xpath_walks.specs.Walks.{IsWalked};

use node_arena::{Doc, insides_are_intervals, moves_lead_on};

/// What a walk over a document rests on. It has no code.
pub fn documents_are_walkable(doc: &Doc<'_>)
    ensures { IsWalked doc.now }
{
    doc.is_of_a_tree();
    moves_lead_on();
    insides_are_intervals();
}
