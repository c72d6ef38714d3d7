//! The order of entries, as laws for every list of nodes. They have no code.
ghost use Rattle.std.specs.Prelude.{List, length};
ghost use Rattle.inv_base.specs.Tree.{Node};
ghost use Rattle.node_arena.specs.Moves.{tree_nodes};
ghost use Rattle.schematron_meaning.specs.Entries.{entries};
ghost use Rattle.schematron_entries.specs.Order.{AreInOrder, NumbersRise, NumbersAreBelow, ItemsStandBehind, RulesFollow};

use node_arena::{Doc, insides_are_intervals, moves_lead_on};

/// The nodes of every document are in order, which the laws below ask of nodes.
pub fn nodes_are_in_order(doc: &Doc<'_>)
    ensures { AreInOrder (tree_nodes doc.now) }
{
    doc.is_of_a_tree();
    moves_lead_on();
    insides_are_intervals();
}

/// The numbers of entries rise along the list, so no two have one number.
pub fn numbers_rise()
    ensures { (nodes : List Node) → AreInOrder nodes → NumbersRise (entries nodes) }
{}

/// An entry's number is that of a node.
pub fn numbers_are_of_nodes()
    ensures { (nodes : List Node) → AreInOrder nodes → NumbersAreBelow (length nodes) (entries nodes) }
{}

/// A let, an assertion or an `extends` has a greater number than the element that it stands in.
pub fn items_stand_behind()
    ensures { (nodes : List Node) → AreInOrder nodes → ItemsStandBehind (entries nodes) }
{}

/// The items of an abstract rule stand before those of the next one.
pub fn rules_follow()
    ensures { (nodes : List Node) → AreInOrder nodes → RulesFollow (entries nodes) }
{}
