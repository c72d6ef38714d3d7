//! Children by an expanded name.
ghost use Rattle.std.specs.Prelude.{◌≡◌, ◌<◌, ◌++◌, List, length, get_or, Some, None, OnOk};
ghost use Rattle.inv_base.specs.Tree.{Name};
ghost use Rattle.node_arena.specs.Moves.{tree_nodes, tree_node};
ghost use Rattle.xpath_plan.specs.Plans.{test_seen};
ghost use Rattle.xpath_walks.specs.Order.{node_items};
ghost use Rattle.xpath_walks.specs.Tests.{numbers_of, is_passed};
ghost use Rattle.xpath_walks.specs.Walks.{Adds, axis_numbers, found_on, if_so};

use crate::law::documents_are_walkable;
use crate::step::Step;
use crate::test::{is_numbered, number_at};
use inv_base::Steps;
use node_arena::{Doc, NodeId, names_are_found_by_number};
use std::alloc::AllocError;
use std::sync::ledger::Ledger;
use xml_events::NameId;
use xpath_grammar::step::Axis;
use xpath_items::Item;
use xpath_plan::plan_node::StepTest;

/// Puts the children of the node that have the plan's k-th name, which the step wants, behind the others. Where the
/// document doesn't have the name, no child is looked at.
pub(crate) fn named_children<L: Ledger>(
    doc: &Doc<'_>,
    step: &Step<'_>,
    k: usize,
    from: NodeId,
    out: &mut Vec<NodeId>,
    steps: &mut Steps<L>,
) -> Result<(), AllocError>
    requires named { step.now.test.now ≡ StepTest.Named k }
    requires within { from < length doc.now.nodes }
    ensures { Adds doc.now step.now result out.old.items out.new.items (found_on Axis.Child step.now.axis (tree_nodes doc.now) from) }
{
    documents_are_walkable(doc);
    doc.is_of_a_tree();
    names_are_found_by_number();
    match number_at(step.numbers, k) {
        Some(number) => numbered_children(doc, step, k, number, from, out, steps),
        None => Ok(()),
    }
}

/// The same by the number that the name has in the document.
fn numbered_children<L: Ledger>(
    doc: &Doc<'_>,
    step: &Step<'_>,
    k: usize,
    number: NameId,
    from: NodeId,
    out: &mut Vec<NodeId>,
    steps: &mut Steps<L>,
) -> Result<(), AllocError>
    requires named { step.now.test.now ≡ StepTest.Named k }
    requires number { Some number ≡ get_or step.now.numbers.now k None }
    requires within { from < length doc.now.nodes }
    ensures { Adds doc.now step.now result out.old.items out.new.items (found_on Axis.Child step.now.axis (tree_nodes doc.now) from) }
{
    documents_are_walkable(doc);
    let mut next = doc.first_child(from, steps);
    'children: while let Some(n) = next {
        take_numbered(doc, step, k, number, n, out)?;
        next = doc.next_sibling(n, steps);
    }
    Ok(())
}

/// Puts the node behind the others if its name has the number and a name means such nodes on the step's axis.
fn take_numbered(
    doc: &Doc<'_>,
    step: &Step<'_>,
    k: usize,
    number: NameId,
    n: NodeId,
    out: &mut Vec<NodeId>,
) -> Result<(), AllocError>
    requires named { step.now.test.now ≡ StepTest.Named k }
    requires number { Some number ≡ get_or step.now.numbers.now k None }
    requires within { n < length doc.now.nodes }
    ensures { Adds doc.now step.now result out.old.items out.new.items
        (λ test. if_so (is_passed step.now.axis test (tree_node (tree_nodes doc.now) n)) n) }
{
    if is_numbered(doc, step.numbers, step.axis, k, number, n) {
        out.push(n)?;
    }
    Ok(())
}

/// Puts the children of the node that have the plan's k-th name behind the others, as items, in document order. Where the
/// document doesn't have the name, no child is looked at; else each move to a child takes a step.
pub fn child_items<L: Ledger>(
    doc: &Doc<'_>,
    k: usize,
    numbers: &[Option<NameId>],
    from: NodeId,
    out: &mut Vec<Item<'_>>,
    steps: &mut Steps<L>,
) -> Result<(), AllocError>
    requires { from < length doc.now.nodes }
    ensures { (names : List Name) → numbers.now ≡ numbers_of doc.now.names names
        → OnOk result (out.new.items ≡ out.old.items ++ node_items (axis_numbers (tree_nodes doc.now) Axis.Child from (test_seen names (StepTest.Named k)))) }
{
    documents_are_walkable(doc);
    doc.is_of_a_tree();
    names_are_found_by_number();
    match number_at(numbers, k) {
        Some(number) => numbered_items(doc, k, numbers, number, from, out, steps),
        None => Ok(()),
    }
}

/// The same by the number that the name has in the document.
fn numbered_items<L: Ledger>(
    doc: &Doc<'_>,
    k: usize,
    numbers: &[Option<NameId>],
    number: NameId,
    from: NodeId,
    out: &mut Vec<Item<'_>>,
    steps: &mut Steps<L>,
) -> Result<(), AllocError>
    requires number { Some number ≡ get_or numbers.now k None }
    requires within { from < length doc.now.nodes }
    ensures { (names : List Name) → numbers.now ≡ numbers_of doc.now.names names
        → OnOk result (out.new.items ≡ out.old.items ++ node_items (axis_numbers (tree_nodes doc.now) Axis.Child from (test_seen names (StepTest.Named k)))) }
{
    documents_are_walkable(doc);
    let mut next = doc.first_child(from, steps);
    'children: while let Some(n) = next {
        put_numbered(doc, k, numbers, number, n, out)?;
        next = doc.next_sibling(n, steps);
    }
    Ok(())
}

/// Puts the node behind the others, as an item, if it is an element whose name has the number.
fn put_numbered(
    doc: &Doc<'_>,
    k: usize,
    numbers: &[Option<NameId>],
    number: NameId,
    n: NodeId,
    out: &mut Vec<Item<'_>>,
) -> Result<(), AllocError>
    requires number { Some number ≡ get_or numbers.now k None }
    requires within { n < length doc.now.nodes }
    ensures { (names : List Name) → numbers.now ≡ numbers_of doc.now.names names
        → OnOk result (out.new.items ≡ out.old.items ++
        node_items (if_so (is_passed Axis.Child (test_seen names (StepTest.Named k)) (tree_node (tree_nodes doc.now) n)) n)) }
{
    if is_numbered(doc, numbers, Axis::Child, k, number, n) {
        out.push(Item::Node(n))?;
    }
    Ok(())
}
