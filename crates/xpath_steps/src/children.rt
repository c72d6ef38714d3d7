//! Steps to children by a full name, whose nodes become items as they are found.
ghost use Rattle.std.specs.Prelude.{◌≡◌, ◌<◌, ◌++◌, List, length, IfOk, IfSome, OnOk};
ghost use Rattle.inv_base.specs.Tree.{Name};
ghost use Rattle.node_arena.specs.Moves.{tree_nodes};
ghost use Rattle.xpath_operators.specs.Nodes.{IsWithin, AreWithin};
ghost use Rattle.xpath_plan.specs.Plans.{test_seen};
ghost use Rattle.xpath_steps.specs.Numbers.{at_number};
ghost use Rattle.xpath_steps.specs.Steps.{numbers_over};
ghost use Rattle.xpath_walks.specs.Order.{node_items};
ghost use Rattle.xpath_walks.specs.Tests.{numbers_of};
ghost use Rattle.xpath_walks.specs.Walks.{axis_numbers};

use inv_base::Steps;
use node_arena::{Doc, NodeId};
use std::alloc::{AllocError, Global};
use std::sync::ledger::Ledger;
use xpath_grammar::step::Axis;
use xpath_items::{Item, Seq};
use xpath_plan::plan_node::StepTest;
use xpath_walks::{Step, child_items};

/// Which of the plan's names the test looks for, if it wants a full name.
fn wanted_name(test: &StepTest) -> Option<usize>
    ensures { IfSome result (λ k. test.now ≡ StepTest.Named k) }
{
    match test {
        StepTest::Named(k) => Some(*k),
        _ => None,
    }
}

/// The same of a step to children.
pub(crate) fn child_name(step: &Step<'_>) -> Option<usize>
    ensures child { IfSome result (λ k. step.now.axis ≡ Axis.Child) }
    ensures named { IfSome result (λ k. step.now.test.now ≡ StepTest.Named k) }
{
    match step.axis {
        Axis::Child => wanted_name(step.test),
        _ => None,
    }
}

/// The children of the plan's k-th name, which the step leads to.
pub(crate) fn named_children<'a, L: Ledger>(
    alloc: Global,
    doc: &Doc<'_>,
    step: &Step<'_>,
    k: usize,
    from: NodeId,
    steps: &mut Steps<L>,
) -> Result<Seq<'a>, AllocError>
    requires child { step.now.axis ≡ Axis.Child }
    requires named { step.now.test.now ≡ StepTest.Named k }
    requires within { from < length doc.now.nodes }
    ensures { (names : List Name) → step.now.numbers.now ≡ numbers_of doc.now.names names
        → IfOk result (λ items. items ≡ node_items (axis_numbers (tree_nodes doc.now) step.now.axis from (test_seen names step.now.test.now))) }
{
    let mut items = Vec::new(alloc);
    child_items(doc, k, step.numbers, from, &mut items, steps)?;
    Ok(Seq::of_items(items))
}

/// Puts the children of an item behind the others. An item that is no node has none.
fn take_children<L: Ledger>(
    doc: &Doc<'_>,
    step: &Step<'_>,
    k: usize,
    item: &Item<'_>,
    out: &mut Vec<Item<'_>>,
    steps: &mut Steps<L>,
) -> Result<(), AllocError>
    requires child { step.now.axis ≡ Axis.Child }
    requires named { step.now.test.now ≡ StepTest.Named k }
    requires within { IsWithin (length doc.now.nodes) item.now }
    ensures { (names : List Name) → step.now.numbers.now ≡ numbers_of doc.now.names names
        → OnOk result (out.new.items ≡ out.old.items
        ++ node_items (at_number (λ n. axis_numbers (tree_nodes doc.now) step.now.axis n (test_seen names step.now.test.now)) item.now)) }
{
    match item {
        Item::Node(from) => child_items(doc, k, step.numbers, *from, out, steps),
        _ => Ok(()),
    }
}

/// The children of each item, one item's behind the other's.
pub(crate) fn children_over<'a, L: Ledger>(
    alloc: Global,
    doc: &Doc<'_>,
    step: &Step<'_>,
    k: usize,
    items: &[Item<'_>],
    steps: &mut Steps<L>,
) -> Result<Seq<'a>, AllocError>
    requires child { step.now.axis ≡ Axis.Child }
    requires named { step.now.test.now ≡ StepTest.Named k }
    requires within { AreWithin (length doc.now.nodes) items.now }
    ensures { (names : List Name) → step.now.numbers.now ≡ numbers_of doc.now.names names
        → IfOk result (λ found. found ≡ node_items (numbers_over (tree_nodes doc.now) step.now.axis (test_seen names step.now.test.now) items.now)) }
{
    let mut found = Vec::new(alloc);
    'items: for item in items {
        take_children(doc, step, k, item, &mut found, steps)?;
    }
    Ok(Seq::of_items(found))
}
