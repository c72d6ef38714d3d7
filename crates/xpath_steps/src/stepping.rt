//! Steps from an item and from each of several (XPath 2.0, section 3.2.1).
ghost use Rattle.std.specs.Prelude.{◌≡◌, ◌<◌, ◌==◌, ◌∷◌, [], true, Ok, List, length, IfOk, is_some};
ghost use Rattle.std.specs.List.{list_all};
ghost use Rattle.inv_base.specs.Tree.{Name};
ghost use Rattle.node_arena.specs.Moves.{tree_nodes};
ghost use Rattle.xpath_items.specs.Faults.{Gives};
ghost use Rattle.xpath_meaning.specs.Steps as meaning;
ghost use Rattle.xpath_meaning.specs.Steps.{is_node};
ghost use Rattle.xpath_operators.specs.Nodes.{IsWithin, AreWithin};
ghost use Rattle.xpath_plan.specs.Plans.{test_seen};
ghost use Rattle.xpath_steps.specs.Numbers.{at_number};
ghost use Rattle.xpath_steps.specs.Steps as spec;
ghost use Rattle.xpath_steps.specs.Steps.{GivesOf, GivesWithin, step_seen, stepped_seen, path_seen, stepped_path_seen, inside_seen, numbers_over};
ghost use Rattle.xpath_walks.specs.Order.{node_items};
ghost use Rattle.xpath_walks.specs.Tests.{numbers_of};
ghost use Rattle.xpath_walks.specs.Walks.{Adds, Bounds, axis_numbers, chain_of};

use crate::children::{child_name, children_over, named_children};
use crate::insides::nodes_inside;
use crate::nodes::{all_nodes, nodes_among, of_nodes, ordered, put_in_order};
use inv_base::Steps;
use node_arena::{Doc, NodeId};
use std::alloc::{AllocError, Global};
use std::sync::ledger::Ledger;
use xml_events::NameId;
use xpath_grammar::step::Axis;
use xpath_items::{DynError, Fault, Item, Seq};
use xpath_plan::plan_node::StepTest;
use xpath_walks::{Step, axis_nodes, documents_are_walkable, named_nodes};

/// `/` at an item: the document, where the item is a node, else XPTY0020.
pub fn root_of<'a>(alloc: Global, doc: &Doc<'_>, item: &Item<'_>) -> Result<Seq<'a>, Fault>
    ensures value { Gives result (meaning.root_of item.now) }
    ensures within { IfOk result (λ found. AreWithin (length doc.now.nodes) found) }
{
    match item {
        Item::Node(_) => Ok(Seq::one(alloc, Item::Node(doc.document()))?),
        _ => Err(Fault::Error(DynError::XPTY0020)),
    }
}

/// Whether the plan has the name that the step's test wants, if it wants one.
fn is_known(step: &Step<'_>) -> bool
    ensures { (table names : List Name) → step.now.numbers.now ≡ numbers_of table names
        → result ≡ is_some (test_seen names step.now.test.now) }
{
    match step.test {
        StepTest::Named(k) => *k < step.numbers.len(),
        _ => true,
    }
}

/// A step at an item that is no node.
fn off_nodes<'a>(alloc: Global, step: &Step<'_>) -> Result<Seq<'a>, Fault>
    ensures { (table names : List Name) → step.now.numbers.now ≡ numbers_of table names
        → Gives result (spec.off_nodes (test_seen names step.now.test.now)) }
{
    if is_known(step) {
        Err(Fault::Error(DynError::XPTY0020))
    } else {
        Ok(Seq::new(alloc))
    }
}

/// The nodes of a step from a node, in the order of its axis.
fn nodes_from<L: Ledger>(
    alloc: Global,
    doc: &Doc<'_>,
    step: &Step<'_>,
    from: NodeId,
    steps: &mut Steps<L>,
) -> Result<Vec<NodeId>, AllocError>
    requires { from < length doc.now.nodes }
    ensures { (names : List Name) → step.now.numbers.now ≡ numbers_of doc.now.names names
        → IfOk result (λ nodes. nodes.items ≡ axis_numbers (tree_nodes doc.now) step.now.axis from (test_seen names step.now.test.now)) }
{
    let mut nodes = Vec::new(alloc);
    axis_nodes(doc, step, from, &mut nodes, steps)?;
    Ok(nodes)
}

/// The same as items.
fn items_from<'a, L: Ledger>(
    alloc: Global,
    doc: &Doc<'_>,
    step: &Step<'_>,
    from: NodeId,
    steps: &mut Steps<L>,
) -> Result<Seq<'a>, AllocError>
    requires { from < length doc.now.nodes }
    ensures { (names : List Name) → step.now.numbers.now ≡ numbers_of doc.now.names names
        → IfOk result (λ items. items ≡ node_items (axis_numbers (tree_nodes doc.now) step.now.axis from (test_seen names step.now.test.now))) }
{
    match child_name(step) {
        Some(k) => named_children(alloc, doc, step, k, from, steps),
        None => {
            let nodes = nodes_from(alloc, doc, step, from, steps)?;
            of_nodes(alloc, &nodes)
        }
    }
}

/// The same in document order.
fn ordered_from<'a, L: Ledger>(
    alloc: Global,
    doc: &Doc<'_>,
    step: &Step<'_>,
    from: NodeId,
    steps: &mut Steps<L>,
) -> Result<Seq<'a>, AllocError>
    requires { from < length doc.now.nodes }
    ensures { (names : List Name) → step.now.numbers.now ≡ numbers_of doc.now.names names
        → IfOk result (λ items. items ≡ meaning.in_document_order (tree_nodes doc.now)
        (node_items (axis_numbers (tree_nodes doc.now) step.now.axis from (test_seen names step.now.test.now)))) }
{
    documents_are_walkable(doc);
    match child_name(step) {
        Some(k) => {
            let items = named_children(alloc, doc, step, k, from, steps)?;
            put_in_order(alloc, doc, items)
        }
        None => {
            let nodes = nodes_from(alloc, doc, step, from, steps)?;
            ordered(alloc, doc, nodes)
        }
    }
}

/// A step without predicates' nodes, in the order of its axis. At an item that is no node it is XPTY0020, and a step whose name the
/// plan doesn't have is empty. Each move along the axis takes a step.
pub fn step_from<'a, L: Ledger>(
    alloc: Global,
    doc: &Doc<'_>,
    step: &Step<'_>,
    item: &Item<'_>,
    steps: &mut Steps<L>,
) -> Result<Seq<'a>, Fault>
    requires { IsWithin (length doc.now.nodes) item.now }
    ensures value { GivesOf doc.now step.now result (λ test. step_seen (tree_nodes doc.now) step.now.axis test item.now) }
    ensures within { GivesWithin doc.now step.now result }
{
    documents_are_walkable(doc);
    match item {
        Item::Node(from) => {
            let items = items_from(alloc, doc, step, *from, steps)?;
            Ok(items)
        }
        _ => off_nodes(alloc, step),
    }
}

/// The same in document order.
pub fn stepped_from<'a, L: Ledger>(
    alloc: Global,
    doc: &Doc<'_>,
    step: &Step<'_>,
    item: &Item<'_>,
    steps: &mut Steps<L>,
) -> Result<Seq<'a>, Fault>
    requires { IsWithin (length doc.now.nodes) item.now }
    ensures value { GivesOf doc.now step.now result (λ test. stepped_seen (tree_nodes doc.now) step.now.axis test item.now) }
    ensures within { GivesWithin doc.now step.now result }
{
    documents_are_walkable(doc);
    match item {
        Item::Node(from) => {
            let items = ordered_from(alloc, doc, step, *from, steps)?;
            Ok(items)
        }
        _ => off_nodes(alloc, step),
    }
}

/// Puts the nodes of a step from an item behind the others. An item that is no node has none.
fn take_from<L: Ledger>(
    doc: &Doc<'_>,
    step: &Step<'_>,
    item: &Item<'_>,
    out: &mut Vec<NodeId>,
    steps: &mut Steps<L>,
) -> Result<(), AllocError>
    requires { IsWithin (length doc.now.nodes) item.now }
    ensures { Adds doc.now step.now result out.old.items out.new.items
        (λ test. at_number (λ n. axis_numbers (tree_nodes doc.now) step.now.axis n test) item.now) }
{
    match item {
        Item::Node(from) => axis_nodes(doc, step, *from, out, steps),
        _ => Ok(()),
    }
}

/// The nodes of a step from each item, one item's behind the other's.
fn nodes_over<L: Ledger>(
    alloc: Global,
    doc: &Doc<'_>,
    step: &Step<'_>,
    items: &[Item<'_>],
    steps: &mut Steps<L>,
) -> Result<Vec<NodeId>, AllocError>
    requires { AreWithin (length doc.now.nodes) items.now }
    ensures { (names : List Name) → step.now.numbers.now ≡ numbers_of doc.now.names names
        → IfOk result (λ nodes. nodes.items ≡ numbers_over (tree_nodes doc.now) step.now.axis (test_seen names step.now.test.now) items.now) }
{
    let mut nodes = Vec::new(alloc);
    'items: for item in items {
        take_from(doc, step, item, &mut nodes, steps)?;
    }
    Ok(nodes)
}

/// The same in document order, each once, as items.
fn ordered_over<'a, L: Ledger>(
    alloc: Global,
    doc: &Doc<'_>,
    step: &Step<'_>,
    items: &[Item<'_>],
    steps: &mut Steps<L>,
) -> Result<Seq<'a>, AllocError>
    requires { AreWithin (length doc.now.nodes) items.now }
    ensures { (names : List Name) → step.now.numbers.now ≡ numbers_of doc.now.names names
        → IfOk result (λ found. found ≡ meaning.in_document_order (tree_nodes doc.now)
        (node_items (numbers_over (tree_nodes doc.now) step.now.axis (test_seen names step.now.test.now) items.now))) }
{
    documents_are_walkable(doc);
    match child_name(step) {
        Some(k) => {
            let found = children_over(alloc, doc, step, k, items, steps)?;
            put_in_order(alloc, doc, found)
        }
        None => {
            let nodes = nodes_over(alloc, doc, step, items, steps)?;
            ordered(alloc, doc, nodes)
        }
    }
}

/// A step without predicates behind `/`, taken at each item: the nodes in document order, each once. Where an item is no node it
/// is XPTY0019.
pub fn steps_over<'a, L: Ledger>(
    alloc: Global,
    doc: &Doc<'_>,
    step: &Step<'_>,
    items: &[Item<'_>],
    steps: &mut Steps<L>,
) -> Result<Seq<'a>, Fault>
    requires { AreWithin (length doc.now.nodes) items.now }
    ensures value { GivesOf doc.now step.now result (λ test. path_seen (tree_nodes doc.now) step.now.axis test items.now) }
    ensures stepped { GivesOf doc.now step.now result (λ test. stepped_path_seen (tree_nodes doc.now) step.now.axis test items.now) }
    ensures within { GivesWithin doc.now step.now result }
{
    documents_are_walkable(doc);
    if !all_nodes(items) {
        return Err(Fault::Error(DynError::XPTY0019));
    }
    let found = ordered_over(alloc, doc, step, items, steps)?;
    Ok(found)
}

/// `//` and a step without predicates on the child axis, taken at each of several nodes.
fn inside_nodes<'a, L: Ledger>(
    alloc: Global,
    doc: &Doc<'_>,
    test: &StepTest,
    numbers: &[Option<NameId>],
    items: &[Item<'_>],
    steps: &mut Steps<L>,
) -> Result<Seq<'a>, AllocError>
    requires nodes { list_all is_node items.now ≡ true }
    requires within { AreWithin (length doc.now.nodes) items.now }
    ensures value { (names : List Name) → numbers.now ≡ numbers_of doc.now.names names
        → IfOk result (λ found. inside_seen (tree_nodes doc.now) (test_seen names test.now) items.now ≡ Ok found) }
    ensures within { (names : List Name) → numbers.now ≡ numbers_of doc.now.names names
        → IfOk result (λ found. AreWithin (length doc.now.nodes) found) }
{
    documents_are_walkable(doc);
    let from = nodes_among(alloc, items)?;
    let found = nodes_inside(alloc, doc, test, numbers, from.as_slice(), steps)?;
    drop(from);
    ordered(alloc, doc, found)
}

/// `//` and a step without predicates on the child axis, taken at each item: the nodes in document order, each once. It
/// is given the step's test, and of each name of the plan the number that it has in the document. It is one step on the
/// descendant axis: what is right inside an item or right inside a node inside it is what is inside the item. What is
/// inside an item inside the item before it isn't gone over again. Where an item is no node it is XPTY0019.
pub fn inside_over<'a, L: Ledger>(
    alloc: Global,
    doc: &Doc<'_>,
    test: &StepTest,
    numbers: &[Option<NameId>],
    items: &[Item<'_>],
    steps: &mut Steps<L>,
) -> Result<Seq<'a>, Fault>
    requires { AreWithin (length doc.now.nodes) items.now }
    ensures value { (names : List Name) → numbers.now ≡ numbers_of doc.now.names names
        → Gives result (inside_seen (tree_nodes doc.now) (test_seen names test.now) items.now) }
    ensures within { (names : List Name) → numbers.now ≡ numbers_of doc.now.names names
        → IfOk result (λ found. AreWithin (length doc.now.nodes) found) }
{
    documents_are_walkable(doc);
    if !all_nodes(items) {
        return Err(Fault::Error(DynError::XPTY0019));
    }
    Ok(inside_nodes(alloc, doc, test, numbers, items, steps)?)
}

/// `//` and a step without predicates by the plan's k-th name on the child axis, taken at a node: the elements inside it in
/// document order, along the chain of the name.
pub fn inside_named<'a, L: Ledger>(
    alloc: Global,
    doc: &Doc<'_>,
    k: usize,
    numbers: &[Option<NameId>],
    from: NodeId,
    steps: &mut Steps<L>,
) -> Result<Seq<'a>, AllocError>
    requires { from < length doc.now.nodes }
    ensures value { (names : List Name) → numbers.now ≡ numbers_of doc.now.names names
        → IfOk result (λ found. inside_seen (tree_nodes doc.now) (test_seen names (StepTest.Named k)) (Item.Node from ∷ []) ≡ Ok found) }
    ensures within { (names : List Name) → numbers.now ≡ numbers_of doc.now.names names
        → IfOk result (λ found. AreWithin (length doc.now.nodes) found) }
    ensures cost { (names : List Name) → numbers.now ≡ numbers_of doc.now.names names
        → Bounds (length (chain_of (tree_nodes doc.now) (test_seen names (StepTest.Named k)))) (from == 0) result steps.old steps.new }
{
    documents_are_walkable(doc);
    let mut nodes = Vec::new(alloc);
    named_nodes(doc, k, numbers, from, &mut nodes, steps)?;
    ordered(alloc, doc, nodes)
}
