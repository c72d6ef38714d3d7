//! What is inside a node and has a name, along the document's elements and attributes of that name.
ghost use Rattle.std.specs.Prelude.{◌≡◌, ◌<◌, ◌≤◌, ◌+◌, ◌*◌, List, length, IfSome};
ghost use Rattle.inv_base.specs.Tree.{Name};
ghost use Rattle.node_arena.specs.Moves.{tree_nodes, tree_node};
ghost use Rattle.xpath_plan.specs.Plans.{test_seen};
ghost use Rattle.xpath_walks.specs.Tests.{numbers_of};
ghost use Rattle.xpath_walks.specs.Walks.{Adds, LeadsInside, found_on, has_wanted, chain_of, chain_up_to};

use crate::chain::{first_named, next_named, take_element};
use crate::law::documents_are_walkable;
use crate::step::Step;
use crate::test::{has_number, number_at};
use inv_base::Steps;
use node_arena::{Doc, NodeId};
use std::alloc::AllocError;
use std::sync::ledger::Ledger;
use xml_events::NameId;
use xpath_grammar::step::Axis;
use xpath_plan::plan_node::StepTest;

/// Whether the node has the plan's k-th name.
fn is_of_name(doc: &Doc<'_>, numbers: &[Option<NameId>], k: usize, n: NodeId) -> bool
    requires { n < length doc.now.nodes }
    ensures { (names : List Name) → numbers.now ≡ numbers_of doc.now.names names
        → result ≡ has_wanted (test_seen names (StepTest.Named k)) (tree_node (tree_nodes doc.now) n) }
{
    has_number(doc, number_at(numbers, k), n)
}

/// The first element or attribute of the plan's k-th name behind the node, or none if none is inside it. It is given the
/// last node inside. It goes along the nodes and along those of that name at once, and ends with the sooner of both.
pub(crate) fn first_named_behind<L: Ledger>(
    doc: &Doc<'_>,
    numbers: &[Option<NameId>],
    k: usize,
    from: NodeId,
    last: u32,
    steps: &mut Steps<L>,
) -> Option<NodeId>
    requires { from < length doc.now.nodes }
    ensures node { (names : List Name) → numbers.now ≡ numbers_of doc.now.names names
        → LeadsInside (has_wanted (test_seen names (StepTest.Named k))) from last (tree_nodes doc.now) result }
    ensures within { IfSome result (λ m. (from < m) × (m < length doc.now.nodes)) }
    ensures cost { (names : List Name) → numbers.now ≡ numbers_of doc.now.names names
        → steps.new ≤ steps.old + (2 * length (chain_up_to from (tree_nodes doc.now) (test_seen names (StepTest.Named k))) + 1) }
{
    documents_are_walkable(doc);
    let mut ahead = first_named(doc, numbers, k, steps);
    let mut here = from;
    'chain: while let Some(m) = ahead {
        if m.number() > from.number() {
            return Some(m);
        }
        let Some(n) = doc.next_node(here, steps) else {
            return None;
        };
        if n.number() > last {
            return None;
        }
        if is_of_name(doc, numbers, k, n) {
            return Some(n);
        }
        here = n;
        ahead = next_named(doc, m, steps);
    }
    None
}

/// Puts the elements inside the node of the plan's k-th name, which the step wants, behind the others.
pub(crate) fn named_inside<L: Ledger>(
    doc: &Doc<'_>,
    step: &Step<'_>,
    k: usize,
    from: NodeId,
    out: &mut Vec<NodeId>,
    steps: &mut Steps<L>,
) -> Result<(), AllocError>
    requires named { step.now.test.now ≡ StepTest.Named k }
    requires within { from < length doc.now.nodes }
    ensures found { Adds doc.now step.now result out.old.items out.new.items (found_on Axis.Descendant step.now.axis (tree_nodes doc.now) from) }
    ensures cost { (names : List Name) → step.now.numbers.now ≡ numbers_of doc.now.names names
        → steps.new ≤ steps.old + (2 * length (chain_of (tree_nodes doc.now) (test_seen names step.now.test.now)) + 2) }
{
    documents_are_walkable(doc);
    let last = doc.last_inside(from, steps).number();
    let mut next = first_named_behind(doc, step.numbers, k, from, last, steps);
    'chain: while let Some(n) = next {
        if n.number() > last {
            return Ok(());
        }
        take_element(doc, step, n, out)?;
        next = next_named(doc, n, steps);
    }
    Ok(())
}
