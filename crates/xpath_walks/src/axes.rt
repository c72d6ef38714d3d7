//! The nodes of any axis.
ghost use Rattle.std.specs.Prelude.{◌≡◌, ◌<◌, ◌==◌, ◌++◌, List, OnOk, length};
ghost use Rattle.inv_base.specs.Tree.{Name};
ghost use Rattle.node_arena.specs.Moves.{tree_nodes};
ghost use Rattle.xpath_plan.specs.Plans.{test_seen};
ghost use Rattle.xpath_walks.specs.Tests.{numbers_of};
ghost use Rattle.xpath_walks.specs.Walks.{Adds, Bounds, axis_numbers, chain_of, found};

use crate::behind::named_inside;
use crate::chain::all_named;
use crate::forward::{
    attribute, child, descendant, descendant_or_self, following, following_sibling, itself,
};
use crate::reverse::{ancestor, ancestor_or_self, parent, preceding, preceding_sibling};
use crate::step::Step;
use inv_base::Steps;
use node_arena::{Doc, NodeId};
use std::alloc::AllocError;
use std::sync::ledger::Ledger;
use xml_events::NameId;
use xpath_grammar::step::Axis;
use xpath_plan::plan_node::StepTest;

/// Puts behind the others exactly the nodes on the step's axis from a node that pass the step's test, in the order of
/// the axis (XPath 2.0, section 3.2.1). It goes along the axis by links: besides its nodes over attributes, where the axis
/// leads through elements that have them, and for `preceding` over what is around the node. Descendants by an expanded
/// name it finds along the document's elements and attributes of that name. Each move takes a step. Without memory some of
/// the nodes may have been put there.
pub fn axis_nodes<L: Ledger>(
    doc: &Doc<'_>,
    step: &Step<'_>,
    from: NodeId,
    out: &mut Vec<NodeId>,
    steps: &mut Steps<L>,
) -> Result<(), AllocError>
    requires { from < length doc.now.nodes }
    ensures { Adds doc.now step.now result out.old.items out.new.items (axis_numbers (tree_nodes doc.now) step.now.axis from) }
{
    by_axis(doc, step, from, out, steps)
}

fn by_axis<L: Ledger>(
    doc: &Doc<'_>,
    step: &Step<'_>,
    from: NodeId,
    out: &mut Vec<NodeId>,
    steps: &mut Steps<L>,
) -> Result<(), AllocError>
    requires { from < length doc.now.nodes }
    ensures { Adds doc.now step.now result out.old.items out.new.items (found step.now.axis (tree_nodes doc.now) from) }
{
    match step.axis {
        Axis::Child => child(doc, step, from, out, steps),
        Axis::Descendant => descendant(doc, step, from, out, steps),
        Axis::DescendantOrSelf => descendant_or_self(doc, step, from, out, steps),
        Axis::Itself => itself(doc, step, from, out),
        Axis::Attribute => attribute(doc, step, from, out, steps),
        Axis::Parent => parent(doc, step, from, out, steps),
        Axis::Ancestor => ancestor(doc, step, from, out, steps),
        Axis::AncestorOrSelf => ancestor_or_self(doc, step, from, out, steps),
        Axis::FollowingSibling => following_sibling(doc, step, from, out, steps),
        Axis::PrecedingSibling => preceding_sibling(doc, step, from, out, steps),
        Axis::Following => following(doc, step, from, out, steps),
        Axis::Preceding => preceding(doc, step, from, out, steps),
    }
}

/// Puts behind the others the elements inside the node that have the plan's k-th name, in document order. It goes along
/// the elements and attributes of that name: from the document's own node a step for each and at most one more, else at
/// most two steps for each and two more.
pub fn named_nodes<L: Ledger>(
    doc: &Doc<'_>,
    k: usize,
    numbers: &[Option<NameId>],
    from: NodeId,
    out: &mut Vec<NodeId>,
    steps: &mut Steps<L>,
) -> Result<(), AllocError>
    requires { from < length doc.now.nodes }
    ensures found { (names : List Name) → numbers.now ≡ numbers_of doc.now.names names
        → OnOk result (out.new.items ≡ out.old.items ++ axis_numbers (tree_nodes doc.now) Axis.Descendant from (test_seen names (StepTest.Named k))) }
    ensures cost { (names : List Name) → numbers.now ≡ numbers_of doc.now.names names
        → Bounds (length (chain_of (tree_nodes doc.now) (test_seen names (StepTest.Named k)))) (from == 0) result steps.old steps.new }
{
    let test = StepTest::Named(k);
    let step = Step {
        axis: Axis::Descendant,
        test: &test,
        numbers,
    };
    if from.number() == 0 {
        all_named(doc, &step, k, out, steps)
    } else {
        named_inside(doc, &step, k, from, out, steps)
    }
}
