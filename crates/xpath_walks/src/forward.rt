//! The axes that lead forward, each in document order (XPath 2.0, section 3.2.1.1).
ghost use Rattle.std.specs.Prelude.{◌≡◌, ◌<◌, length, IfSome};
ghost use Rattle.node_arena.specs.Moves.{tree_nodes};
ghost use Rattle.xpath_walks.specs.Walks.{Adds, found_on};

use crate::behind::named_inside;
use crate::chain::all_named;
use crate::children::named_children;
use crate::law::documents_are_walkable;
use crate::step::Step;
use crate::walk::{Way, take_passing, walk};
use inv_base::Steps;
use node_arena::{Doc, NodeId};
use std::alloc::AllocError;
use std::sync::ledger::Ledger;
use xpath_grammar::step::Axis;
use xpath_plan::plan_node::StepTest;

pub(crate) fn child<L: Ledger>(
    doc: &Doc<'_>,
    step: &Step<'_>,
    from: NodeId,
    out: &mut Vec<NodeId>,
    steps: &mut Steps<L>,
) -> Result<(), AllocError>
    requires { from < length doc.now.nodes }
    ensures { Adds doc.now step.now result out.old.items out.new.items (found_on Axis.Child step.now.axis (tree_nodes doc.now) from) }
{
    match wanted_name(step) {
        Some(k) => named_children(doc, step, k, from, out, steps),
        None => children(doc, step, from, out, steps),
    }
}

/// Children by a walk over all of them.
fn children<L: Ledger>(
    doc: &Doc<'_>,
    step: &Step<'_>,
    from: NodeId,
    out: &mut Vec<NodeId>,
    steps: &mut Steps<L>,
) -> Result<(), AllocError>
    requires { from < length doc.now.nodes }
    ensures { Adds doc.now step.now result out.old.items out.new.items (found_on Axis.Child step.now.axis (tree_nodes doc.now) from) }
{
    documents_are_walkable(doc);
    let begin = doc.first_child(from, steps);
    walk(doc, step, &Way::Children(from), begin, u32::MAX, out, steps)
}

pub(crate) fn attribute<L: Ledger>(
    doc: &Doc<'_>,
    step: &Step<'_>,
    from: NodeId,
    out: &mut Vec<NodeId>,
    steps: &mut Steps<L>,
) -> Result<(), AllocError>
    requires { from < length doc.now.nodes }
    ensures { Adds doc.now step.now result out.old.items out.new.items (found_on Axis.Attribute step.now.axis (tree_nodes doc.now) from) }
{
    documents_are_walkable(doc);
    let begin = doc.first_attribute(from, steps);
    walk(
        doc,
        step,
        &Way::Attributes(from),
        begin,
        u32::MAX,
        out,
        steps,
    )
}

pub(crate) fn itself(
    doc: &Doc<'_>,
    step: &Step<'_>,
    from: NodeId,
    out: &mut Vec<NodeId>,
) -> Result<(), AllocError>
    requires { from < length doc.now.nodes }
    ensures { Adds doc.now step.now result out.old.items out.new.items (found_on Axis.Itself step.now.axis (tree_nodes doc.now) from) }
{
    documents_are_walkable(doc);
    take_passing(doc, step, from, out)
}

pub(crate) fn descendant<L: Ledger>(
    doc: &Doc<'_>,
    step: &Step<'_>,
    from: NodeId,
    out: &mut Vec<NodeId>,
    steps: &mut Steps<L>,
) -> Result<(), AllocError>
    requires { from < length doc.now.nodes }
    ensures { Adds doc.now step.now result out.old.items out.new.items (found_on Axis.Descendant step.now.axis (tree_nodes doc.now) from) }
{
    match wanted_name(step) {
        Some(k) => of_name(doc, step, k, from, out, steps),
        None => inside(doc, step, from, out, steps),
    }
}

/// Which of the plan's names the step looks for, if it wants an expanded name.
fn wanted_name(step: &Step<'_>) -> Option<usize>
    ensures { IfSome result (λ k. step.now.test.now ≡ StepTest.Named k) }
{
    match step.test {
        StepTest::Named(k) => Some(*k),
        _ => None,
    }
}

/// Descendants of the plan's k-th name, along its chain.
fn of_name<L: Ledger>(
    doc: &Doc<'_>,
    step: &Step<'_>,
    k: usize,
    from: NodeId,
    out: &mut Vec<NodeId>,
    steps: &mut Steps<L>,
) -> Result<(), AllocError>
    requires named { step.now.test.now ≡ StepTest.Named k }
    requires within { from < length doc.now.nodes }
    ensures { Adds doc.now step.now result out.old.items out.new.items (found_on Axis.Descendant step.now.axis (tree_nodes doc.now) from) }
{
    if from.number() == 0 {
        all_named(doc, step, k, out, steps)
    } else {
        named_inside(doc, step, k, from, out, steps)
    }
}

/// Descendants by a walk over all that is inside the node.
fn inside<L: Ledger>(
    doc: &Doc<'_>,
    step: &Step<'_>,
    from: NodeId,
    out: &mut Vec<NodeId>,
    steps: &mut Steps<L>,
) -> Result<(), AllocError>
    requires { from < length doc.now.nodes }
    ensures { Adds doc.now step.now result out.old.items out.new.items (found_on Axis.Descendant step.now.axis (tree_nodes doc.now) from) }
{
    documents_are_walkable(doc);
    let begin = doc.next_node(from, steps);
    let last = doc.last_inside(from, steps);
    walk(doc, step, &Way::All, begin, last.number(), out, steps)
}

pub(crate) fn descendant_or_self<L: Ledger>(
    doc: &Doc<'_>,
    step: &Step<'_>,
    from: NodeId,
    out: &mut Vec<NodeId>,
    steps: &mut Steps<L>,
) -> Result<(), AllocError>
    requires { from < length doc.now.nodes }
    ensures { Adds doc.now step.now result out.old.items out.new.items
        (found_on Axis.DescendantOrSelf step.now.axis (tree_nodes doc.now) from) }
{
    documents_are_walkable(doc);
    take_passing(doc, step, from, out)?;
    descendant(doc, step, from, out, steps)
}

pub(crate) fn following<L: Ledger>(
    doc: &Doc<'_>,
    step: &Step<'_>,
    from: NodeId,
    out: &mut Vec<NodeId>,
    steps: &mut Steps<L>,
) -> Result<(), AllocError>
    requires { from < length doc.now.nodes }
    ensures { Adds doc.now step.now result out.old.items out.new.items (found_on Axis.Following step.now.axis (tree_nodes doc.now) from) }
{
    documents_are_walkable(doc);
    let last = doc.last_inside(from, steps);
    let begin = doc.next_node(last, steps);
    walk(doc, step, &Way::All, begin, u32::MAX, out, steps)
}

pub(crate) fn following_sibling<L: Ledger>(
    doc: &Doc<'_>,
    step: &Step<'_>,
    from: NodeId,
    out: &mut Vec<NodeId>,
    steps: &mut Steps<L>,
) -> Result<(), AllocError>
    requires { from < length doc.now.nodes }
    ensures { Adds doc.now step.now result out.old.items out.new.items
        (found_on Axis.FollowingSibling step.now.axis (tree_nodes doc.now) from) }
{
    documents_are_walkable(doc);
    match doc.parent(from, steps) {
        Some(around) => {
            let begin = doc.next_sibling(from, steps);
            walk(
                doc,
                step,
                &Way::Children(around),
                begin,
                u32::MAX,
                out,
                steps,
            )
        }
        None => Ok(()),
    }
}
