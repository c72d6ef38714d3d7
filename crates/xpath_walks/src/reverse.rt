//! The axes that lead back, each from the nearest node on (XPath 2.0, section 3.2.1.1).
ghost use Rattle.std.specs.Prelude.{◌≡◌, ◌++◌, ◌<◌, length, take, drop, reverse, Some, false};
ghost use Rattle.node_arena.specs.Moves.{tree_nodes, tree_node, is_attribute};
ghost use Rattle.node_arena.specs.Moves as moves;
ghost use Rattle.xpath_walks.specs.Walks.{Adds, found_on, passing};

use crate::law::documents_are_walkable;
use crate::step::Step;
use crate::walk::{Way, is_no_attribute, take_passing, walk};
use inv_base::Steps;
use node_arena::{Doc, NodeId};
use std::alloc::AllocError;
use std::sync::ledger::Ledger;
use xpath_grammar::step::Axis;

pub(crate) fn parent<L: Ledger>(
    doc: &Doc<'_>,
    step: &Step<'_>,
    from: NodeId,
    out: &mut Vec<NodeId>,
    steps: &mut Steps<L>,
) -> Result<(), AllocError>
    requires { from < length doc.now.nodes }
    ensures { Adds doc.now step.now result out.old.items out.new.items (found_on Axis.Parent step.now.axis (tree_nodes doc.now) from) }
{
    documents_are_walkable(doc);
    match doc.parent(from, steps) {
        Some(around) => take_passing(doc, step, around, out),
        None => Ok(()),
    }
}

/// Goes up from parent to parent.
fn climb<L: Ledger>(
    doc: &Doc<'_>,
    step: &Step<'_>,
    from: NodeId,
    out: &mut Vec<NodeId>,
    steps: &mut Steps<L>,
) -> Result<(), AllocError>
    requires { from < length doc.now.nodes }
    ensures { Adds doc.now step.now result out.old.items out.new.items
        (passing step.now.axis (tree_nodes doc.now) (tree_node (tree_nodes doc.now) from).above) }
{
    documents_are_walkable(doc);
    let mut next = doc.parent(from, steps);
    'around: while let Some(n) = next {
        take_passing(doc, step, n, out)?;
        next = doc.parent(n, steps);
    }
    Ok(())
}

pub(crate) fn ancestor<L: Ledger>(
    doc: &Doc<'_>,
    step: &Step<'_>,
    from: NodeId,
    out: &mut Vec<NodeId>,
    steps: &mut Steps<L>,
) -> Result<(), AllocError>
    requires { from < length doc.now.nodes }
    ensures { Adds doc.now step.now result out.old.items out.new.items (found_on Axis.Ancestor step.now.axis (tree_nodes doc.now) from) }
{
    documents_are_walkable(doc);
    climb(doc, step, from, out, steps)
}

pub(crate) fn ancestor_or_self<L: Ledger>(
    doc: &Doc<'_>,
    step: &Step<'_>,
    from: NodeId,
    out: &mut Vec<NodeId>,
    steps: &mut Steps<L>,
) -> Result<(), AllocError>
    requires { from < length doc.now.nodes }
    ensures { Adds doc.now step.now result out.old.items out.new.items
        (found_on Axis.AncestorOrSelf step.now.axis (tree_nodes doc.now) from) }
{
    documents_are_walkable(doc);
    take_passing(doc, step, from, out)?;
    climb(doc, step, from, out, steps)
}

pub(crate) fn preceding<L: Ledger>(
    doc: &Doc<'_>,
    step: &Step<'_>,
    from: NodeId,
    out: &mut Vec<NodeId>,
    steps: &mut Steps<L>,
) -> Result<(), AllocError>
    requires { from < length doc.now.nodes }
    ensures { Adds doc.now step.now result out.old.items out.new.items (found_on Axis.Preceding step.now.axis (tree_nodes doc.now) from) }
{
    documents_are_walkable(doc);
    if from.number() == 0 {
        return Ok(());
    }
    let at = out.len();
    let begin = Some(doc.document());
    let last = from.number() - 1;
    walk(doc, step, &Way::Before(from), begin, last, out, steps)?;
    turn_round(out, at);
    Ok(())
}

pub(crate) fn preceding_sibling<L: Ledger>(
    doc: &Doc<'_>,
    step: &Step<'_>,
    from: NodeId,
    out: &mut Vec<NodeId>,
    steps: &mut Steps<L>,
) -> Result<(), AllocError>
    requires { from < length doc.now.nodes }
    ensures { Adds doc.now step.now result out.old.items out.new.items
        (found_on Axis.PrecedingSibling step.now.axis (tree_nodes doc.now) from) }
{
    documents_are_walkable(doc);
    if is_no_attribute(doc, from) {
        match doc.parent(from, steps) {
            Some(around) => children_before(doc, step, from, around, out, steps),
            None => Ok(()),
        }
    } else {
        Ok(())
    }
}

/// The siblings before a node that is no attribute, given the node that they are children of.
fn children_before<L: Ledger>(
    doc: &Doc<'_>,
    step: &Step<'_>,
    from: NodeId,
    around: NodeId,
    out: &mut Vec<NodeId>,
    steps: &mut Steps<L>,
) -> Result<(), AllocError>
    requires within { from < length doc.now.nodes }
    requires before { around < from }
    requires around { moves.parent (tree_nodes doc.now) from ≡ Some around }
    requires plain { is_attribute (tree_node (tree_nodes doc.now) from) ≡ false }
    ensures { Adds doc.now step.now result out.old.items out.new.items
        (found_on Axis.PrecedingSibling step.now.axis (tree_nodes doc.now) from) }
{
    documents_are_walkable(doc);
    let at = out.len();
    let begin = doc.first_child(around, steps);
    let last = from.number() - 1;
    walk(doc, step, &Way::Children(around), begin, last, out, steps)?;
    turn_round(out, at);
    Ok(())
}

/// The nodes from a place on, in the other order.
fn turn_round(nodes: &mut Vec<NodeId>, at: usize)
    ensures { nodes.new.items ≡ take at nodes.old.items ++ reverse (drop at nodes.old.items) }
{
    turn_slice(nodes.as_mut_slice(), at);
}

fn turn_slice(nodes: &mut [NodeId], at: usize)
    ensures { nodes.new ≡ take at nodes.old ++ reverse (drop at nodes.old) }
{
    if at < nodes.len() {
        nodes[at..].reverse();
    }
}
