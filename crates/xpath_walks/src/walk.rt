//! One walk for all axes that lead forward: by a kind of link, from a start to an end.
ghost use Rattle.std.specs.Prelude.{◌≡◌, ◌<◌, true, not, length, IfSome};
ghost use Rattle.node_arena.specs.Moves.{tree_nodes, tree_node, behind, first_that, is_attribute, is_inside};
ghost use Rattle.xpath_walks.specs.Walks.{IsWithin, is_on_way, is_taken, walked, if_so, Adds};
ghost use Rattle.xpath_walks.specs.Walks as spec;
ghost use Rattle.xpath_walks.specs.Tests.{is_passed};

use crate::law::documents_are_walkable;
use crate::step::Step;
use crate::test::is_passing;
use inv_base::{Kind, Steps};
use node_arena::{Doc, NodeId};
use std::alloc::AllocError;
use std::sync::ledger::Ledger;

/// Which nodes a walk goes over, in document order, and which of them it means.
#[derive(Clone, Copy)]
pub(crate) enum Way {
    /// All nodes, attributes not meant.
    All,
    /// All nodes, neither attributes nor what is around the node meant.
    Before(NodeId),
    /// The children of the node.
    Children(NodeId),
    /// The attributes of the node.
    Attributes(NodeId),
}

/// Puts the nodes of the way behind the others that pass the step's test, from the first one up to the last number.
pub(crate) fn walk<L: Ledger>(
    doc: &Doc<'_>,
    step: &Step<'_>,
    way: &Way,
    begin: Option<NodeId>,
    last: u32,
    out: &mut Vec<NodeId>,
    steps: &mut Steps<L>,
) -> Result<(), AllocError>
    requires way { IsWithin way.now (length doc.now.nodes) }
    requires within { IfSome begin (λ m. m < length doc.now.nodes) }
    requires on { IfSome begin (λ m. is_on_way way.now (tree_node (tree_nodes doc.now) m) ≡ true) }
    ensures { Adds doc.now step.now result out.old.items out.new.items (walked way.now (tree_nodes doc.now) begin last step.now.axis) }
{
    documents_are_walkable(doc);
    let mut next = begin;
    'nodes: while let Some(n) = next {
        if n.number() > last {
            return Ok(());
        }
        take(doc, step, way, n, out, steps)?;
        next = next_on(doc, way, n, steps);
    }
    Ok(())
}

/// Puts the node behind the others if it is meant and passes.
pub(crate) fn take<L: Ledger>(
    doc: &Doc<'_>,
    step: &Step<'_>,
    way: &Way,
    n: NodeId,
    out: &mut Vec<NodeId>,
    steps: &mut Steps<L>,
) -> Result<(), AllocError>
    requires way { IsWithin way.now (length doc.now.nodes) }
    requires within { n < length doc.now.nodes }
    ensures { Adds doc.now step.now result out.old.items out.new.items
        (λ test. if_so (is_taken way.now (tree_nodes doc.now) step.now.axis test (tree_node (tree_nodes doc.now) n)) n) }
{
    if is_meant(doc, way, n, steps) {
        take_passing(doc, step, n, out)
    } else {
        Ok(())
    }
}

/// Puts the node behind the others if it passes.
pub(crate) fn take_passing(
    doc: &Doc<'_>,
    step: &Step<'_>,
    n: NodeId,
    out: &mut Vec<NodeId>,
) -> Result<(), AllocError>
    requires { n < length doc.now.nodes }
    ensures { Adds doc.now step.now result out.old.items out.new.items
        (λ test. if_so (is_passed step.now.axis test (tree_node (tree_nodes doc.now) n)) n) }
{
    if is_passing(doc, step.numbers, step.axis, step.test, n) {
        out.push(n)?;
    }
    Ok(())
}

/// Whether a node that a walk goes over is meant.
fn is_meant<L: Ledger>(doc: &Doc<'_>, way: &Way, n: NodeId, steps: &mut Steps<L>) -> bool
    requires way { IsWithin way.now (length doc.now.nodes) }
    requires within { n < length doc.now.nodes }
    ensures { result ≡ spec.is_meant way.now (tree_nodes doc.now) (tree_node (tree_nodes doc.now) n) }
{
    match way {
        Way::All => is_no_attribute(doc, n),
        Way::Before(from) => is_apart(doc, n, *from, steps),
        Way::Children(_) | Way::Attributes(_) => true,
    }
}

/// Whether a node is neither an attribute nor around the other.
fn is_apart<L: Ledger>(doc: &Doc<'_>, n: NodeId, inner: NodeId, steps: &mut Steps<L>) -> bool
    requires within { n < length doc.now.nodes }
    requires inner { inner < length doc.now.nodes }
    ensures { result ≡ spec.is_meant (Way.Before inner) (tree_nodes doc.now) (tree_node (tree_nodes doc.now) n) }
{
    documents_are_walkable(doc);
    is_no_attribute(doc, n) && !is_around(doc, n, inner, steps)
}

pub(crate) fn is_no_attribute(doc: &Doc<'_>, n: NodeId) -> bool
    requires { n < length doc.now.nodes }
    ensures { result ≡ not (is_attribute (tree_node (tree_nodes doc.now) n)) }
{
    match doc.kind(n) {
        Kind::Attribute => false,
        Kind::Document | Kind::Element | Kind::Text => true,
    }
}

/// Whether the second node is inside the first.
pub fn is_around<L: Ledger>(doc: &Doc<'_>, n: NodeId, inner: NodeId, steps: &mut Steps<L>) -> bool
    requires within { n < length doc.now.nodes }
    requires inner { inner < length doc.now.nodes }
    ensures { result ≡ is_inside n (tree_node (tree_nodes doc.now) inner) }
{
    documents_are_walkable(doc);
    let last = doc.last_inside(n, steps);
    n.number() < inner.number() && inner.number() <= last.number()
}

/// The next node that a walk goes over.
fn next_on<L: Ledger>(doc: &Doc<'_>, way: &Way, n: NodeId, steps: &mut Steps<L>) -> Option<NodeId>
    requires within { n < length doc.now.nodes }
    requires on { is_on_way way.now (tree_node (tree_nodes doc.now) n) ≡ true }
    ensures next { result ≡ first_that (is_on_way way.now) (behind n (tree_nodes doc.now)) }
    ensures within { IfSome result (λ m. (n < m) × (m < length doc.now.nodes)) }
{
    documents_are_walkable(doc);
    match way {
        Way::All => doc.next_node(n, steps),
        Way::Before(_) => doc.next_node(n, steps),
        Way::Children(_) => doc.next_sibling(n, steps),
        Way::Attributes(_) => doc.next_attribute(n, steps),
    }
}
