//! Sets of nodes (XPath 2.0, section 3.3.3).
ghost use Rattle.std.specs.Prelude.{◌≡◌, ℕ, ◌++◌, filter, length, IfOk};
ghost use Rattle.std.specs.List.Sorted.{IsNonDecreasing};
ghost use Rattle.inv_base.specs.Tree.{is_among};
ghost use Rattle.node_arena.specs.Moves.{tree_nodes};
ghost use Rattle.xpath_items.specs.Faults.{Gives};
ghost use Rattle.xpath_meaning.specs.Steps as meaning;
ghost use Rattle.xpath_operators.specs.Nodes.{AreWithin};
ghost use Rattle.xpath_steps.specs.Sets as spec;

use crate::nodes::{all_nodes, nodes_among, ordered};
use node_arena::{Doc, NodeId};
use std::alloc::{AllocError, Global};
use xpath_items::{DynError, Fault, Item, Seq};
use xpath_tokens::token::Operator;
use xpath_walks::documents_are_walkable;

/// The nodes sorted.
fn sorted(nodes: Vec<NodeId>) -> Vec<NodeId>
    ensures sorted { IsNonDecreasing result.items }
    ensures same { (n : ℕ) → is_among n result.items ≡ is_among n nodes.items }
{
    let mut sorted = nodes;
    sorted.sort_unstable();
    sorted
}

/// Whether a node is among sorted ones.
fn is_found(nodes: &[NodeId], n: NodeId) -> bool
    requires { IsNonDecreasing nodes.now }
    ensures { result ≡ is_among n nodes.now }
{
    nodes.binary_search(&n).is_ok()
}

/// Whether a node is among sorted ones, or isn't, as it is wanted.
fn is_wanted(others: &[NodeId], wanted: bool, n: NodeId) -> bool
    requires { IsNonDecreasing others.now }
    ensures { result ≡ spec.is_wanted wanted (is_among n others.now) }
{
    if wanted {
        is_found(others, n)
    } else {
        !is_found(others, n)
    }
}

/// Those of the nodes that are among the sorted ones, or those that aren't.
fn those_in(
    alloc: Global,
    nodes: &[NodeId],
    others: &[NodeId],
    wanted: bool,
) -> Result<Vec<NodeId>, AllocError>
    requires { IsNonDecreasing others.now }
    ensures { IfOk result (λ found. found.items ≡ filter (λ n. spec.is_wanted wanted (is_among n others.now)) nodes.now) }
{
    let mut found = Vec::new(alloc);
    'nodes: for n in nodes {
        if is_wanted(others, wanted, *n) {
            found.push(*n)?;
        }
    }
    Ok(found)
}

/// The nodes of both.
fn all_of(nodes: Vec<NodeId>, others: &[NodeId]) -> Result<Vec<NodeId>, AllocError>
    ensures { IfOk result (λ all. all.items ≡ nodes.items ++ others.now) }
{
    let mut all = nodes;
    all.extend_from_slice(others)?;
    Ok(all)
}

/// The nodes of a set of two, in any order, some of them perhaps twice.
fn combined(
    alloc: Global,
    operator: Operator,
    xs: Vec<NodeId>,
    ys: Vec<NodeId>,
) -> Result<Vec<NodeId>, AllocError>
    ensures { IfOk result (λ nodes. (n : ℕ) → is_among n nodes.items ≡ spec.is_in_both operator (is_among n xs.items) (is_among n ys.items)) }
{
    match operator {
        Operator::Intersect => those_in(alloc, &xs, &sorted(ys), true),
        Operator::Except => those_in(alloc, &xs, &sorted(ys), false),
        _ => all_of(xs, &ys),
    }
}

/// `|` and `union`, `intersect` and `except` of two values of nodes: nodes in document order, each once. Where an item is no node
/// it is XPTY0004.
pub fn set_of<'a>(
    alloc: Global,
    doc: &Doc<'_>,
    operator: Operator,
    xs: &[Item<'_>],
    ys: &[Item<'_>],
) -> Result<Seq<'a>, Fault>
    requires xs { AreWithin (length doc.now.nodes) xs.now }
    requires ys { AreWithin (length doc.now.nodes) ys.now }
    ensures value { Gives result (meaning.set_of (tree_nodes doc.now) operator xs.now ys.now) }
    ensures within { IfOk result (λ found. AreWithin (length doc.now.nodes) found) }
{
    documents_are_walkable(doc);
    if !all_nodes(xs) || !all_nodes(ys) {
        return Err(Fault::Error(DynError::XPTY0004));
    }
    let left = nodes_among(alloc, xs)?;
    let right = nodes_among(alloc, ys)?;
    let nodes = combined(alloc, operator, left, right)?;
    Ok(ordered(alloc, doc, nodes)?)
}
