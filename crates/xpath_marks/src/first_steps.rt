//! First steps of patterns to children of a name, along the document's elements of that name.
ghost use Rattle.std.specs.Prelude.{◌≡◌, ◌<◌, ◌++◌, [], true, length, IfOk, IfSome, OnOk};
ghost use Rattle.xpath_plan.specs.Plans.{seen, test_seen};
ghost use Rattle.xpath_parts.specs.Contexts.{IsReadyFor, count};
ghost use Rattle.xpath_parts.specs.Slots.{AreHeld, PlacedWork};
ghost use Rattle.xpath_walks.specs.Walks.{Bounds, chain_of};
ghost use Rattle.xpath_marks.specs.FirstSteps as spec;
ghost use Rattle.xpath_marks.specs.FirstSteps.{GoesToChildren, all_around, around_at, elements_of};
ghost use Rattle.xpath_marks.specs.Marking.{AreNodes, FoundByStep, is_filter, nodes_of};

use crate::steps::{is_filter, reached};
use inv_base::Steps;
use node_arena::NodeId;
use std::alloc::AllocError;
use std::sync::ledger::Ledger;
use xpath_grammar::step::Axis;
use xpath_parts::{DynamicContext, Slots, step_name};
use xpath_plan::plan_node::{Operation, PlanNode, Simple, StepTest};
use xpath_walks::{documents_are_walkable, in_order, named_nodes};

/// Which of the plan's names the children have that the first part goes to, where the others are its predicates.
pub(crate) fn filtered_name(kind: &Operation, first: &PlanNode) -> Option<usize>
    ensures name { result ≡ spec.filtered_name kind.now first.now }
    ensures filter { IfSome result (λ k. is_filter kind.now ≡ true) }
    ensures step { IfSome result (λ k. first.now ≡ PlanNode.Simple (Simple.Step Axis.Child (StepTest.Named k))) }
{
    if is_filter(kind) {
        step_name(first)
    } else {
        None
    }
}

/// The document's elements of the plan's k-th name.
pub(crate) fn all_of_name<L: Ledger>(
    dynamic: &DynamicContext<'_, '_>,
    k: usize,
    steps: &mut Steps<L>,
) -> Result<Vec<NodeId>, AllocError>
    requires { IsReadyFor dynamic.now [] }
    ensures found { IfOk result (λ found. found.items ≡ elements_of dynamic.now k) }
    ensures within { IfOk result (λ found. AreNodes dynamic.now found.items) }
    ensures cost { Bounds (length (chain_of (nodes_of dynamic.now) (test_seen dynamic.now.names.now (StepTest.Named k)))) true result steps.old steps.new }
{
    documents_are_walkable(dynamic.doc);
    let mut found = Vec::new(dynamic.alloc);
    let document = dynamic.doc.document();
    named_nodes(dynamic.doc, k, dynamic.numbers, document, &mut found, steps)?;
    Ok(found)
}

/// Puts the node around this one behind the others.
fn put_around<L: Ledger>(
    dynamic: &DynamicContext<'_, '_>,
    n: NodeId,
    out: &mut Vec<NodeId>,
    steps: &mut Steps<L>,
) -> Result<(), AllocError>
    requires within { n < count dynamic.now }
    requires out { AreNodes dynamic.now out.old.items }
    ensures put { OnOk result (out.new.items ≡ out.old.items ++ around_at (nodes_of dynamic.now) n) }
    ensures within { OnOk result (AreNodes dynamic.now out.new.items) }
{
    match dynamic.doc.parent(n, steps) {
        Some(around) => {
            out.push(around)?;
            Ok(())
        }
        None => Ok(()),
    }
}

/// The nodes around these, each once, in document order.
fn around<L: Ledger>(
    dynamic: &DynamicContext<'_, '_>,
    from: &[NodeId],
    steps: &mut Steps<L>,
) -> Result<Vec<NodeId>, AllocError>
    requires { AreNodes dynamic.now from.now }
    ensures around { IfOk result (λ found. found.items ≡ all_around (nodes_of dynamic.now) from.now) }
    ensures within { IfOk result (λ found. AreNodes dynamic.now found.items) }
{
    let mut out = Vec::new(dynamic.alloc);
    'from: for n in from {
        put_around(dynamic, *n, &mut out, steps)?;
    }
    documents_are_walkable(dynamic.doc);
    Ok(in_order(out))
}

/// What a step to children of the plan's k-th name and its predicates find from some node: what they find from the
/// nodes around the elements of that name.
pub(crate) fn from_around<'a, L: Ledger>(
    dynamic: &DynamicContext<'_, 'a>,
    work: &'a PlanNode,
    k: usize,
    slots: &mut Slots<'a>,
    steps: &mut Steps<L>,
) -> Result<Vec<NodeId>, AllocError>
    requires ready { IsReadyFor dynamic.now [] }
    requires children { GoesToChildren dynamic.now k (seen dynamic.now.names.now work.now) }
    requires placed { PlacedWork dynamic.now work.now }
    requires slots { AreHeld dynamic.now slots.old }
    ensures marked { IfOk result (λ found. FoundByStep dynamic.now (seen dynamic.now.names.now work.now) found.items) }
    ensures within { IfOk result (λ found. AreNodes dynamic.now found.items) }
    ensures held { AreHeld dynamic.now slots.new }
{
    documents_are_walkable(dynamic.doc);
    let named = all_of_name(dynamic, k, steps)?;
    let from = around(dynamic, named.as_slice(), steps)?;
    drop(named);
    reached(dynamic, work, from.as_slice(), slots, steps)
}
