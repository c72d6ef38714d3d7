//! What a step of a pattern finds, with its predicates.
ghost use Rattle.std.specs.Prelude.{◌≡◌, ◌<◌, [], IfOk, OnOk};
ghost use Rattle.xpath_plan.specs.Plans.{seen, made, simple_seen};
ghost use Rattle.xpath_parts.specs.Contexts.{IsReadyFor, count, operands_of};
ghost use Rattle.xpath_parts.specs.Slots.{AreHeld, PlacedParts, PlacedWork};
ghost use Rattle.xpath_marks.specs.Marking as spec;
ghost use Rattle.xpath_marks.specs.Marking.{AreNodes, Turned, Reached};

use crate::predicates::kept_by_all;
use inv_base::Steps;
use node_arena::NodeId;
use std::alloc::AllocError;
use std::sync::ledger::Ledger;
use xpath_parts::parts::is_operator;
use xpath_parts::{DynamicContext, Slots};
use xpath_plan::plan_node::{Operation, PlanNode, Separator, Simple};
use xpath_walks::{Step, axis_nodes, documents_are_walkable, in_order};

/// Puts what a step without predicates finds at the node behind the others.
fn simple_turn<L: Ledger>(
    dynamic: &DynamicContext<'_, '_>,
    simple: &Simple,
    n: NodeId,
    out: &mut Vec<NodeId>,
    steps: &mut Steps<L>,
) -> Result<(), AllocError>
    requires ready { IsReadyFor dynamic.now [] }
    requires within { n < count dynamic.now }
    requires out { AreNodes dynamic.now out.old.items }
    ensures turned { OnOk result (Turned dynamic.now (simple_seen dynamic.now.names.now simple.now) n out.old.items out.new.items) }
    ensures within { OnOk result (AreNodes dynamic.now out.new.items) }
{
    documents_are_walkable(dynamic.doc);
    match simple {
        Simple::Step(axis, test) => {
            let step = Step {
                axis: *axis,
                test,
                numbers: dynamic.numbers,
            };
            axis_nodes(dynamic.doc, &step, n, out, steps)
        }
        _ => Ok(()),
    }
}

/// Puts what the step finds at the node behind the others. What is no step puts anything.
#[cycle(turning)]
fn turn<'a, L: Ledger>(
    dynamic: &DynamicContext<'_, 'a>,
    work: &'a PlanNode,
    n: NodeId,
    out: &mut Vec<NodeId>,
    slots: &mut Slots<'a>,
    steps: &mut Steps<L>,
) -> Result<(), AllocError>
    requires ready { IsReadyFor dynamic.now [] }
    requires within { n < count dynamic.now }
    requires out { AreNodes dynamic.now out.old.items }
    requires placed { PlacedWork dynamic.now work.now }
    requires slots { AreHeld dynamic.now slots.old }
    ensures turned { OnOk result (Turned dynamic.now (seen dynamic.now.names.now work.now) n out.old.items out.new.items) }
    ensures within { OnOk result (AreNodes dynamic.now out.new.items) }
    ensures held { AreHeld dynamic.now slots.new }
{
    match work {
        PlanNode::Simple(simple) => simple_turn(dynamic, simple, n, out, steps),
        PlanNode::Node(kind, parts) => turn_by(
            dynamic,
            kind,
            parts.as_slice(),
            n,
            out,
            slots,
            steps,
        ),
    }
}

/// Whether what the kind makes of its parts is the first part: the only part of a chain or of predicates, or a part in parentheses.
pub(crate) fn is_first_part(kind: &Operation, link: Separator, alone: bool) -> bool
    ensures { result ≡ spec.is_first_part kind.now link alone }
{
    match kind {
        Operation::Only | Operation::Once(_, _) => true,
        Operation::Filtered | Operation::Bound(_) => alone,
        Operation::Chain => alone && !is_operator(link),
        _ => false,
    }
}

pub(crate) fn is_filter(kind: &Operation) -> bool
    ensures { result ≡ spec.is_filter kind.now }
{
    match kind {
        Operation::FilteredStep | Operation::FreeStep | Operation::Filtered => true,
        _ => false,
    }
}

/// The same by what the parts are made to.
#[cycle(turning)]
fn turn_by<'a, L: Ledger>(
    dynamic: &DynamicContext<'_, 'a>,
    kind: &Operation,
    parts: &'a [(Separator, PlanNode)],
    n: NodeId,
    out: &mut Vec<NodeId>,
    slots: &mut Slots<'a>,
    steps: &mut Steps<L>,
) -> Result<(), AllocError>
    requires ready { IsReadyFor dynamic.now [] }
    requires within { n < count dynamic.now }
    requires out { AreNodes dynamic.now out.old.items }
    requires placed { PlacedParts dynamic.now parts.now }
    requires slots { AreHeld dynamic.now slots.old }
    ensures turned { OnOk result (Turned dynamic.now (made kind.now (operands_of dynamic.now.names.now parts.now)) n out.old.items out.new.items) }
    ensures within { OnOk result (AreNodes dynamic.now out.new.items) }
    ensures held { AreHeld dynamic.now slots.new }
{
    let Some((first, others)) = parts.split_first() else {
        return Ok(());
    };
    if is_first_part(kind, first.0, others.is_empty()) {
        turn(dynamic, &first.1, n, out, slots, steps)
    } else if is_filter(kind) {
        filtered(dynamic, &first.1, others, n, out, slots, steps)
    } else {
        Ok(())
    }
}

/// Puts what the first part finds at the node and all predicates behind it keep behind the others.
#[cycle(turning)]
fn filtered<'a, L: Ledger>(
    dynamic: &DynamicContext<'_, 'a>,
    first: &'a PlanNode,
    predicates: &'a [(Separator, PlanNode)],
    n: NodeId,
    out: &mut Vec<NodeId>,
    slots: &mut Slots<'a>,
    steps: &mut Steps<L>,
) -> Result<(), AllocError>
    requires ready { IsReadyFor dynamic.now [] }
    requires within { n < count dynamic.now }
    requires out { AreNodes dynamic.now out.old.items }
    requires first { PlacedWork dynamic.now first.now }
    requires placed { PlacedParts dynamic.now predicates.now }
    requires slots { AreHeld dynamic.now slots.old }
    ensures turned { OnOk result (spec.Filtered dynamic.now (seen dynamic.now.names.now first.now)
        (operands_of dynamic.now.names.now predicates.now) n out.old.items out.new.items) }
    ensures within { OnOk result (AreNodes dynamic.now out.new.items) }
    ensures held { AreHeld dynamic.now slots.new }
{
    let mut nodes = Vec::new(dynamic.alloc);
    turn(dynamic, first, n, &mut nodes, slots, steps)?;
    let mut kept = kept_by_all(dynamic, predicates, nodes, slots, steps)?;
    out.append(&mut kept)?;
    Ok(())
}

/// The nodes that the step leads to from these, in document order.
pub(crate) fn reached<'a, L: Ledger>(
    dynamic: &DynamicContext<'_, 'a>,
    work: &'a PlanNode,
    from: &[NodeId],
    slots: &mut Slots<'a>,
    steps: &mut Steps<L>,
) -> Result<Vec<NodeId>, AllocError>
    requires ready { IsReadyFor dynamic.now [] }
    requires from { AreNodes dynamic.now from.now }
    requires placed { PlacedWork dynamic.now work.now }
    requires slots { AreHeld dynamic.now slots.old }
    ensures reached { IfOk result (λ found. Reached dynamic.now (seen dynamic.now.names.now work.now) from.now found.items) }
    ensures within { IfOk result (λ found. AreNodes dynamic.now found.items) }
    ensures held { AreHeld dynamic.now slots.new }
{
    let mut out = Vec::new(dynamic.alloc);
    'from: for n in from {
        turn(dynamic, work, *n, &mut out, slots, steps)?;
    }
    documents_are_walkable(dynamic.doc);
    Ok(in_order(out))
}
