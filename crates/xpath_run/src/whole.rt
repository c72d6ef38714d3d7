//! A plan whose whole expression is one part that is kept.
ghost use Rattle.std.specs.Prelude.{◌≡◌, ℕ, [], true, length, get_or, Some, None, IfOk, IfSome, IfNone};
ghost use Rattle.node_arena.specs.Moves.{tree_nodes};
ghost use Rattle.xpath_meaning.specs.Steps.{is_node};
ghost use Rattle.xpath_meaning.specs.Values.{Value, value};
ghost use Rattle.xpath_plan.specs.Plans.{seen, test_seen};
ghost use Rattle.xpath_plan.specs.declared.plan_node.PlanNode.TheVariants as w;
ghost use Rattle.xpath_steps.specs.Variables.{ValueWithin};
ghost use Rattle.xpath_parts.specs.Contexts.{IsReady, count, value_in};
ghost use Rattle.xpath_parts.specs.Slots.{AreHeld, Grows, PlacedWork, table, whole_slot};
ghost use Rattle.xpath_parts.specs.Named.{IsEmptyAt, plain_walk, walk_of};
ghost use Rattle.xpath_parts.specs.Whole as spec;
ghost use Rattle.xpath_parts.specs.declared.named.Walk.{Walk};
ghost use Rattle.xpath_walks.specs.Walks.{Bounds, chain_of};

use crate::evaluating::evaluate;
use inv_base::Steps;
use std::alloc::AllocError;
use std::sync::ledger::Ledger;
use xpath_items::{Focus, Outcome};
use xpath_operators::outcome;
use xpath_parts::{DynamicContext, Slots, node_of, walk_in, walked};
use xpath_plan::plan_node::{Operation, PlanNode, Separator, StepTest};
use xpath_steps::{copy_of, is_node};

/// The slot and the part of a work that is one part that is kept, with no variable around it.
fn whole_part(work: &PlanNode) -> Option<(usize, &PlanNode)>
    ensures some { IfSome result (λ found. spec.IsWhole work.now found.0 found.1.now) }
    ensures none { IfNone result (whole_slot work.now ≡ None) }
{
    match work {
        PlanNode::Simple(_) => None,
        PlanNode::Node(kind, parts) => whole_in(kind, parts.as_slice()),
    }
}

fn whole_in<'w>(
    kind: &Operation,
    parts: &'w [(Separator, PlanNode)],
) -> Option<(usize, &'w PlanNode)>
    ensures some { IfSome result (λ found. spec.IsWhole (w.Node kind.now parts.now) found.0 found.1.now) }
    ensures none { IfNone result (whole_slot (w.Node kind.now parts.now) ≡ None) }
{
    match kind {
        Operation::Once(slot, height) => match parts {
            [(_, part), ..] if *height == 0 => Some((*slot, part)),
            _ => None,
        },
        _ => None,
    }
}

/// The value of a work at a focus. Where it is one part that is kept, what its slot holds.
pub(crate) fn run_whole<'a, L: Ledger>(
    dynamic: &DynamicContext<'_, 'a>,
    work: &'a PlanNode,
    focus: &Focus<'a>,
    slots: &mut Slots<'a>,
    steps: &mut Steps<L>,
) -> Result<Outcome<'a>, AllocError>
    requires ready { IsReady dynamic.now focus.now [] }
    requires placed { PlacedWork dynamic.now work.now }
    requires slots { AreHeld dynamic.now slots.old }
    requires long { length slots.old ≡ length (table dynamic.now) }
    ensures value { IfOk result (λ outcome. value outcome ≡ value_in dynamic.now (seen dynamic.now.names.now work.now) focus.now []) }
    ensures within { IfOk result (λ outcome. ValueWithin (count dynamic.now) (value outcome)) }
    ensures held { AreHeld dynamic.now slots.new }
    ensures grown { Grows slots.old slots.new }
    ensures filled { (slot : ℕ) → whole_slot work.now ≡ Some slot → is_node focus.now.item ≡ true
        → IfOk result (λ outcome. get_or slots.new slot None ≡ Some (value outcome)) }
    ensures free { (slot : ℕ) (v : Value) → whole_slot work.now ≡ Some slot → is_node focus.now.item ≡ true
        → get_or slots.old slot None ≡ Some v → steps.new ≡ steps.old }
    ensures cost { (walk : Walk) → walk_of work.now ≡ Some walk → IsEmptyAt work.now slots.old → is_node focus.now.item ≡ true
        → Bounds (length (chain_of (tree_nodes dynamic.now.doc.now) (test_seen dynamic.now.names.now (StepTest.Named walk.name)))) walk.is_leading result
        steps.old steps.new }
{
    let Some((slot, part)) = whole_part(work) else {
        return plainly(dynamic, work, focus, slots, steps);
    };
    if !is_node(&focus.item) {
        return plainly(dynamic, work, focus, slots, steps);
    }
    if let Some(kept) = slots.lent(slot) {
        return outcome(copy_of(dynamic.alloc, kept));
    }
    let found = plainly(dynamic, part, focus, slots, steps)?;
    slots.fill(dynamic.alloc, slot, found)
}

/// The value of a work at a focus, by a walk along the chain of its name where it is one.
fn plainly<'a, L: Ledger>(
    dynamic: &DynamicContext<'_, 'a>,
    work: &'a PlanNode,
    focus: &Focus<'a>,
    slots: &mut Slots<'a>,
    steps: &mut Steps<L>,
) -> Result<Outcome<'a>, AllocError>
    requires ready { IsReady dynamic.now focus.now [] }
    requires placed { PlacedWork dynamic.now work.now }
    requires slots { AreHeld dynamic.now slots.old }
    ensures value { IfOk result (λ outcome. value outcome ≡ value_in dynamic.now (seen dynamic.now.names.now work.now) focus.now []) }
    ensures within { IfOk result (λ outcome. ValueWithin (count dynamic.now) (value outcome)) }
    ensures held { AreHeld dynamic.now slots.new }
    ensures grown { Grows slots.old slots.new }
    ensures cost { (walk : Walk) → plain_walk work.now ≡ Some walk → is_node focus.now.item ≡ true
        → Bounds (length (chain_of (tree_nodes dynamic.now.doc.now) (test_seen dynamic.now.names.now (StepTest.Named walk.name)))) walk.is_leading result
        steps.old steps.new }
{
    match walk_in(work) {
        Some(walk) => match node_of(&focus.item) {
            Some(n) => walked(dynamic, walk, focus, n, steps),
            None => by_cycle(dynamic, work, focus, slots, steps),
        },
        None => by_cycle(dynamic, work, focus, slots, steps),
    }
}

/// The value of a work at a focus.
fn by_cycle<'a, L: Ledger>(
    dynamic: &DynamicContext<'_, 'a>,
    work: &'a PlanNode,
    focus: &Focus<'a>,
    slots: &mut Slots<'a>,
    steps: &mut Steps<L>,
) -> Result<Outcome<'a>, AllocError>
    requires ready { IsReady dynamic.now focus.now [] }
    requires placed { PlacedWork dynamic.now work.now }
    requires slots { AreHeld dynamic.now slots.old }
    ensures value { IfOk result (λ outcome. value outcome ≡ value_in dynamic.now (seen dynamic.now.names.now work.now) focus.now []) }
    ensures within { IfOk result (λ outcome. ValueWithin (count dynamic.now) (value outcome)) }
    ensures held { AreHeld dynamic.now slots.new }
    ensures grown { Grows slots.old slots.new }
{
    let mut bound = Vec::new(dynamic.alloc);
    let found = evaluate(dynamic, work, focus, &mut bound, slots, steps);
    outcome(found)
}
