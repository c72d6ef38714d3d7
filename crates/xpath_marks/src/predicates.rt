//! What the predicates of a pattern's step keep of its nodes.
ghost use Rattle.std.specs.Prelude.{◌≡◌, ◌<◌, ◌++◌, [], length, IfOk, OnOk};
ghost use Rattle.xpath_meaning.specs.Patterns as patterns;
ghost use Rattle.xpath_meaning.specs.Steps as meaning;
ghost use Rattle.xpath_meaning.specs.Values.{then_};
ghost use Rattle.xpath_plan.specs.Plans.{seen};
ghost use Rattle.xpath_parts.specs.Contexts.{IsReadyFor, count, operands_of};
ghost use Rattle.xpath_parts.specs.Slots.{AreHeld, PlacedParts, PlacedWork};
ghost use Rattle.xpath_walks.specs.Walks.{if_so};
ghost use Rattle.xpath_marks.specs.Marking as spec;
ghost use Rattle.xpath_marks.specs.Marking.{AreNodes};

use inv_base::Steps;
use node_arena::NodeId;
use std::alloc::AllocError;
use std::sync::ledger::Ledger;
use xpath_items::{DynError, Fault, Focus, Item};
use xpath_parts::{DynamicContext, Slots};
use xpath_plan::plan_node::{PlanNode, Separator};
use xpath_run::evaluate;
use xpath_steps::keeps;

/// Whether a predicate that comes to this keeps the node. An error doesn't.
fn is_kept(answer: Result<bool, DynError>) -> bool
    ensures { result ≡ patterns.is_kept answer }
{
    match answer {
        Ok(kept) => kept,
        Err(_) => false,
    }
}

/// Whether the predicate keeps the node, which is the one at that position of so many.
fn holds<'a, L: Ledger>(
    dynamic: &DynamicContext<'_, 'a>,
    predicate: &'a PlanNode,
    n: NodeId,
    position: u64,
    last: u64,
    slots: &mut Slots<'a>,
    steps: &mut Steps<L>,
) -> Result<bool, AllocError>
    requires ready { IsReadyFor dynamic.now [] }
    requires within { n < count dynamic.now }
    requires placed { PlacedWork dynamic.now predicate.now }
    requires slots { AreHeld dynamic.now slots.old }
    ensures kept { IfOk result (λ kept. kept ≡ patterns.is_kept
        (then_ (spec.judged dynamic.now (seen dynamic.now.names.now predicate.now) n position last) (meaning.keeps position))) }
    ensures held { AreHeld dynamic.now slots.new }
{
    let focus = Focus {
        item: Item::Node(n),
        position,
        last,
    };
    let mut bound = Vec::new(dynamic.alloc);
    match evaluate(dynamic, predicate, &focus, &mut bound, slots, steps) {
        Ok(value) => Ok(is_kept(keeps(position, &value))),
        Err(Fault::Memory) => Err(AllocError),
        Err(Fault::Error(_)) => Ok(false),
    }
}

/// Puts the node behind those that are kept, if it is.
fn put_if(is_kept: bool, n: NodeId, kept: &mut Vec<NodeId>) -> Result<(), AllocError>
    ensures { OnOk result (kept.new.items ≡ kept.old.items ++ if_so is_kept n) }
{
    if is_kept {
        kept.push(n)?;
    }
    Ok(())
}

/// The nodes that the predicate keeps. They are gone through in this order.
fn kept_by<'a, L: Ledger>(
    dynamic: &DynamicContext<'_, 'a>,
    predicate: &'a PlanNode,
    nodes: Vec<NodeId>,
    slots: &mut Slots<'a>,
    steps: &mut Steps<L>,
) -> Result<Vec<NodeId>, AllocError>
    requires ready { IsReadyFor dynamic.now [] }
    requires within { AreNodes dynamic.now nodes.items }
    requires placed { PlacedWork dynamic.now predicate.now }
    requires slots { AreHeld dynamic.now slots.old }
    ensures kept { IfOk result (λ kept. kept.items ≡ spec.kept_by dynamic.now (seen dynamic.now.names.now predicate.now) nodes.items) }
    ensures within { IfOk result (λ kept. AreNodes dynamic.now kept.items) }
    ensures held { AreHeld dynamic.now slots.new }
{
    let last = nodes.len() as u64;
    let mut kept = Vec::new(dynamic.alloc);
    'nodes: for (k, n) in nodes.iter().enumerate() {
        let is_kept = holds(dynamic, predicate, *n, k as u64 + 1, last, slots, steps)?;
        put_if(is_kept, *n, &mut kept)?;
    }
    Ok(kept)
}

/// The nodes that all predicates keep, each given what the one before it kept.
pub(crate) fn kept_by_all<'a, L: Ledger>(
    dynamic: &DynamicContext<'_, 'a>,
    predicates: &'a [(Separator, PlanNode)],
    nodes: Vec<NodeId>,
    slots: &mut Slots<'a>,
    steps: &mut Steps<L>,
) -> Result<Vec<NodeId>, AllocError>
    requires ready { IsReadyFor dynamic.now [] }
    requires within { AreNodes dynamic.now nodes.items }
    requires placed { PlacedParts dynamic.now predicates.now }
    requires slots { AreHeld dynamic.now slots.old }
    ensures kept { IfOk result (λ kept. kept.items ≡ spec.kept_by_all dynamic.now (operands_of dynamic.now.names.now predicates.now) nodes.items) }
    ensures within { IfOk result (λ kept. AreNodes dynamic.now kept.items) }
    ensures held { AreHeld dynamic.now slots.new }
{
    let mut nodes = nodes;
    'predicates: for predicate in predicates {
        nodes = kept_by(dynamic, &predicate.1, nodes, slots, steps)?;
    }
    Ok(nodes)
}
