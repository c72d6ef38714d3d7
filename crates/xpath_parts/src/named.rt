//! Walks along the chain of a full name: `//n`, and `.//n` at the focus.
ghost use Rattle.std.specs.Prelude.{◌≡◌, ◌<◌, [], true, false, length, Some, IfOk, IfSome, IfNone};
ghost use Rattle.node_arena.specs.Moves.{tree_nodes};
ghost use Rattle.xpath_meaning.specs.Steps as steps_spec;
ghost use Rattle.xpath_meaning.specs.Values.{value};
ghost use Rattle.xpath_plan.specs.declared.plan_node.PlanNode.TheVariants as w;
ghost use Rattle.xpath_plan.specs.Plans.{seen, test_seen};
ghost use Rattle.xpath_parts.specs.Contexts.{IsReady, count, value_in};
ghost use Rattle.xpath_parts.specs.Named as spec;
ghost use Rattle.xpath_steps.specs.Variables.{ValueWithin};
ghost use Rattle.xpath_walks.specs.Walks.{Bounds, chain_of};

use crate::dynamic::DynamicContext;
use inv_base::Steps;
use node_arena::NodeId;
use std::alloc::AllocError;
use std::sync::ledger::Ledger;
use xpath_grammar::step::Axis;
use xpath_items::{Focus, Item, Outcome};
use xpath_plan::plan_node::{Operation, PlanNode, Separator, Simple, StepTest};
use xpath_steps::inside_named;
use xpath_tokens::token::Operator;

/// A walk to the elements of one of the plan's names, by its number: to those of the whole document, or to those inside
/// the focus.
#[derive(Clone, Copy)]
pub struct Walk {
    pub name: usize,
    pub is_leading: bool,
}

fn name_of(test: &StepTest) -> Option<usize>
    ensures { result ≡ spec.name_of test.now }
{
    match test {
        StepTest::Named(k) => Some(*k),
        _ => None,
    }
}

fn name_on(axis: Axis, test: &StepTest) -> Option<usize>
    ensures { result ≡ spec.name_on axis test.now }
{
    match axis {
        Axis::Child => name_of(test),
        _ => None,
    }
}

/// Which of the plan's names the nodes have that it leads to, where it is a step to children of a full name.
pub fn child_name(simple: &Simple) -> Option<usize>
    ensures name { result ≡ spec.child_name simple.now }
    ensures step { IfSome result (λ k. simple.now ≡ Simple.Step Axis.Child (StepTest.Named k)) }
{
    match simple {
        Simple::Step(axis, test) => name_on(*axis, test),
        _ => None,
    }
}

/// The same of any work. One with parts is no step alone.
pub fn step_name(work: &PlanNode) -> Option<usize>
    ensures name { result ≡ spec.step_name work.now }
    ensures step { IfSome result (λ k. work.now ≡ w.Simple (Simple.Step Axis.Child (StepTest.Named k))) }
{
    match work {
        PlanNode::Simple(simple) => child_name(simple),
        PlanNode::Node(_, _) => None,
    }
}

fn is_double_slash(link: Separator) -> bool
    ensures { result ≡ spec.is_double_slash link }
{
    match link {
        Separator::Operator(Operator::DoubleSlash) => true,
        _ => false,
    }
}

fn is_other(link: Separator) -> bool
    ensures { result ≡ spec.is_other link }
{
    match link {
        Separator::Other => true,
        _ => false,
    }
}

/// The number of the name, of `//` and a step to children of a full name.
fn inner_name(part: &(Separator, PlanNode)) -> Option<usize>
    ensures form { result ≡ spec.inner_name part.now.0 (spec.form part.now.1) }
    ensures part { IfSome result (λ k. part.now ≡ spec.inner_part k) }
{
    if is_double_slash(part.0) {
        step_name(&part.1)
    } else {
        None
    }
}

fn is_item(simple: &Simple) -> bool
    ensures form { result ≡ spec.is_item simple.now }
    ensures item { result ≡ true → simple.now ≡ Simple.Item }
{
    match simple {
        Simple::Item => true,
        _ => false,
    }
}

/// Whether the work is `.`.
fn is_item_alone(work: &PlanNode) -> bool
    ensures form { result ≡ spec.is_item_form (spec.form work.now) }
    ensures item { result ≡ true → work.now ≡ w.Simple Simple.Item }
{
    match work {
        PlanNode::Simple(simple) => is_item(simple),
        PlanNode::Node(_, _) => false,
    }
}

/// Whether the part is `.`, as the first of a path.
fn is_focus(part: &(Separator, PlanNode)) -> bool
    ensures form { result ≡ spec.is_focus part.now.0 (spec.form part.now.1) }
    ensures part { result ≡ true → part.now ≡ spec.focus_part }
{
    if is_other(part.0) {
        is_item_alone(&part.1)
    } else {
        false
    }
}

fn as_walk(is_leading: bool, name: Option<usize>) -> Option<Walk>
    ensures { result ≡ spec.as_walk is_leading name }
{
    match name {
        Some(name) => Some(Walk { name, is_leading }),
        None => None,
    }
}

/// The walk that a chain is.
fn chain_walk(parts: &[(Separator, PlanNode)]) -> Option<Walk>
    ensures form { result ≡ spec.chain_walk (spec.forms parts.now) }
    ensures parts { IfSome result (λ walk. parts.now ≡ spec.walk_parts walk) }
{
    match parts {
        [part] => as_walk(true, inner_name(part)),
        [first, part] if is_focus(first) => as_walk(false, inner_name(part)),
        _ => None,
    }
}

/// Whether its parts are operands with operators between them.
pub fn is_chain(kind: &Operation) -> bool
    ensures { result ≡ spec.is_chain kind.now }
{
    match kind {
        Operation::Chain => true,
        _ => false,
    }
}

/// The walk that the kind makes of its parts.
fn walk_by(kind: &Operation, parts: &[(Separator, PlanNode)]) -> Option<Walk>
    ensures form { result ≡ spec.plain_walk (w.Node kind.now parts.now) }
    ensures work { IfSome result (λ walk. w.Node kind.now parts.now ≡ w.Node Operation.Chain (spec.walk_parts walk)) }
{
    if is_chain(kind) {
        chain_walk(parts)
    } else {
        None
    }
}

/// The walk that a work is, whose value isn't kept.
pub fn walk_in(work: &PlanNode) -> Option<Walk>
    ensures form { result ≡ spec.plain_walk work.now }
    ensures work { IfSome result (λ walk. work.now ≡ w.Node Operation.Chain (spec.walk_parts walk)) }
{
    match work {
        PlanNode::Simple(_) => None,
        PlanNode::Node(kind, parts) => walk_by(kind, parts.as_slice()),
    }
}

/// The node of a focus.
pub fn node_of(item: &Item<'_>) -> Option<NodeId>
    ensures some { IfSome result (λ n. item.now ≡ Item.Node n) }
    ensures none { IfNone result (steps_spec.is_node item.now ≡ false) }
{
    match item {
        Item::Node(n) => Some(*n),
        _ => None,
    }
}

/// The node that a walk is taken from, at a focus on this one.
fn begin_at(dynamic: &DynamicContext<'_, '_>, walk: Walk, n: NodeId) -> NodeId
    requires { n < count dynamic.now }
    ensures begin { result ≡ spec.begin_by walk.is_leading n }
    ensures within { result < count dynamic.now }
{
    if walk.is_leading {
        dynamic.doc.document()
    } else {
        n
    }
}

/// The value of a walk at a focus on a node.
pub fn walked<'a, L: Ledger>(
    dynamic: &DynamicContext<'_, 'a>,
    walk: Walk,
    focus: &Focus<'a>,
    n: NodeId,
    steps: &mut Steps<L>,
) -> Result<Outcome<'a>, AllocError>
    requires ready { IsReady dynamic.now focus.now [] }
    requires focus { focus.now.item ≡ Item.Node n }
    ensures value { IfOk result (λ outcome. value outcome ≡ value_in dynamic.now (seen dynamic.now.names.now (w.Node Operation.Chain (spec.walk_parts walk)))
        focus.now
        []) }
    ensures within { IfOk result (λ outcome. ValueWithin (count dynamic.now) (value outcome)) }
    ensures cost { Bounds (length (chain_of (tree_nodes dynamic.now.doc.now) (test_seen dynamic.now.names.now (StepTest.Named walk.name)))) walk.is_leading
        result
        steps.old steps.new }
{
    let from = begin_at(dynamic, walk, n);
    let found = inside_named(
        dynamic.alloc,
        dynamic.doc,
        walk.name,
        dynamic.numbers,
        from,
        steps,
    )?;
    Ok(Outcome::Value(found))
}
