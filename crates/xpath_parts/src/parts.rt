//! Parts of works.
ghost use Rattle.std.specs.Prelude.{◌≡◌, ◌≤◌, ◌<◌, ◌+◌, ◌∷◌, ◌++◌, [], drop, length, List, IfSome, IfNone, OnOk, false, if◌then◌else◌};
ghost use Rattle.inv_base.specs.Tree.{Name};
ghost use Rattle.xpath_meaning.specs.Expressions.{nothing};
ghost use Rattle.xpath_meaning.specs.Resolving.{in_axis_order, first_part, chained, step_of};
ghost use Rattle.xpath_plan.specs.Plans.{label_of, made, seen, simple_seen, test_seen};
ghost use Rattle.xpath_parts.specs.Contexts.{operands_of};
ghost use Rattle.xpath_parts.specs.Depths.{depth, deepest};
ghost use Rattle.xpath_parts.specs.declared.dynamic.DynamicContext.{DynamicContext};
ghost use Rattle.xpath_parts.specs.Slots.{PlacedWork, PlacedParts};
ghost use Rattle.xpath_parts.specs.Parts as spec;

use std::alloc::AllocError;
use std::mem;
use xpath_grammar::step::Axis;
use xpath_items::{Focus, Seq};
use xpath_plan::plan_node::{Operation, PlanNode, Separator, Simple, StepTest};

/// The part with the index.
pub fn part_at(parts: &[(Separator, PlanNode)], k: usize) -> &(Separator, PlanNode)
    requires { k < length parts.now }
    ensures { drop k parts.now ≡ result.now ∷ drop (k + 1) parts.now }
{
    &parts[k]
}

/// The axis and the test of a step without predicates.
fn step_in(x: &Simple) -> Option<(Axis, &StepTest)>
    ensures { (names : List Name) → IfSome result (λ step. simple_seen names x.now ≡ step_of step.0 (test_seen names step.1.now)) }
{
    match x {
        Simple::Step(axis, test) => Some((*axis, test)),
        _ => None,
    }
}

/// The same of a work that is one.
pub fn as_step(work: &PlanNode) -> Option<(Axis, &StepTest)>
    ensures { (names : List Name) → IfSome result (λ step. seen names work.now ≡ step_of step.0 (test_seen names step.1.now)) }
{
    match work {
        PlanNode::Simple(x) => step_in(x),
        PlanNode::Node(_, _) => None,
    }
}

/// The test of a step on the child axis without predicates, of a work that is one.
pub fn child_test(work: &PlanNode) -> Option<&StepTest>
    ensures { (names : List Name) → IfSome result (λ test. seen names work.now ≡ step_of Axis.Child (test_seen names test.now)) }
{
    let (axis, test) = as_step(work)?;
    match axis {
        Axis::Child => Some(test),
        _ => None,
    }
}

/// Whether an operator stands there.
pub fn is_operator(link: Separator) -> bool
    ensures { result ≡ spec.is_operator (label_of link) }
{
    match link {
        Separator::Operator(_) => true,
        Separator::Comma | Separator::Other => false,
    }
}

/// Whether it is a step with predicates.
pub fn is_filtered_step(kind: &Operation) -> bool
    ensures { result ≡ spec.is_filtered_step kind.now }
{
    match kind {
        Operation::FilteredStep | Operation::FreeStep => true,
        _ => false,
    }
}

/// The first part.
pub fn first(parts: &[(Separator, PlanNode)]) -> Option<&PlanNode>
    ensures some { (names : List Name) → IfSome result (λ work. first_part (operands_of names parts.now) ≡ seen names work.now) }
    ensures none { (names : List Name) → IfNone result (first_part (operands_of names parts.now) ≡ nothing) }
    ensures deeper { IfSome result (λ work. depth work.now ≤ deepest parts.now) }
    ensures placed { (base : DynamicContext) → PlacedParts base parts.now → IfSome result (λ work. PlacedWork base work.now) }
{
    match parts {
        [(_, work), ..] => Some(work),
        [] => None,
    }
}

/// The only part.
pub fn only(parts: &[(Separator, PlanNode)]) -> Option<&PlanNode>
    ensures some { (names : List Name) → IfSome result (λ work. spec.IsOnly (operands_of names parts.now) (seen names work.now)) }
    ensures none { (names : List Name) → IfNone result (spec.is_one (operands_of names parts.now) ≡ false) }
    ensures deeper { IfSome result (λ work. depth work.now ≤ deepest parts.now) }
    ensures placed { (base : DynamicContext) → PlacedParts base parts.now → IfSome result (λ work. PlacedWork base work.now) }
{
    match parts {
        [(_, work)] => Some(work),
        _ => None,
    }
}

/// Whether there is one part alone, and no operator before it.
fn is_plain_one(parts: &[(Separator, PlanNode)]) -> bool
    ensures { (names : List Name) → result ≡ spec.is_plain_one (operands_of names parts.now) }
{
    match parts {
        [(Separator::Comma | Separator::Other, _)] => true,
        _ => false,
    }
}

/// The part that a chain is, where it is nothing else.
fn only_operand(parts: &[(Separator, PlanNode)]) -> Option<&PlanNode>
    ensures some { (names : List Name) → IfSome result (λ work. chained (operands_of names parts.now) ≡ seen names work.now) }
    ensures none { (names : List Name) → IfNone result (in_axis_order (chained (operands_of names parts.now)) ≡ chained (operands_of names parts.now)) }
    ensures deeper { IfSome result (λ work. depth work.now ≤ deepest parts.now) }
    ensures placed { (base : DynamicContext) → PlacedParts base parts.now → IfSome result (λ work. PlacedWork base work.now) }
{
    if is_plain_one(parts) {
        only(parts)
    } else {
        None
    }
}

/// The part that a work is, where it is nothing else. None of a step with predicates.
pub fn sole<'w>(kind: &Operation, parts: &'w [(Separator, PlanNode)]) -> Option<&'w PlanNode>
    ensures some { (names : List Name) → IfSome result (λ work. made kind.now (operands_of names parts.now) ≡ seen names work.now) }
    ensures none { spec.is_filtered_step kind.now ≡ false → (names : List Name)
        → IfNone result (in_axis_order (made kind.now (operands_of names parts.now)) ≡ made kind.now (operands_of names parts.now)) }
    ensures deeper { IfSome result (λ work. depth work.now ≤ deepest parts.now) }
    ensures placed { (base : DynamicContext) → PlacedParts base parts.now → IfSome result (λ work. PlacedWork base work.now) }
{
    match kind {
        Operation::Only => first(parts),
        Operation::Once(_, _) => first(parts),
        Operation::Bound(_) => only(parts),
        Operation::Filtered => only(parts),
        Operation::Chain => only_operand(parts),
        _ => None,
    }
}

/// Whether a slot would save nothing for the work: it has no parts, or stands in parentheses and is kept inside them.
pub fn is_light(work: &PlanNode) -> bool {
    match work {
        PlanNode::Simple(_) => true,
        PlanNode::Node(Operation::Only, _) => true,
        PlanNode::Node(_, _) => false,
    }
}

/// Puts what was found at the focus behind the others. Where it is the first, it is taken as it is.
pub fn append_found<'a>(
    out: &mut Seq<'a>,
    found: Seq<'a>,
    focus: Focus<'a>,
) -> Result<(), AllocError>
    ensures { OnOk result (out.new ≡ out.old ++ found.entry) }
{
    drop(focus);
    if out.len() == 0 {
        drop(mem::replace(out, found));
        return Ok(());
    }
    out.append(found)
}

/// Puts the item of the focus behind the others, if it is kept.
pub fn keep_if<'a>(kept: &mut Seq<'a>, is_kept: bool, focus: Focus<'a>) -> Result<(), AllocError>
    ensures { OnOk result (kept.new ≡ kept.old ++ (if is_kept then focus.entry.item ∷ [] else [])) }
{
    if is_kept {
        kept.push(focus.item)?;
    }
    Ok(())
}
