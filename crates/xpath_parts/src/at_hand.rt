//! Values that are at hand: those of variables, and of parts that are kept. They are lent where they lie.
ghost use Rattle.std.specs.Prelude.{◌≡◌, ◌≤◌, ◌<◌, None, true, get_or, length, IfOk, IfSome};
ghost use Rattle.node_arena.specs.Moves.{tree_nodes};
ghost use Rattle.xpath_items.specs.Faults.{Gives};
ghost use Rattle.xpath_meaning.specs.Steps as steps;
ghost use Rattle.xpath_meaning.specs.Values.{then_};
ghost use Rattle.xpath_operators.specs.Nodes.{AreWithin};
ghost use Rattle.xpath_plan.specs.Plans.{made, seen, simple_seen};
ghost use Rattle.xpath_parts.specs.Contexts.{IsReady, count, operands_of, value_in};
ghost use Rattle.xpath_parts.specs.Depths.{depth, deepest};
ghost use Rattle.xpath_parts.specs.Links as links;
ghost use Rattle.xpath_parts.specs.Sizes as sizes;
ghost use Rattle.xpath_parts.specs.Slots.{AreHeld, IsKeptHere, PlacedNode, PlacedParts, PlacedWork};
ghost use Rattle.xpath_steps.specs.Lending.{lent_value};
ghost use Rattle.xpath_steps.specs.Variables.{ValueWithin};

use crate::dynamic::DynamicContext;
use crate::linking::{operated_on, operator_on_items};
use crate::parts::{first, is_light, only, sole};
use crate::sizes::{Sizing, sized, sizing_in};
use crate::slots::Slots;
use xpath_items::{Fault, Focus, Item, Seq};
use xpath_plan::plan_node::{Operation, PlanNode, Separator, Simple};
use xpath_steps::{Lent, is_node, lent_at};
use xpath_tokens::token::Operator;

/// The value of a variable.
fn of_variable<'r, 'a>(
    dynamic: &'r DynamicContext<'_, 'a>,
    x: &Simple,
    focus: &Focus<'a>,
    bound: &'r [Item<'a>],
) -> Option<Lent<'r, 'a>>
    requires { IsReady dynamic.now focus.now bound.now }
    ensures value { IfSome result (λ found. lent_value found ≡ value_in dynamic.now (simple_seen dynamic.now.names.now x.now) focus.now bound.now) }
    ensures within { IfSome result (λ found. ValueWithin (count dynamic.now) (lent_value found)) }
{
    match x {
        Simple::Variable(height) => Some(Lent::Items(lent_at(bound, *height))),
        Simple::Outer(name) => Some(dynamic.env.lent(name.as_str())),
        _ => None,
    }
}

/// The slot of a part that is kept, where it is used: at a node, inside as many bound variables as the plan says.
fn slot_here(kind: &Operation, focus: &Focus<'_>, bound: &[Item<'_>]) -> Option<usize>
    ensures once { IfSome result (λ slot. kind.now ≡ Operation.Once slot (length bound.now)) }
    ensures node { IfSome result (λ slot. steps.is_node focus.now.item ≡ true) }
{
    match kind {
        Operation::Once(slot, height) => {
            if is_node(&focus.item) && bound.len() == *height {
                Some(*slot)
            } else {
                None
            }
        }
        _ => None,
    }
}

/// What the slot holds of a part that is kept.
fn of_slot<'r, 'a>(
    dynamic: &DynamicContext<'_, 'a>,
    kind: &Operation,
    parts: &[(Separator, PlanNode)],
    focus: &Focus<'a>,
    bound: &[Item<'a>],
    slots: &'r Slots<'a>,
) -> Option<Lent<'r, 'a>>
    requires placed { PlacedNode dynamic.now kind.now parts.now }
    requires slots { AreHeld dynamic.now slots.now }
    ensures value { IfSome result (λ found. lent_value found ≡ value_in dynamic.now
        (made kind.now (operands_of dynamic.now.names.now parts.now)) focus.now bound.now) }
    ensures within { IfSome result (λ found. ValueWithin (count dynamic.now) (lent_value found)) }
{
    match slot_here(kind, focus, bound) {
        Some(slot) => slots.lent(slot),
        None => None,
    }
}

/// The value of a work at a focus, where it is at hand.
fn at_hand<'r, 'a>(
    dynamic: &'r DynamicContext<'_, 'a>,
    work: &PlanNode,
    focus: &Focus<'a>,
    bound: &'r [Item<'a>],
    slots: &'r Slots<'a>,
) -> Option<Lent<'r, 'a>>
    requires ready { IsReady dynamic.now focus.now bound.now }
    requires placed { PlacedWork dynamic.now work.now }
    requires slots { AreHeld dynamic.now slots.now }
    ensures value { IfSome result (λ found. lent_value found ≡ value_in dynamic.now (seen dynamic.now.names.now work.now) focus.now bound.now) }
    ensures within { IfSome result (λ found. ValueWithin (count dynamic.now) (lent_value found)) }
{
    match work {
        PlanNode::Simple(x) => of_variable(dynamic, x, focus, bound),
        PlanNode::Node(kind, parts) => {
            let parts = parts.as_slice();
            match of_slot(dynamic, kind, parts, focus, bound, slots) {
                Some(found) => Some(found),
                None => match sole(kind, parts) {
                    Some(part) => at_hand(dynamic, part, focus, bound, slots),
                    None => None,
                },
            }
        }
    }
}

/// What a call tells that looks at nothing but how many items its argument has, and the argument's value, where it is at hand.
fn sized_at_hand<'r, 'a>(
    dynamic: &'r DynamicContext<'_, 'a>,
    kind: &Operation,
    parts: &[(Separator, PlanNode)],
    focus: &Focus<'a>,
    bound: &'r [Item<'a>],
    slots: &'r Slots<'a>,
) -> Option<(Sizing, Lent<'r, 'a>)>
    requires ready { IsReady dynamic.now focus.now bound.now }
    requires placed { PlacedParts dynamic.now parts.now }
    requires slots { AreHeld dynamic.now slots.now }
    ensures { IfSome result (λ found. value_in dynamic.now (made kind.now (operands_of dynamic.now.names.now parts.now)) focus.now bound.now
        ≡ then_ (lent_value found.1) (sizes.sized found.0)) }
{
    match sizing_in(kind) {
        Some(sizing) => match only(parts) {
            Some(part) => match at_hand(dynamic, part, focus, bound, slots) {
                Some(value) => Some((sizing, value)),
                None => None,
            },
            None => None,
        },
        None => None,
    }
}

/// The operator of a link that takes the items of both operands as they are, and the value of the operand behind it, where it is at
/// hand.
fn operand_at_hand<'r, 'a>(
    dynamic: &'r DynamicContext<'_, 'a>,
    link: Separator,
    work: &PlanNode,
    focus: &Focus<'a>,
    bound: &'r [Item<'a>],
    slots: &'r Slots<'a>,
) -> Option<(Operator, Lent<'r, 'a>)>
    requires ready { IsReady dynamic.now focus.now bound.now }
    requires placed { PlacedWork dynamic.now work.now }
    requires slots { AreHeld dynamic.now slots.now }
    ensures operator { IfSome result (λ found. links.IsOnItems link found.0) }
    ensures value { IfSome result (λ found. lent_value found.1 ≡ value_in dynamic.now (seen dynamic.now.names.now work.now) focus.now bound.now) }
    ensures within { IfSome result (λ found. ValueWithin (count dynamic.now) (lent_value found.1)) }
{
    match operator_on_items(link) {
        Some(operator) => match at_hand(dynamic, work, focus, bound, slots) {
            Some(value) => Some((operator, value)),
            None => None,
        },
        None => None,
    }
}

/// What a call tells that looks at nothing but how many items its argument has, where the argument is at hand.
pub fn told_at_hand<'r, 'a>(
    dynamic: &'r DynamicContext<'_, 'a>,
    kind: &Operation,
    parts: &[(Separator, PlanNode)],
    focus: &Focus<'a>,
    bound: &'r [Item<'a>],
    slots: &'r Slots<'a>,
) -> Option<Result<Seq<'a>, Fault>>
    requires ready { IsReady dynamic.now focus.now bound.now }
    requires placed { PlacedParts dynamic.now parts.now }
    requires slots { AreHeld dynamic.now slots.now }
    ensures value { IfSome result (λ found. Gives found
        (value_in dynamic.now (made kind.now (operands_of dynamic.now.names.now parts.now)) focus.now bound.now)) }
    ensures within { IfSome result (λ found. IfOk found (λ items. AreWithin (count dynamic.now) items)) }
{
    match sized_at_hand(dynamic, kind, parts, focus, bound, slots) {
        Some((sizing, value)) => Some(sized(dynamic.alloc, sizing, value)),
        None => None,
    }
}

/// What a link makes of items and its operand, where its operator takes items as they are and the operand is at hand.
pub fn operated_at_hand<'r, 'a>(
    dynamic: &'r DynamicContext<'_, 'a>,
    link: Separator,
    xs: &[Item<'a>],
    work: &PlanNode,
    focus: &Focus<'a>,
    bound: &'r [Item<'a>],
    slots: &'r Slots<'a>,
) -> Option<Result<Seq<'a>, Fault>>
    requires ready { IsReady dynamic.now focus.now bound.now }
    requires xs { AreWithin (count dynamic.now) xs.now }
    requires placed { PlacedWork dynamic.now work.now }
    requires slots { AreHeld dynamic.now slots.now }
    ensures value { IfSome result (λ found. Gives found (then_ (value_in dynamic.now (seen dynamic.now.names.now work.now) focus.now bound.now)
        (links.joined_by (tree_nodes dynamic.now.doc.now) link xs.now))) }
    ensures within { IfSome result (λ found. IfOk found (λ items. AreWithin (count dynamic.now) items)) }
{
    match operand_at_hand(dynamic, link, work, focus, bound, slots) {
        Some((operator, ys)) => Some(operated_on(dynamic, operator, xs, ys)),
        None => None,
    }
}

/// The slot of a part that is kept, and the part, where it is to be evaluated for the slot: this is used, is empty and saves
/// something.
fn unkept_here<'p, 'a>(
    kind: &Operation,
    parts: &'p [(Separator, PlanNode)],
    focus: &Focus<'a>,
    bound: &[Item<'a>],
    slots: &Slots<'a>,
) -> Option<(usize, &'p PlanNode)>
    ensures kept { (base : DynamicContext) → PlacedNode base kind.now parts.now
        → IfSome result (λ found. IsKeptHere base focus.now bound.now found.0 found.1.now) }
    ensures deeper { IfSome result (λ found. depth found.1.now ≤ deepest parts.now) }
    ensures empty { IfSome result (λ found. get_or slots.now found.0 None ≡ None) }
{
    let slot = slot_here(kind, focus, bound)?;
    let part = first(parts)?;
    match slots.lent(slot) {
        Some(_) => None,
        None => {
            if is_light(part) {
                None
            } else {
                Some((slot, part))
            }
        }
    }
}

/// The same of a work that is such a part and nothing else.
fn unkept<'p, 'a>(
    work: &'p PlanNode,
    focus: &Focus<'a>,
    bound: &[Item<'a>],
    slots: &Slots<'a>,
) -> Option<(usize, &'p PlanNode)>
    ensures kept { (base : DynamicContext) → PlacedWork base work.now
        → IfSome result (λ found. IsKeptHere base focus.now bound.now found.0 found.1.now) }
    ensures deeper { IfSome result (λ found. depth found.1.now < depth work.now) }
    ensures empty { IfSome result (λ found. get_or slots.now found.0 None ≡ None) }
{
    match work {
        PlanNode::Simple(_) => None,
        PlanNode::Node(kind, parts) => {
            let parts = parts.as_slice();
            match unkept_here(kind, parts, focus, bound, slots) {
                Some(found) => Some(found),
                None => match sole(kind, parts) {
                    Some(part) => unkept(part, focus, bound, slots),
                    None => None,
                },
            }
        }
    }
}

/// The same of the argument of a call that looks at nothing but how many items its argument has.
pub fn unkept_argument<'p, 'a>(
    kind: &Operation,
    parts: &'p [(Separator, PlanNode)],
    focus: &Focus<'a>,
    bound: &[Item<'a>],
    slots: &Slots<'a>,
) -> Option<(usize, &'p PlanNode)>
    ensures kept { (base : DynamicContext) → PlacedParts base parts.now
        → IfSome result (λ found. IsKeptHere base focus.now bound.now found.0 found.1.now) }
    ensures deeper { IfSome result (λ found. depth found.1.now ≤ deepest parts.now) }
    ensures empty { IfSome result (λ found. get_or slots.now found.0 None ≡ None) }
{
    match sizing_in(kind) {
        Some(_) => match only(parts) {
            Some(part) => unkept(part, focus, bound, slots),
            None => None,
        },
        None => None,
    }
}
