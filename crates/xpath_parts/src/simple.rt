//! Expressions without parts.
ghost use Rattle.std.specs.Prelude.{◌≡◌, IfOk, pos};
ghost use Rattle.xpath_items.specs.Faults.{Gives};
ghost use Rattle.xpath_operators.specs.Nodes.{AreWithin};
ghost use Rattle.xpath_meaning.specs.Resolving.{in_axis_order, units};
ghost use Rattle.xpath_meaning.specs.Values as spec;
ghost use Rattle.xpath_plan.specs.Plans.{simple_seen};
ghost use Rattle.xpath_parts.specs.Contexts.{IsReady, value_in, count};

use crate::calling::called;
use crate::dynamic::DynamicContext;
use crate::values::Values;
use inv_base::{Steps, Txt};
use inv_decimal::Dec;
use std::alloc::Global;
use std::sync::ledger::Ledger;
use xpath_items::{Fault, Focus, Item, Seq, Str};
use xpath_operators::one;
use xpath_plan::plan_node::Simple;
use xpath_steps::{bound_at, root_of, step_from, stepped_from};
use xpath_tokens::token::Number;
use xpath_walks::Step;

/// A literal, which the plan lends.
fn text<'a>(alloc: Global, text: &'a Txt) -> Result<Seq<'a>, Fault>
    ensures { Gives result (spec.one (Item.String text.now)) }
{
    one(alloc, Item::String(Str::lent(text.as_str())))
}

fn number<'a>(alloc: Global, number: Number) -> Result<Seq<'a>, Fault>
    ensures { Gives result (spec.one (Item.Number (pos (units number)))) }
{
    one(
        alloc,
        Item::Number(Dec::of_parts(number.whole(), number.fraction())),
    )
}

fn item<'a>(alloc: Global, item: &Item<'a>) -> Result<Seq<'a>, Fault>
    ensures { Gives result (spec.one item.now) }
{
    one(alloc, item.copied(alloc)?)
}

/// The value of an expression without parts.
pub fn simple<'a, L: Ledger>(
    dynamic: &DynamicContext<'_, 'a>,
    x: &'a Simple,
    focus: &Focus<'a>,
    bound: &[Item<'a>],
    steps: &mut Steps<L>,
) -> Result<Seq<'a>, Fault>
    requires { IsReady dynamic.now focus.now bound.now }
    ensures value { Gives result (value_in dynamic.now (simple_seen dynamic.now.names.now x.now) focus.now bound.now) }
    ensures within { IfOk result (λ items. AreWithin (count dynamic.now) items) }
{
    match x {
        Simple::Text(t) => text(dynamic.alloc, t),
        Simple::Number(n) => number(dynamic.alloc, *n),
        Simple::Nothing => Ok(Seq::new(dynamic.alloc)),
        Simple::Item => item(dynamic.alloc, &focus.item),
        Simple::Root => root_of(dynamic.alloc, dynamic.doc, &focus.item),
        Simple::Variable(height) => bound_at(dynamic.alloc, bound, *height),
        Simple::Outer(name) => dynamic.env.value_of(dynamic.alloc, name.as_str()),
        Simple::Step(axis, test) => {
            let step = Step {
                axis: *axis,
                test,
                numbers: dynamic.numbers,
            };
            stepped_from(dynamic.alloc, dynamic.doc, &step, &focus.item, steps)
        }
        Simple::Called(function) => called(
            dynamic.alloc,
            dynamic.doc,
            *function,
            focus,
            Values::new(dynamic.alloc),
        ),
    }
}

/// The same, a step's nodes in the order of its axis.
pub fn simple_in_axis_order<'a, L: Ledger>(
    dynamic: &DynamicContext<'_, 'a>,
    x: &'a Simple,
    focus: &Focus<'a>,
    bound: &[Item<'a>],
    steps: &mut Steps<L>,
) -> Result<Seq<'a>, Fault>
    requires { IsReady dynamic.now focus.now bound.now }
    ensures value { Gives result (value_in dynamic.now (in_axis_order (simple_seen dynamic.now.names.now x.now)) focus.now bound.now) }
    ensures within { IfOk result (λ items. AreWithin (count dynamic.now) items) }
{
    match x {
        Simple::Step(axis, test) => {
            let step = Step {
                axis: *axis,
                test,
                numbers: dynamic.numbers,
            };
            step_from(dynamic.alloc, dynamic.doc, &step, &focus.item, steps)
        }
        _ => simple(dynamic, x, focus, bound, steps),
    }
}
