//! What stands between the operands of a chain.
ghost use Rattle.std.specs.Prelude.{◌≡◌, ℕ, ◌++◌, List, IfOk, IfSome};
ghost use Rattle.inv_base.specs.Tree.{Node, Name};
ghost use Rattle.node_arena.specs.Moves.{tree_nodes};
ghost use Rattle.xpath_items.specs.Faults.{Gives};
ghost use Rattle.xpath_meaning.specs.Meaning as meaning;
ghost use Rattle.xpath_meaning.specs.Values.{value, then_};
ghost use Rattle.xpath_operators.specs.Nodes.{AreWithin};
ghost use Rattle.xpath_plan.specs.Plans.{seen, test_seen};
ghost use Rattle.xpath_parts.specs.Contexts.{IsNumbered, count};
ghost use Rattle.xpath_parts.specs.Links as spec;
ghost use Rattle.xpath_parts.specs.Links.{AheadWithin};
ghost use Rattle.xpath_steps.specs.Lending.{lent_value};
ghost use Rattle.xpath_steps.specs.Variables.{ValueWithin};

use crate::dynamic::DynamicContext;
use crate::parts::child_test;
use inv_base::Steps;
use std::alloc::{AllocError, Global};
use std::sync::ledger::Ledger;
use xpath_grammar::step::{Axis, KindTest};
use xpath_items::{DynError, Fault, Item, Outcome, Seq};
use xpath_operators::{boolean, outcome, truth};
use xpath_plan::plan_node::{PlanNode, Separator, StepTest};
use xpath_steps::{Lent, inside_over, operated, steps_over};
use xpath_tokens::token::Operator;
use xpath_walks::Step;

/// What is known of an operand's link before the operand is evaluated.
#[derive(Drop)]
pub enum Ahead<'a> {
    /// The value of both, whatever the operand's.
    Done(Outcome<'a>),
    /// That it hangs on the operand's value, with this before it.
    Operand(Seq<'a>),
    /// That the operand is taken at each of these items.
    Turns(Seq<'a>),
}

/// What an error before a link comes to: the same error, but where nothing that tells stands there.
fn after_error<'a>(alloc: Global, error: DynError, link: Separator) -> Ahead<'a>
    ensures ahead { (nodes : List Node) → spec.IsAhead nodes link (Err error) result }
    ensures within { (count : ℕ) → AheadWithin count result }
{
    match link {
        Separator::Other => Ahead::Done(Outcome::Value(Seq::new(alloc))),
        Separator::Comma | Separator::Operator(_) => Ahead::Done(Outcome::Error(error)),
    }
}

/// `and` and `or`, of which the truth that decides is given.
fn unless_decided<'a>(alloc: Global, deciding: bool, xs: Seq<'a>) -> Result<Ahead<'a>, AllocError>
    ensures ahead { (nodes : List Node) → IfOk result (λ ahead. spec.IsAhead nodes (spec.deciding_link deciding) (Ok xs.entry) ahead) }
    ensures within { (count : ℕ) → AreWithin count xs.entry → IfOk result (λ ahead. AheadWithin count ahead) }
{
    match truth(&xs) {
        Ok(holds) => {
            if holds == deciding {
                Ok(Ahead::Done(outcome(boolean(alloc, Ok(holds)))?))
            } else {
                Ok(Ahead::Operand(xs))
            }
        }
        Err(error) => Ok(Ahead::Done(Outcome::Error(error))),
    }
}

/// `//`: the operand is taken at all nodes inside the items and at the items themselves.
fn at_all_inside<'a, L: Ledger>(
    dynamic: &DynamicContext<'_, 'a>,
    xs: Seq<'a>,
    steps: &mut Steps<L>,
) -> Result<Ahead<'a>, AllocError>
    requires numbered { IsNumbered dynamic.now }
    requires within { AreWithin (count dynamic.now) xs }
    ensures ahead { IfOk result (λ ahead. spec.IsAhead (tree_nodes dynamic.now.doc.now) (Separator.Operator Operator.DoubleSlash) (Ok xs.entry) ahead) }
    ensures within { IfOk result (λ ahead. AheadWithin (count dynamic.now) ahead) }
{
    let test = StepTest::Kind(KindTest::Node);
    let step = Step {
        axis: Axis::DescendantOrSelf,
        test: &test,
        numbers: dynamic.numbers,
    };
    match steps_over(dynamic.alloc, dynamic.doc, &step, xs.as_slice(), steps) {
        Ok(items) => Ok(Ahead::Turns(items)),
        Err(Fault::Error(error)) => Ok(Ahead::Done(Outcome::Error(error))),
        Err(Fault::Memory) => Err(AllocError),
    }
}

fn by_operator<'a, L: Ledger>(
    dynamic: &DynamicContext<'_, 'a>,
    xs: Seq<'a>,
    operator: Operator,
    steps: &mut Steps<L>,
) -> Result<Ahead<'a>, AllocError>
    requires numbered { IsNumbered dynamic.now }
    requires within { AreWithin (count dynamic.now) xs }
    ensures ahead { IfOk result (λ ahead. spec.IsAhead (tree_nodes dynamic.now.doc.now) (Separator.Operator operator) (Ok xs.entry) ahead) }
    ensures within { IfOk result (λ ahead. AheadWithin (count dynamic.now) ahead) }
{
    match operator {
        Operator::Slash => Ok(Ahead::Turns(xs)),
        Operator::DoubleSlash => at_all_inside(dynamic, xs, steps),
        Operator::And => unless_decided(dynamic.alloc, false, xs),
        Operator::Or => unless_decided(dynamic.alloc, true, xs),
        _ => Ok(Ahead::Operand(xs)),
    }
}

/// What is known of an operand's link by the value before it.
pub fn ahead_of<'a, L: Ledger>(
    dynamic: &DynamicContext<'_, 'a>,
    before: Outcome<'a>,
    link: Separator,
    steps: &mut Steps<L>,
) -> Result<Ahead<'a>, AllocError>
    requires numbered { IsNumbered dynamic.now }
    requires within { ValueWithin (count dynamic.now) (value before) }
    ensures ahead { IfOk result (λ ahead. spec.IsAhead (tree_nodes dynamic.now.doc.now) link (value before.entry) ahead) }
    ensures within { IfOk result (λ ahead. AheadWithin (count dynamic.now) ahead) }
{
    match before {
        Outcome::Error(error) => Ok(after_error(dynamic.alloc, error, link)),
        Outcome::Value(xs) => match link {
            Separator::Operator(operator) => by_operator(dynamic, xs, operator, steps),
            Separator::Comma => Ok(Ahead::Operand(xs)),
            Separator::Other => Ok(Ahead::Done(Outcome::Value(Seq::new(dynamic.alloc)))),
        },
    }
}

/// The test of an operand's step, where the link is `//` and the step one on the child axis without predicates.
pub fn test_inside(link: Separator, work: &PlanNode) -> Option<&StepTest>
    ensures { (names : List Name) → IfSome result (λ test. spec.IsInside link (seen names work.now) (test_seen names test.now)) }
{
    match link {
        Separator::Operator(operator) => match operator {
            Operator::DoubleSlash => child_test(work),
            _ => None,
        },
        Separator::Comma | Separator::Other => None,
    }
}

/// `//` and such a step, which are one step at the items before them.
pub fn step_inside<'a, L: Ledger>(
    dynamic: &DynamicContext<'_, 'a>,
    before: Outcome<'a>,
    test: &StepTest,
    steps: &mut Steps<L>,
) -> Result<Outcome<'a>, AllocError>
    requires numbered { IsNumbered dynamic.now }
    requires within { ValueWithin (count dynamic.now) (value before) }
    ensures value { IfOk result (λ found. value found ≡ spec.inside_value (tree_nodes dynamic.now.doc.now) (test_seen dynamic.now.names.now test.now)
        (value before.entry)) }
    ensures within { IfOk result (λ found. ValueWithin (count dynamic.now) (value found)) }
{
    match before {
        Outcome::Error(error) => Ok(Outcome::Error(error)),
        Outcome::Value(xs) => outcome(inside_over(
            dynamic.alloc,
            dynamic.doc,
            test,
            dynamic.numbers,
            xs.as_slice(),
            steps,
        )),
    }
}

/// One value behind the other.
fn one_behind<'a>(xs: Seq<'a>, ys: Seq<'a>) -> Result<Seq<'a>, AllocError>
    ensures { IfOk result (λ items. items ≡ xs.entry ++ ys.entry) }
{
    let mut items = xs;
    items.append(ys)?;
    Ok(items)
}

/// An operator at the values of both operands, where that of the left one doesn't decide.
fn with_values<'a>(
    dynamic: &DynamicContext<'_, 'a>,
    operator: Operator,
    xs: Seq<'a>,
    ys: Seq<'a>,
) -> Result<Seq<'a>, Fault>
    requires xs { AreWithin (count dynamic.now) xs }
    requires ys { AreWithin (count dynamic.now) ys }
    ensures value { Gives result (spec.with_values (tree_nodes dynamic.now.doc.now) operator xs.entry ys.entry) }
    ensures within { IfOk result (λ items. AreWithin (count dynamic.now) items) }
{
    match operator {
        Operator::And | Operator::Or => boolean(dynamic.alloc, truth(&ys)),
        _ => operated(
            dynamic.alloc,
            dynamic.doc,
            operator,
            xs.as_slice(),
            ys.as_slice(),
        ),
    }
}

/// What the values before and behind a link come to.
pub fn joined_by<'a>(
    dynamic: &DynamicContext<'_, 'a>,
    link: Separator,
    xs: Seq<'a>,
    ys: Seq<'a>,
) -> Result<Seq<'a>, Fault>
    requires xs { AreWithin (count dynamic.now) xs }
    requires ys { AreWithin (count dynamic.now) ys }
    ensures value { Gives result (spec.joined_by (tree_nodes dynamic.now.doc.now) link xs.entry ys.entry) }
    ensures within { IfOk result (λ items. AreWithin (count dynamic.now) items) }
{
    match link {
        Separator::Operator(operator) => with_values(dynamic, operator, xs, ys),
        Separator::Comma => Ok(one_behind(xs, ys)?),
        Separator::Other => Ok(Seq::new(dynamic.alloc)),
    }
}

/// The operator of a link, where it takes the items of both operands as they are: `and` and `or` take truths.
pub fn operator_on_items(link: Separator) -> Option<Operator>
    ensures { IfSome result (λ operator. spec.IsOnItems link operator) }
{
    match link {
        Separator::Operator(operator) => match operator {
            Operator::And | Operator::Or => None,
            _ => Some(operator),
        },
        Separator::Comma | Separator::Other => None,
    }
}

/// What an operator makes of the items of a value and of one that is lent.
pub fn operated_on<'a>(
    dynamic: &DynamicContext<'_, 'a>,
    operator: Operator,
    xs: &[Item<'a>],
    ys: Lent<'_, 'a>,
) -> Result<Seq<'a>, Fault>
    requires xs { AreWithin (count dynamic.now) xs.now }
    requires ys { ValueWithin (count dynamic.now) (lent_value ys) }
    ensures value { Gives result (then_ (lent_value ys.entry) (meaning.operated (tree_nodes dynamic.now.doc.now) operator xs.now)) }
    ensures within { IfOk result (λ items. AreWithin (count dynamic.now) items) }
{
    match ys {
        Lent::Items(ys) => operated(dynamic.alloc, dynamic.doc, operator, xs, ys),
        Lent::Error(error) => Err(Fault::Error(error)),
    }
}
