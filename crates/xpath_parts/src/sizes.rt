//! Calls that look at nothing but how many items their argument has.
ghost use Rattle.std.specs.Prelude.{ℕ, IfOk, IfSome};
ghost use Rattle.xpath_items.specs.Faults.{Gives};
ghost use Rattle.xpath_meaning.specs.Values.{then_};
ghost use Rattle.xpath_operators.specs.Nodes.{AreWithin};
ghost use Rattle.xpath_parts.specs.Sizes as spec;
ghost use Rattle.xpath_steps.specs.Lending.{lent_value};

use std::alloc::Global;
use xpath_grammar::functions::Function;
use xpath_items::{Fault, Item, Seq};
use xpath_plan::plan_node::Operation;
use xpath_steps::Lent;
use xpath_values::{count, empty, exists};

/// What such a call tells.
#[derive(Clone, Copy)]
pub enum Sizing {
    Exists,
    Empty,
    Count,
}

fn sizing_of(function: Function) -> Option<Sizing>
    ensures { IfSome result (λ sizing. spec.IsSizing (Operation.Call function) sizing) }
{
    match function {
        Function::Exists => Some(Sizing::Exists),
        Function::Empty => Some(Sizing::Empty),
        Function::Count => Some(Sizing::Count),
        _ => None,
    }
}

/// What a kind tells that is such a call.
pub fn sizing_in(kind: &Operation) -> Option<Sizing>
    ensures { IfSome result (λ sizing. spec.IsSizing kind.now sizing) }
{
    match kind {
        Operation::Call(function) => sizing_of(*function),
        _ => None,
    }
}

/// What such a call tells of items.
fn told<'a>(alloc: Global, sizing: Sizing, items: &[Item<'a>]) -> Result<Seq<'a>, Fault>
    ensures { Gives result (spec.sized sizing items.now) }
{
    match sizing {
        Sizing::Exists => exists(alloc, items),
        Sizing::Empty => empty(alloc, items),
        Sizing::Count => count(alloc, items),
    }
}

/// What such a call tells of a value that is lent.
pub fn sized<'a>(alloc: Global, sizing: Sizing, value: Lent<'_, 'a>) -> Result<Seq<'a>, Fault>
    ensures value { Gives result (then_ (lent_value value.entry) (spec.sized sizing)) }
    ensures within { (count : ℕ) → IfOk result (λ items. AreWithin count items) }
{
    match value {
        Lent::Items(items) => told(alloc, sizing, items),
        Lent::Error(error) => Err(Fault::Error(error)),
    }
}
