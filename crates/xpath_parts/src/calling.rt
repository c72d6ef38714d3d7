//! Calls with any number of arguments.
ghost use Rattle.std.specs.Prelude.{◌≡◌, [], ◌∷◌, ◌++◌, length, IfOk, false};
ghost use Rattle.node_arena.specs.Moves.{tree_nodes};
ghost use Rattle.xpath_grammar.specs.Functions as grammar;
ghost use Rattle.xpath_items.specs.Faults.{Gives};
ghost use Rattle.xpath_meaning.specs.Functions as meaning;
ghost use Rattle.xpath_meaning.specs.Values.{value};
ghost use Rattle.xpath_operators.specs.Nodes.{IsWithin, AreWithin, AllWithin};

use crate::values::Values;
use node_arena::Doc;
use std::alloc::{AllocError, Global};
use xpath_grammar::functions::{Function, takes};
use xpath_items::{DynError, Fault, Focus, Outcome, Seq};
use xpath_values::{call, is_concat};

/// The value of an outcome, or its error.
pub fn value_of<'a>(outcome: Outcome<'a>) -> Result<Seq<'a>, Fault>
    ensures { Gives result (value outcome.entry) }
{
    match outcome {
        Outcome::Value(items) => Ok(items),
        Outcome::Error(error) => Err(Fault::Error(error)),
    }
}

/// The arguments, and two that are empty behind them.
fn padded<'a>(alloc: Global, arguments: Values<'a>) -> Result<Values<'a>, AllocError>
    ensures { IfOk result (λ all. all ≡ (arguments.entry ++ [] ∷ []) ++ [] ∷ []) }
{
    let mut all = arguments;
    all.push(Seq::new(alloc))?;
    all.push(Seq::new(alloc))?;
    Ok(all)
}

/// A call with fewer arguments than the function takes, or with more. Of `concat` it is what it would be with empty
/// ones behind them, and of every other function XPTY0004.
fn called_otherwise<'a>(
    alloc: Global,
    doc: &Doc<'a>,
    function: Function,
    focus: &Focus<'a>,
    arguments: Values<'a>,
) -> Result<Seq<'a>, Fault>
    requires otherwise { grammar.takes function (length arguments) ≡ false }
    requires focus { IsWithin (length doc.now.nodes) focus.now.item }
    requires arguments { AllWithin (length doc.now.nodes) arguments }
    ensures { Gives result (meaning.call (tree_nodes doc.now) function focus.now arguments.entry) }
{
    if is_concat(function) {
        let all = padded(alloc, arguments)?;
        value_of(call(alloc, doc, function, focus, all.as_slice())?)
    } else {
        Err(Fault::Error(DynError::XPTY0004))
    }
}

/// The value of a call, whatever the number of its arguments.
pub fn called<'a>(
    alloc: Global,
    doc: &Doc<'a>,
    function: Function,
    focus: &Focus<'a>,
    arguments: Values<'a>,
) -> Result<Seq<'a>, Fault>
    requires focus { IsWithin (length doc.now.nodes) focus.now.item }
    requires arguments { AllWithin (length doc.now.nodes) arguments }
    ensures value { Gives result (meaning.call (tree_nodes doc.now) function focus.now arguments.entry) }
    ensures within { IfOk result (λ items. AreWithin (length doc.now.nodes) items) }
{
    if takes(function, arguments.len()) {
        value_of(call(alloc, doc, function, focus, arguments.as_slice())?)
    } else {
        called_otherwise(alloc, doc, function, focus, arguments)
    }
}
