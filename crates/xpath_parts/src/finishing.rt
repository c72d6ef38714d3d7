//! What is made of values that are all there.
ghost use Rattle.std.specs.Prelude.{◌≡◌, length, map, IfOk};
ghost use Rattle.node_arena.specs.Moves.{tree_nodes};
ghost use Rattle.xpath_items.specs.Faults.{Gives};
ghost use Rattle.xpath_meaning.specs.Functions as functions;
ghost use Rattle.xpath_meaning.specs.Items.{atomised};
ghost use Rattle.xpath_meaning.specs.Numbers as numbers;
ghost use Rattle.xpath_meaning.specs.Reading as reading;
ghost use Rattle.xpath_meaning.specs.Texts.{finds};
ghost use Rattle.xpath_operators.specs.Nodes.{IsWithin, AreWithin, AllWithin};
ghost use Rattle.xpath_parts.specs.Finishing as spec;

use crate::calling::called;
use crate::values::Values;
use node_arena::Doc;
use std::alloc::Global;
use xpath_grammar::functions::Function;
use xpath_grammar::operators::CastWord;
use xpath_items::{Fault, Focus, Seq};
use xpath_operators::{atomise, cast, signed};
use xpath_plan::plan_node::{Operation, PlanNode, Separator};
use xpath_tokens::token::Operator;
use xpath_values::found;
use xsd_pattern::Regex;

/// The first part alone.
fn first_alone(parts: &[(Separator, PlanNode)]) -> &[(Separator, PlanNode)]
    ensures { result.now ≡ spec.first_alone parts.now }
{
    if parts.is_empty() {
        parts
    } else {
        let (first, _) = parts.split_at(1);
        first
    }
}

/// The parts that are evaluated first.
pub fn wanted<'w>(
    kind: &Operation,
    parts: &'w [(Separator, PlanNode)],
) -> &'w [(Separator, PlanNode)]
    ensures { result.now ≡ spec.wanted kind.now parts.now }
{
    match kind {
        Operation::Cast(_, _, _) | Operation::Signs(_) | Operation::Only | Operation::Matches(_) =>
            first_alone(parts),
        Operation::Call(_) => parts,
        _ => &[],
    }
}

fn cast_first<'a>(
    alloc: Global,
    doc: &Doc<'a>,
    word: CastWord,
    to: Function,
    optional: bool,
    items: Seq<'a>,
) -> Result<Seq<'a>, Fault>
    requires { AreWithin (length doc.now.nodes) items }
    ensures value { Gives result (reading.cast_by (tree_nodes doc.now) word to optional (atomised (tree_nodes doc.now) items.entry)) }
    ensures within { IfOk result (λ items. AreWithin (length doc.now.nodes) items) }
{
    let atoms = atomise(alloc, doc, &items)?;
    cast(alloc, doc, word, to, optional, atoms.as_slice())
}

fn signed_first<'a>(
    alloc: Global,
    doc: &Doc<'a>,
    signs: &[Operator],
    items: Seq<'a>,
) -> Result<Seq<'a>, Fault>
    requires { AreWithin (length doc.now.nodes) items }
    ensures value { Gives result (numbers.signed signs.now (atomised (tree_nodes doc.now) items.entry)) }
    ensures within { IfOk result (λ items. AreWithin (length doc.now.nodes) items) }
{
    let atoms = atomise(alloc, doc, &items)?;
    signed(alloc, signs, atoms.as_slice())
}

fn found_first<'a>(
    alloc: Global,
    doc: &Doc<'a>,
    pattern: &Regex,
    items: Seq<'a>,
) -> Result<Seq<'a>, Fault>
    requires { AreWithin (length doc.now.nodes) items }
    ensures value { Gives result (functions.of_text (tree_nodes doc.now) (λ s. functions.yes_or_no (finds pattern.now s)) items.entry) }
    ensures within { IfOk result (λ items. AreWithin (length doc.now.nodes) items) }
{
    let value = found(alloc, doc, pattern, items.as_slice());
    drop(items);
    value
}

/// What a kind makes of the values of the parts that it wants.
pub fn finished<'a>(
    alloc: Global,
    doc: &Doc<'a>,
    kind: &Operation,
    focus: &Focus<'a>,
    values: Values<'a>,
) -> Result<Seq<'a>, Fault>
    requires focus { IsWithin (length doc.now.nodes) focus.now.item }
    requires values { AllWithin (length doc.now.nodes) values }
    ensures value { Gives result (spec.finished (tree_nodes doc.now) kind.now focus.now values.entry) }
    ensures within { IfOk result (λ items. AreWithin (length doc.now.nodes) items) }
{
    match kind {
        Operation::Cast(word, to, optional) => cast_first(
            alloc,
            doc,
            *word,
            *to,
            *optional,
            values.into_first(alloc),
        ),
        Operation::Signs(signs) => {
            signed_first(alloc, doc, signs.as_slice(), values.into_first(alloc))
        }
        Operation::Only => Ok(values.into_first(alloc)),
        Operation::Call(function) => called(alloc, doc, *function, focus, values),
        Operation::Matches(pattern) => found_first(alloc, doc, pattern, values.into_first(alloc)),
        _ => Ok(Seq::new(alloc)),
    }
}
