//! What kind of work the forms are.
ghost use Rattle.std.specs.Prelude.{◌≡◌, true, map, option_map, IfOk};
ghost use Rattle.xpath_grammar.specs.View.{view, viewed};
ghost use Rattle.xpath_meaning.specs.Resolving.{begins_with_step, is_step_leaf};
ghost use Rattle.xpath_plan.specs.Kinds as spec;

use crate::plan_node::{Operation, Separator};
use inv_base::Txt;
use std::alloc::{AllocError, Global};
use xpath_grammar::expr::{Expr, Form, Label, Leaf};
use xpath_grammar::functions::Function;
use xpath_grammar::many::Many;
use xpath_grammar::operators::CastWord;
use xpath_tokens::token::Operator;
use xpath_types::{Resolved, Scope, function_called, is_matches, type_named};
use xsd_pattern::{PatternFault, parse};

/// What is kept of what leads to a part.
pub(crate) fn link_of(label: &Label) -> Separator
    ensures { result ≡ spec.link_of label.now }
{
    match label {
        Label::Link(operator) => Separator::Operator(*operator),
        Label::Comma => Separator::Comma,
        _ => Separator::Other,
    }
}

fn is_step_leaf(leaf: &Leaf) -> bool
    ensures { result ≡ is_step_leaf leaf.now }
{
    match leaf {
        Leaf::Step(_, _) | Leaf::Parent => true,
        _ => false,
    }
}

/// Whether the first part is a step.
fn begins_with_step(parts: &[(Label, Expr)]) -> bool
    ensures { result ≡ begins_with_step (viewed parts.now) }
{
    match parts {
        [(_, Expr::Leaf(leaf)), ..] => is_step_leaf(leaf),
        _ => false,
    }
}

fn copied(alloc: Global, signs: &Many<Operator>) -> Result<Many<Operator>, AllocError>
    ensures { IfOk result (λ copied. copied ≡ signs.now) }
{
    let signs = signs.as_slice();
    let mut copied = Many::new(alloc);
    'signs: for sign in signs {
        copied.push(*sign)?;
    }
    Ok(copied)
}

fn cast_kind(word: CastWord, optional: bool, named: Resolved) -> Operation
    ensures { result ≡ spec.cast_kind word optional named }
{
    match named {
        Resolved::Known(function) => Operation::Cast(word, function, optional),
        Resolved::Unbound | Resolved::Unknown => Operation::Nothing,
    }
}

fn call_kind(called: Resolved) -> Operation
    ensures { result ≡ spec.call_kind called }
{
    match called {
        Resolved::Known(function) => Operation::Call(function),
        Resolved::Unbound | Resolved::Unknown => Operation::Nothing,
    }
}

fn signs_kind(alloc: Global, parts: &[(Label, Expr)]) -> Result<Operation, AllocError>
    ensures { IfOk result (λ kind. kind ≡ spec.signs_kind (map (λ part. part.0) parts.now)) }
{
    match parts {
        [(Label::Signed(signs), _), ..] => Ok(Operation::Signs(copied(alloc, signs)?)),
        _ => Ok(Operation::Nothing),
    }
}

/// The text of the second of two arguments, where it is a literal.
fn second_literal(parts: &[(Label, Expr)]) -> Option<&Txt>
    ensures { option_map (λ text. text.now) result ≡ spec.second_literal (viewed parts.now) }
{
    match parts {
        [_, (_, second)] => literal(second),
        _ => None,
    }
}

/// The text of a literal.
fn literal(x: &Expr) -> Option<&Txt>
    ensures { option_map (λ text. text.now) result ≡ spec.literal (view x.now) }
{
    match x {
        Expr::Leaf(Leaf::Literal(text)) => Some(text),
        _ => None,
    }
}

/// A call of `matches` with a literal as its pattern. A literal that is no pattern that is taken
/// stands in no typed expression.
fn matches_kind(alloc: Global, text: &Txt) -> Result<Operation, AllocError>
    ensures { IfOk result (λ kind. kind ≡ spec.matches_kind text.now) }
{
    match parse(alloc, text.as_str()) {
        Ok(pattern) => Ok(Operation::Matches(pattern)),
        Err(PatternFault::Bad) => Ok(Operation::Call(Function::Matches)),
        Err(PatternFault::TooLarge) => Ok(Operation::Call(Function::Matches)),
        Err(PatternFault::Memory) => Err(AllocError),
    }
}

/// A call of what a name stands for, where the second of two arguments is a literal.
fn named_kind(alloc: Global, called: Resolved, text: &Txt) -> Result<Operation, AllocError>
    ensures { IfOk result (λ kind. kind ≡ spec.literal_kind called text.now) }
{
    if is_matches(called) {
        matches_kind(alloc, text)
    } else {
        Ok(call_kind(called))
    }
}

fn called_kind(
    alloc: Global,
    scope: &Scope,
    parts: &[(Label, Expr)],
) -> Result<Operation, AllocError>
    ensures { IfOk result (λ kind. kind ≡ spec.called_kind scope.now (spec.second_literal (viewed parts.now)) (map (λ part. part.0) parts.now)) }
{
    match parts {
        [(Label::Calling(name), _), ..] => {
            let called = function_called(scope, name);
            match second_literal(parts) {
                Some(text) => named_kind(alloc, called, text),
                None => Ok(call_kind(called)),
            }
        }
        _ => Ok(Operation::Nothing),
    }
}

fn filter_kind(is_step: bool, free: bool) -> Operation
    ensures { result ≡ spec.filter_kind is_step free }
{
    if is_step {
        step_kind(free)
    } else {
        Operation::Filtered
    }
}

fn step_kind(free: bool) -> Operation
    ensures { result ≡ spec.filter_kind true free }
{
    if free {
        Operation::FreeStep
    } else {
        Operation::FilteredStep
    }
}

/// What the form makes of its parts, where it is said whether no predicate tests a position.
pub(crate) fn kind_of(
    alloc: Global,
    scope: &Scope,
    form: &Form,
    parts: &[(Label, Expr)],
    free: bool,
) -> Result<Operation, AllocError>
    ensures { IfOk result (λ kind. kind ≡ spec.kind_of scope.now form.now (begins_with_step (viewed parts.now)) free (spec.second_literal (viewed parts.now))
        (map (λ part. part.0) parts.now)) }
{
    match form {
        Form::Chain(_) => Ok(Operation::Chain),
        Form::Bound(binder) => Ok(Operation::Bound(*binder)),
        Form::Conditional => Ok(Operation::Conditional),
        Form::Cast(word, name, optional) => {
            Ok(cast_kind(*word, *optional, type_named(scope, name)))
        }
        Form::Signs => signs_kind(alloc, parts),
        Form::Filter => Ok(filter_kind(begins_with_step(parts), free)),
        Form::Parentheses => Ok(Operation::Only),
        Form::Call => called_kind(alloc, scope, parts),
    }
}
