//! The pattern of a call of `matches`, which is a string literal.
ghost use Rattle.std.specs.Prelude.{◌≡◌, not, chars, option_to_list, IfOk, OnOk};
ghost use Rattle.xpath_grammar.specs.View.{view, viewed};
ghost use Rattle.xpath_grammar.specs.declared.expr.Label.TheVariants as labels;
ghost use Rattle.xpath_types.specs.Judging as spec;
ghost use Rattle.xpath_types.specs.Refusals.{first_of};

use crate::fault::TypeKind;
use crate::forms::{label_length, refuse_names};
use crate::functions::Resolved;
use crate::places::{behind, further};
use crate::refusals::{Refusal, refuse};
use crate::resolving::function_called;
use crate::scope::Scope;
use std::alloc::{AllocError, Global};
use xpath_grammar::expr::{Expr, Form, Label, Leaf};
use xpath_grammar::functions::Function;
use xsd_pattern::{PatternFault, parse};

/// Whether it is `matches`, whose second argument is a pattern.
pub fn is_matches(called: Resolved) -> bool
    ensures { result ≡ spec.is_matches called }
{
    match called {
        Resolved::Known(Function::Matches) => true,
        _ => false,
    }
}

/// Whether the label calls `matches`.
fn calls_matches(scope: &Scope, label: &Label) -> bool
    ensures { result ≡ spec.calls_matches scope.now label.now }
{
    match label {
        Label::Calling(name) => is_matches(function_called(scope, name)),
        _ => false,
    }
}

/// What is wrong with a text as a pattern.
fn literal_fault(alloc: Global, text: &str) -> Result<Option<TypeKind>, AllocError>
    ensures { IfOk result (λ fault. option_to_list fault ≡ spec.literal_refusals (chars text.now)) }
{
    match parse(alloc, text) {
        Ok(pattern) => {
            drop(pattern);
            Ok(None)
        }
        Err(PatternFault::Bad) => Ok(Some(TypeKind::BadPattern)),
        Err(PatternFault::TooLarge) => Ok(Some(TypeKind::PatternTooLarge)),
        Err(PatternFault::Memory) => Err(AllocError),
    }
}

/// What is wrong with an argument as the pattern of `matches`.
fn pattern_fault(alloc: Global, pattern: &Expr) -> Result<Option<TypeKind>, AllocError>
    ensures { IfOk result (λ fault. option_to_list fault ≡ spec.pattern_kinds (view pattern.now)) }
{
    match pattern {
        Expr::Leaf(Leaf::Literal(text)) => literal_fault(alloc, text.as_str()),
        _ => Ok(Some(TypeKind::NotLiteral)),
    }
}

/// The number of the first token of the second argument of a call, whose first token has the number.
fn second_token(token: u32, argument: &Expr, label: &Label) -> Result<u32, AllocError>
    ensures { IfOk result (λ second. second ≡ spec.second_token token (view argument.now) label.now) }
{
    // the function's name and a parenthesis
    let first = further(token, 2)?;
    let end = behind(first, argument)?;
    further(end, label_length(label))
}

/// Refuses the pattern of a call of `matches`, whose first token has the number, and tells whether it did.
fn refuse_pattern(
    alloc: Global,
    scope: &Scope,
    first: &mut Option<Refusal>,
    token: u32,
    parts: &[(Label, Expr)],
) -> Result<bool, AllocError>
    ensures first { OnOk result (first.new ≡ first_of first.old (spec.pattern_refusals scope.now token (viewed parts.now))) }
    ensures told { IfOk result (λ told. told ≡ not (spec.is_empty (spec.pattern_refusals scope.now token (viewed parts.now)))) }
{
    match parts {
        [(called, argument), (label, pattern), ..] => {
            if !calls_matches(scope, called) {
                return Ok(false);
            }
            let Some(kind) = pattern_fault(alloc, pattern)? else {
                return Ok(false);
            };
            let place = second_token(token, argument, label)?;
            refuse(first, place, kind);
            Ok(true)
        }
        _ => Ok(false),
    }
}

/// Refuses what is wrong with an expression itself, whose first token has the number, and tells whether it did.
pub(crate) fn refuse_own(
    alloc: Global,
    scope: &Scope,
    first: &mut Option<Refusal>,
    token: u32,
    form: &Form,
    parts: &[(Label, Expr)],
) -> Result<bool, AllocError>
    ensures first { OnOk result (first.new ≡ first_of first.old (spec.own_refusals scope.now token form.now (viewed parts.now))) }
    ensures told { IfOk result (λ told. told ≡ not (spec.is_empty (spec.own_refusals scope.now token form.now (viewed parts.now)))) }
{
    let is_misnamed = refuse_names(scope, first, token, form, parts);
    match form {
        Form::Call => {
            let is_mispatterned = refuse_pattern(alloc, scope, first, token, parts)?;
            Ok(is_misnamed | is_mispatterned)
        }
        _ => Ok(is_misnamed),
    }
}
