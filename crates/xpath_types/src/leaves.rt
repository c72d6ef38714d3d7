//! Expressions without parts.
ghost use Rattle.std.specs.Prelude.{◌≡◌, not, IfOk, OnOk, length};
ghost use Rattle.xpath_grammar.specs.Grammar.{leaf_tokens, axis_tokens, test_tokens};
ghost use Rattle.xpath_types.specs.Refusals.{first_of};
ghost use Rattle.xpath_types.specs.Judging.{standing_at, leaf_refusals, test_refusals, is_empty};
ghost use Rattle.xpath_types.specs.Walking as spec;
ghost use Rattle.xpath_grammar.specs.declared.expr.Leaf.TheVariants as leaves;

use crate::facts::Facts;
use crate::fault::TypeKind;
use crate::functions::called_kinds;
use crate::kinds::{ALL_KINDS, Kinds, NO_KINDS, NODES, NUMBERS, STRINGS};
use crate::names::written;
use crate::refusals::{Refusal, refuse_unless};
use crate::resolving::{function_called, refuse_call, refuse_prefix};
use crate::scope::Scope;
use crate::uses::{ITEM_USED, NO_USES, ROOT_USED, called_uses};
use crate::variables::Variables;
use std::alloc::{AllocError, Global};
use xpath_grammar::expr::Leaf;
use xpath_grammar::step::{AxisForm, Test};
use xpath_tokens::token::Name;

/// How many tokens it has.
pub(crate) fn leaf_length(leaf: &Leaf) -> usize
    ensures { result ≡ length (leaf_tokens leaf.now) }
{
    match leaf {
        Leaf::Literal(_) | Leaf::Number(_) | Leaf::Context | Leaf::Parent | Leaf::Root => 1,
        Leaf::Variable(_) | Leaf::Empty => 2,
        Leaf::Called(_) => 3,
        Leaf::Step(form, test) => axis_length(*form) + test_length(test),
    }
}

fn axis_length(form: AxisForm) -> usize
    ensures { result ≡ length (axis_tokens form) }
{
    match form {
        AxisForm::Unwritten => 0,
        AxisForm::At => 1,
        AxisForm::Written(_) => 2,
    }
}

fn test_length(test: &Test) -> usize
    ensures { result ≡ length (test_tokens test.now) }
{
    match test {
        Test::Name(_) | Test::Star => 1,
        Test::Kind(_) => 3,
    }
}

/// Judges an expression without parts, whose first token has the number, at a focus and inside
/// bound variables.
pub(crate) fn judge_leaf(
    alloc: Global,
    scope: &Scope,
    variables: &Variables,
    first: &mut Option<Refusal>,
    focus: Kinds,
    token: u32,
    leaf: &Leaf,
) -> Result<Facts, AllocError>
    ensures facts { IfOk result (λ facts. facts ≡ spec.leaf_facts scope.now variables.now focus leaf.now) }
    ensures first { OnOk result (first.new ≡ first_of first.old (standing_at token (leaf_refusals (spec.environment scope.now focus variables.now) leaf.now))) }
{
    match leaf {
        Leaf::Literal(_) => Ok(Facts::of(STRINGS, false, NO_USES, None)),
        Leaf::Number(_) => Ok(Facts::of(NUMBERS, false, NO_USES, None)),
        Leaf::Variable(name) => judge_variable(alloc, scope, variables, first, token, name),
        Leaf::Context => Ok(Facts::of(focus, false, ITEM_USED, None)),
        Leaf::Parent => Ok(Facts::of(NODES, false, ITEM_USED, None)),
        Leaf::Empty => Ok(Facts::of(NO_KINDS, false, NO_USES, None)),
        Leaf::Root => Ok(Facts::of(NODES, false, ROOT_USED, None)),
        Leaf::Called(name) => Ok(judge_call(scope, first, token, name)),
        Leaf::Step(_, test) => {
            let refused = refuse_test(scope, first, token, test);
            Ok(Facts::of(NODES, refused, ITEM_USED, None))
        }
    }
}

fn judge_variable(
    alloc: Global,
    scope: &Scope,
    variables: &Variables,
    first: &mut Option<Refusal>,
    token: u32,
    name: &Name,
) -> Result<Facts, AllocError>
    ensures facts { IfOk result (λ facts. facts ≡ spec.variable_facts scope.now variables.now name.now) }
    ensures first { OnOk result (first.new ≡ first_of first.old (standing_at token (spec.variable_refusals_in scope.now variables.now name.now))) }
{
    let unbound = refuse_prefix(first, token, scope, name);
    let name = written(alloc, name)?;
    match variables.reading(name.as_str()) {
        Some(reading) => Ok(Facts::of(reading.kinds, unbound, NO_USES, Some(reading.height))),
        None => {
            let is_declared = scope.declares(name.as_str());
            let undeclared = refuse_unless(first, token, is_declared, TypeKind::UndeclaredVariable);
            Ok(Facts::of(ALL_KINDS, unbound | undeclared, NO_USES, Some(0)))
        }
    }
}

fn judge_call(scope: &Scope, first: &mut Option<Refusal>, token: u32, name: &Name) -> Facts
    ensures facts { result ≡ spec.called_facts scope.now name.now }
    ensures first { first.new ≡ first_of first.old (standing_at token (spec.called_refusals scope.now name.now)) }
{
    let called = function_called(scope, name);
    let refused = refuse_call(first, token, called, 0);
    Facts::of(
        called_kinds(called, NO_KINDS),
        refused,
        called_uses(called),
        None,
    )
}

fn refuse_test(scope: &Scope, first: &mut Option<Refusal>, token: u32, test: &Test) -> bool
    ensures first { first.new ≡ first_of first.old (standing_at token (test_refusals scope.now test.now)) }
    ensures told { result ≡ not (is_empty (test_refusals scope.now test.now)) }
{
    match test {
        Test::Name(name) => refuse_prefix(first, token, scope, name),
        Test::Star | Test::Kind(_) => false,
    }
}
