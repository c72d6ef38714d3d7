//! Expressions of a rule file, judged in their scopes.
ghost use Rattle.std.specs.Prelude.{◌≡◌, chars, IfOk, Some, None};
ghost use Rattle.xpath_grammar.specs.declared.expr.Expr.TheVariants as x;
ghost use Rattle.xpath_grammar.specs.declared.expr.Leaf.TheVariants as l;
ghost use Rattle.xpath_meaning.specs.Expressions as e;
ghost use Rattle.schematron_meaning.specs.Faults as faults;
ghost use Rattle.schematron_meaning.specs.Rules.{expression_in};
ghost use Rattle.xpath_plan.specs.Plans.{expression};
ghost use Rattle.schematron_rules.specs.PlanAnswers.{Judges};
ghost use Rattle.schematron_rules.specs.Parsed as spec;

use schematron_meaning::ExpressionFault;
use std::alloc::{AllocError, Global};
use xpath_grammar::expr::{Expr, Leaf};
use xpath_grammar::pattern::Pattern;
use xpath_plan::{Plan, compile};
use xpath_syntax::laws::answers_are_grammatical;
use xpath_syntax::{parse, parse_pattern};
use xpath_tokens::token::SyntaxFault;
use xpath_types::{Scope, TypeFault, Typed, check, check_pattern};

/// Why an expression is refused in its scope, or a pattern where it is to be one; none where it is right.
pub fn fault_of(
    alloc: Global,
    is_pattern: bool,
    text: &str,
    scope: &Scope,
) -> Result<Option<ExpressionFault>, AllocError>
    ensures { IfOk result (λ found. found ≡ faults.expression_fault is_pattern (chars text.now) scope.now) }
{
    match judged(alloc, is_pattern, text, scope)? {
        Ok(_) => Ok(None),
        Err(fault) => Ok(Some(fault)),
    }
}

/// The plan of an expression in its scope, or of a pattern where it is to be one, or why it is refused.
pub fn judged(
    alloc: Global,
    is_pattern: bool,
    text: &str,
    scope: &Scope,
) -> Result<Result<Plan, ExpressionFault>, AllocError>
    ensures { IfOk result (λ answer. Judges is_pattern (chars text.now) scope.now answer) }
{
    answers_are_grammatical();
    if is_pattern {
        match parse_pattern(alloc, text) {
            Ok(pattern) => {
                let plan = planned(alloc, check_pattern(alloc, &pattern, scope));
                drop(pattern);
                plan
            }
            Err(fault) => misspelled(fault),
        }
    } else {
        match parse(alloc, text) {
            Ok(expression) => {
                let plan = planned(alloc, check(alloc, &expression, scope));
                drop(expression);
                plan
            }
            Err(fault) => misspelled(fault),
        }
    }
}

/// What isn't spelled right.
fn misspelled(fault: SyntaxFault) -> Result<Result<Plan, ExpressionFault>, AllocError>
    ensures { IfOk result (λ answer. spec.IsMisspelled fault answer) }
{
    match fault {
        SyntaxFault::Memory => Err(AllocError),
        _ => Ok(Err(ExpressionFault::Syntax(fault))),
    }
}

/// The plan of an expression in its scope, or of a pattern where it is to be one. A text that is refused there says
/// nothing: its value has no items.
pub fn plan_of(
    alloc: Global,
    is_pattern: bool,
    text: &str,
    scope: &Scope,
) -> Result<Plan, AllocError>
    ensures { IfOk result (λ plan. expression plan ≡ expression_in scope.now is_pattern (chars text.now)) }
{
    match judged(alloc, is_pattern, text, scope)? {
        Ok(plan) => Ok(plan),
        Err(_) => nothing(alloc, scope),
    }
}

/// The plan of `()`, which is right in every scope.
fn nothing(alloc: Global, scope: &Scope) -> Result<Plan, AllocError>
    ensures { IfOk result (λ plan. expression plan ≡ e.nothing) }
{
    let expression = Expr::Leaf(Leaf::Empty);
    let plan = plan_of_nothing(alloc, &expression, scope);
    drop(expression);
    plan
}

fn plan_of_nothing(alloc: Global, nothing: &Expr, scope: &Scope) -> Result<Plan, AllocError>
    requires { nothing.now ≡ x.Leaf l.Empty }
    ensures { IfOk result (λ plan. expression plan ≡ e.nothing) }
{
    match check(alloc, nothing, scope) {
        Ok(typed) => compile(alloc, &typed),
        Err(TypeFault::Refused { kind: _, token: _ }) => unreachable!(),
        Err(TypeFault::Memory) => Err(AllocError),
    }
}

/// The plan of what was typed, or why it wasn't.
fn planned(
    alloc: Global,
    typed: Result<Typed<'_>, TypeFault>,
) -> Result<Result<Plan, ExpressionFault>, AllocError>
    requires { spec.IsGrammatical typed }
    ensures { IfOk result (λ answer. spec.IsPlanned typed.entry answer) }
{
    match typed {
        Ok(typed) => {
            typed.parts_are_stated();
            Ok(Ok(compile(alloc, &typed)?))
        }
        Err(TypeFault::Refused { kind, token }) => Ok(Err(ExpressionFault::Type { kind, token })),
        Err(TypeFault::Memory) => Err(AllocError),
    }
}
