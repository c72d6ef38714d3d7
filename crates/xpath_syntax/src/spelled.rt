//! What the tokens of a text spell, unless it has too many levels.

ghost use Rattle.std.specs.Prelude.{◌≡◌, option_map};
ghost use Rattle.xpath_grammar.specs.Machine as machine;
ghost use Rattle.xpath_grammar.specs.Patterns as patterns;
ghost use Rattle.xpath_syntax.specs.Answers as answers;
ghost use Rattle.xpath_syntax.specs.Spelled as spec;
ghost use Rattle.xpath_syntax.specs.Stacks.{MayMake};
ghost use Rattle.xpath_syntax.specs.Values.{values};

use crate::steps::parsed;
use crate::value::{Parts, Value};
use std::alloc::Global;
use xpath_grammar::expr::Expr;
use xpath_grammar::laws::{machine_computes, trees_are_expressions};
use xpath_grammar::pattern::{Pattern, PatternKind};
use xpath_tokens::token::{SyntaxFault, Token};

/// What is kept of the expression that the tokens spell.
fn valued(alloc: Global, tokens: Vec<Token>) -> Result<Value, SyntaxFault>
    ensures { MayMake result (option_map (machine.value_of values) (machine.tree_of tokens.items)) }
{
    machine_computes::<Value, Parts>();
    parsed(alloc, tokens)
}

fn expression_of(value: Value) -> Result<Expr, SyntaxFault>
    ensures { result ≡ spec.expression_of value }
{
    let Value { kept, kind: _ } = value;
    match kept {
        Some(kept) => Ok(kept.expression),
        None => Err(SyntaxFault::TooDeep),
    }
}

fn pattern_of(value: Value) -> Result<Pattern, SyntaxFault>
    requires { spec.IsOfItsKind value }
    ensures { result ≡ spec.pattern_of value }
{
    if matches!(value.kind, PatternKind::Other) {
        drop(value);
        return Err(SyntaxFault::Syntax);
    }
    match expression_of(value) {
        Ok(expression) => Ok(Pattern::new(expression)),
        Err(fault) => Err(fault),
    }
}

/// The expression that the tokens spell.
pub fn expression(alloc: Global, tokens: Vec<Token>) -> Result<Expr, SyntaxFault>
    ensures { answers.Answers result (answers.answer_of_tree (machine.tree_of tokens.items)) }
{
    trees_are_expressions();
    match valued(alloc, tokens) {
        Ok(value) => expression_of(value),
        Err(fault) => Err(fault),
    }
}

/// The pattern that the tokens spell.
pub fn pattern(alloc: Global, tokens: Vec<Token>) -> Result<Pattern, SyntaxFault>
    ensures { answers.PatternAnswers result
        (answers.answer_of_pattern_tree (machine.tree_of tokens.items)) }
{
    trees_are_expressions();
    match valued(alloc, tokens) {
        Ok(value) => pattern_of(value),
        Err(fault) => Err(fault),
    }
}
