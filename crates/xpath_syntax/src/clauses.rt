//! What a token does between the fixed words of a clause: `for $x in`, `if (..) then`, `cast as T`.

ghost use Rattle.std.specs.Prelude.{◌≡◌};
ghost use Rattle.xpath_grammar.specs.Machine as machine;
ghost use Rattle.xpath_syntax.specs.Values.{values, Makes};
ghost use Rattle.xpath_syntax.specs.Stacks as spec;

use crate::behind::{behind, opening};
use crate::ranks::{is_full, rank_of_cast};
use crate::stack::Stack;
use crate::value::{Parts, Value};
use std::alloc::Global;
use xpath_grammar::expr::{Form, Label};
use xpath_grammar::machine::Mode;
use xpath_grammar::operators::{Binder, CastWord};
use xpath_tokens::token::{Name, Operator, SyntaxFault, Token};

/// The token stands behind `for`, `some` or `every`, or behind a comma between bindings.
pub fn behind_bind(
    token: &Token,
    binder: Binder,
    lead: Option<Binder>,
    parts: Parts,
    stack: &Stack,
) -> Result<Mode<Value, Parts>, SyntaxFault>
    ensures { spec.Gives result stack.now
        (machine.behind_bind values token.now binder lead parts stack.now) }
{
    match token {
        Token::Dollar => Ok(Mode::BindDollar(binder, lead, parts)),
        _ => {
            drop(parts);
            Err(SyntaxFault::Syntax)
        }
    }
}

/// The token stands behind the `$` of a binding.
pub fn behind_bind_dollar(
    token: Token,
    binder: Binder,
    lead: Option<Binder>,
    parts: Parts,
    stack: &Stack,
) -> Result<Mode<Value, Parts>, SyntaxFault>
    ensures { spec.Gives result stack.now
        (machine.behind_bind_dollar values token binder lead parts stack.now) }
{
    match token {
        Token::Name(name) => {
            if is_full(&name) {
                Ok(Mode::BindName(binder, lead, parts, name))
            } else {
                drop(name);
                drop(parts);
                Err(SyntaxFault::Syntax)
            }
        }
        token => {
            drop(token);
            drop(parts);
            Err(SyntaxFault::Syntax)
        }
    }
}

/// The token stands behind the name of a binding.
pub fn behind_bind_name(
    token: &Token,
    binder: Binder,
    lead: Option<Binder>,
    parts: Parts,
    name: Name,
    stack: &mut Stack,
) -> Result<Mode<Value, Parts>, SyntaxFault>
    ensures { spec.Gives result stack.new
        (machine.behind_bind_name values token.now binder lead parts name stack.old) }
{
    match token {
        Token::Operator(Operator::In) => opening(
            Form::Bound(binder),
            parts,
            Label::Binding(lead, name),
            stack,
        ),
        _ => {
            drop(parts);
            drop(name);
            Err(SyntaxFault::Syntax)
        }
    }
}

/// The token stands behind `if`.
pub fn behind_if(
    alloc: Global,
    token: &Token,
    stack: &mut Stack,
) -> Result<Mode<Value, Parts>, SyntaxFault>
    ensures { spec.Gives result stack.new (machine.behind_if values token.now stack.old) }
{
    match token {
        Token::LeftParenthesis => opening(
            Form::Conditional,
            Parts::nothing(alloc),
            Label::Condition,
            stack,
        ),
        _ => Err(SyntaxFault::Syntax),
    }
}

/// The token stands behind the condition of an `if`.
pub fn behind_decided(
    token: &Token,
    parts: Parts,
    stack: &mut Stack,
) -> Result<Mode<Value, Parts>, SyntaxFault>
    ensures { spec.Gives result stack.new
        (machine.behind_decided values token.now parts stack.old) }
{
    match token {
        Token::Operator(Operator::Then) => opening(Form::Conditional, parts, Label::Then, stack),
        _ => {
            drop(parts);
            Err(SyntaxFault::Syntax)
        }
    }
}

/// The token stands behind `cast` or `castable`.
pub fn behind_casting(
    token: &Token,
    word: CastWord,
    value: Value,
    stack: &Stack,
) -> Result<Mode<Value, Parts>, SyntaxFault>
    ensures { spec.Gives result stack.now
        (machine.behind_casting values token.now word value stack.now) }
{
    match token {
        Token::Operator(Operator::As) => Ok(Mode::CastAs(word, value)),
        _ => {
            drop(value);
            Err(SyntaxFault::Syntax)
        }
    }
}

/// The token stands behind the `as` of a cast.
pub fn behind_cast_as(
    token: Token,
    word: CastWord,
    value: Value,
    stack: &Stack,
) -> Result<Mode<Value, Parts>, SyntaxFault>
    ensures { spec.Gives result stack.now
        (machine.behind_cast_as values token word value stack.now) }
{
    match token {
        Token::Name(name) => {
            if is_full(&name) {
                Ok(Mode::Typed(word, value, name))
            } else {
                drop(name);
                drop(value);
                Err(SyntaxFault::Syntax)
            }
        }
        token => {
            drop(token);
            drop(value);
            Err(SyntaxFault::Syntax)
        }
    }
}

/// The value, cast to the type.
pub fn cast_node(
    alloc: Global,
    word: CastWord,
    name: Name,
    optional: bool,
    value: Value,
) -> Result<Value, SyntaxFault>
    ensures { Makes result (machine.cast_node values word name optional value) }
{
    let parts = Parts::nothing(alloc).and_then(Label::First, value)?;
    Ok(parts.node(Form::Cast(word, name, optional)))
}

/// The token stands behind the type of a cast.
pub fn behind_typed(
    alloc: Global,
    token: &Token,
    word: CastWord,
    value: Value,
    name: Name,
    stack: &mut Stack,
) -> Result<Mode<Value, Parts>, SyntaxFault>
    ensures { spec.Gives result stack.new
        (machine.behind_typed values token.now word value name stack.old) }
{
    let rank = rank_of_cast(word);
    match token {
        Token::Question => {
            let node = cast_node(alloc, word, name, true, value)?;
            Ok(Mode::Whole(rank, node))
        }
        _ => {
            let node = cast_node(alloc, word, name, false, value)?;
            behind(alloc, token, rank, node, stack)
        }
    }
}
