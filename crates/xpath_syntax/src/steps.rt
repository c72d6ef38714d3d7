//! The tokens one after another.

ghost use Rattle.std.specs.Prelude.{◌≡◌, false};
ghost use Rattle.xpath_grammar.specs.Machine as machine;
ghost use Rattle.xpath_syntax.specs.Values.{values};
ghost use Rattle.xpath_syntax.specs.Stacks as spec;

use crate::behind::{behind, behind_filter, behind_primary, close};
use crate::clauses::{
    behind_bind, behind_bind_dollar, behind_bind_name, behind_cast_as, behind_casting,
    behind_decided, behind_if, behind_typed, cast_node,
};
use crate::operand::{
    behind_axis, behind_dollar, behind_kind, behind_name, behind_named_on, behind_slash,
};
use crate::stack::Stack;
use crate::value::{Parts, Value, leaf};
use crate::wanted::wanted;
use std::alloc::Global;
use xpath_grammar::expr::{Form, Leaf};
use xpath_grammar::machine::Mode;
use xpath_grammar::step::{AxisForm, Test};
use xpath_tokens::token::{SyntaxFault, Token};

/// What was read behind the last frame, with one more token of which nothing is kept.
fn step_past(
    alloc: Global,
    token: &Token,
    mode: Mode<Value, Parts>,
    stack: &mut Stack,
) -> Result<Mode<Value, Parts>, SyntaxFault>
    requires { spec.keeps_token mode ≡ false }
    ensures { spec.Gives result stack.new (machine.step_in values token.now mode stack.old) }
{
    match mode {
        Mode::Named(name) => behind_name(alloc, token, name, stack),
        Mode::NamedOn(form, name) => behind_named_on(alloc, token, form, name, stack),
        Mode::Kind(form, test) => behind_kind(token, form, test, stack),
        Mode::Have(value) => behind_primary(alloc, token, value, stack),
        Mode::Filtered(parts) => behind_filter(alloc, token, parts, stack),
        Mode::Whole(rank, value) => behind(alloc, token, rank, value, stack),
        Mode::Bind(binder, lead, parts) => behind_bind(token, binder, lead, parts, stack),
        Mode::BindName(binder, lead, parts, name) => {
            behind_bind_name(token, binder, lead, parts, name, stack)
        }
        Mode::If => behind_if(alloc, token, stack),
        Mode::Decided(parts) => behind_decided(token, parts, stack),
        Mode::Casting(word, value) => behind_casting(token, word, value, stack),
        Mode::Typed(word, value, name) => behind_typed(alloc, token, word, value, name, stack),
        Mode::Want
        | Mode::Slash
        | Mode::Dollar
        | Mode::OnAxis(_)
        | Mode::BindDollar(_, _, _)
        | Mode::CastAs(_, _) => unreachable!(),
    }
}

/// What was read behind the last frame, with one more token.
fn step(
    alloc: Global,
    token: Token,
    mode: Mode<Value, Parts>,
    stack: &mut Stack,
) -> Result<Mode<Value, Parts>, SyntaxFault>
    ensures { spec.Gives result stack.new (machine.step_in values token mode stack.old) }
{
    match mode {
        Mode::Want => wanted(alloc, token, stack),
        Mode::Slash => behind_slash(alloc, token, stack),
        Mode::Dollar => behind_dollar(token, stack),
        Mode::OnAxis(form) => behind_axis(token, form, stack),
        Mode::BindDollar(binder, lead, parts) => {
            behind_bind_dollar(token, binder, lead, parts, stack)
        }
        Mode::CastAs(word, value) => behind_cast_as(token, word, value, stack),
        mode => {
            let next = step_past(alloc, &token, mode, stack);
            drop(token);
            next
        }
    }
}

/// What is left when the tokens have ended.
fn last_value(alloc: Global, mode: Mode<Value, Parts>) -> Result<Value, SyntaxFault>
    ensures { spec.MayMake result (spec.last_value mode) }
{
    match mode {
        Mode::Slash => Ok(leaf(Leaf::Root)),
        Mode::Named(name) => Ok(leaf(Leaf::Step(AxisForm::Unwritten, Test::Name(name)))),
        Mode::NamedOn(form, name) => Ok(leaf(Leaf::Step(form, Test::Name(name)))),
        Mode::Have(value) => Ok(value),
        Mode::Filtered(parts) => Ok(parts.node(Form::Filter)),
        Mode::Whole(_, value) => Ok(value),
        Mode::Typed(word, value, name) => cast_node(alloc, word, name, false, value),
        mode => {
            drop(mode);
            Err(SyntaxFault::Syntax)
        }
    }
}

/// The expression that is read when the tokens have ended.
fn ended(alloc: Global, mode: Mode<Value, Parts>, stack: &mut Stack) -> Result<Value, SyntaxFault>
    ensures { spec.MayMake result (machine.ended_in values mode stack.old) }
{
    let last = last_value(alloc, mode)?;
    let value = close(0, last, stack)?;
    if stack.is_empty() {
        Ok(value)
    } else {
        drop(value);
        Err(SyntaxFault::Syntax)
    }
}

/// The expression that the tokens spell.
pub fn parsed(alloc: Global, tokens: Vec<Token>) -> Result<Value, SyntaxFault>
    ensures { spec.MayMake result (machine.parsed values tokens.items) }
{
    let mut stack = Stack::new(alloc);
    let mut mode = Mode::Want;
    'tokens: for token in tokens {
        match step(alloc, token, mode, &mut stack) {
            Ok(next) => mode = next,
            Err(fault) => return Err(fault),
        }
    }
    ended(alloc, mode, &mut stack)
}
