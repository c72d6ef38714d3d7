//! What a token does behind the first tokens of an operand.

ghost use Rattle.std.specs.Prelude.{◌≡◌};
ghost use Rattle.xpath_grammar.specs.Grammar as grammar;
ghost use Rattle.xpath_grammar.specs.Machine as machine;
ghost use Rattle.xpath_syntax.specs.Values.{values};
ghost use Rattle.xpath_syntax.specs.Stacks as spec;

use crate::behind::{behind, behind_primary, opening};
use crate::names::{axis_of, kind_of};
use crate::ranks::is_full;
use crate::stack::Stack;
use crate::value::{Parts, Value, leaf};
use crate::wanted::wanted;
use std::alloc::Global;
use xpath_grammar::expr::{Form, Label, Leaf};
use xpath_grammar::machine::{Frame, Mode};
use xpath_grammar::operators::Production;
use xpath_grammar::step::{AxisForm, KindTest, Test};
use xpath_tokens::token::{Name, Operator, SyntaxFault, Token};

fn begins_step(token: &Token) -> bool
    ensures { result ≡ machine.begins_step token.now }
{
    match token {
        Token::Literal(_)
        | Token::Number(_)
        | Token::Name(_)
        | Token::Dot
        | Token::DoubleDot
        | Token::Star
        | Token::Dollar
        | Token::At
        | Token::LeftParenthesis => true,
        _ => false,
    }
}

/// The token stands behind a `/` with which an operand begins.
pub fn behind_slash(
    alloc: Global,
    token: Token,
    stack: &mut Stack,
) -> Result<Mode<Value, Parts>, SyntaxFault>
    ensures { spec.Gives result stack.new
        (machine.behind_slash values (machine.begins_step token) token stack.old) }
{
    if begins_step(&token) {
        let label = Label::Link(Operator::Slash);
        let path = Frame::Open(Form::Chain(Production::Path), Parts::nothing(alloc), label);
        match stack.push(path) {
            Ok(()) => wanted(alloc, token, stack),
            Err(fault) => {
                drop(token);
                Err(fault)
            }
        }
    } else {
        let next = behind(alloc, &token, 14, leaf(Leaf::Root), stack);
        drop(token);
        next
    }
}

/// The token stands behind `$`.
pub fn behind_dollar(token: Token, stack: &Stack) -> Result<Mode<Value, Parts>, SyntaxFault>
    ensures { spec.Gives result stack.now (machine.behind_dollar values token stack.now) }
{
    match token {
        Token::Name(name) => {
            if is_full(&name) {
                Ok(Mode::Have(leaf(Leaf::Variable(name))))
            } else {
                drop(name);
                Err(SyntaxFault::Syntax)
            }
        }
        token => {
            drop(token);
            Err(SyntaxFault::Syntax)
        }
    }
}

/// `(` stands behind the name.
fn call_or_kind(
    alloc: Global,
    name: Name,
    stack: &mut Stack,
) -> Result<Mode<Value, Parts>, SyntaxFault>
    ensures { spec.Gives result stack.new
        (machine.call_or_kind values (grammar.kind_of name) name stack.old) }
{
    match kind_of(&name) {
        Some(test) => {
            drop(name);
            Ok(Mode::Kind(AxisForm::Unwritten, test))
        }
        None => {
            if is_full(&name) {
                opening(
                    Form::Call,
                    Parts::nothing(alloc),
                    Label::Calling(name),
                    stack,
                )
            } else {
                drop(name);
                Err(SyntaxFault::Syntax)
            }
        }
    }
}

/// `::` stands behind the name.
fn axis_named(name: &Name, stack: &Stack) -> Result<Mode<Value, Parts>, SyntaxFault>
    ensures { spec.Gives result stack.now
        (machine.axis_named values (grammar.axis_of name.now) stack.now) }
{
    match axis_of(name) {
        Some(axis) => Ok(Mode::OnAxis(AxisForm::Written(axis))),
        None => Err(SyntaxFault::Syntax),
    }
}

/// The token stands behind a name with which an operand begins.
pub fn behind_name(
    alloc: Global,
    token: &Token,
    name: Name,
    stack: &mut Stack,
) -> Result<Mode<Value, Parts>, SyntaxFault>
    ensures { spec.Gives result stack.new (machine.behind_name values token.now name stack.old) }
{
    match token {
        Token::LeftParenthesis => call_or_kind(alloc, name, stack),
        Token::DoubleColon => {
            let next = axis_named(&name, stack);
            drop(name);
            next
        }
        _ => {
            let step = leaf(Leaf::Step(AxisForm::Unwritten, Test::Name(name)));
            behind_primary(alloc, token, step, stack)
        }
    }
}

/// The token stands behind an axis.
pub fn behind_axis(
    token: Token,
    form: AxisForm,
    stack: &Stack,
) -> Result<Mode<Value, Parts>, SyntaxFault>
    ensures { spec.Gives result stack.now (machine.behind_axis values token form stack.now) }
{
    match token {
        Token::Name(name) => Ok(Mode::NamedOn(form, name)),
        Token::Star => Ok(Mode::Have(leaf(Leaf::Step(form, Test::Star)))),
        token => {
            drop(token);
            Err(SyntaxFault::Syntax)
        }
    }
}

/// The test of a kind on the axis.
fn kind_on(name: &Name, form: AxisForm, stack: &Stack) -> Result<Mode<Value, Parts>, SyntaxFault>
    ensures { spec.Gives result stack.now
        (machine.kind_on values (grammar.kind_of name.now) form stack.now) }
{
    match kind_of(name) {
        Some(test) => Ok(Mode::Kind(form, test)),
        None => Err(SyntaxFault::Syntax),
    }
}

/// The token stands behind a name on an axis.
pub fn behind_named_on(
    alloc: Global,
    token: &Token,
    form: AxisForm,
    name: Name,
    stack: &mut Stack,
) -> Result<Mode<Value, Parts>, SyntaxFault>
    ensures { spec.Gives result stack.new
        (machine.behind_named_on values token.now form name stack.old) }
{
    match token {
        Token::LeftParenthesis => {
            let next = kind_on(&name, form, stack);
            drop(name);
            next
        }
        _ => {
            let step = leaf(Leaf::Step(form, Test::Name(name)));
            behind_primary(alloc, token, step, stack)
        }
    }
}

/// The token stands behind the `(` of a test of a kind.
pub fn behind_kind(
    token: &Token,
    form: AxisForm,
    test: KindTest,
    stack: &Stack,
) -> Result<Mode<Value, Parts>, SyntaxFault>
    ensures { spec.Gives result stack.now
        (machine.behind_kind values token.now form test stack.now) }
{
    match token {
        Token::RightParenthesis => Ok(Mode::Have(leaf(Leaf::Step(form, Test::Kind(test))))),
        _ => Err(SyntaxFault::Syntax),
    }
}
