//! What a token does where an operand is wanted.

ghost use Rattle.std.specs.Prelude.{◌≡◌};
ghost use Rattle.xpath_grammar.specs.Machine as machine;
ghost use Rattle.xpath_syntax.specs.Values.{values, Makes};
ghost use Rattle.xpath_syntax.specs.Stacks as spec;

use crate::behind::opening;
use crate::stack::Stack;
use crate::value::{Parts, Value, leaf};
use std::alloc::Global;
use xpath_grammar::expr::{Form, Label, Leaf};
use xpath_grammar::machine::{Frame, Mode};
use xpath_grammar::many::Many;
use xpath_grammar::operators::{Binder, Production};
use xpath_grammar::step::{AxisForm, Test};
use xpath_tokens::token::{Keyword, Operator, SyntaxFault, Token};

/// The expression that `)` makes of what was opened with nothing in it.
fn leaf_closed(label: Label) -> Option<Leaf>
    ensures { result ≡ machine.leaf_closed label }
{
    match label {
        Label::Opened => Some(Leaf::Empty),
        Label::Calling(name) => Some(Leaf::Called(name)),
        label => {
            drop(label);
            None
        }
    }
}

/// `)` behind nothing.
fn close_empty(stack: &mut Stack) -> Result<Mode<Value, Parts>, SyntaxFault>
    ensures { spec.Gives result stack.new (machine.close_empty values stack.old) }
{
    match stack.pop() {
        None => Err(SyntaxFault::Syntax),
        Some(Frame::Open(form, parts, label)) => {
            drop(form);
            drop(parts);
            match leaf_closed(label) {
                None => Err(SyntaxFault::Syntax),
                Some(closed) => Ok(Mode::Have(leaf(closed))),
            }
        }
    }
}

fn first_sign(
    alloc: Global,
    operator: Operator,
    stack: &mut Stack,
) -> Result<Mode<Value, Parts>, SyntaxFault>
    ensures { spec.Gives result stack.new (machine.first_sign values operator stack.old) }
{
    if stack.has_place(13) {
        let mut operators = Many::new(alloc);
        operators.push(operator)?;
        opening(
            Form::Signs,
            Parts::nothing(alloc),
            Label::Signed(operators),
            stack,
        )
    } else {
        Err(SyntaxFault::Syntax)
    }
}

fn is_signed(form: &Form, label: &Label) -> bool
    ensures { result ≡ spec.is_signed form.now label.now }
{
    match form {
        Form::Signs => matches!(label, Label::Signed(_)),
        _ => false,
    }
}

/// The signs, and one more.
fn signed_with(label: Label, operator: Operator) -> Result<Label, SyntaxFault>
    ensures { Makes result (spec.signed_with label operator) }
{
    match label {
        Label::Signed(operators) => {
            let mut operators = operators;
            operators.push(operator)?;
            Ok(Label::Signed(operators))
        }
        Label::First => Ok(Label::First),
        Label::Link(link) => Ok(Label::Link(link)),
        Label::Comma => Ok(Label::Comma),
        Label::Binding(lead, name) => Ok(Label::Binding(lead, name)),
        Label::Condition => Ok(Label::Condition),
        Label::Then => Ok(Label::Then),
        Label::Predicate => Ok(Label::Predicate),
        Label::Again => Ok(Label::Again),
        Label::Opened => Ok(Label::Opened),
        Label::Calling(name) => Ok(Label::Calling(name)),
    }
}

fn sign(
    alloc: Global,
    operator: Operator,
    stack: &mut Stack,
) -> Result<Mode<Value, Parts>, SyntaxFault>
    ensures { spec.Gives result stack.new (machine.sign values operator stack.old) }
{
    match stack.pop() {
        None => first_sign(alloc, operator, stack),
        Some(Frame::Open(form, parts, label)) => {
            if is_signed(&form, &label) {
                match signed_with(label, operator) {
                    Ok(label) => opening(form, parts, label, stack),
                    Err(fault) => {
                        drop(form);
                        drop(parts);
                        Err(fault)
                    }
                }
            } else {
                stack.push(Frame::Open(form, parts, label))?;
                first_sign(alloc, operator, stack)
            }
        }
    }
}

fn operator_wanted(
    alloc: Global,
    operator: Operator,
    stack: &mut Stack,
) -> Result<Mode<Value, Parts>, SyntaxFault>
    ensures { spec.Gives result stack.new (machine.operator_wanted values operator stack.old) }
{
    match operator {
        Operator::Slash => {
            if stack.has_place(14) {
                Ok(Mode::Slash)
            } else {
                Err(SyntaxFault::Syntax)
            }
        }
        Operator::DoubleSlash => {
            if stack.has_place(14) {
                let label = Label::Link(Operator::DoubleSlash);
                let path = Form::Chain(Production::Path);
                opening(path, Parts::nothing(alloc), label, stack)
            } else {
                Err(SyntaxFault::Syntax)
            }
        }
        Operator::Plus => sign(alloc, Operator::Plus, stack),
        Operator::Minus => sign(alloc, Operator::Minus, stack),
        _ => Err(SyntaxFault::Syntax),
    }
}

fn binder_of(keyword: Keyword) -> Option<Binder>
    ensures { result ≡ machine.binder_of keyword }
{
    match keyword {
        Keyword::If => None,
        Keyword::For => Some(Binder::For),
        Keyword::Some => Some(Binder::Some),
        Keyword::Every => Some(Binder::Every),
    }
}

fn keyword_wanted(
    alloc: Global,
    keyword: Keyword,
    stack: &Stack,
) -> Result<Mode<Value, Parts>, SyntaxFault>
    ensures { spec.Gives result stack.now
        (machine.keyword_wanted values (machine.binder_of keyword) stack.now) }
{
    if stack.has_place(2) {
        match binder_of(keyword) {
            None => Ok(Mode::If),
            Some(binder) => Ok(Mode::Bind(binder, Some(binder), Parts::nothing(alloc))),
        }
    } else {
        Err(SyntaxFault::Syntax)
    }
}

/// The token stands where an operand is wanted.
pub fn wanted(
    alloc: Global,
    token: Token,
    stack: &mut Stack,
) -> Result<Mode<Value, Parts>, SyntaxFault>
    ensures { spec.Gives result stack.new (machine.wanted values token stack.old) }
{
    match token {
        Token::Literal(text) => Ok(Mode::Have(leaf(Leaf::Literal(text)))),
        Token::Number(number) => Ok(Mode::Have(leaf(Leaf::Number(number)))),
        Token::Dot => Ok(Mode::Have(leaf(Leaf::Context))),
        Token::DoubleDot => Ok(Mode::Have(leaf(Leaf::Parent))),
        Token::Star => Ok(Mode::Have(leaf(Leaf::Step(AxisForm::Unwritten, Test::Star)))),
        Token::Name(name) => Ok(Mode::Named(name)),
        Token::Dollar => Ok(Mode::Dollar),
        Token::At => Ok(Mode::OnAxis(AxisForm::At)),
        Token::LeftParenthesis => opening(
            Form::Parentheses,
            Parts::nothing(alloc),
            Label::Opened,
            stack,
        ),
        Token::RightParenthesis => close_empty(stack),
        Token::Operator(operator) => operator_wanted(alloc, operator, stack),
        Token::Keyword(keyword) => keyword_wanted(alloc, keyword, stack),
        Token::LeftBracket
        | Token::RightBracket
        | Token::Comma
        | Token::DoubleColon
        | Token::Question => Err(SyntaxFault::Syntax),
    }
}
