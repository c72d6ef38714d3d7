//! What a token does behind a whole expression.

ghost use Rattle.std.specs.Prelude.{◌≡◌, ◌∷◌, Some};
ghost use Rattle.xpath_grammar.specs.declared.expr.Label.TheVariants as commas;
ghost use Rattle.xpath_grammar.specs.Machine as machine;
ghost use Rattle.xpath_syntax.specs.Values.{values, Makes};
ghost use Rattle.xpath_syntax.specs.Stacks as spec;

use crate::ranks::{goes_on, production_of, production_of_label, rank_of, rank_of_cast};
use crate::stack::Stack;
use crate::value::{Parts, Value};
use std::alloc::Global;
use xpath_grammar::expr::{Form, Label};
use xpath_grammar::machine::{Frame, Mode};
use xpath_grammar::operators::{Binder, CastWord, Production};
use xpath_tokens::token::{Operator, SyntaxFault, Token};

/// What was open, with the value as its last part.
fn node_of(frame: Frame<Parts>, value: Value) -> Result<Value, SyntaxFault>
    ensures { Makes result (spec.node_of frame value) }
{
    match frame {
        Frame::Open(form, parts, label) => {
            let parts = parts.and_then(label, value)?;
            Ok(parts.node(form))
        }
    }
}

/// The value, with what ends behind it taken from the stack.
pub fn close(rank: u32, mut value: Value, stack: &mut Stack) -> Result<Value, SyntaxFault>
    ensures { spec.Closes result stack.new (machine.close values rank value stack.old) }
{
    'frames: while stack.is_closed(rank) {
        match stack.pop() {
            None => return Ok(value),
            Some(frame) => match node_of(frame, value) {
                Ok(node) => value = node,
                Err(fault) => return Err(fault),
            },
        }
    }
    Ok(value)
}

pub fn opening(
    form: Form,
    parts: Parts,
    label: Label,
    stack: &mut Stack,
) -> Result<Mode<Value, Parts>, SyntaxFault>
    ensures { spec.Gives result stack.new
        (Some (machine.opening values form parts label stack.old)) }
{
    stack.push(Frame::Open(form, parts, label))?;
    Ok(Mode::Want)
}

/// The value is the first operand of a chain of the production.
fn begin_chain(
    alloc: Global,
    production: Option<Production>,
    label: Label,
    value: Value,
    stack: &mut Stack,
) -> Result<Mode<Value, Parts>, SyntaxFault>
    ensures { spec.Gives result stack.new
        (machine.begin_chain values production label value stack.old) }
{
    match production {
        None => {
            drop(label);
            drop(value);
            Err(SyntaxFault::Syntax)
        }
        Some(production) => {
            if stack.has_place(rank_of(production)) {
                match Parts::nothing(alloc).and_then(Label::First, value) {
                    Ok(parts) => opening(Form::Chain(production), parts, label, stack),
                    Err(fault) => {
                        drop(label);
                        Err(fault)
                    }
                }
            } else {
                drop(label);
                drop(value);
                Err(SyntaxFault::Syntax)
            }
        }
    }
}

/// The value is a part of what is open on top and goes on by the label, or it begins a chain.
fn link(
    alloc: Global,
    label: Label,
    value: Value,
    stack: &mut Stack,
) -> Result<Mode<Value, Parts>, SyntaxFault>
    ensures { spec.Gives result stack.new (machine.link values label value stack.old) }
{
    let production = production_of_label(&label);
    match stack.pop() {
        None => begin_chain(alloc, production, label, value, stack),
        Some(Frame::Open(form, parts, before)) => {
            if goes_on(&form, &before, &label) {
                match parts.and_then(before, value) {
                    Ok(parts) => opening(form, parts, label, stack),
                    Err(fault) => {
                        drop(form);
                        drop(label);
                        Err(fault)
                    }
                }
            } else {
                match stack.push(Frame::Open(form, parts, before)) {
                    Ok(()) => begin_chain(alloc, production, label, value, stack),
                    Err(fault) => {
                        drop(label);
                        drop(value);
                        Err(fault)
                    }
                }
            }
        }
    }
}

fn cast_of(operator: Operator) -> Option<CastWord>
    ensures { result ≡ machine.cast_of operator }
{
    match operator {
        Operator::Cast => Some(CastWord::Cast),
        Operator::Castable => Some(CastWord::Castable),
        _ => None,
    }
}

fn operator_met(
    alloc: Global,
    operator: Operator,
    value: Value,
    stack: &mut Stack,
) -> Result<Mode<Value, Parts>, SyntaxFault>
    ensures { spec.Gives result stack.new
        (machine.operator_met values (machine.cast_of operator) operator value stack.old) }
{
    match cast_of(operator) {
        Some(word) => {
            if stack.has_place(rank_of_cast(word)) {
                Ok(Mode::Casting(word, value))
            } else {
                drop(value);
                Err(SyntaxFault::Syntax)
            }
        }
        None => link(alloc, Label::Link(operator), value, stack),
    }
}

fn binder_in(form: &Form, label: &Label) -> Option<Binder>
    ensures { result ≡ machine.binder_in form.now label.now }
{
    match form {
        Form::Bound(binder) => match label {
            Label::Binding(_, _) => Some(*binder),
            _ => None,
        },
        _ => None,
    }
}

/// The variables so far, the last of which has the value.
fn bound(
    binder: Binder,
    parts: Parts,
    label: Label,
    value: Value,
) -> Result<Mode<Value, Parts>, SyntaxFault>
    ensures { Makes result (spec.bound binder parts label value) }
{
    let parts = parts.and_then(label, value)?;
    Ok(Mode::Bind(binder, None, parts))
}

/// A comma stands behind a part of what is open, or between the operands of a sequence.
fn comma_behind(
    alloc: Global,
    frame: Frame<Parts>,
    value: Value,
    stack: &mut Stack,
) -> Result<Mode<Value, Parts>, SyntaxFault>
    ensures { spec.Gives result stack.new (machine.link values commas.Comma value (frame ∷ stack.old)) }
{
    match stack.push(frame) {
        Ok(()) => link(alloc, Label::Comma, value, stack),
        Err(fault) => {
            drop(value);
            Err(fault)
        }
    }
}

fn comma_met(
    alloc: Global,
    value: Value,
    stack: &mut Stack,
) -> Result<Mode<Value, Parts>, SyntaxFault>
    ensures { spec.Gives result stack.new (machine.comma_met values value stack.old) }
{
    match stack.pop() {
        None => link(alloc, Label::Comma, value, stack),
        Some(Frame::Open(form, parts, label)) => match binder_in(&form, &label) {
            Some(binder) => bound(binder, parts, label, value),
            None => comma_behind(alloc, Frame::Open(form, parts, label), value, stack),
        },
    }
}

fn is_parenthesized(form: &Form) -> bool
    ensures { result ≡ spec.is_parenthesized form.now }
{
    matches!(form, Form::Parentheses | Form::Call)
}

/// The condition of an `if` stands behind the label.
fn in_condition(form: &Form, label: &Label) -> bool
    ensures { result ≡ spec.in_condition form.now label.now }
{
    match form {
        Form::Conditional => matches!(label, Label::Condition),
        _ => false,
    }
}

/// What the parenthesis closes, with the value as its last part.
fn parenthesized(
    form: Form,
    parts: Parts,
    label: Label,
    value: Value,
) -> Result<Mode<Value, Parts>, SyntaxFault>
    ensures { Makes result (spec.parenthesized form parts label value) }
{
    let parts = parts.and_then(label, value)?;
    Ok(Mode::Have(parts.node(form)))
}

/// The condition of an `if`, which the parenthesis closes.
fn decided(parts: Parts, label: Label, value: Value) -> Result<Mode<Value, Parts>, SyntaxFault>
    ensures { Makes result (spec.decided parts label value) }
{
    let parts = parts.and_then(label, value)?;
    Ok(Mode::Decided(parts))
}

fn parenthesis_met(value: Value, stack: &mut Stack) -> Result<Mode<Value, Parts>, SyntaxFault>
    ensures { spec.Gives result stack.new (machine.parenthesis_met values value stack.old) }
{
    match stack.pop() {
        None => {
            drop(value);
            Err(SyntaxFault::Syntax)
        }
        Some(Frame::Open(form, parts, label)) => {
            if is_parenthesized(&form) {
                parenthesized(form, parts, label, value)
            } else if in_condition(&form, &label) {
                drop(form);
                decided(parts, label, value)
            } else {
                drop(form);
                drop(parts);
                drop(label);
                drop(value);
                Err(SyntaxFault::Syntax)
            }
        }
    }
}

fn in_predicate(form: &Form, label: &Label) -> bool
    ensures { result ≡ machine.in_predicate form.now label.now }
{
    match form {
        Form::Filter => matches!(label, Label::Predicate | Label::Again),
        _ => false,
    }
}

fn bracket_met(value: Value, stack: &mut Stack) -> Result<Mode<Value, Parts>, SyntaxFault>
    ensures { spec.Gives result stack.new (machine.bracket_met values value stack.old) }
{
    match stack.pop() {
        None => {
            drop(value);
            Err(SyntaxFault::Syntax)
        }
        Some(Frame::Open(form, parts, label)) => {
            let holds = in_predicate(&form, &label);
            drop(form);
            if holds {
                let parts = parts.and_then(label, value)?;
                Ok(Mode::Filtered(parts))
            } else {
                drop(parts);
                drop(label);
                drop(value);
                Err(SyntaxFault::Syntax)
            }
        }
    }
}

fn met(
    alloc: Global,
    token: &Token,
    value: Value,
    stack: &mut Stack,
) -> Result<Mode<Value, Parts>, SyntaxFault>
    ensures { spec.Gives result stack.new (machine.met values token.now value stack.old) }
{
    match token {
        Token::Operator(operator) => operator_met(alloc, *operator, value, stack),
        Token::Comma => comma_met(alloc, value, stack),
        Token::RightParenthesis => parenthesis_met(value, stack),
        Token::RightBracket => bracket_met(value, stack),
        _ => {
            drop(value);
            Err(SyntaxFault::Syntax)
        }
    }
}

fn strength(operator: Operator) -> u32
    ensures { result ≡ machine.strength operator }
{
    match cast_of(operator) {
        Some(word) => rank_of_cast(word),
        None => match production_of(operator) {
            Some(production) => rank_of(production),
            None => 1,
        },
    }
}

fn strength_of(token: &Token) -> Option<u32>
    ensures { result ≡ machine.strength_of token.now }
{
    match token {
        Token::Operator(operator) => Some(strength(*operator)),
        Token::Comma => Some(1),
        Token::RightParenthesis | Token::RightBracket => Some(0),
        _ => None,
    }
}

/// The token stands behind a value of the rank.
pub fn behind(
    alloc: Global,
    token: &Token,
    rank: u32,
    value: Value,
    stack: &mut Stack,
) -> Result<Mode<Value, Parts>, SyntaxFault>
    ensures { spec.Gives result stack.new (machine.behind values token.now rank value stack.old) }
{
    match strength_of(token) {
        None => {
            drop(value);
            Err(SyntaxFault::Syntax)
        }
        Some(strength) => {
            if strength < rank {
                let value = close(strength, value, stack)?;
                met(alloc, token, value, stack)
            } else {
                drop(value);
                Err(SyntaxFault::Syntax)
            }
        }
    }
}

/// The token stands behind a value of the highest rank.
pub fn behind_primary(
    alloc: Global,
    token: &Token,
    value: Value,
    stack: &mut Stack,
) -> Result<Mode<Value, Parts>, SyntaxFault>
    ensures { spec.Gives result stack.new
        (machine.behind_primary values token.now value stack.old) }
{
    match token {
        Token::LeftBracket => {
            let parts = Parts::nothing(alloc).and_then(Label::First, value)?;
            opening(Form::Filter, parts, Label::Predicate, stack)
        }
        _ => behind(alloc, token, 16, value, stack),
    }
}

/// The token stands behind a predicate.
pub fn behind_filter(
    alloc: Global,
    token: &Token,
    parts: Parts,
    stack: &mut Stack,
) -> Result<Mode<Value, Parts>, SyntaxFault>
    ensures { spec.Gives result stack.new (machine.behind_filter values token.now parts stack.old) }
{
    match token {
        Token::LeftBracket => opening(Form::Filter, parts, Label::Again, stack),
        _ => behind(alloc, token, 15, parts.node(Form::Filter), stack),
    }
}
