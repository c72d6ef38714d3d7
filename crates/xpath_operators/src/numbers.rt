//! Arithmetic and signs (XPath 2.0, section 3.4), at atomised operands.
ghost use Rattle.std.specs.Prelude.{◌≡◌, false};
ghost use Rattle.xpath_items.specs.Faults.{Gives};
ghost use Rattle.xpath_meaning.specs.Numbers as meaning;
ghost use Rattle.xpath_operators.specs.Calculations as spec;

use crate::readings::read_number;
use crate::values::number;
use inv_decimal::{Dec, DecFault, DivisionByZero, Overflow};
use std::alloc::Global;
use xpath_items::{DynError, Fault, Item, Seq};
use xpath_tokens::token::Operator;

/// The number that an operand is: untyped text is read as one.
pub fn number_of(item: &Item<'_>) -> Result<Dec, DynError>
    ensures { result ≡ meaning.number_of item.now }
{
    match item {
        Item::Number(number) => Ok(*number),
        Item::Untyped(text) => read_number(text.as_str()),
        _ => Err(DynError::XPTY0004),
    }
}

/// A result, where it is in range.
pub fn in_range(found: Result<Dec, Overflow>) -> Result<Dec, DynError>
    ensures { result ≡ meaning.in_range found }
{
    match found {
        Ok(number) => Ok(number),
        Err(_) => Err(DynError::FOAR0002),
    }
}

/// A quotient, where it is in range and the divisor isn't zero.
fn divided(found: Result<Dec, DecFault>) -> Result<Dec, DynError>
    ensures { result ≡ meaning.divided found }
{
    match found {
        Ok(number) => Ok(number),
        Err(DecFault::Overflow) => Err(DynError::FOAR0002),
        Err(DecFault::DivisionByZero) => Err(DynError::FOAR0001),
    }
}

/// A remainder, where the divisor isn't zero.
fn left_over(found: Result<Dec, DivisionByZero>) -> Result<Dec, DynError>
    ensures { result ≡ meaning.left_over found }
{
    match found {
        Ok(number) => Ok(number),
        Err(_) => Err(DynError::FOAR0001),
    }
}

/// The operation of an operator on two numbers.
fn computed(operator: Operator, x: &Dec, y: &Dec) -> Result<Dec, DynError>
    ensures { result ≡ meaning.computed operator x.now y.now }
{
    match operator {
        Operator::Plus => in_range(x.add(y)),
        Operator::Minus => in_range(x.sub(y)),
        Operator::Times => in_range(x.mul(y)),
        Operator::Div => divided(x.div(y)),
        Operator::Idiv => divided(x.idiv(y)),
        Operator::Mod => left_over(x.rem(y)),
        _ => Err(DynError::XPTY0004),
    }
}

/// The operation on two items, the left one read first.
fn calculated(operator: Operator, x: &Item<'_>, y: &Item<'_>) -> Result<Dec, DynError>
    ensures { result ≡ spec.calculated operator x.now y.now }
{
    let x = number_of(x)?;
    let y = number_of(y)?;
    computed(operator, &x, &y)
}

/// The operation on two items as a value.
fn of_two<'a>(
    alloc: Global,
    operator: Operator,
    x: &Item<'_>,
    y: &Item<'_>,
) -> Result<Seq<'a>, Fault>
    ensures { Gives result (spec.of_two operator x.now y.now) }
{
    number(alloc, calculated(operator, x, y))
}

/// `+`, `-`, `*`, `div`, `idiv` and `mod` of two atomised operands. None gives none; more than one item and other kinds than
/// numbers and untyped text are XPTY0004, a result out of range is FOAR0002, a zero divisor FOAR0001.
pub fn arithmetic<'a>(
    alloc: Global,
    operator: Operator,
    xs: &[Item<'_>],
    ys: &[Item<'_>],
) -> Result<Seq<'a>, Fault>
    ensures { Gives result (meaning.arithmetic operator xs.now ys.now) }
{
    match xs {
        [] => Ok(Seq::new(alloc)),
        [x] => match ys {
            [] => Ok(Seq::new(alloc)),
            [y] => of_two(alloc, operator, x, y),
            _ => Err(Fault::Error(DynError::XPTY0004)),
        },
        _ => match ys {
            [] => Ok(Seq::new(alloc)),
            _ => Err(Fault::Error(DynError::XPTY0004)),
        },
    }
}

/// Whether the sign is turned, one sign further.
fn turned_by(turned: bool, sign: Operator) -> bool
    ensures { result ≡ spec.turned_by turned sign }
{
    match sign {
        Operator::Minus => !turned,
        _ => turned,
    }
}

/// Whether a row of signs turns the sign of the number behind it.
fn turns_sign(signs: &[Operator]) -> bool
    ensures { result ≡ spec.turned false signs.now }
{
    let mut turned = false;
    'signs: for sign in signs {
        turned = turned_by(turned, *sign);
    }
    turned
}

/// The number behind a row of signs.
fn with_signs(signs: &[Operator], number: Dec) -> Dec
    ensures { result ≡ meaning.with_signs signs.now number }
{
    if turns_sign(signs) {
        number.neg()
    } else {
        number
    }
}

fn of_one<'a>(alloc: Global, signs: &[Operator], x: &Item<'_>) -> Result<Seq<'a>, Fault>
    ensures { Gives result (spec.signed_one signs.now x.now) }
{
    match number_of(x) {
        Ok(found) => number(alloc, Ok(with_signs(signs, found))),
        Err(error) => Err(Fault::Error(error)),
    }
}

/// A row of signs before an atomised operand.
pub fn signed<'a>(alloc: Global, signs: &[Operator], items: &[Item<'_>]) -> Result<Seq<'a>, Fault>
    ensures { Gives result (meaning.signed signs.now items.now) }
{
    match items {
        [] => Ok(Seq::new(alloc)),
        [x] => of_one(alloc, signs, x),
        _ => Err(Fault::Error(DynError::XPTY0004)),
    }
}
