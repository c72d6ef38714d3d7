//! Comparisons of two items (XPath 2.0, section 3.5).
ghost use Rattle.std.specs.Prelude.{◌≡◌, chars};
ghost use Rattle.std.specs.Ordering.{nat_cmp};
ghost use Rattle.std.specs.Cmp.Lexicographic.{slice_cmp};
ghost use Rattle.xpath_items.specs.declared.item.Item.TheVariants as i;
ghost use Rattle.xpath_meaning.specs.Comparing as meaning;
ghost use Rattle.xpath_operators.specs.Orders as spec;

use crate::readings::{read_boolean, read_day, read_number};
use inv_decimal::{Day, Dec};
use std::cmp::Ordering;
use xpath_grammar::operators::Op;
use xpath_items::{DynError, Item};

/// Texts are compared by code points.
pub fn text_cmp(a: &str, b: &str) -> Ordering
    ensures { result ≡ slice_cmp nat_cmp (chars a.now) (chars b.now) }
{
    a.chars().cmp(b.chars())
}

/// A boolean and an item beside it, of which untyped text is read as a boolean.
fn boolean_order(a: bool, b: &Item<'_>) -> Result<Ordering, DynError>
    ensures { result ≡ spec.general_order (i.Boolean a) b.now }
{
    match b {
        Item::Boolean(b) => Ok(a.cmp(b)),
        Item::Untyped(text) => Ok(a.cmp(&read_boolean(text.as_str())?)),
        _ => Err(DynError::XPTY0004),
    }
}

fn number_order(a: &Dec, b: &Item<'_>) -> Result<Ordering, DynError>
    ensures { result ≡ spec.general_order (i.Number a.now) b.now }
{
    match b {
        Item::Number(b) => Ok(a.cmp(b)),
        Item::Untyped(text) => Ok(a.cmp(&read_number(text.as_str())?)),
        _ => Err(DynError::XPTY0004),
    }
}

fn day_order(a: &Day, b: &Item<'_>) -> Result<Ordering, DynError>
    ensures { result ≡ spec.general_order (i.Date a.now) b.now }
{
    match b {
        Item::Date(b) => Ok(a.cmp(b)),
        Item::Untyped(text) => Ok(a.cmp(&read_day(text.as_str())?)),
        _ => Err(DynError::XPTY0004),
    }
}

/// A string and an item beside it, where untyped text is a string.
fn string_order(a: &str, b: &Item<'_>) -> Result<Ordering, DynError>
    ensures general { result ≡ spec.general_order (i.String (chars a.now)) b.now }
    ensures value { result ≡ spec.value_order (i.String (chars a.now)) b.now }
{
    match b {
        Item::String(b) => Ok(text_cmp(a, b.as_str())),
        Item::Untyped(b) => Ok(text_cmp(a, b.as_str())),
        _ => Err(DynError::XPTY0004),
    }
}

/// Untyped text and an item beside it: it is read as what the item is.
fn untyped_order(a: &str, b: &Item<'_>) -> Result<Ordering, DynError>
    ensures { result ≡ spec.general_order (i.Untyped (chars a.now)) b.now }
{
    match b {
        Item::Node(_) => Err(DynError::XPTY0004),
        Item::Boolean(b) => Ok(read_boolean(a)?.cmp(b)),
        Item::Number(b) => Ok(read_number(a)?.cmp(b)),
        Item::String(b) => Ok(text_cmp(a, b.as_str())),
        Item::Untyped(b) => Ok(text_cmp(a, b.as_str())),
        Item::Date(b) => Ok(read_day(a)?.cmp(b)),
    }
}

/// The order of two items in a general comparison.
fn general_order(a: &Item<'_>, b: &Item<'_>) -> Result<Ordering, DynError>
    ensures { result ≡ spec.general_order a.now b.now }
{
    match a {
        Item::Node(_) => Err(DynError::XPTY0004),
        Item::Boolean(a) => boolean_order(*a, b),
        Item::Number(a) => number_order(a, b),
        Item::String(a) => string_order(a.as_str(), b),
        Item::Untyped(a) => untyped_order(a.as_str(), b),
        Item::Date(a) => day_order(a, b),
    }
}

/// The order of two items of one kind, where untyped text is a string.
pub(crate) fn value_order(a: &Item<'_>, b: &Item<'_>) -> Result<Ordering, DynError>
    ensures { result ≡ spec.value_order a.now b.now }
{
    match a {
        Item::Node(_) => Err(DynError::XPTY0004),
        Item::Boolean(a) => match b {
            Item::Boolean(b) => Ok(a.cmp(b)),
            _ => Err(DynError::XPTY0004),
        },
        Item::Number(a) => match b {
            Item::Number(b) => Ok(a.cmp(b)),
            _ => Err(DynError::XPTY0004),
        },
        Item::String(a) => string_order(a.as_str(), b),
        Item::Untyped(a) => string_order(a.as_str(), b),
        Item::Date(a) => match b {
            Item::Date(b) => Ok(a.cmp(b)),
            _ => Err(DynError::XPTY0004),
        },
    }
}

/// Whether the comparison may pair any items of two values, or takes one item of each.
pub fn is_general(op: Op) -> bool
    ensures { result ≡ meaning.is_general op }
{
    match op {
        Op::Equal | Op::NotEqual | Op::Less | Op::LessOrEqual | Op::Greater | Op::GreaterOrEqual =>
            true,
        Op::Eq | Op::Ne | Op::Lt | Op::Le | Op::Gt | Op::Ge => false,
    }
}

/// Whether the comparison holds of two items that are so ordered.
fn holds(op: Op, order: Ordering) -> bool
    ensures { result ≡ meaning.holds op order }
{
    match op {
        Op::Equal | Op::Eq => order.is_eq(),
        Op::NotEqual | Op::Ne => order.is_ne(),
        Op::Less | Op::Lt => order.is_lt(),
        Op::LessOrEqual | Op::Le => order.is_le(),
        Op::Greater | Op::Gt => order.is_gt(),
        Op::GreaterOrEqual | Op::Ge => order.is_ge(),
    }
}

/// The order of two items, as the comparison reads them.
fn order_of(op: Op, a: &Item<'_>, b: &Item<'_>) -> Result<Ordering, DynError>
    ensures { result ≡ spec.order_by (meaning.is_general op) a.now b.now }
{
    if is_general(op) {
        general_order(a, b)
    } else {
        value_order(a, b)
    }
}

/// Compares two atomised items. `=` and its like read untyped text as what the other item is, `eq` and its like as a
/// string. FORG0001 where it can't be read, XPTY0004 where the items are of unlike kinds. It takes no memory.
pub fn compare<'a>(op: Op, a: &Item<'a>, b: &Item<'a>) -> Result<bool, DynError>
    ensures { result ≡ meaning.compare op a.now b.now }
{
    match order_of(op, a, b) {
        Ok(order) => Ok(holds(op, order)),
        Err(error) => Err(error),
    }
}
