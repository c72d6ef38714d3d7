//! The truth of a value (effective boolean value, XPath 2.0, section 2.4.3).
ghost use Rattle.std.specs.Prelude.{◌≡◌, chars};
ghost use Rattle.xpath_meaning.specs.Items as spec;

use xpath_items::{DynError, Item, Seq};

/// The truth of one item.
fn truth_of_one(item: &Item<'_>) -> Result<bool, DynError>
    ensures { result ≡ spec.truth_of_one item.now }
{
    match item {
        Item::Node(_) => Ok(true),
        Item::Boolean(b) => Ok(*b),
        Item::Number(number) => Ok(!number.is_zero()),
        Item::String(text) => Ok(!is_empty(text.as_str())),
        Item::Untyped(text) => Ok(!is_empty(text.as_str())),
        Item::Date(_) => Err(DynError::FORG0006),
    }
}

/// Whether the text has no characters.
fn is_empty(text: &str) -> bool
    ensures { result ≡ spec.is_empty (chars text.now) }
{
    text.is_empty()
}

/// The truth of several items, by the first.
fn truth_of_many(first: &Item<'_>) -> Result<bool, DynError>
    ensures { result ≡ spec.truth_of_many first.now }
{
    match first {
        Item::Node(_) => Ok(true),
        _ => Err(DynError::FORG0006),
    }
}

fn truth_of(items: &[Item<'_>]) -> Result<bool, DynError>
    ensures { result ≡ spec.truth items.now }
{
    match items {
        [] => Ok(false),
        [item] => truth_of_one(item),
        [first, ..] => truth_of_many(first),
    }
}

/// The truth of a value: false of none, true where the first item is a node, and else that of one item: a boolean itself,
/// a number that isn't zero, a text that isn't empty. Everything else is FORG0006.
pub fn truth(s: &Seq<'_>) -> Result<bool, DynError>
    ensures { result ≡ spec.truth s.now }
{
    truth_of(s.as_slice())
}
