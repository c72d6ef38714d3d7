//! What a predicate's value says (XPath 2.0, section 3.2.2).
ghost use Rattle.std.specs.Prelude.{◌≡◌};
ghost use Rattle.xpath_meaning.specs.Steps as meaning;
ghost use Rattle.xpath_steps.specs.Numbers as spec;

use inv_decimal::Dec;
use xpath_items::{DynError, Item, Seq};
use xpath_operators::truth;

fn number_in(item: &Item<'_>) -> Option<Dec>
    ensures { result ≡ spec.number_in item.now }
{
    match item {
        Item::Number(number) => Some(*number),
        _ => None,
    }
}

/// The number that the items are, where they are one number.
fn one_number(items: &[Item<'_>]) -> Option<Dec>
    ensures { result ≡ spec.one_number items.now }
{
    match items {
        [item] => number_in(item),
        _ => None,
    }
}

/// Whether a predicate of this value keeps the item at the position, which counts from 1. One number is compared with the position,
/// any other value goes by its truth.
pub fn keeps(position: u64, value: &Seq<'_>) -> Result<bool, DynError>
    ensures { result ≡ meaning.keeps position value.now }
{
    match one_number(value.as_slice()) {
        Some(number) => Ok(number.is_count(position)),
        None => truth(value),
    }
}
