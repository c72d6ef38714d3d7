//! Values of one item, and what was found with want of memory apart.
ghost use Rattle.std.specs.Prelude.{◌≡◌, IfOk};
ghost use Rattle.xpath_items.specs.Faults.{Gives};
ghost use Rattle.xpath_meaning.specs.Comparing as comparing;
ghost use Rattle.xpath_meaning.specs.Numbers as numbers;
ghost use Rattle.xpath_meaning.specs.Values as spec;
ghost use Rattle.xpath_meaning.specs.Values.{Value, value};

use inv_decimal::Dec;
use std::alloc::{AllocError, Global};
use xpath_items::{DynError, Fault, Item, Outcome, Seq};

/// A value of one item.
pub fn one<'a>(alloc: Global, item: Item<'a>) -> Result<Seq<'a>, Fault>
    ensures { Gives result (spec.one item.entry) }
{
    Ok(Seq::one(alloc, item)?)
}

/// A number that was found, as a value.
pub fn number<'a>(alloc: Global, found: Result<Dec, DynError>) -> Result<Seq<'a>, Fault>
    ensures { Gives result (numbers.number found) }
{
    match found {
        Ok(number) => one(alloc, Item::Number(number)),
        Err(error) => Err(Fault::Error(error)),
    }
}

/// A boolean that was found, as a value.
pub fn boolean<'a>(alloc: Global, found: Result<bool, DynError>) -> Result<Seq<'a>, Fault>
    ensures { Gives result (comparing.boolean found) }
{
    match found {
        Ok(b) => one(alloc, Item::Boolean(b)),
        Err(error) => Err(Fault::Error(error)),
    }
}

/// The number of a count or a position, as a value. From 10^18 on it is FOAR0002.
pub fn counted<'a>(alloc: Global, count: u64) -> Result<Seq<'a>, Fault>
    ensures { Gives result (numbers.counted count) }
{
    match Dec::of_count(count) {
        Ok(number) => one(alloc, Item::Number(number)),
        Err(_) => Err(Fault::Error(DynError::FOAR0002)),
    }
}

/// What was found, with want of memory apart.
pub fn outcome<'a>(found: Result<Seq<'a>, Fault>) -> Result<Outcome<'a>, AllocError>
    ensures { (v : Value) → Gives found.entry v → IfOk result (λ outcome. value outcome ≡ v) }
{
    match found {
        Ok(items) => Ok(Outcome::Value(items)),
        Err(Fault::Error(error)) => Ok(Outcome::Error(error)),
        Err(Fault::Memory) => Err(AllocError),
    }
}
