//! Ranges (XPath 2.0, section 3.3.1), at atomised operands.
ghost use Rattle.std.specs.Prelude.{◌≡◌, ◌<◌, ◌≤◌, ◌+◌, ◌*◌, ◌%◌, ◌^◌, ◌-◌, ℤ, pos, ◌*ℤ◌, ◌≤ℤ◌, ◌<ℤ◌, ◌+ℤ◌, IfOk, OnOk, unsigned_abs};
ghost use Rattle.inv_decimal.specs.Number.{unit};
ghost use Rattle.xpath_items.specs.Faults.{Gives};
ghost use Rattle.xpath_meaning.specs.Numbers as meaning;
ghost use Rattle.xpath_operators.specs.Ranges as spec;

use crate::numbers::number_of;
use inv_decimal::Dec;
use std::alloc::{AllocError, Global};
use xpath_items::{DynError, Fault, Item, Seq};

/// The whole number that an operand is.
fn whole_number_of(item: &Item<'_>) -> Result<i64, DynError>
    ensures value { spec.IsWholeOf result (meaning.whole_number_of item.now) }
    ensures bound { IfOk result (λ n. unsigned_abs n < 10 ^ 18) }
{
    match number_of(item) {
        Ok(number) => {
            if number.is_whole() {
                Ok(number.whole())
            } else {
                Err(DynError::XPTY0004)
            }
        }
        Err(error) => Err(error),
    }
}

/// So many whole numbers in a row.
fn in_a_row<'a>(alloc: Global, count: u64, from: i64) -> Result<Vec<Item<'a>>, AllocError>
    requires count { count ≤ 100000 }
    requires low { unsigned_abs from < 10 ^ 18 }
    requires high { (from +ℤ pos count) ≤ℤ pos (10 ^ 18) }
    ensures { IfOk result (λ items. items.items ≡ meaning.in_a_row count (from *ℤ pos unit)) }
{
    let mut items = Vec::with_capacity(alloc, count as usize)?;
    'numbers: for i in 0..count {
        items.push(Item::Number(Dec::of_whole(from + i as i64)))?;
    }
    Ok(items)
}

/// The whole numbers from one to the other.
fn between<'a>(alloc: Global, from: i64, to: i64) -> Result<Seq<'a>, Fault>
    requires from_in { unsigned_abs from < 10 ^ 18 }
    requires to_in { unsigned_abs to < 10 ^ 18 }
    ensures { Gives result (meaning.range (from *ℤ pos unit) (to *ℤ pos unit)) }
{
    if to < from {
        return Ok(Seq::new(alloc));
    }
    let count = (to - from) as u64 + 1;
    if count > 100_000 {
        return Err(Fault::Error(DynError::FOAR0002));
    }
    Ok(Seq::of_items(in_a_row(alloc, count, from)?))
}

/// The range from one item to another, the left one read first.
fn of_two<'a>(alloc: Global, x: &Item<'_>, y: &Item<'_>) -> Result<Seq<'a>, Fault>
    ensures { Gives result (spec.range_of_two x.now y.now) }
{
    match whole_number_of(x) {
        Ok(from) => match whole_number_of(y) {
            Ok(to) => between(alloc, from, to),
            Err(error) => Err(Fault::Error(error)),
        },
        Err(error) => Err(Fault::Error(error)),
    }
}

/// `to` of two atomised operands: the whole numbers from the left one to the right one. None gives none; more than one item
/// and other numbers are XPTY0004, and more than 100,000 numbers FOAR0002.
pub fn range<'a>(alloc: Global, xs: &[Item<'_>], ys: &[Item<'_>]) -> Result<Seq<'a>, Fault>
    ensures { Gives result (meaning.range_of xs.now ys.now) }
{
    match xs {
        [] => Ok(Seq::new(alloc)),
        [x] => match ys {
            [] => Ok(Seq::new(alloc)),
            [y] => of_two(alloc, x, y),
            _ => Err(Fault::Error(DynError::XPTY0004)),
        },
        _ => match ys {
            [] => Ok(Seq::new(alloc)),
            _ => Err(Fault::Error(DynError::XPTY0004)),
        },
    }
}
