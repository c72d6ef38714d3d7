//! Bound variables.
ghost use Rattle.std.specs.Prelude.{◌≡◌, ℕ, reverse, IfOk, Ok};
ghost use Rattle.xpath_items.specs.Faults.{Gives};
ghost use Rattle.xpath_meaning.specs.Meaning as meaning;
ghost use Rattle.xpath_operators.specs.Nodes.{AreWithin};

use crate::lending::{Lent, copy_of};
use std::alloc::Global;
use xpath_items::{Fault, Item, Seq};

/// The item of the variable that is bound inside so many others, lent where it lies, given the items of the bound variables, the
/// outermost first. Where there are no more than that, the value is empty.
pub fn lent_at<'r, 'a>(items: &'r [Item<'a>], height: usize) -> &'r [Item<'a>]
    ensures value { result.now ≡ meaning.bound_at height (reverse items.now) }
    ensures within { (count : ℕ) → AreWithin count items.now → AreWithin count result.now }
{
    if height < items.len() {
        &items[height..height + 1]
    } else {
        &[]
    }
}

/// The same, copied.
pub fn bound_at<'a>(alloc: Global, items: &[Item<'a>], height: usize) -> Result<Seq<'a>, Fault>
    ensures value { Gives result (Ok (meaning.bound_at height (reverse items.now))) }
    ensures within { (count : ℕ) → AreWithin count items.now → IfOk result (λ found. AreWithin count found) }
{
    copy_of(alloc, Lent::Items(lent_at(items, height)))
}
