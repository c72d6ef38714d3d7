//! Values that are lent where they lie.
ghost use Rattle.std.specs.Prelude.{◌≡◌, [], IfOk};
ghost use Rattle.xpath_items.specs.Faults.{Gives};
ghost use Rattle.xpath_meaning.specs.Values.{value};
ghost use Rattle.xpath_steps.specs.Lending.{lent_value};

use std::alloc::{AllocError, Global};
use xpath_items::{DynError, Fault, Item, Outcome, Seq};

/// A value or an error that is lent where it lies.
#[derive(Clone, Copy)]
pub enum Lent<'r, 'a> {
    Items(&'r [Item<'a>]),
    Error(DynError),
}

/// No items, lent.
pub(crate) fn no_items<'r, 'a>() -> &'r [Item<'a>]
    ensures { result.now ≡ [] }
{
    &[]
}

/// An outcome, lent.
pub fn lend<'r, 'a>(outcome: &'r Outcome<'a>) -> Lent<'r, 'a>
    ensures { lent_value result ≡ value outcome.now }
{
    match outcome {
        Outcome::Value(items) => Lent::Items(items.as_slice()),
        Outcome::Error(error) => Lent::Error(*error),
    }
}

/// The same items once more.
fn copied<'a>(alloc: Global, items: &[Item<'a>]) -> Result<Seq<'a>, AllocError>
    ensures { IfOk result (λ copy. copy ≡ items.now) }
{
    let mut copy = Vec::with_capacity(alloc, items.len())?;
    'items: for item in items {
        copy.push(item.copied(alloc)?)?;
    }
    Ok(Seq::of_items(copy))
}

/// A copy of a value that is lent, or its error.
pub fn copy_of<'a>(alloc: Global, lent: Lent<'_, 'a>) -> Result<Seq<'a>, Fault>
    ensures { Gives result (lent_value lent.entry) }
{
    match lent {
        Lent::Items(items) => Ok(copied(alloc, items)?),
        Lent::Error(error) => Err(Fault::Error(error)),
    }
}
