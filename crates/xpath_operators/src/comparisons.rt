//! Comparisons of values (XPath 2.0, section 3.5), at atomised operands.
ghost use Rattle.std.specs.Prelude.{◌≡◌, ◌<◌, true, false, length};
ghost use Rattle.xpath_items.specs.Faults.{Gives};
ghost use Rattle.xpath_meaning.specs.Comparing as meaning;

use crate::comparing::{compare, is_general};
use crate::rows::read_alike;
use crate::searching::{are_comparable, some_pair_of_many};
use crate::values::boolean;
use std::alloc::Global;
use xpath_grammar::operators::Op;
use xpath_items::{DynError, Fault, Item, Seq};

/// Below so many items on one side, all pairs are tried.
const FEW: usize = 8;

/// Whether an item compares so with some of the others, or the first error if that comes first.
pub(crate) fn with_some<'a>(op: Op, x: &Item<'a>, ys: &[Item<'a>]) -> Result<bool, DynError>
    ensures { result ≡ meaning.any_of (λ y. meaning.compare op x.now y) ys.now }
{
    'ys: for y in ys {
        match compare(op, x, y) {
            Ok(holds) => {
                if holds {
                    return Ok(true);
                }
            }
            Err(error) => return Err(error),
        }
    }
    Ok(false)
}

/// Whether some pair compares so, the pairs of the first item on the left first.
fn some_pair<'a>(op: Op, xs: &[Item<'a>], ys: &[Item<'a>]) -> Result<bool, DynError>
    ensures { result ≡ meaning.some_pair op xs.now ys.now }
{
    'xs: for x in xs {
        match with_some(op, x, ys) {
            Ok(found) => {
                if found {
                    return Ok(true);
                }
            }
            Err(error) => return Err(error),
        }
    }
    Ok(false)
}

/// The same of long sides. Unless items of several kinds stand on both, it takes about the time of sorting one of them.
fn pair_of_many<'a>(alloc: Global, op: Op, xs: &[Item<'a>], ys: &[Item<'a>]) -> Result<bool, Fault>
    requires general { meaning.is_general op ≡ true }
    requires xs { 0 < length xs.now }
    requires ys { 0 < length ys.now }
    ensures { Gives result (meaning.some_pair op xs.now ys.now) }
{
    if are_comparable(xs, ys) {
        return some_pair_of_many(alloc, op, xs, ys);
    }
    match read_alike(alloc, xs, ys)? {
        Some(read) => some_pair_of_many(alloc, op, xs, &read),
        None => Ok(some_pair(op, xs, ys)?),
    }
}

/// The same, by the way that suits the sides' lengths.
fn found_pair<'a>(alloc: Global, op: Op, xs: &[Item<'a>], ys: &[Item<'a>]) -> Result<bool, Fault>
    requires { meaning.is_general op ≡ true }
    ensures { Gives result (meaning.some_pair op xs.now ys.now) }
{
    if xs.len() < FEW || ys.len() < FEW {
        Ok(some_pair(op, xs, ys)?)
    } else {
        pair_of_many(alloc, op, xs, ys)
    }
}

/// A comparison of at most one item with at most one.
fn of_two<'a>(alloc: Global, op: Op, xs: &[Item<'a>], ys: &[Item<'a>]) -> Result<Seq<'a>, Fault>
    ensures { Gives result (meaning.compared_as false op xs.now ys.now) }
{
    match xs {
        [] => Ok(Seq::new(alloc)),
        [x] => match ys {
            [] => Ok(Seq::new(alloc)),
            [y] => boolean(alloc, compare(op, x, y)),
            _ => Err(Fault::Error(DynError::XPTY0004)),
        },
        _ => match ys {
            [] => Ok(Seq::new(alloc)),
            _ => Err(Fault::Error(DynError::XPTY0004)),
        },
    }
}

/// Compares two atomised operands. `=` and its like hold where some pair of items compares so, or end with the first error;
/// `eq` and its like take one item of each, where none gives none and more are XPTY0004.
pub fn compared<'a>(
    alloc: Global,
    op: Op,
    xs: &[Item<'a>],
    ys: &[Item<'a>],
) -> Result<Seq<'a>, Fault>
    ensures { Gives result (meaning.compared op xs.now ys.now) }
{
    if is_general(op) {
        let found = found_pair(alloc, op, xs, ys)?;
        boolean(alloc, Ok(found))
    } else {
        of_two(alloc, op, xs, ys)
    }
}
