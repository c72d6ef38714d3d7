//! `sum`, `min` and `max` (Functions and Operators, section 15.4), at the values of their arguments.
ghost use Rattle.std.specs.Prelude.{◌≡◌, length, map, pos, if◌then◌else◌};
ghost use Rattle.std.specs.List.{list_all};
ghost use Rattle.node_arena.specs.Moves.{tree_nodes};
ghost use Rattle.xpath_items.specs.Faults.{Gives};
ghost use Rattle.xpath_meaning.specs.Collections as meaning;
ghost use Rattle.xpath_meaning.specs.Items.{atomised};
ghost use Rattle.xpath_operators.specs.Nodes.{AreWithin};
ghost use Rattle.xpath_values.specs.Alike as spec;

use inv_decimal::Dec;
use node_arena::Doc;
use std::alloc::Global;
use std::cmp::Ordering;
use xpath_items::{DynError, Fault, Item, Seq};
use xpath_operators::{atoms, in_range, number, one, read_number, text_cmp};

/// An item, of which untyped text is read as a number.
fn untyped_read<'a>(alloc: Global, item: &Item<'a>) -> Result<Item<'a>, Fault>
    ensures { Gives result (meaning.untyped_read item.now) }
{
    match item {
        Item::Untyped(text) => match read_number(text.as_str()) {
            Ok(number) => Ok(Item::Number(number)),
            Err(error) => Err(Fault::Error(error)),
        },
        _ => Ok(item.copied(alloc)?),
    }
}

/// The items, of which untyped texts are read as numbers.
fn all_read<'a>(alloc: Global, items: &[Item<'a>]) -> Result<Seq<'a>, Fault>
    ensures { Gives result (meaning.all_taken meaning.untyped_read items.now) }
{
    let mut read = Seq::new(alloc);
    'items: for item in items {
        match untyped_read(alloc, item) {
            Ok(item) => read.push(item)?,
            Err(fault) => return Err(fault),
        }
    }
    Ok(read)
}

fn is_number(item: &Item<'_>) -> bool
    ensures { result ≡ spec.is_number item.now }
{
    match item {
        Item::Number(_) => true,
        _ => false,
    }
}

/// Whether all items are numbers.
fn are_numbers(items: &[Item<'_>]) -> bool
    ensures { result ≡ list_all spec.is_number items.now }
{
    items.iter().all(|item| is_number(item))
}

/// The number that an item is.
fn number_in(item: &Item<'_>) -> Dec
    ensures { result ≡ spec.number_in item.now }
{
    match item {
        Item::Number(number) => *number,
        _ => Dec::of_parts(0, 0),
    }
}

/// The sum of the numbers, from zero on and from left to right.
fn summed(items: &[Item<'_>]) -> Result<Dec, DynError>
    ensures { result ≡ meaning.summed (pos 0) (map spec.number_in items.now) }
{
    let mut total = Dec::of_parts(0, 0);
    'items: for item in items {
        match in_range(total.add(&number_in(item))) {
            Ok(next) => total = next,
            Err(error) => return Err(error),
        }
    }
    Ok(total)
}

/// The sum of items that are read.
fn sum_of(items: &[Item<'_>]) -> Result<Dec, DynError>
    ensures { result ≡ spec.sum_of items.now }
{
    if are_numbers(items) {
        summed(items)
    } else {
        Err(DynError::FORG0006)
    }
}

/// `sum` of atomised items.
fn sum_atoms<'a>(alloc: Global, items: &[Item<'a>]) -> Result<Seq<'a>, Fault>
    ensures { Gives result (meaning.sum items.now) }
{
    let read = all_read(alloc, items)?;
    number(alloc, sum_of(read.as_slice()))
}

/// `sum`
pub(crate) fn sum<'a>(alloc: Global, doc: &Doc<'a>, x: &[Item<'a>]) -> Result<Seq<'a>, Fault>
    requires { AreWithin (length doc.now.nodes) x.now }
    ensures { Gives result (meaning.sum (atomised (tree_nodes doc.now) x.now)) }
{
    let items = atoms(alloc, doc, x)?;
    sum_atoms(alloc, &items)
}

/// Whether an order is one by which the first goes before.
fn goes_before(greatest: bool, order: Ordering) -> bool
    ensures { result ≡ spec.goes_before greatest order }
{
    if greatest {
        order.is_gt()
    } else {
        order.is_lt()
    }
}

/// Whether two items are both numbers, strings or dates.
fn are_alike(x: &Item<'_>, y: &Item<'_>) -> bool
    ensures { result ≡ meaning.are_alike x.now y.now }
{
    match x {
        Item::Number(_) => match y {
            Item::Number(_) => true,
            _ => false,
        },
        Item::String(_) => match y {
            Item::String(_) => true,
            _ => false,
        },
        Item::Date(_) => match y {
            Item::Date(_) => true,
            _ => false,
        },
        _ => false,
    }
}

/// Whether an item goes before another.
fn stands_before(greatest: bool, x: &Item<'_>, y: &Item<'_>) -> bool
    ensures { result ≡ meaning.stand (spec.goes_before greatest) x.now y.now }
{
    match x {
        Item::Boolean(x) => match y {
            Item::Boolean(y) => goes_before(greatest, x.cmp(y)),
            _ => false,
        },
        Item::Number(x) => match y {
            Item::Number(y) => goes_before(greatest, x.cmp(y)),
            _ => false,
        },
        Item::String(x) => match y {
            Item::String(y) => goes_before(greatest, text_cmp(x.as_str(), y.as_str())),
            _ => false,
        },
        Item::Date(x) => match y {
            Item::Date(y) => goes_before(greatest, x.cmp(y)),
            _ => false,
        },
        _ => false,
    }
}

/// The first of two items, where it goes before the other, else the other.
fn better<'s, 'a>(greatest: bool, item: &'s Item<'a>, best: &'s Item<'a>) -> &'s Item<'a>
    ensures { result.now ≡ (if meaning.stand (spec.goes_before greatest) item.now best.now then item.now else best.now) }
{
    if stands_before(greatest, item, best) {
        item
    } else {
        best
    }
}

/// Of an item and others the one that no other goes before.
fn foremost<'s, 'a>(greatest: bool, first: &'s Item<'a>, rest: &'s [Item<'a>]) -> &'s Item<'a>
    ensures { result.now ≡ meaning.foremost (spec.goes_before greatest) first.now rest.now }
{
    let mut best = first;
    'items: for item in rest {
        best = better(greatest, item, best);
    }
    best
}

/// Whether all items are of one kind that has a least and a greatest.
fn all_alike(first: &Item<'_>, items: &[Item<'_>]) -> bool
    ensures { result ≡ list_all (meaning.are_alike first.now) items.now }
{
    items.iter().all(|item| are_alike(first, item))
}

/// The foremost of items that are read.
fn extreme_of<'a>(alloc: Global, greatest: bool, items: &[Item<'a>]) -> Result<Seq<'a>, Fault>
    ensures { Gives result (meaning.extreme_of (spec.goes_before greatest) items.now) }
{
    match items {
        [] => Ok(Seq::new(alloc)),
        [first, rest @ ..] => {
            if all_alike(first, items) {
                one(alloc, foremost(greatest, first, rest).copied(alloc)?)
            } else {
                Err(Fault::Error(DynError::FORG0006))
            }
        }
    }
}

/// The foremost of atomised items.
fn extreme_atom<'a>(alloc: Global, greatest: bool, items: &[Item<'a>]) -> Result<Seq<'a>, Fault>
    ensures { Gives result (meaning.extreme (spec.goes_before greatest) items.now) }
{
    let read = all_read(alloc, items)?;
    extreme_of(alloc, greatest, read.as_slice())
}

/// `min`
pub(crate) fn min<'a>(alloc: Global, doc: &Doc<'a>, x: &[Item<'a>]) -> Result<Seq<'a>, Fault>
    requires { AreWithin (length doc.now.nodes) x.now }
    ensures { Gives result (meaning.least (atomised (tree_nodes doc.now) x.now)) }
{
    let items = atoms(alloc, doc, x)?;
    extreme_atom(alloc, false, &items)
}

/// `max`
pub(crate) fn max<'a>(alloc: Global, doc: &Doc<'a>, x: &[Item<'a>]) -> Result<Seq<'a>, Fault>
    requires { AreWithin (length doc.now.nodes) x.now }
    ensures { Gives result (meaning.greatest (atomised (tree_nodes doc.now) x.now)) }
{
    let items = atoms(alloc, doc, x)?;
    extreme_atom(alloc, true, &items)
}
