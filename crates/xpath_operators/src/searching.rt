//! General comparisons of many items with many others (XPath 2.0, section 3.5.2), in about the time that sorting takes.
ghost use Rattle.std.specs.Prelude.{◌≡◌, ◌<◌, ◌+◌, ℕ, true, false, length, Ok, chars, slice_index_or};
ghost use Rattle.std.specs.List.{list_all};
ghost use Rattle.std.specs.List.Sorted.{IsSorted};
ghost use Rattle.std.specs.Ordering.{is_eq};
ghost use Rattle.xpath_grammar.specs.declared.operators.Op.TheVariants as c;
ghost use Rattle.xpath_items.specs.Faults.{Gives};
ghost use Rattle.xpath_meaning.specs.Comparing as meaning;
ghost use Rattle.xpath_meaning.specs.Values.{then_};
ghost use Rattle.xpath_operators.specs.Ranks as ranks;
ghost use Rattle.xpath_operators.specs.Rows as spec;

use crate::comparing::compare;
use crate::comparisons::with_some;
use crate::ranking::{Ranked, in_rank_order, is_in, item_cmp, rank};
use crate::readings::{read_boolean, read_day, read_number};
use std::alloc::Global;
use std::cmp::Ordering;
use xpath_grammar::operators::Op;
use xpath_items::{DynError, Fault, Item, Str};

pub(crate) fn is_typed_as(kind: u8, item: &Item<'_>) -> bool
    ensures { result ≡ spec.is_typed_as kind item.now }
{
    match item {
        Item::Node(_) | Item::Untyped(_) => false,
        _ => rank(item) == kind,
    }
}

fn is_textual(item: &Item<'_>) -> bool
    ensures { result ≡ spec.is_textual item.now }
{
    match item {
        Item::String(_) | Item::Untyped(_) => true,
        _ => false,
    }
}

pub(crate) fn are_typed_as(kind: u8, items: &[Item<'_>]) -> bool
    ensures { result ≡ list_all (spec.is_typed_as kind) items.now }
{
    items.iter().all(|item| is_typed_as(kind, item))
}

fn are_textual(items: &[Item<'_>]) -> bool
    ensures { result ≡ list_all spec.is_textual items.now }
{
    items.iter().all(|item| is_textual(item))
}

/// Whether all on the right are of one type, or all items are texts.
pub(crate) fn are_comparable(xs: &[Item<'_>], ys: &[Item<'_>]) -> bool
    ensures { result ≡ spec.are_comparable xs.now ys.now }
{
    match ys {
        [] => false,
        [y, ..] => are_typed_as(rank(y), ys) || (are_textual(xs) && are_textual(ys)),
    }
}

/// Untyped text as what the other item is.
pub(crate) fn read_beside<'t>(other: &Item<'_>, text: &'t str) -> Result<Item<'t>, DynError>
    ensures { result ≡ meaning.read_beside other.now (chars text.now) }
{
    match other {
        Item::Number(_) => Ok(Item::Number(read_number(text)?)),
        Item::Boolean(_) => Ok(Item::Boolean(read_boolean(text)?)),
        Item::Date(_) => Ok(Item::Date(read_day(text)?)),
        _ => Ok(Item::String(Str::lent(text))),
    }
}

/// Whether an item of the kind is equal to one of those that stand in their order. One of another kind is XPTY0004.
fn kind_is_in(ranked: &[Ranked<'_, '_>], kind: u8, item: &Item<'_>) -> Result<bool, DynError>
    requires { IsSorted spec.ranked_cmp ranked.now }
    ensures { result ≡ then_ (spec.of_kind kind item.now) (λ a. Ok (spec.is_in ranked.now a)) }
{
    if is_typed_as(kind, item) {
        Ok(is_in(ranked, item))
    } else {
        Err(DynError::XPTY0004)
    }
}

/// The same of an item as it is read beside another of the kind.
fn row_is_in(ranked: &[Ranked<'_, '_>], other: &Item<'_>, item: &Item<'_>) -> Result<bool, DynError>
    requires { IsSorted spec.ranked_cmp ranked.now }
    ensures { result ≡ then_ (spec.row other.now item.now) (λ a. Ok (spec.is_in ranked.now a)) }
{
    match item {
        Item::Untyped(text) => {
            let read = read_beside(other, text.as_str())?;
            kind_is_in(ranked, rank(other), &read)
        }
        _ => kind_is_in(ranked, rank(other), item),
    }
}

/// Whether some item is equal to one of those that stand in their order, or the first error.
fn some_is_in(
    ranked: &[Ranked<'_, '_>],
    other: &Item<'_>,
    xs: &[Item<'_>],
) -> Result<bool, DynError>
    requires { IsSorted spec.ranked_cmp ranked.now }
    ensures { result ≡ spec.rows other.now (spec.is_in ranked.now) xs.now }
{
    'xs: for x in xs {
        match row_is_in(ranked, other, x) {
            Ok(found) => {
                if found {
                    return Ok(true);
                }
            }
            Err(error) => return Err(error),
        }
    }
    Ok(false)
}

/// What was found without memory.
fn without_memory(found: Result<bool, DynError>) -> Result<bool, Fault>
    ensures { Gives result found }
{
    match found {
        Ok(found) => Ok(found),
        Err(error) => Err(Fault::Error(error)),
    }
}

/// `=`
fn equal_pair(alloc: Global, xs: &[Item<'_>], ys: &[Item<'_>]) -> Result<bool, Fault>
    requires { spec.are_comparable xs.now ys.now ≡ true }
    ensures { Gives result (meaning.some_pair c.Equal xs.now ys.now) }
{
    let ranked = in_rank_order(alloc, ys)?;
    without_memory(some_is_in(&ranked, &ys[0], xs))
}

/// Whether all items are equal to the first.
fn are_equal(items: &[Item<'_>], first: &Item<'_>) -> bool
    ensures { result ≡ list_all (λ y. is_eq (ranks.item_cmp first.now y)) items.now }
{
    items.iter().all(|y| item_cmp(first, y).is_eq())
}

/// Whether some item compares so with the one, or the first error.
fn some_beside<'a>(op: Op, xs: &[Item<'a>], y: &Item<'a>) -> Result<bool, DynError>
    ensures { result ≡ meaning.any_of (λ x. meaning.compare op x y.now) xs.now }
{
    'xs: for x in xs {
        match compare(op, x, y) {
            Ok(holds) => {
                if holds {
                    return Ok(true);
                }
            }
            Err(error) => return Err(error),
        }
    }
    Ok(false)
}

/// `!=`: where not all on the right are equal, each item on the left differs from one of them.
fn unequal_pair<'a>(xs: &[Item<'a>], ys: &[Item<'a>]) -> Result<bool, DynError>
    requires comparable { spec.are_comparable xs.now ys.now ≡ true }
    requires some { 0 < length xs.now }
    ensures { result ≡ meaning.some_pair c.NotEqual xs.now ys.now }
{
    let first = &ys[0];
    if are_equal(ys, first) {
        some_beside(Op::NotEqual, xs, first)
    } else {
        with_some(Op::NotEqual, &xs[0], ys)
    }
}

/// Whether an item that is so ordered to another decides in its place: the greatest for `<`, the least for `>`.
fn decides(op: Op, order: Ordering) -> bool
    ensures { result ≡ spec.decides op order }
{
    match op {
        Op::Less | Op::LessOrEqual => order.is_gt(),
        _ => order.is_lt(),
    }
}

/// Of two places the one whose item decides.
fn better(op: Op, items: &[Item<'_>], best: usize, k: usize) -> usize
    requires best { best < length items.now }
    requires k { k < length items.now }
    ensures within { result < length items.now }
    ensures keeps { (x d : Item) → spec.decides op (ranks.item_cmp x (slice_index_or items.now best d)) ≡ false
        → spec.decides op (ranks.item_cmp x (slice_index_or items.now result d)) ≡ false }
    ensures takes { (d : Item) → spec.decides op (ranks.item_cmp (slice_index_or items.now k d) (slice_index_or items.now result d)) ≡ false }
{
    if decides(op, item_cmp(&items[k], &items[best])) {
        k
    } else {
        best
    }
}

/// The place of an item in whose place no other decides.
fn deciding(op: Op, items: &[Item<'_>]) -> usize
    requires { 0 < length items.now }
    ensures within { result < length items.now }
    ensures best { (k : ℕ) (d : Item) → k < length items.now
        → spec.decides op (ranks.item_cmp (slice_index_or items.now k d) (slice_index_or items.now result d)) ≡ false }
{
    let mut best = 0;
    'items: for k in 0..items.len() {
        best = better(op, items, best, k);
    }
    best
}

/// `<` and its like: the greatest or the least on the right decides for all.
fn ordered_pair<'a>(op: Op, xs: &[Item<'a>], ys: &[Item<'a>]) -> Result<bool, DynError>
    requires orders { spec.is_order op ≡ true }
    requires comparable { spec.are_comparable xs.now ys.now ≡ true }
    ensures { result ≡ meaning.some_pair op xs.now ys.now }
{
    let best = deciding(op, ys);
    some_beside(op, xs, &ys[best])
}

/// Whether some pair compares so, where all on the right are of one type or all are texts.
pub(crate) fn some_pair_of_many<'a>(
    alloc: Global,
    op: Op,
    xs: &[Item<'a>],
    ys: &[Item<'a>],
) -> Result<bool, Fault>
    requires general { meaning.is_general op ≡ true }
    requires comparable { spec.are_comparable xs.now ys.now ≡ true }
    requires some { 0 < length xs.now }
    ensures { Gives result (meaning.some_pair op xs.now ys.now) }
{
    match op {
        Op::Equal => equal_pair(alloc, xs, ys),
        Op::NotEqual => without_memory(unequal_pair(xs, ys)),
        _ => without_memory(ordered_pair(op, xs, ys)),
    }
}
