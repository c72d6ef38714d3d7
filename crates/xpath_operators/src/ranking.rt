//! One order of all items, for searching among many of them.
ghost use Rattle.std.specs.Prelude.{◌≡◌, Some, refl, map, IfOk};
ghost use Rattle.std.specs.List.{list_any};
ghost use Rattle.std.specs.List.Sorted.{IsSorted};
ghost use Rattle.std.specs.Ordering.{is_eq};
ghost use Rattle.std.specs.Cmp.{on_total, partial_equiv_from_equiv, eq_by_cmp_equiv, partial_order_from_total};
ghost use Rattle.xpath_operators.specs.declared.ranking.Ranked.{Ranked};
ghost use Rattle.xpath_operators.specs.Rows.{ranked_cmp, is_in};
ghost use Rattle.xpath_operators.specs.Ranks as spec;

use crate::comparing::value_order;
use std::alloc::{AllocError, Global};
use std::cmp::Ordering;
use xpath_items::Item;

/// The place of an item's kind among the kinds.
pub(crate) fn rank(item: &Item<'_>) -> u8
    ensures { result ≡ spec.rank item.now }
{
    match item {
        Item::Node(_) => 0,
        Item::Boolean(_) => 1,
        Item::Number(_) => 2,
        Item::String(_) | Item::Untyped(_) => 3,
        Item::Date(_) => 4,
    }
}

/// The order of two items: by kind, then by value.
pub(crate) fn item_cmp(a: &Item<'_>, b: &Item<'_>) -> Ordering
    ensures { result ≡ spec.item_cmp a.now b.now }
{
    match value_order(a, b) {
        Ok(order) => order,
        Err(_) => rank(a).cmp(&rank(b)),
    }
}

/// An item by its kind and then its value, where untyped text is a string. Two items are equal where `eq` holds of them.
#[derive(Clone, Copy)]
pub(crate) struct Ranked<'s, 'a> {
    item: &'s Item<'a>,
}

impl<'s, 'a> Ranked<'s, 'a> {
    pub fn of(item: &'s Item<'a>) -> Ranked<'s, 'a>
        ensures { result.item.now ≡ item.now }
    {
        Ranked { item }
    }
}

impl<'s, 'a> PartialEq for Ranked<'s, 'a> {
    ghost eq = { λ x y. is_eq (spec.item_cmp x.item.now y.item.now) };

    ghost laws = { partial_equiv_from_equiv (eq_by_cmp_equiv (on_total (λ (x : Ranked). x.item.now) spec.item_cmp_total)) };

    fn eq(&self, other: &Self) -> bool {
        item_cmp(self.item, other.item).is_eq()
    }
}

impl<'s, 'a> Eq for Ranked<'s, 'a> {
    ghost laws = { eq_by_cmp_equiv (on_total (λ (x : Ranked). x.item.now) spec.item_cmp_total) };
}

impl<'s, 'a> PartialOrd for Ranked<'s, 'a> {
    ghost partial_cmp = { λ x y. Some (spec.item_cmp x.item.now y.item.now) };

    ghost laws = { partial_order_from_total (on_total (λ (x : Ranked). x.item.now) spec.item_cmp_total) };

    fn partial_cmp(&self, other: &Self) -> Option<Ordering> {
        Some(item_cmp(self.item, other.item))
    }
}

impl<'s, 'a> Ord for Ranked<'s, 'a> {
    ghost cmp = { λ x y. spec.item_cmp x.item.now y.item.now };

    ghost total = { on_total (λ (x : Ranked). x.item.now) spec.item_cmp_total };

    ghost matches_partial_cmp = { λ x y. refl };

    ghost matches_eq = { λ x y. refl };

    fn cmp(&self, other: &Self) -> Ordering {
        item_cmp(self.item, other.item)
    }
}

/// The items as they stand.
fn all_ranked<'s, 'a>(
    alloc: Global,
    items: &'s [Item<'a>],
) -> Result<Vec<Ranked<'s, 'a>>, AllocError>
    ensures { IfOk result (λ ranked. map (λ known. known.item.now) ranked.items ≡ items.now) }
{
    let mut ranked = Vec::with_capacity(alloc, items.len())?;
    'items: for item in items {
        ranked.push(Ranked::of(item))?;
    }
    Ok(ranked)
}

/// The items in their order, for searching among them.
pub(crate) fn in_rank_order<'s, 'a>(
    alloc: Global,
    items: &'s [Item<'a>],
) -> Result<Vec<Ranked<'s, 'a>>, AllocError>
    ensures sorted { IfOk result (λ ranked. IsSorted ranked_cmp ranked.items) }
    ensures same { IfOk result (λ ranked. (a : Item) → is_in ranked.items a ≡ list_any (λ y. is_eq (spec.item_cmp a y)) items.now) }
{
    let mut ranked = all_ranked(alloc, items)?;
    ranked.sort_unstable();
    Ok(ranked)
}

/// Whether an item is equal to one of those that stand in their order.
pub(crate) fn is_in(ranked: &[Ranked<'_, '_>], item: &Item<'_>) -> bool
    requires { IsSorted ranked_cmp ranked.now }
    ensures { result ≡ is_in ranked.now item.now }
{
    ranked
        .binary_search_by(|known| item_cmp(known.item, item))
        .is_ok()
}
