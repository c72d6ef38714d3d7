//! Entries in random orders: `push` takes one exactly where the longer list is an invoice's.

use crate::building::{context_of, push_text, sample};
use inv_terms::{Entry, Invoice};
use std::alloc::Global;
use std::test::Fail;
use term_table::{Context, ListingPlace, Slot, TermRow, place_of, term_row};
use test_rows::expect;

/// The next of a row of numbers that look random (Lehmer's generator).
fn next(number: u32) -> u32 {
    (u64::from(number) * 48_271 % 2_147_483_647) as u32
}

fn comes_before(e: &Entry, place: ListingPlace) -> bool {
    match place_of(e.term, e.context) {
        Some(other) => other < place,
        None => false,
    }
}

/// Whether all entries come before the place.
fn is_behind(entries: &[Entry], place: ListingPlace) -> bool {
    for e in entries {
        if !comes_before(e, place) {
            return false;
        }
    }
    true
}

/// Whether some entry stands in that occurrence of an outer group, and of an inner one where that is asked.
fn has(entries: &[Entry], outer: Option<Slot>, inner: Option<Slot>) -> bool {
    for e in entries {
        if e.context.outer == outer && (inner.is_none() || e.context.inner == inner) {
            return true;
        }
    }
    false
}

fn before(slot: Slot) -> Option<Slot> {
    Some(Slot {
        group: slot.group,
        index: slot.index.saturating_sub(1),
    })
}

/// Whether the occurrences are numbered without a gap where one in this context joins them.
fn is_counted(entries: &[Entry], context: Context) -> bool {
    let outer = match context.outer {
        Some(slot) => slot.index == 1 || has(entries, before(slot), None),
        None => true,
    };
    let inner = match context.inner {
        Some(slot) => slot.index == 1 || has(entries, context.outer, before(slot)),
        None => true,
    };
    outer && inner
}

fn may_follow(entries: &[Entry], row: &TermRow, context: Context) -> bool {
    match place_of(row.term, context) {
        Some(place) => is_behind(entries, place) && is_counted(entries, context),
        None => false,
    }
}

/// Tries one entry near the row of that number. The next row to try near, if it was answered rightly.
fn try_entry(
    alloc: Global,
    invoice: &mut Invoice,
    near: usize,
    number: u32,
) -> Result<usize, Fail> {
    let k = near
        .saturating_sub(2)
        .saturating_add(number as usize % 7)
        .min(180);
    let row = term_row(k).ok_or("row")?;
    let context = context_of(row.group, number / 7 % 4, number / 28 % 4);
    let wanted = may_follow(invoice.entries(), &row, context);
    let taken = push_text(alloc, invoice, k, context, sample(&row))? == "ok";
    expect(taken == wanted, "answered otherwise")?;
    Ok(if taken { k } else { near })
}

/// How many entries of a row of random ones are taken.
fn taken_of(alloc: Global, invoice: &mut Invoice, seed: u32) -> Result<usize, Fail> {
    let mut number = seed;
    let mut near = 0;
    for _ in 0..600 {
        number = next(number);
        near = try_entry(alloc, invoice, near, number)?;
    }
    Ok(invoice.entries().len())
}

fn takes_many(alloc: Global, seed: u32) -> Result<bool, Fail> {
    let mut invoice = Invoice::new(alloc)?;
    let taken = taken_of(alloc, &mut invoice, seed);
    drop(invoice);
    Ok(taken? > 20)
}

#[test]
fn entries_in_any_order_are_taken_where_they_make_an_invoice(rt: HostRuntime) -> Result<(), Fail> {
    for seed in 1..6u32 {
        expect(takes_many(rt.alloc(), seed)?, "many")?;
    }
    Ok(())
}
