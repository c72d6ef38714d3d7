//! What the invoice states beside what was computed.
ghost use Rattle.std.specs.Prelude.{◌≡◌, ◌++◌, ◌∷◌, ◌+◌, [], IfOk, OnOk, flat_map};
ghost use Rattle.inv_totals.specs.Adding.{Tallies};
ghost use Rattle.term_table.specs.declared.groups.Group.TheVariants as groups;
ghost use Rattle.inv_terms.specs.Listing.{last_outer};
ghost use Rattle.inv_totals.specs.Totals as spec;

use crate::adding::{Tally, add_up};
use crate::categories::sums_under;
use crate::found::{Difference, Differences};
use crate::keys::write_key;
use crate::numbers::{Number, minus, percentage, plus};
use crate::stated::{amount, or_zero, stated, term};
use crate::sums::CategoryTerms;
use inv_base::Many;
use inv_decimal::Dec;
use inv_terms::Invoice;
use std::alloc::{AllocError, Global};
use std::cmp::Ordering;
use term_table::{Context, Group, ROOT, Slot};

/// The totals of the document that are computed (BG-22).
const ROOT_NUMBERS: [u16; 7] = [106, 107, 108, 109, 110, 112, 115];

/// The terms of the VAT category of a breakdown.
const BREAKDOWN_TERMS: CategoryTerms = CategoryTerms {
    code: 118,
    rate: 119,
};

/// Each total of the invoice that isn't what its other values make of it, in listing order. The entries are gone over
/// once, and the sums of a VAT category are found by its code and rate.
pub fn differences(alloc: Global, i: &Invoice) -> Result<Differences, AllocError>
    ensures { IfOk result (λ found. found ≡ spec.differences i.now) }
{
    let mut tally = Tally::new(alloc);
    let mut found = Many::new(alloc);
    match compare_all(alloc, i, &mut tally, &mut found) {
        Ok(()) => {
            drop(tally);
            Ok(Differences::of(found))
        }
        Err(fault) => {
            drop(tally);
            drop(found);
            Err(fault)
        }
    }
}

fn compare_all(
    alloc: Global,
    i: &Invoice,
    tally: &mut Tally,
    found: &mut Many<Difference>,
) -> Result<(), AllocError>
    requires { Tallies i.now [] tally.old }
    ensures { OnOk result (found.new ≡ found.old ++ spec.differences i.now) }
{
    add_up(alloc, i, tally)?;
    compare_root(i, tally, found)?;
    compare_breakdowns(i, tally, found)
}

/// Compares the totals of the document.
fn compare_root(i: &Invoice, tally: &Tally, found: &mut Many<Difference>) -> Result<(), AllocError>
    requires { Tallies i.now i.now tally.now }
    ensures { OnOk result (found.new ≡ found.old ++ flat_map (spec.at_root_of i.now) spec.root_numbers) }
{
    'numbers: for number in ROOT_NUMBERS {
        compare(i, ROOT, number, computed_at_root(i, tally, number), found)?;
    }
    Ok(())
}

/// What a total of the document is computed to be.
fn computed_at_root(i: &Invoice, tally: &Tally, number: u16) -> Number
    requires { Tallies i.now i.now tally.now }
    ensures { result ≡ spec.computed_at_root i.now number }
{
    match number {
        106 => tally.sums.lines,
        107 => tally.sums.allowances,
        108 => tally.sums.charges,
        109 => plus(minus(at_root(i, 106), at_root(i, 107)), at_root(i, 108)),
        110 => tally.taxes,
        112 => plus(at_root(i, 109), at_root(i, 110)),
        _ => plus(minus(at_root(i, 112), at_root(i, 113)), at_root(i, 114)),
    }
}

fn at_root(i: &Invoice, number: u16) -> Number
    ensures { result ≡ spec.at_root i.now number }
{
    Ok(amount(i, number, ROOT))
}

/// Compares the VAT breakdowns, one after another.
fn compare_breakdowns(
    i: &Invoice,
    tally: &mut Tally,
    found: &mut Many<Difference>,
) -> Result<(), AllocError>
    requires { Tallies i.now i.now tally.old }
    ensures { OnOk result (found.new ≡ found.old ++ flat_map (spec.in_breakdown i.now) (spec.numbers_from 1 (last_outer i.now groups.VatBreakdown))) }
{
    'breakdowns: for before in 0..tally.breakdowns {
        compare_breakdown(i, before + 1, tally, found)?;
    }
    Ok(())
}

/// Compares the taxable amount and the VAT amount of a breakdown.
fn compare_breakdown(
    i: &Invoice,
    k: u32,
    tally: &mut Tally,
    found: &mut Many<Difference>,
) -> Result<(), AllocError>
    requires { Tallies i.now i.now tally.old }
    ensures found { OnOk result (found.new ≡ found.old ++ spec.in_breakdown i.now k) }
    ensures tally { Tallies i.now i.now tally.new }
{
    let context = Context {
        outer: Some(Slot {
            group: Group::VatBreakdown,
            index: k,
        }),
        inner: None,
    };
    write_key(i, BREAKDOWN_TERMS, context, &mut tally.key)?;
    let taxable = sums_under(&tally.categories, tally.key.as_str()).taxable();
    compare(i, context, 116, taxable, found)?;
    let tax = percentage(amount(i, 119, context), amount(i, 116, context));
    compare(i, context, 117, tax, found)
}

/// Adds a difference where what is stated isn't what is computed.
fn compare(
    i: &Invoice,
    context: Context,
    number: u16,
    computed: Number,
    found: &mut Many<Difference>,
) -> Result<(), AllocError>
    ensures { OnOk result (found.new ≡ found.old ++ spec.difference i.now context number computed) }
{
    let stated = stated(i, number, context);
    if !differs(&or_zero(&stated), &computed) {
        return Ok(());
    }
    found.push(Difference {
        context,
        term: term(number),
        stated,
        computed,
    })
}

fn differs(amount: &Dec, computed: &Number) -> bool
    ensures { result ≡ spec.differs amount.now computed.now }
{
    match computed {
        Ok(computed) => amount.cmp(computed) != Ordering::Equal,
        Err(_) => true,
    }
}
