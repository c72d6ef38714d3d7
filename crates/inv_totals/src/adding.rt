//! One pass over the entries of an invoice, which adds up what the totals are computed of.
ghost use Rattle.std.specs.Prelude.{◌≡◌, ◌++◌, ◌∷◌, [], List, OnOk};
ghost use Rattle.inv_terms.specs.declared.entries.Entry.{Entry};
ghost use Rattle.inv_totals.specs.Adding as spec;

use crate::categories::{Categories, add_under};
use crate::keys::write_key;
use crate::numbers::{Number, added};
use crate::stated::{entry_amount, term};
use crate::sums::{Part, Sums};
use inv_decimal::Dec;
use inv_terms::{Entry, Invoice};
use std::alloc::{AllocError, Global};
use std::collections::BTreeMap;
use term_table::{Context, Group};

/// What was added up so far.
pub(crate) struct Tally {
    pub sums: Sums,
    pub categories: Categories,
    /// The VAT amounts of the breakdowns (BT-117).
    pub taxes: Number,
    /// How many breakdowns there are.
    pub breakdowns: u32,
    /// Where the text of a VAT category is made.
    pub key: String,
}

impl Drop for Tally {
    fn drop(self) {
        let Tally {
            sums,
            categories,
            taxes,
            breakdowns,
            key,
        } = self;
        drop(categories);
        drop(key);
    }
}

impl Tally {
    /// The tally of no entry.
    pub(crate) fn new(alloc: Global) -> Tally
        ensures { (whole : List Entry) → spec.Tallies whole [] result }
    {
        Tally {
            sums: Sums::none(),
            categories: BTreeMap::new(alloc),
            taxes: Ok(Dec::of_parts(0, 0)),
            breakdowns: 0,
            key: String::new(alloc),
        }
    }
}

/// Adds up the entries of an invoice.
pub(crate) fn add_up(alloc: Global, i: &Invoice, tally: &mut Tally) -> Result<(), AllocError>
    requires { spec.Tallies i.now [] tally.old }
    ensures { OnOk result (spec.Tallies i.now i.now tally.new) }
{
    'entries: for e in i.entries() {
        add_entry(alloc, i, e, tally)?;
    }
    Ok(())
}

/// Adds an entry behind those that were added.
fn add_entry(alloc: Global, i: &Invoice, e: &Entry, tally: &mut Tally) -> Result<(), AllocError>
    ensures { (es : List Entry) → spec.Tallies i.now es tally.old → OnOk result (spec.Tallies i.now (es ++ e.now ∷ []) tally.new) }
{
    tally.breakdowns = tally.breakdowns.max(breakdown_of(e.context));
    tally.taxes = with_tax(tally.taxes, e);
    match Part::of(e) {
        Some(part) => add_part(alloc, i, e, part, tally),
        None => Ok(()),
    }
}

/// The VAT amounts with that of an entry, if it is one.
fn with_tax(taxes: Number, e: &Entry) -> Number
    ensures { result ≡ spec.with_tax taxes e.now }
{
    if e.term.is_same(term(117)) {
        added(taxes, entry_amount(e))
    } else {
        taxes
    }
}

/// Adds what an entry adds to a part of the taxable amounts.
fn add_part(
    alloc: Global,
    i: &Invoice,
    e: &Entry,
    part: Part,
    tally: &mut Tally,
) -> Result<(), AllocError>
    ensures { OnOk result (spec.AddsPart i.now e.now part tally.old tally.new) }
{
    let amount = entry_amount(e);
    write_key(i, part.category_terms(), e.context, &mut tally.key)?;
    tally.sums = tally.sums.with(part, amount);
    add_under(
        alloc,
        &mut tally.categories,
        tally.key.as_str(),
        part,
        amount,
    )
}

/// The number of the VAT breakdown that a context is in, 0 outside of them.
fn breakdown_of(context: Context) -> u32
    ensures { result ≡ spec.breakdown_of context }
{
    match context.outer {
        Some(slot) => {
            if slot.group.is_same(Group::VatBreakdown) {
                slot.index
            } else {
                0
            }
        }
        None => 0,
    }
}
