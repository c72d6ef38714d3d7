//! What stands before the lines: who, when and what for, and the totals.
ghost use Rattle.std.specs.Prelude.{◌≡◌, ◌<◌, ◌^◌, ◌++◌, ◌∷◌, [], OnOk, true};
ghost use Rattle.inv_terms.specs.declared.values.Value.TheVariants as values;
ghost use Rattle.trial_invoice.specs.Generated as spec;
ghost use Rattle.trial_invoice.specs.Written.{is_ascii};

use crate::values::{amount, issue_day, ones, word};
use inv_terms::{Entry, Value};
use std::alloc::{AllocError, Global};
use term_table::{Context, Group, ROOT, Slot, Term};

/// Adds a term with its value.
pub(crate) fn put(
    entries: &mut Vec<Entry>,
    context: Context,
    number: u16,
    value: Value,
) -> Result<(), AllocError>
    ensures { OnOk result (entries.new.items ≡ entries.old.items ++ spec.entry context number value ∷ []) }
{
    entries.push(Entry {
        context,
        term: Term { number, part: 0 },
        value,
    })?;
    Ok(())
}

/// Adds a term with a text of ASCII as an identifier.
fn put_identifier(
    alloc: Global,
    entries: &mut Vec<Entry>,
    number: u16,
    text: &str,
) -> Result<(), AllocError>
    requires { is_ascii text.now ≡ true }
    ensures { OnOk result (entries.new.items ≡ entries.old.items ++ spec.at_root number (values.Identifier text.now) ∷ []) }
{
    put(entries, ROOT, number, Value::Identifier(word(alloc, text)?))
}

/// Adds a term with a text of ASCII.
fn put_text(
    alloc: Global,
    entries: &mut Vec<Entry>,
    number: u16,
    text: &str,
) -> Result<(), AllocError>
    requires { is_ascii text.now ≡ true }
    ensures { OnOk result (entries.new.items ≡ entries.old.items ++ spec.at_root number (values.Text text.now) ∷ []) }
{
    put(entries, ROOT, number, Value::Text(word(alloc, text)?))
}

/// Adds a term with a code of ASCII.
pub(crate) fn put_code(
    alloc: Global,
    entries: &mut Vec<Entry>,
    context: Context,
    number: u16,
    text: &str,
) -> Result<(), AllocError>
    requires { is_ascii text.now ≡ true }
    ensures { OnOk result (entries.new.items ≡ entries.old.items ++ spec.entry context number (values.Code text.now) ∷ []) }
{
    put(entries, context, number, Value::Code(word(alloc, text)?))
}

/// Adds a term with an amount of so many hundredths.
pub(crate) fn put_amount(
    alloc: Global,
    entries: &mut Vec<Entry>,
    context: Context,
    number: u16,
    n: u64,
) -> Result<(), AllocError>
    requires { n < 10 ^ 18 }
    ensures { OnOk result (entries.new.items ≡ entries.old.items ++ spec.entry context number (spec.amount n) ∷ []) }
{
    put(entries, context, number, amount(alloc, n)?)
}

/// The occurrence of a group of the invoice.
pub(crate) fn occurrence(group: Group, index: u32) -> Context
    ensures { result ≡ spec.occurrence group index }
{
    Context {
        outer: Some(Slot { group, index }),
        inner: None,
    }
}

/// Adds what stands before the lines of an invoice, of which the net amounts have that sum. The tax is a fifth.
pub(crate) fn put_head(alloc: Global, sum: u64, entries: &mut Vec<Entry>) -> Result<(), AllocError>
    requires { sum < 10 ^ 12 }
    ensures { OnOk result (entries.new.items ≡ entries.old.items ++ spec.head sum) }
{
    put_beginning(alloc, entries)?;
    put_parties(alloc, entries)?;
    put_totals(alloc, sum, entries)?;
    put_breakdown(alloc, sum, entries)
}

/// Adds number, day, type and currency.
fn put_beginning(alloc: Global, entries: &mut Vec<Entry>) -> Result<(), AllocError>
    ensures { OnOk result (entries.new.items ≡ entries.old.items ++ spec.beginning) }
{
    put_identifier(alloc, entries, 1, "T")?;
    put(entries, ROOT, 2, Value::Date(issue_day()))?;
    put_code(alloc, entries, ROOT, 3, "380")?;
    put_code(alloc, entries, ROOT, 5, "EUR")
}

/// Adds what the invoice follows, and who sells and buys.
fn put_parties(alloc: Global, entries: &mut Vec<Entry>) -> Result<(), AllocError>
    ensures { OnOk result (entries.new.items ≡ entries.old.items ++ spec.parties) }
{
    put_identifier(alloc, entries, 24, "urn:cen.eu:en16931:2017")?;
    put_text(alloc, entries, 27, "S")?;
    put_code(alloc, entries, ROOT, 40, "DE")?;
    put_text(alloc, entries, 44, "B")?;
    put_code(alloc, entries, ROOT, 55, "FR")
}

/// Adds the totals.
fn put_totals(alloc: Global, sum: u64, entries: &mut Vec<Entry>) -> Result<(), AllocError>
    requires { sum < 10 ^ 12 }
    ensures { OnOk result (entries.new.items ≡ entries.old.items ++ spec.totals sum) }
{
    put_amount(alloc, entries, ROOT, 106, 100 * sum)?;
    put_amount(alloc, entries, ROOT, 109, 100 * sum)?;
    put_amount(alloc, entries, ROOT, 110, 20 * sum)?;
    put_amount(alloc, entries, ROOT, 112, 120 * sum)?;
    put_amount(alloc, entries, ROOT, 115, 120 * sum)
}

/// Adds the one breakdown of the tax.
fn put_breakdown(alloc: Global, sum: u64, entries: &mut Vec<Entry>) -> Result<(), AllocError>
    requires { sum < 10 ^ 12 }
    ensures { OnOk result (entries.new.items ≡ entries.old.items ++ spec.breakdown sum) }
{
    let breakdown = occurrence(Group::VatBreakdown, 1);
    put_amount(alloc, entries, breakdown, 116, 100 * sum)?;
    put_amount(alloc, entries, breakdown, 117, 20 * sum)?;
    put_code(alloc, entries, breakdown, 118, "S")?;
    put(entries, breakdown, 119, Value::Percent(ones(20)))
}
