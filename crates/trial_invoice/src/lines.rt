//! The lines of the generated invoice.
ghost use Rattle.std.specs.Prelude.{◌≡◌, ◌++◌, ◌∷◌, [], OnOk, codes, decimal, flat_map};
ghost use Rattle.inv_terms.specs.declared.values.Value.TheVariants as values;
ghost use Rattle.trial_invoice.specs.Generated as spec;

use crate::amounts::{net, price, quantity};
use crate::head::{occurrence, put, put_amount, put_code};
use crate::values::{item_name, number_word, ones};
use inv_terms::{Entry, Value};
use std::alloc::{AllocError, Global};
use term_table::{Context, Group};

/// Adds so many lines.
pub(crate) fn put_lines(
    alloc: Global,
    lines: u32,
    entries: &mut Vec<Entry>,
) -> Result<(), AllocError>
    ensures { OnOk result (entries.new.items ≡ entries.old.items ++ spec.lines_of lines) }
{
    'lines: for behind in 0..lines {
        put_line(alloc, behind + 1, entries)?;
    }
    Ok(())
}

/// Adds the line of that number.
fn put_line(alloc: Global, line: u32, entries: &mut Vec<Entry>) -> Result<(), AllocError>
    ensures { OnOk result (entries.new.items ≡ entries.old.items ++ spec.line line) }
{
    put_amounts(alloc, line, entries)?;
    put_item(alloc, line, entries)
}

/// Adds a line's number, quantity, unit and net amount.
fn put_amounts(alloc: Global, line: u32, entries: &mut Vec<Entry>) -> Result<(), AllocError>
    ensures { OnOk result (entries.new.items ≡ entries.old.items ++ spec.line_amounts line) }
{
    let place = occurrence(Group::InvoiceLine, line);
    put_number(alloc, entries, place, line)?;
    put(entries, place, 129, Value::Quantity(ones(quantity(line))))?;
    put_code(alloc, entries, place, 130, "C62")?;
    put_amount(alloc, entries, place, 131, 100 * net(line))
}

/// Adds a line's number.
fn put_number(
    alloc: Global,
    entries: &mut Vec<Entry>,
    place: Context,
    line: u32,
) -> Result<(), AllocError>
    ensures { OnOk result (entries.new.items ≡ entries.old.items ++ spec.entry place 126 (values.Identifier (decimal line)) ∷ []) }
{
    put(
        entries,
        place,
        126,
        Value::Identifier(number_word(alloc, line)?),
    )
}

/// Adds a line's price, the category and the rate of its tax, and the item's name.
fn put_item(alloc: Global, line: u32, entries: &mut Vec<Entry>) -> Result<(), AllocError>
    ensures { OnOk result (entries.new.items ≡ entries.old.items ++ spec.line_item line) }
{
    let place = occurrence(Group::InvoiceLine, line);
    put_amount(alloc, entries, place, 146, 100 * price(line))?;
    put_code(alloc, entries, place, 151, "S")?;
    put(entries, place, 152, Value::Percent(ones(20)))?;
    put_name(alloc, entries, place, line)
}

/// Adds the name of a line's item.
fn put_name(
    alloc: Global,
    entries: &mut Vec<Entry>,
    place: Context,
    line: u32,
) -> Result<(), AllocError>
    ensures { OnOk result (entries.new.items ≡ entries.old.items ++ spec.entry place 153 (values.Text (codes "Item " ++ decimal line)) ∷ []) }
{
    put(entries, place, 153, Value::Text(item_name(alloc, line)?))
}
