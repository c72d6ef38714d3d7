//! What rows with a term pick, and the attributes that are judged with it.

ghost use Rattle.std.specs.Prelude.{◌≡◌, ◌-◌, ◌<◌, All, length, option_copied, slice_get, OnOk};
ghost use Rattle.std.specs.List.{flat_map};
ghost use Rattle.bind_said.specs.Judged as spec;
ghost use Rattle.bind_said.specs.Marks.{mark_all};

use crate::attributes::{attribute_number, mark_attributes, mark_saying_attributes};
use crate::judged::{is_of_added_date, is_of_amount};
use crate::marks::mark;
use bind_meaning::Picked;
use bind_rows::Row;
use bind_walk::WalkInput;
use inv_base::Steps;
use node_arena::NodeId;
use std::alloc::AllocError;
use std::sync::ledger::Ledger;

/// The names of the attributes that are judged with the value of their element, as the document has them.
#[derive(Clone, Copy)]
pub(crate) struct JudgedNames {
    pub(crate) currency: Option<u32>,
    pub(crate) format: Option<u32>,
}

/// Marks what is picked, with the currencies of amounts and the formats of added dates.
pub(crate) fn mark_picked<L: Ledger>(
    input: &WalkInput<'_, '_>,
    rows: &[Row],
    picks: &[Picked],
    marks: &mut Vec<bool>,
    steps: &mut Steps<L>,
) -> Result<(), AllocError>
    requires { All (spec.IsWithin input.now.doc.now) picks.now }
    ensures { OnOk result (marks.new.items ≡ mark_all marks.old.items (flat_map (spec.said_by_pick input.now.doc.now rows.now) picks.now)) }
{
    let names = JudgedNames {
        currency: attribute_number(input.alloc, input.doc, "currencyID")?,
        format: attribute_number(input.alloc, input.doc, "format")?,
    };
    mark_picks(input, rows, names, picks, marks, steps)
}

fn mark_picks<L: Ledger>(
    input: &WalkInput<'_, '_>,
    rows: &[Row],
    names: JudgedNames,
    picks: &[Picked],
    marks: &mut Vec<bool>,
    steps: &mut Steps<L>,
) -> Result<(), AllocError>
    requires { All (spec.IsWithin input.now.doc.now) picks.now }
    ensures { OnOk result (marks.new.items ≡ mark_all marks.old.items (flat_map (spec.said_by_pick_named input.now.doc.now names rows.now) picks.now)) }
{
    'picks: for pick in picks {
        mark_pick(input, rows, names, pick, marks, steps)?;
    }
    Ok(())
}

fn mark_pick<L: Ledger>(
    input: &WalkInput<'_, '_>,
    rows: &[Row],
    names: JudgedNames,
    pick: &Picked,
    marks: &mut Vec<bool>,
    steps: &mut Steps<L>,
) -> Result<(), AllocError>
    requires { spec.IsWithin input.now.doc.now pick.now }
    ensures { OnOk result (marks.new.items ≡ mark_all marks.old.items (spec.said_by_pick_named input.now.doc.now names rows.now pick.now)) }
{
    mark(marks, pick.node);
    match row_of(rows, pick.row) {
        None => Ok(()),
        Some(row) => mark_judged(input, row, names, pick.node, marks, steps),
    }
}

/// The row of that number, from 1.
fn row_of(rows: &[Row], number: u32) -> Option<&Row>
    ensures { option_copied result ≡ slice_get rows.now (number - 1) }
{
    rows.get(number.saturating_sub(1) as usize)
}

/// Marks the attributes of a picked element that are judged with its value.
fn mark_judged<L: Ledger>(
    input: &WalkInput<'_, '_>,
    row: &Row,
    names: JudgedNames,
    n: NodeId,
    marks: &mut Vec<bool>,
    steps: &mut Steps<L>,
) -> Result<(), AllocError>
    requires { n < length input.now.doc.now.nodes }
    ensures { OnOk result (marks.new.items ≡ mark_all marks.old.items (spec.judged_at input.now.doc.now names row.now n)) }
{
    mark_currency(input, row, names.currency, n, marks, steps);
    mark_format(input, row, names.format, n, marks, steps)
}

fn mark_currency<L: Ledger>(
    input: &WalkInput<'_, '_>,
    row: &Row,
    name: Option<u32>,
    n: NodeId,
    marks: &mut Vec<bool>,
    steps: &mut Steps<L>,
)
    requires { n < length input.now.doc.now.nodes }
    ensures { marks.new.items ≡ mark_all marks.old.items (spec.currency_at input.now.doc.now name row.now n) }
{
    if is_of_amount(row) {
        mark_attributes(input, name, n, marks, steps);
    }
}

fn mark_format<L: Ledger>(
    input: &WalkInput<'_, '_>,
    row: &Row,
    name: Option<u32>,
    n: NodeId,
    marks: &mut Vec<bool>,
    steps: &mut Steps<L>,
) -> Result<(), AllocError>
    requires { n < length input.now.doc.now.nodes }
    ensures { OnOk result (marks.new.items ≡ mark_all marks.old.items (spec.format_at input.now.doc.now name row.now n)) }
{
    if !is_of_added_date(row) {
        return Ok(());
    }
    mark_saying_attributes(input, name, "102", n, marks, steps)
}
