//! What says the constants of a table.

ghost use Rattle.std.specs.Prelude.{◌≡◌, chars, OnOk};
ghost use Rattle.std.specs.List.{flat_map};
ghost use Rattle.bind_said.specs.Marks.{mark_all};
ghost use Rattle.bind_said.specs.Saying as spec;

use crate::along::mark_along;
use bind_rows::{Content, Row};
use bind_walk::{WalkInput, leaf_number};
use inv_base::Steps;
use std::alloc::AllocError;
use std::sync::ledger::Ledger;

/// Marks what says the constants of the rows.
pub(crate) fn mark_constants<L: Ledger>(
    input: &WalkInput<'_, '_>,
    rows: &[Row],
    marks: &mut Vec<bool>,
    steps: &mut Steps<L>,
) -> Result<(), AllocError>
    ensures { OnOk result (marks.new.items ≡ mark_all marks.old.items (flat_map (spec.said_by_row input.now.doc.now) rows.now)) }
{
    'rows: for row in rows {
        mark_constant(input, row, marks, steps)?;
    }
    Ok(())
}

fn mark_constant<L: Ledger>(
    input: &WalkInput<'_, '_>,
    row: &Row,
    marks: &mut Vec<bool>,
    steps: &mut Steps<L>,
) -> Result<(), AllocError>
    ensures { OnOk result (marks.new.items ≡ mark_all marks.old.items (spec.said_by_row input.now.doc.now row.now)) }
{
    match &row.content {
        Content::Term(_) => Ok(()),
        Content::Constant(text) => mark_text(input, row, text.as_str(), marks, steps),
    }
}

/// Marks what the row reaches and says the text.
fn mark_text<L: Ledger>(
    input: &WalkInput<'_, '_>,
    row: &Row,
    text: &str,
    marks: &mut Vec<bool>,
    steps: &mut Steps<L>,
) -> Result<(), AllocError>
    ensures { OnOk result (marks.new.items ≡ mark_all marks.old.items (spec.said_along input.now.doc.now row.now.path row.now.leaf (chars text.now))) }
{
    let leaf = leaf_number(input.alloc, input.doc, &row.leaf)?;
    mark_along(input, row.path.as_slice(), leaf, text, marks, steps)
}
