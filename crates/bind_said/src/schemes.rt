//! What says the scheme of a creditor's identifier at the place where the table has it only in a condition.

ghost use Rattle.std.specs.Prelude.{◌≡◌, chars, OnOk};
ghost use Rattle.std.specs.List.{flat_map, list_any};
ghost use Rattle.bind_meaning.specs.Elements as elements;
ghost use Rattle.bind_meaning.specs.Picks as picks;
ghost use Rattle.bind_meaning.specs.Said as said;
ghost use Rattle.bind_said.specs.Marks.{mark_all};
ghost use Rattle.bind_said.specs.Saying as spec;

use crate::along::mark_along;
use crate::attributes::attribute_number;
use crate::judged::term_in;
use bind_rows::{Guard, Row, Step, Test};
use bind_walk::{FoundLeaf, WalkInput};
use inv_base::{Steps, Txt, is_same_text};
use std::alloc::AllocError;
use std::sync::ledger::Ledger;
use term_table::Term;

/// BT-90, a creditor's identifier.
const CREDITOR: Term = Term {
    number: 90,
    part: 0,
};

/// Marks what says the scheme of BT-90 at the rows that ask for it in a condition.
pub(crate) fn mark_schemes<L: Ledger>(
    input: &WalkInput<'_, '_>,
    rows: &[Row],
    marks: &mut Vec<bool>,
    steps: &mut Steps<L>,
) -> Result<(), AllocError>
    ensures { OnOk result (marks.new.items ≡ mark_all marks.old.items (flat_map (spec.said_by_scheme input.now.doc.now) rows.now)) }
{
    let number = attribute_number(input.alloc, input.doc, "schemeID")?;
    mark_at_rows(input, rows, number, marks, steps)
}

fn mark_at_rows<L: Ledger>(
    input: &WalkInput<'_, '_>,
    rows: &[Row],
    name: Option<u32>,
    marks: &mut Vec<bool>,
    steps: &mut Steps<L>,
) -> Result<(), AllocError>
    ensures { OnOk result (marks.new.items ≡ mark_all marks.old.items (flat_map (spec.said_by_scheme_named input.now.doc.now name) rows.now)) }
{
    'rows: for row in rows {
        mark_at_row(input, row, name, marks, steps)?;
    }
    Ok(())
}

fn mark_at_row<L: Ledger>(
    input: &WalkInput<'_, '_>,
    row: &Row,
    name: Option<u32>,
    marks: &mut Vec<bool>,
    steps: &mut Steps<L>,
) -> Result<(), AllocError>
    ensures { OnOk result (marks.new.items ≡ mark_all marks.old.items (spec.said_by_scheme_named input.now.doc.now name row.now)) }
{
    if !asks_for_scheme(row) {
        return Ok(());
    }
    let leaf = FoundLeaf::Attribute(name);
    mark_along(input, row.path.as_slice(), leaf, "SEPA", marks, steps)
}

fn asks_for_scheme(row: &Row) -> bool
    ensures { result ≡ spec.asks_for_scheme row.now }
{
    if !has_term(row, CREDITOR) {
        return false;
    }
    some_step_asks(row.path.as_slice())
}

fn has_term(row: &Row, term: Term) -> bool
    ensures { result ≡ picks.has_term term row.now }
{
    match term_in(row) {
        None => false,
        Some(own) => own.is_same(term),
    }
}

fn some_step_asks(path: &[Step]) -> bool
    ensures { result ≡ list_any spec.step_asks path.now }
{
    'path: for step in path {
        if some_guard_asks(step.guards.as_slice()) {
            return true;
        }
    }
    false
}

fn some_guard_asks(guards: &[Guard]) -> bool
    ensures { result ≡ list_any said.asks_for_sepa guards.now }
{
    'guards: for guard in guards {
        if asks(&guard.test) {
            return true;
        }
    }
    false
}

fn asks(test: &Test) -> bool
    ensures { result ≡ spec.test_asks test.now }
{
    match test {
        Test::OneOf(texts) => is_sepa_among(texts.as_slice()),
        Test::NoneOf(_) => false,
        Test::Present => false,
        Test::Absent => false,
    }
}

fn is_sepa_among(texts: &[Txt]) -> bool
    ensures { result ≡ elements.is_one_of texts.now said.sepa }
{
    'texts: for text in texts {
        if is_sepa(text.as_str()) {
            return true;
        }
    }
    false
}

fn is_sepa(text: &str) -> bool
    ensures { result ≡ spec.is_sepa (chars text.now) }
{
    is_same_text("SEPA", text)
}
