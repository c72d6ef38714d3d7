//! Picks that count: no placeholders, and no VAT totals of the other currency.

ghost use Rattle.std.specs.Prelude.{◌≡◌, ◌<◌, length, filter, true, IfOk};
ghost use Rattle.std.specs.List.{list_any};
ghost use Rattle.term_table.specs.SemanticModel.{same_term};
ghost use Rattle.node_arena.specs.Moves.{tree_nodes};
ghost use Rattle.bind_seats.specs.declared.marks.Mark.{Mark};
ghost use Rattle.bind_seats.specs.Marks.{rises, has_mark};
ghost use Rattle.bind_seats.specs.Rowed.{AreRowed, AreWithin, IsRowed};
ghost use Rattle.bind_seats.specs.Placeholders as spec;

use crate::currencies::Currencies;
use crate::input::NumberingInput;
use crate::marks::{Mark, in_order, is_in};
use crate::rowed::{holder, row_of, term_in};
use crate::texts::has_string;
use bind_meaning::Picked;
use bind_rows::{Row, Written};
use inv_base::Steps;
use node_arena::{Doc, NodeId};
use std::alloc::{AllocError, Global};
use std::sync::ledger::Ledger;
use term_table::Term;

fn term_mark(holder: NodeId, term: Term) -> Mark
    ensures { result ≡ spec.term_mark holder term }
{
    Mark {
        around: holder.number(),
        kind: u32::from(term.number),
        number: u32::from(term.part),
    }
}

/// The terms beside which the table's rows have placeholders.
fn terms_beside(alloc: Global, rows: &[Row]) -> Result<Vec<Term>, AllocError>
    ensures { IfOk result (λ terms. terms.items ≡ spec.terms_beside rows.now) }
{
    let mut terms = Vec::new(alloc);
    'rows: for row in rows {
        match &row.written {
            Written::OrPlaceholder(placeholder) => terms.push(placeholder.beside)?,
            _ => {}
        }
    }
    Ok(terms)
}

fn is_one_of(terms: &[Term], term: Term) -> bool
    ensures { result ≡ list_any (same_term term) terms.now }
{
    terms.iter().any(|other| term.is_same(*other))
}

/// The element around a pick, where a placeholder stands beside the pick's term.
fn mark_beside<L: Ledger>(
    doc: &Doc<'_>,
    terms: &[Term],
    row: &Row,
    n: NodeId,
    steps: &mut Steps<L>,
) -> Option<Mark>
    requires { n < length doc.now.nodes }
    ensures { result ≡ spec.mark_beside (tree_nodes doc.now) terms.now row.now n }
{
    let term = match term_in(row) {
        Some(term) => term,
        None => return None,
    };
    if is_one_of(terms, term) {
        Some(term_mark(holder(doc, row, n, steps), term))
    } else {
        None
    }
}

/// The elements around those picks whose term is one of these.
fn picked_in<L: Ledger>(
    input: &NumberingInput<'_, '_>,
    terms: &[Term],
    picks: &[Picked],
    steps: &mut Steps<L>,
) -> Result<Vec<Mark>, AllocError>
    requires within { AreWithin (length input.now.doc.now.nodes) picks.now }
    requires rowed { AreRowed (length input.now.rows.now) picks.now }
    ensures { IfOk result (λ marks. marks.items ≡ spec.marks_of (tree_nodes input.now.doc.now) input.now.rows.now terms.now picks.now) }
{
    let mut marks = Vec::new(input.alloc);
    'picks: for pick in picks {
        match mark_beside(input.doc, terms, row_of(input.rows, pick), pick.node, steps) {
            Some(mark) => marks.push(mark)?,
            None => {}
        }
    }
    Ok(marks)
}

/// The terms picked in elements that may hold a placeholder beside them, with these elements.
pub(crate) fn marks_beside<L: Ledger>(
    input: &NumberingInput<'_, '_>,
    picks: &[Picked],
    steps: &mut Steps<L>,
) -> Result<Vec<Mark>, AllocError>
    requires within { AreWithin (length input.now.doc.now.nodes) picks.now }
    requires rowed { AreRowed (length input.now.rows.now) picks.now }
    ensures order { IfOk result (λ marks. rises marks.items ≡ true) }
    ensures same { IfOk result (λ marks. (m : Mark)
        → has_mark marks.items m ≡ has_mark (spec.marks_beside (tree_nodes input.now.doc.now) input.now.rows.now picks.now) m) }
{
    let terms = terms_beside(input.alloc, input.rows)?;
    let marks = picked_in(input, terms.as_slice(), picks, steps)?;
    Ok(in_order(marks))
}

/// Whether what a row picks is a placeholder.
fn is_placeholder<L: Ledger>(
    input: &NumberingInput<'_, '_>,
    marks: &[Mark],
    row: &Row,
    n: NodeId,
    steps: &mut Steps<L>,
) -> Result<bool, AllocError>
    requires node { n < length input.now.doc.now.nodes }
    requires order { rises marks.now ≡ true }
    ensures { IfOk result (λ is. is ≡ spec.is_placeholder_at (tree_nodes input.now.doc.now) marks.now row.now n) }
{
    match &row.written {
        Written::OrPlaceholder(placeholder) => {
            if has_string(input.alloc, input.doc, n, &placeholder.text, steps)? {
                Ok(is_in(
                    marks,
                    term_mark(holder(input.doc, row, n, steps), placeholder.beside),
                ))
            } else {
                Ok(false)
            }
        }
        _ => Ok(false),
    }
}

/// Whether a pick counts.
fn stays<L: Ledger>(
    input: &NumberingInput<'_, '_>,
    currencies: &Currencies,
    marks: &[Mark],
    pick: &Picked,
    steps: &mut Steps<L>,
) -> Result<bool, AllocError>
    requires within { pick.now.node < length input.now.doc.now.nodes }
    requires rowed { IsRowed (length input.now.rows.now) pick.now }
    requires order { rises marks.now ≡ true }
    ensures { IfOk result (λ is. is ≡ spec.stays (tree_nodes input.now.doc.now) input.now.rows.now
        (record { invoice = currencies.now.invoice; accounting = currencies.now.accounting }) marks.now pick.now) }
{
    let row = row_of(input.rows, pick);
    if is_placeholder(input, marks, row, pick.node, steps)? {
        return Ok(false);
    }
    currencies.suit(input.alloc, input.doc, row, pick.node, steps)
}

/// The picks that count, in their order. They are moved to the front of the list that is given, so that there is no second one.
pub(crate) fn staying<L: Ledger>(
    input: &NumberingInput<'_, '_>,
    currencies: &Currencies,
    marks: &[Mark],
    mut picks: Vec<Picked>,
    steps: &mut Steps<L>,
) -> Result<Vec<Picked>, AllocError>
    requires within { AreWithin (length input.now.doc.now.nodes) picks.items }
    requires rowed { AreRowed (length input.now.rows.now) picks.items }
    requires order { rises marks.now ≡ true }
    ensures { IfOk result (λ kept. kept.items ≡ filter (spec.stays (tree_nodes input.now.doc.now) input.now.rows.now
        (record { invoice = currencies.now.invoice; accounting = currencies.now.accounting }) marks.now) picks.items) }
{
    let mut count = 0;
    'picks: for place in 0..picks.len() {
        let pick = picks[place];
        if stays(input, currencies, marks, &pick, steps)? {
            picks[count] = pick;
            count += 1;
        }
    }
    picks.truncate(count);
    Ok(picks)
}
