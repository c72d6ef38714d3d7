//! One pass over the picks: what each says, the first of each term in each context, and all faults at nodes.
ghost use Rattle.std.specs.Prelude.{◌≡◌, ◌<◌, [], ◌∷◌, All, Some, OnOk, option_copied, is_some, true};
ghost use Rattle.term_table.specs.Places as places;
ghost use Rattle.term_table.specs.Rows as rows;
ghost use Rattle.bind_meaning.specs.Seats as seats;
ghost use Rattle.bind_terms.specs.ParsedValues.{parsed_of, all_parsed};
ghost use Rattle.bind_terms.specs.Faults.{found_of, Puts};
ghost use Rattle.bind_terms.specs.Inputs.{nodes_of, count, rows_of, lists_of, currency_of};
ghost use Rattle.bind_terms.specs.Telling.{context_in};
ghost use Rattle.bind_terms.specs.Steps.{IsWithin, ArePlaced, parsed_by_row, SaysPlaced, Tells, TellsPick, TellsOf, TellsAll, HasRow, row_numbered};
ghost use Rattle.bind_terms.specs.Steps.{faults_again, faults_at, fault_at};

use crate::causes::first_cause;
use crate::firsts::{First, Firsts};
use crate::found::{Found, Side, Spot};
use crate::keeping::Keeper;
use crate::rowed::RowedPick;
use crate::{ParsedValue, ParsedValues, ReadingInput, parse_values};
use bind_meaning::{BindFault, BindKind, PlacedPick, Seated};
use bind_rows::{Content, Row};
use bind_table::Binding;
use inv_base::Steps;
use inv_terms::Name;
use node_arena::NodeId;
use ordered_map::Keyed;
use std::alloc::AllocError;
use std::sync::ledger::Ledger;
use term_table::{Context, Slot, Term, row_of};

fn slot_of(seat: Option<Seated>) -> Option<Slot>
    ensures { result ≡ seats.slot_of seat }
{
    match seat {
        Some(seat) => Some(seat.slot),
        None => None,
    }
}

pub(crate) fn context_of(pick: &PlacedPick) -> Context
    ensures { result ≡ context_in pick.now }
{
    Context {
        outer: slot_of(pick.outer),
        inner: slot_of(pick.inner),
    }
}

/// The row of a number, from 1.
pub(crate) fn row_at(table: &Binding, number: u32) -> Option<&Row>
    ensures { option_copied result ≡ row_numbered table.now number }
{
    match number.checked_sub(1) {
        Some(k) => table.part(k as usize),
        None => None,
    }
}

/// What all picks say, in document order: the first of each is put by, and each fault is given to the keeper.
pub(crate) fn tell_picks<L: Ledger, K: Keeper>(
    input: &ReadingInput<'_, '_>,
    picks: &[PlacedPick],
    firsts: &mut Firsts,
    keeper: &mut K,
    steps: &mut Steps<L>,
) -> Result<(), AllocError>
    requires within { All (IsWithin (count input.now)) picks.now }
    requires rows { All (λ pick. HasRow (rows_of input.now) pick.row) picks.now }
    requires placed { All (SaysPlaced (nodes_of input.now) (rows_of input.now)) picks.now }
    requires empty { firsts.old.entries ≡ [] }
    requires none { K.given keeper.old [] }
    ensures { OnOk result (TellsAll (nodes_of input.now) (lists_of input.now) (currency_of input.now) picks.now (rows_of input.now)
        firsts.new.entries (K.given keeper.new)) }
{
    'picks: for pick in picks {
        tell_pick(input, pick, firsts, keeper, steps)?;
    }
    Ok(())
}

// What one pick says, behind those before it.
fn tell_pick<L: Ledger, K: Keeper>(
    input: &ReadingInput<'_, '_>,
    pick: &PlacedPick,
    firsts: &mut Firsts,
    keeper: &mut K,
    steps: &mut Steps<L>,
) -> Result<(), AllocError>
    requires within { IsWithin (count input.now) pick.now }
    requires row { HasRow (rows_of input.now) pick.now.row }
    requires placed { SaysPlaced (nodes_of input.now) (rows_of input.now) pick.now }
    ensures { OnOk result (TellsOf (nodes_of input.now) (lists_of input.now) (currency_of input.now) pick.now (rows_of input.now)
        firsts.old.entries (K.given keeper.old) firsts.new.entries (K.given keeper.new)) }
{
    match row_at(input.table, pick.row) {
        Some(row) => tell_row(input, &RowedPick { row, pick }, firsts, keeper, steps),
        None => unreachable!(),
    }
}

// The same by its row.
fn tell_row<L: Ledger, K: Keeper>(
    input: &ReadingInput<'_, '_>,
    rowed: &RowedPick<'_>,
    firsts: &mut Firsts,
    keeper: &mut K,
    steps: &mut Steps<L>,
) -> Result<(), AllocError>
    requires within { IsWithin (count input.now) rowed.now.pick.now }
    requires placed { ArePlaced (context_in rowed.now.pick.now) (parsed_by_row (nodes_of input.now) rowed.now.pick.now rowed.now.row.now) }
    ensures { OnOk result (TellsPick (nodes_of input.now) (lists_of input.now) (currency_of input.now) rowed.now.pick.now rowed.now.row.now
        firsts.old.entries (K.given keeper.old) firsts.new.entries (K.given keeper.new)) }
{
    match rowed.row.content {
        Content::Term(term) => {
            let node = rowed.pick.node;
            let string = input.doc.string(input.alloc, node, steps)?;
            let parsed_values = parse_values(input.alloc, rowed.row.form, term, string.as_str())?;
            tell_all(input, rowed, parsed_values, firsts, keeper, steps)
        }
        Content::Constant(_) => Ok(()),
    }
}

// All that a pick says.
fn tell_all<L: Ledger, K: Keeper>(
    input: &ReadingInput<'_, '_>,
    rowed: &RowedPick<'_>,
    parsed_values: ParsedValues,
    firsts: &mut Firsts,
    keeper: &mut K,
    steps: &mut Steps<L>,
) -> Result<(), AllocError>
    requires within { IsWithin (count input.now) rowed.now.pick.now }
    requires placed { ArePlaced (context_in rowed.now.pick.now) (all_parsed parsed_values) }
    ensures { OnOk result (Tells (nodes_of input.now) (lists_of input.now) (currency_of input.now) rowed.now.pick.now rowed.now.row.now (all_parsed
        parsed_values)
        firsts.old.entries (K.given keeper.old) firsts.new.entries (K.given keeper.new)) }
{
    match parsed_values {
        ParsedValues::One(one) => tell(input, rowed, one, firsts, keeper, steps),
        ParsedValues::Two(one, other) => {
            tell(input, rowed, one, firsts, keeper, steps)?;
            tell(input, rowed, other, firsts, keeper, steps)
        }
    }
}

// One value that a pick says.
fn tell<L: Ledger, K: Keeper>(
    input: &ReadingInput<'_, '_>,
    rowed: &RowedPick<'_>,
    parsed: ParsedValue,
    firsts: &mut Firsts,
    keeper: &mut K,
    steps: &mut Steps<L>,
) -> Result<(), AllocError>
    requires within { IsWithin (count input.now) rowed.now.pick.now }
    requires placed { is_some (places.place_of parsed.term (context_in rowed.now.pick.now)) ≡ true }
    ensures { OnOk result (Tells (nodes_of input.now) (lists_of input.now) (currency_of input.now) rowed.now.pick.now rowed.now.row.now (parsed_of parsed ∷ [])
        firsts.old.entries (K.given keeper.old) firsts.new.entries (K.given keeper.new)) }
{
    let term = parsed.term;
    let context = context_of(rowed.pick);
    let listed = row_in(term, context);
    let kind = first_cause(input, rowed, None, &parsed, steps)?;
    let ParsedValue { term: _, value } = parsed;
    let told = First {
        context,
        row: listed,
        term,
        value,
    };
    match firsts.insert(told)? {
        None => put_cause(keeper, kind, rowed.pick, term),
        Some(again) => tell_again(input, rowed, again, firsts, keeper, steps),
    }
}

// The fault of a value that isn't the first of its term in its context, where there is one.
fn tell_again<L: Ledger, K: Keeper>(
    input: &ReadingInput<'_, '_>,
    rowed: &RowedPick<'_>,
    again: First,
    firsts: &Firsts,
    keeper: &mut K,
    steps: &mut Steps<L>,
) -> Result<(), AllocError>
    requires { IsWithin (count input.now) rowed.now.pick.now }
    ensures { OnOk result (Puts (K.given keeper.old) (K.given keeper.new) (faults_again (nodes_of input.now) (lists_of input.now) (currency_of input.now)
        rowed.now.pick.now rowed.now.row.now again firsts.now.entries)) }
{
    let first = firsts.get(&again.key());
    let First {
        context: _,
        row: _,
        term,
        value,
    } = again;
    let parsed = ParsedValue { term, value };
    let kind = first_cause(input, rowed, first, &parsed, steps)?;
    drop(parsed);
    put_cause(keeper, kind, rowed.pick, term)
}

// The row of a term that has one in the context.
fn row_in(term: Term, context: Context) -> u32
    requires { is_some (places.place_of term context) ≡ true }
    ensures { Some result ≡ rows.row_of term context }
{
    match row_of(term, context) {
        Some(row) => row as u32,
        None => unreachable!(),
    }
}

// The fault of a cause at the pick's node, where there is one.
fn put_cause<K: Keeper>(
    keeper: &mut K,
    kind: Option<BindKind>,
    pick: &PlacedPick,
    term: Term,
) -> Result<(), AllocError>
    ensures { OnOk result (Puts (K.given keeper.old) (K.given keeper.new) (faults_at kind pick.now.node pick.now.row term)) }
{
    match kind {
        Some(kind) => keeper.put(fault_at(kind, pick.node, pick.row, term)),
        None => Ok(()),
    }
}

/// A fault of a term at a node that a row picks.
pub(crate) fn fault_at(kind: BindKind, node: NodeId, row: u32, term: Term) -> Found
    ensures { found_of result ≡ fault_at kind node row term }
{
    Found {
        spot: Spot {
            node: node.number(),
            side: Side::At { row },
        },
        fault: BindFault {
            kind,
            name: Name::Term(term),
            node,
        },
    }
}
