ghost use Rattle.std.specs.Prelude.{◌≡◌, ◌&&◌, ◌||◌, ◌+◌, ◌<◌, ◌^◌, List, length, map, IfOk};
ghost use Rattle.std.specs.List.{list_any};
ghost use Rattle.term_table.specs.SemanticModel.{same_term};
ghost use Rattle.term_table.specs.declared.contexts.Seat.{Seat};
ghost use Rattle.inv_terms.specs.Lacking as spec;
ghost use Rattle.inv_terms.specs.Presences.{AreKnown};
ghost use Rattle.inv_terms.specs.LineRows as rows_of;

use crate::presence::Presence;
use crate::violations::{ModelViolation, Name, TermFault};
use std::alloc::{AllocError, Global};
use std::marker::Model;
use term_table::{
    Context, Group, Mark, Occurrence, Seat, Seated, Slot, Term, TermRow, first_row, has_context,
    place_at, term_rows,
};

/// The seats of a context and of those inside it, with the terms that may stand among them. Most terms of the model don't stand in
/// an invoice, and none of its entries is looked at for those.
#[derive(Drop)]
struct Standing<'s, T: Seated> {
    seats: &'s [T],
    presence: Presence,
}

impl<'s, T: Seated> Model for Standing<'s, T> {
    ghost Value = { List Seat };

    ghost view = { λ s. map T.seat_of s.seats.now };

    ghost invariant = { λ s. AreKnown s.presence (map T.seat_of s.seats.now) };
}

fn standing_of<T: Seated>(seats: &[T]) -> Standing<'_, T>
    ensures { result ≡ map T.seat_of seats.now }
{
    Standing {
        seats,
        presence: Presence::among(seats),
    }
}

fn is_at(context: Context, term: Term, seat: Seat) -> bool
    ensures { result ≡ spec.is_at context term seat }
{
    seat.term.is_same(term) && seat.context.is_same(context)
}

fn any_at<T: Seated>(seats: &[T], context: Context, term: Term) -> bool
    ensures { result ≡ list_any (λ item. spec.is_at context term (T.seat_of item)) seats.now }
{
    seats.iter().any(|item| is_at(context, term, item.seat()))
}

fn has<T: Seated>(standing: &Standing<'_, T>, context: Context, term: Term) -> bool
    ensures { result ≡ spec.has standing.now context term }
{
    standing.presence.may_have(term) && any_at(standing.seats, context, term)
}

fn any_of_term<T: Seated>(seats: &[T], term: Term) -> bool
    ensures { result ≡ list_any (λ item. same_term (T.seat_of item).term term) seats.now }
{
    seats.iter().any(|item| item.seat().term.is_same(term))
}

fn has_term<T: Seated>(standing: &Standing<'_, T>, term: Term) -> bool
    ensures { result ≡ spec.has_term standing.now term }
{
    standing.presence.may_have(term) && any_of_term(standing.seats, term)
}

fn is_around(group: Group, inner: Group) -> bool
    ensures { result ≡ spec.is_around group inner }
{
    let around = inner.parent();
    group.is_same(inner) || group.is_same(around) || group.is_same(around.parent())
}

// Whether a group is there because the term stands in it.
fn shows_its_group(term: Term) -> bool
    ensures { result ≡ spec.shows_its_group term }
{
    !(term.number == 83 || term.number == 89 || term.number == 90)
}

fn stands<T: Seated>(standing: &Standing<'_, T>, group: Group) -> bool
    ensures { result ≡ spec.stands standing.now group }
{
    stands_among(term_rows(), standing, group)
}

fn shows<T: Seated>(row: &TermRow, standing: &Standing<'_, T>, group: Group) -> bool
    ensures { result ≡ (spec.is_around group row.now.group && (spec.shows_its_group row.now.term && spec.has_term standing.now row.now.term)) }
{
    is_around(group, row.group) && (shows_its_group(row.term) && has_term(standing, row.term))
}

fn stands_among<T: Seated>(rows: &[TermRow], standing: &Standing<'_, T>, group: Group) -> bool
    ensures { result ≡ list_any (λ row. spec.is_around group row.group && (spec.shows_its_group row.term && spec.has_term standing.now row.term))
        rows.now }
{
    rows.iter().any(|row| shows(row, standing, group))
}

fn decided<T: Seated>(standing: &Standing<'_, T>, group: Group) -> Option<bool>
    ensures { result ≡ spec.decided standing.now group }
{
    match group.occurrence() {
        Occurrence::Once => None,
        Occurrence::AtMostOnce => Some(stands(standing, group)),
        Occurrence::AnyNumber => Some(true),
        Occurrence::AtLeastOnce => Some(true),
    }
}

fn is_there<T: Seated>(standing: &Standing<'_, T>, group: Group) -> bool
    ensures { result ≡ spec.is_there standing.now group }
{
    if let Some(there) = decided(standing, group) {
        return there;
    }
    let around = group.parent();
    if let Some(there) = decided(standing, around) {
        return there;
    }
    decided(standing, around.parent()).unwrap_or(true)
}

fn is_needed<T: Seated>(standing: &Standing<'_, T>, context: Context, row: &TermRow) -> bool
    ensures { result ≡ spec.is_needed standing.now context row.now }
{
    match row.mark {
        Mark::One => is_there(standing, row.group),
        Mark::Optional => false,
        Mark::After => has(
            standing,
            context,
            Term {
                number: row.term.number,
                part: 0,
            },
        ),
    }
}

fn is_missing<T: Seated>(standing: &Standing<'_, T>, context: Context, row: &TermRow) -> bool
    ensures { result ≡ spec.is_missing standing.now context row.now }
{
    is_needed(standing, context, row) && !has(standing, context, row.term)
}

fn is_slot_in(group: Group, slot: Option<Slot>) -> bool
    ensures { result ≡ spec.is_slot_in group slot }
{
    match slot {
        Some(slot) => slot.group.is_same(group),
        None => false,
    }
}

fn stands_in_group(seat: Seat, group: Group) -> bool
    ensures { result ≡ (spec.is_slot_in group seat.context.outer || spec.is_slot_in group seat.context.inner) }
{
    is_slot_in(group, seat.context.outer) || is_slot_in(group, seat.context.inner)
}

fn any_in_group<T: Seated>(seats: &[T], group: Group) -> bool
    ensures { result ≡ list_any (λ item. spec.is_slot_in group (T.seat_of item).context.outer || spec.is_slot_in group (T.seat_of item).context.inner)
        seats.now }
{
    seats.iter().any(|item| stands_in_group(item.seat(), group))
}

fn has_occurrence<T: Seated>(standing: &Standing<'_, T>, group: Group) -> bool
    ensures { result ≡ spec.has_occurrence standing.now group }
{
    any_in_group(standing.seats, group)
}

fn is_at_least_once(occurrence: Occurrence) -> bool
    ensures { result ≡ spec.is_at_least_once occurrence }
{
    match occurrence {
        Occurrence::AtLeastOnce => true,
        Occurrence::Once | Occurrence::AtMostOnce | Occurrence::AnyNumber => false,
    }
}

fn lacks_group<T: Seated>(
    standing: &Standing<'_, T>,
    context: Context,
    k: usize,
    row: &TermRow,
) -> bool
    ensures { result ≡ spec.lacks_group standing.now context k row.now }
{
    is_at_least_once(row.group.occurrence())
        && (k == first_row(row.group)
            && (has_context(row.group.parent(), context) && !has_occurrence(standing, row.group)))
}

/// Whether nothing is ever missing at a row, as at most rows: its term may be left out, and so may its group.
fn may_be_left_out(row: &TermRow) -> bool
    ensures { result ≡ spec.may_be_left_out row.now }
{
    match row.mark {
        Mark::Optional => !is_at_least_once(row.group.occurrence()),
        Mark::One => false,
        Mark::After => false,
    }
}

fn missing_at<T: Seated>(
    standing: &Standing<'_, T>,
    context: Context,
    k: usize,
    row: &TermRow,
) -> Option<Name>
    ensures { result ≡ spec.missing_at standing.now context k row.now }
{
    if may_be_left_out(row) {
        return None;
    }
    if has_context(row.group, context) {
        if is_missing(standing, context, row) {
            return Some(Name::Term(row.term));
        }
        return None;
    }
    if lacks_group(standing, context, k, row) {
        return Some(Name::Group(row.group));
    }
    None
}

fn missing_among<T: Seated>(
    rows: &[TermRow],
    standing: &Standing<'_, T>,
    context: Context,
) -> Option<ModelViolation>
    ensures { result ≡ spec.missing_from standing.now context 0 rows.now }
{
    'rows: for (k, row) in rows.iter().enumerate() {
        if let Some(name) = missing_at(standing, context, k, row) {
            return Some(ModelViolation {
                place: place_at(k, context),
                fault: TermFault::Missing(name),
            });
        }
    }
    None
}

/// The first term or group that is missing in a context, of which the seats are given that stand in it and inside it.
/// It goes over them once for each term that may stand in the context.
pub fn first_missing<T: Seated>(seats: &[T], context: Context) -> Option<ModelViolation>
    ensures { result ≡ spec.first_missing (map T.seat_of seats.now) context }
{
    missing_among(term_rows(), &standing_of(seats), context)
}

/// The number of the first row that can miss in the context: terms of an invoice line and of the groups in it stand behind all
/// others of the model.
fn first_row_in(context: Context) -> usize
    ensures { result ≡ rows_of.first_row_in context }
{
    match context.outer {
        None => 0,
        Some(slot) => {
            if slot.group.is_same(Group::InvoiceLine) {
                141
            } else {
                0
            }
        }
    }
}

// At the rows from that number on.
fn all_missing_among<T: Seated>(
    alloc: Global,
    rows: &[TermRow],
    standing: &Standing<'_, T>,
    context: Context,
    first: usize,
) -> Result<Vec<ModelViolation>, AllocError>
    requires { first + length rows.now < 2 ^ 64 }
    ensures { IfOk result (λ violations. violations.items ≡ spec.all_missing_from standing.now context first rows.now) }
{
    let mut violations = Vec::new(alloc);
    'rows: for (k, row) in rows.iter().enumerate() {
        if let Some(name) = missing_at(standing, context, first + k, row) {
            violations.push(ModelViolation {
                place: place_at(first + k, context),
                fault: TermFault::Missing(name),
            })?;
        }
    }
    Ok(violations)
}

/// All terms and groups that are missing in a context, in listing order, of which the seats are given that stand in it and
/// inside it. It goes over them once for each term that may stand in the context.
pub fn all_missing<T: Seated>(
    alloc: Global,
    seats: &[T],
    context: Context,
) -> Result<Vec<ModelViolation>, AllocError>
    ensures { IfOk result (λ violations. violations.items ≡ spec.all_missing (map T.seat_of seats.now) context) }
{
    let first = first_row_in(context);
    let (_, rows) = term_rows().split_at(first);
    all_missing_among(alloc, rows, &standing_of(seats), context, first)
}
