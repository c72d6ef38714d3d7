//! The occurrences of groups in which picks stand.

ghost use Rattle.std.specs.Prelude.{◌≡◌, ◌+◌, ◌<◌, ◌^◌, ◌++◌, ◌∷◌, [], length, true, IfOk, OnOk};
ghost use Rattle.std.specs.Option.{ForSome};
ghost use Rattle.bind_seats.specs.declared.marks.Mark.{Mark};
ghost use Rattle.bind_seats.specs.Marks.{rises, has_mark};
ghost use Rattle.bind_seats.specs.Rowed.{AreRowed, IsRowed};
ghost use Rattle.bind_seats.specs.Occurrences as spec;
ghost use Rattle.bind_seats.specs.Occurrences.{IsSeated};

use crate::marks::{Mark, in_order, place_in, put_mark};
use crate::rowed::row_of;
use bind_meaning::{Picked, PlacedPick, Seated};
use bind_rows::Row;
use node_arena::NodeId;
use std::alloc::{AllocError, Global};
use term_table::{Group, Slot};

/// The number of the node in which the occurrences of outer groups stand: the document's own.
const DOCUMENT: u32 = 0;

fn group_mark(around: u32, group: Group, element: NodeId) -> Mark
    ensures { result ≡ spec.group_mark around group element }
{
    Mark {
        around,
        kind: group.number(),
        number: element.number(),
    }
}

/// The occurrence of its row's outer group in which a pick stands.
fn outer_mark(row: &Row, pick: &Picked) -> Option<Mark>
    ensures { result ≡ spec.outer_mark row.now pick.now }
{
    match row.outer {
        None => None,
        Some(group) => match pick.outer {
            None => None,
            Some(element) => Some(group_mark(DOCUMENT, group, element)),
        },
    }
}

/// The occurrence of its row's inner group in which a pick stands.
fn inner_mark(row: &Row, pick: &Picked) -> Option<Mark>
    ensures { result ≡ spec.inner_mark row.now pick.now }
{
    match row.inner {
        None => None,
        Some(group) => match pick.outer {
            None => None,
            Some(around) => match pick.inner {
                None => None,
                Some(element) => Some(group_mark(around.number(), group, element)),
            },
        },
    }
}

/// The occurrences of outer groups.
fn outer_marks(alloc: Global, rows: &[Row], picks: &[Picked]) -> Result<Vec<Mark>, AllocError>
    requires { AreRowed (length rows.now) picks.now }
    ensures order { IfOk result (λ marks. rises marks.items ≡ true) }
    ensures same { IfOk result (λ marks. (m : Mark) → has_mark marks.items m ≡ has_mark (spec.outer_marks rows.now picks.now) m) }
{
    let mut marks = Vec::new(alloc);
    'picks: for pick in picks {
        match outer_mark(row_of(rows, pick), pick) {
            Some(mark) => put_mark(&mut marks, mark)?,
            None => {}
        }
    }
    Ok(in_order(marks))
}

/// The occurrences of inner groups.
fn inner_marks(alloc: Global, rows: &[Row], picks: &[Picked]) -> Result<Vec<Mark>, AllocError>
    requires { AreRowed (length rows.now) picks.now }
    ensures order { IfOk result (λ marks. rises marks.items ≡ true) }
    ensures same { IfOk result (λ marks. (m : Mark) → has_mark marks.items m ≡ has_mark (spec.inner_marks rows.now picks.now) m) }
{
    let mut marks = Vec::new(alloc);
    'picks: for pick in picks {
        match inner_mark(row_of(rows, pick), pick) {
            Some(mark) => put_mark(&mut marks, mark)?,
            None => {}
        }
    }
    Ok(in_order(marks))
}

/// The occurrence of the group that an element is.
fn seat_at(marks: &[Mark], around: u32, group: Group, element: NodeId) -> Seated
    requires order { rises marks.now ≡ true }
    requires few { element + 1 < 2 ^ 32 }
    ensures { result ≡ spec.seat_at marks.now around group element }
{
    let index = place_in(marks, group_mark(around, group, element));
    Seated {
        slot: Slot { group, index },
        element,
    }
}

/// The same, where the last one may be it: many picks that follow one another stand in one occurrence.
fn seat_again(marks: &[Mark], group: Group, element: NodeId, last: Option<Seated>) -> Seated
    requires order { rises marks.now ≡ true }
    requires few { element + 1 < 2 ^ 32 }
    requires last { spec.IsOuterSeat marks.now last }
    ensures { result ≡ spec.seat_at marks.now 0 group element }
{
    match last {
        Some(seat) => {
            if is_of(&seat, group, element) {
                seat
            } else {
                seat_at(marks, DOCUMENT, group, element)
            }
        }
        None => seat_at(marks, DOCUMENT, group, element),
    }
}

/// Whether an occurrence is that of the group at the element.
fn is_of(seat: &Seated, group: Group, element: NodeId) -> bool
    ensures { result ≡ spec.is_of seat.now group element }
{
    if seat.element == element {
        seat.slot.group.is_same(group)
    } else {
        false
    }
}

/// The occurrence of its row's outer group in which a pick stands, where the pick before it stands in the last one.
fn outer_seat(marks: &[Mark], row: &Row, pick: &Picked, last: Option<Seated>) -> Option<Seated>
    requires order { rises marks.now ≡ true }
    requires few { ForSome pick.now.outer (λ n. n + 1 < 2 ^ 32) }
    requires last { spec.IsOuterSeat marks.now last }
    ensures seat { result ≡ spec.outer_seat_of marks.now row.now pick.now }
    ensures last { spec.IsOuterSeat marks.now result }
{
    match row.outer {
        None => None,
        Some(group) => match pick.outer {
            None => None,
            Some(element) => Some(seat_again(marks, group, element, last)),
        },
    }
}

fn inner_seat(marks: &[Mark], row: &Row, pick: &Picked) -> Option<Seated>
    requires order { rises marks.now ≡ true }
    requires few { ForSome pick.now.inner (λ n. n + 1 < 2 ^ 32) }
    ensures { result ≡ spec.inner_seat_of marks.now row.now pick.now }
{
    match row.inner {
        None => None,
        Some(group) => match pick.outer {
            None => None,
            Some(around) => match pick.inner {
                None => None,
                Some(element) => Some(seat_at(marks, around.number(), group, element)),
            },
        },
    }
}

/// A pick with the occurrences in which it stands.
fn seated(
    rows: &[Row],
    outers: &[Mark],
    inners: &[Mark],
    pick: &Picked,
    last: Option<Seated>,
) -> PlacedPick
    requires row { IsRowed (length rows.now) pick.now }
    requires outers { rises outers.now ≡ true }
    requires inners { rises inners.now ≡ true }
    requires last { spec.IsOuterSeat outers.now last }
    ensures seat { result ≡ spec.seated rows.now outers.now inners.now pick.now }
    ensures last { spec.IsOuterSeat outers.now result.outer }
{
    let row = row_of(rows, pick);
    PlacedPick {
        node: pick.node,
        row: pick.row,
        outer: outer_seat(outers, row, pick, last),
        inner: inner_seat(inners, row, pick),
    }
}

fn outer_of(seat: &PlacedPick) -> Option<Seated>
    ensures { result ≡ seat.now.outer }
{
    seat.outer
}

/// Puts a pick behind the others with the occurrences in which it stands, and answers the one of the outer group.
fn add_seat(
    rows: &[Row],
    outers: &[Mark],
    inners: &[Mark],
    pick: &Picked,
    last: Option<Seated>,
    seats: &mut Vec<PlacedPick>,
) -> Result<Option<Seated>, AllocError>
    requires row { IsRowed (length rows.now) pick.now }
    requires outers { rises outers.now ≡ true }
    requires inners { rises inners.now ≡ true }
    requires last { spec.IsOuterSeat outers.now last }
    ensures added { OnOk result (seats.new.items ≡ seats.old.items ++ spec.seated rows.now outers.now inners.now pick.now ∷ []) }
    ensures last { IfOk result (λ seat. spec.IsOuterSeat outers.now seat) }
{
    let seat = seated(rows, outers, inners, pick, last);
    let outer = outer_of(&seat);
    seats.push(seat)?;
    Ok(outer)
}

/// The picks with the occurrences of groups in which they stand.
pub(crate) fn all_seated(
    alloc: Global,
    rows: &[Row],
    picks: &[Picked],
) -> Result<Vec<PlacedPick>, AllocError>
    requires { AreRowed (length rows.now) picks.now }
    ensures { IfOk result (λ seats. IsSeated rows.now picks.now seats.items) }
{
    let outers = outer_marks(alloc, rows, picks)?;
    let inners = inner_marks(alloc, rows, picks)?;
    let mut seats = Vec::with_capacity(alloc, picks.len())?;
    let mut last = None;
    'picks: for pick in picks {
        last = add_seat(
            rows,
            outers.as_slice(),
            inners.as_slice(),
            pick,
            last,
            &mut seats,
        )?;
    }
    Ok(seats)
}
