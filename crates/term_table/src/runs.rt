ghost use Rattle.std.specs.Prelude.{◌≡◌, ◌<◌, ◌≤◌, ◌-◌, true, false, length, filter, map};
ghost use Rattle.std.specs.List.{HoldsAt};
ghost use Rattle.std.specs.List.Sorted.{IsPartitionedBy, IsPartitionPoint};
ghost use Rattle.term_table.specs.Contexts.{is_inside};
ghost use Rattle.term_table.specs.Runs.{IsInOrder, IsNested};
ghost use Rattle.term_table.specs.Places as places;
ghost use Rattle.term_table.specs.Starts as starts;

use crate::contexts::{Context, Seat, Slot};
use crate::places::{first_row, place_of};

/// What stands at a seat: an entry of an invoice, or what a reader found for one.
pub trait Seated {
    ghost use Rattle.term_table.specs.declared.contexts.Seat.{Seat};

    ghost seat_of: { Self → Seat };

    /// The term and the context that it has.
    fn seat(&self) -> Seat
        ensures { result ≡ seat_of self.now };
}

impl Seated for Seat {
    ghost seat_of = { λ seat. seat };

    fn seat(&self) -> Seat {
        *self
    }
}

fn stands_before(context: Context, seat: Seat) -> bool
    ensures { result ≡ starts.stands_before context seat }
{
    match place_of(seat.term, seat.context) {
        Some(place) => place.is_before(context),
        None => false,
    }
}

/// The same, where the seat has a place. Most seats are told by their outer slots, without a look at their rows.
fn stands_ahead(context: Context, seat: Seat) -> bool
    ensures { result ≡ starts.stands_ahead context seat }
{
    match context.outer {
        None => stands_before(context, seat),
        Some(outer) => match seat.context.outer {
            None => stands_before(context, seat),
            Some(slot) => stands_ahead_of(outer, slot, context, seat),
        },
    }
}

fn stands_ahead_of(outer: Slot, slot: Slot, context: Context, seat: Seat) -> bool
    ensures { result ≡ starts.by_starts (places.first_row slot.group) slot.index (places.first_row outer.group) outer.index
        (starts.stands_before context seat) }
{
    let own = first_row(slot.group);
    let other = first_row(outer.group);
    if own < other {
        return true;
    }
    if other < own {
        return false;
    }
    if slot.index < outer.index {
        return true;
    }
    if outer.index < slot.index {
        return false;
    }
    stands_before(context, seat)
}

/// Seats of a list that stand together.
#[derive(Drop)]
pub struct Run<'s, T> {
    pub seats: &'s [T],
    /// How many of the list stand before them and among them.
    pub end: usize,
}

/// How many of the first seats stand in the context or in one inside it, where none behind those does.
fn len_inside<T: Seated>(seats: &[T], context: Context) -> usize
    requires { IsPartitionedBy (λ item. is_inside context (T.seat_of item).context) seats.now }
    ensures bound { result ≤ length seats.now }
    ensures point { IsPartitionPoint (λ item. is_inside context (T.seat_of item).context ≡ true)
        (λ item. is_inside context (T.seat_of item).context ≡ false) seats.now result }
{
    'seats: for (k, item) in seats.iter().enumerate() {
        if !context.is_around(item.seat().context) {
            return k;
        }
    }
    seats.len()
}

/// Whether the seat before a place stands ahead of the context, or there is none.
fn is_behind_ahead<T: Seated>(seats: &[T], context: Context, place: usize) -> bool
    requires { place ≤ length seats.now }
    ensures { result ≡ true → 0 < place → HoldsAt (λ item. starts.stands_ahead context (T.seat_of item) ≡ true) seats.now (place - 1) }
{
    if place == 0 {
        return true;
    }
    stands_ahead(context, seats[place - 1].seat())
}

/// Whether the seat at a place doesn't stand ahead of the context, or there is none.
fn is_not_ahead<T: Seated>(seats: &[T], context: Context, place: usize) -> bool
    requires { place ≤ length seats.now }
    ensures { result ≡ true → place < length seats.now → HoldsAt (λ item. starts.stands_ahead context (T.seat_of item) ≡ false) seats.now place }
{
    if place == seats.len() {
        return true;
    }
    !stands_ahead(context, seats[place].seat())
}

/// Whether the seats before a place stand ahead of the context and those from there on don't, where none does behind one that doesn't.
fn begins_at<T: Seated>(seats: &[T], context: Context, place: usize) -> bool
    requires { IsPartitionedBy (λ item. starts.stands_ahead context (T.seat_of item)) seats.now }
    ensures bound { result ≡ true → place ≤ length seats.now }
    ensures point { result ≡ true → IsPartitionPoint (λ item. starts.stands_ahead context (T.seat_of item) ≡ true)
        (λ item. starts.stands_ahead context (T.seat_of item) ≡ false) seats.now place }
{
    if seats.len() < place {
        return false;
    }
    if !is_behind_ahead(seats, context, place) {
        return false;
    }
    is_not_ahead(seats, context, place)
}

/// How many seats stand ahead of the context. It is looked for at a place first, and else found by halving.
fn count_ahead<T: Seated>(seats: &[T], context: Context, place: usize) -> usize
    requires { IsPartitionedBy (λ item. starts.stands_ahead context (T.seat_of item)) seats.now }
    ensures bound { result ≤ length seats.now }
    ensures point { IsPartitionPoint (λ item. starts.stands_ahead context (T.seat_of item) ≡ true)
        (λ item. starts.stands_ahead context (T.seat_of item) ≡ false) seats.now result }
{
    if begins_at(seats, context, place) {
        return place;
    }
    seats.partition_point(|item| stands_ahead(context, item.seat()))
}

/// The seats in a context and in those inside it, of seats in listing order: a run of them. It is looked for at a place first, as
/// behind the run of the context before, and else found by halving.
pub fn run_near<T: Seated>(seats: &[T], context: Context, place: usize) -> Run<'_, T>
    requires order { IsInOrder (map T.seat_of seats.now) }
    requires context { IsNested context }
    ensures run { result.seats.now ≡ filter (λ item. is_inside context (T.seat_of item).context) seats.now }
{
    let first = count_ahead(seats, context, place);
    let (_, behind) = seats.split_at(first);
    let len = len_inside(behind, context);
    let (run, _) = behind.split_at(len);
    Run {
        seats: run,
        end: first + len,
    }
}

/// The same run, found by halving.
pub fn run_in<T: Seated>(seats: &[T], context: Context) -> &[T]
    requires order { IsInOrder (map T.seat_of seats.now) }
    requires context { IsNested context }
    ensures { result.now ≡ filter (λ item. is_inside context (T.seat_of item).context) seats.now }
{
    run_near(seats, context, 0).seats
}
