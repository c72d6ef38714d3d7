//! Which terms may stand among seats.
ghost use Rattle.std.specs.Prelude.{◌≡◌, map};
ghost use Rattle.inv_terms.specs.Presences as spec;

use term_table::{Seated, Term};

/// How many numbers of terms are told apart. Few that stand in no group of their own fall together with those of a line.
const NUMBERS: usize = 128;

/// Which terms may stand among seats: of each number, up to multiples of 128, whether some seat there has a term of such a
/// number. It tells of most terms that they don't stand there without a look at the seats.
#[derive(Clone, Copy)]
pub struct Presence {
    pub numbers: [bool; NUMBERS],
}

impl Presence {
    /// Any term may.
    pub fn of_any() -> Presence
        ensures any { spec.HasAny result }
    {
        Presence {
            numbers: [true; NUMBERS],
        }
    }

    /// The terms of these seats may, and none else but those whose numbers fall together with one of these.
    pub fn among<T: Seated>(seats: &[T]) -> Presence
        ensures known { spec.AreKnown result (map T.seat_of seats.now) }
        ensures only { (term : Term) → spec.may_have result term ≡ spec.has_number_of term (map T.seat_of seats.now) }
    {
        let mut numbers = [false; NUMBERS];
        'seats: for item in seats {
            numbers[place_of(item.seat().term)] = true;
        }
        Presence { numbers }
    }

    /// Whether the term may.
    pub fn may_have(&self, term: Term) -> bool
        ensures { result ≡ spec.may_have self.now term }
    {
        self.numbers[place_of(term)]
    }
}

fn place_of(term: Term) -> usize
    ensures { result ≡ spec.place_of term }
{
    term.number as usize % NUMBERS
}
