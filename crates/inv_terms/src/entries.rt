use crate::values::Value;
use term_table::{Context, Seat, Seated, Term};

/// A business term with its value.
#[derive(Drop)]
pub struct Entry {
    /// Where the term stands.
    pub context: Context,
    pub term: Term,
    pub value: Value,
}

impl Seated for Entry {
    ghost use Rattle.inv_terms.specs.Listing.{seat_of};

    ghost seat_of = { seat_of };

    fn seat(&self) -> Seat {
        Seat {
            term: self.term,
            context: self.context,
        }
    }
}
