//! What the first pick of each term in each context said.
use inv_terms::Value;
use ordered_map::{Keyed, OrderedMap};
use term_table::{Context, ListingPlace, Seat, Seated, Term, place_at};

/// What a pick said, in its context, with the row that the term has there in the semantic model. Documents have one for each
/// value, so its fields lie in an order that leaves no room between them.
#[derive(Drop)]
pub(crate) struct First {
    pub(crate) context: Context,
    pub(crate) row: u32,
    pub(crate) term: Term,
    /// None where the string is no value of the term.
    pub(crate) value: Option<Value>,
}

/// What the first pick of each term in each context said, by the place of the term there in listing order. Documents mostly
/// tell terms in that order.
pub(crate) type Firsts = OrderedMap<ListingPlace, First>;

impl Seated for First {
    ghost use Rattle.bind_terms.specs.Telling.{seat_of_first};

    ghost seat_of = { seat_of_first };

    fn seat(&self) -> Seat {
        Seat {
            term: self.term,
            context: self.context,
        }
    }
}

impl Keyed<ListingPlace> for First {
    ghost use Rattle.bind_terms.specs.Telling.{place_of_first};

    ghost key_of = { place_of_first };

    fn key(&self) -> ListingPlace {
        place_at(self.row as usize, self.context)
    }
}
