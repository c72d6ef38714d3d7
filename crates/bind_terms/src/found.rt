//! Faults in their order.
ghost use Rattle.std.specs.Prelude.{◌≡◌, List, ℕ, Some, option_map};
ghost use Rattle.std.specs.Ordering.{nat_cmp, is_lt};
ghost use Rattle.std.specs.Cmp.Lexicographic.{slice_cmp};
ghost use Rattle.bind_meaning.specs.Judging as spec;
ghost use Rattle.bind_terms.specs.Faults.{found_of, place_of, spot_of, with_found};

use bind_meaning::{BindFault, BindKind};
use std::cmp::Ordering;
use term_table::ListingPlace;

/// Where a fault stands among others, but for its kind.
#[derive(Clone, Copy, PartialEq, Eq, PartialOrd, Ord)]
pub(crate) struct Spot {
    pub(crate) node: u32,
    pub(crate) side: Side,
}

/// At a node, or behind it.
#[derive(Clone, Copy, PartialEq, Eq, PartialOrd, Ord)]
pub(crate) enum Side {
    /// At the node, by the row.
    At { row: u32 },
    /// What is missing, behind the last node inside the element of its context: first in a context inside another
    /// (`around` is 2 less the number of its slots), then in listing order.
    Behind { around: u32, place: ListingPlace },
}

/// A fault with its spot. At a node it is ordered by the spot, then by the kind.
#[derive(Clone, Copy)]
pub(crate) struct Found {
    pub(crate) spot: Spot,
    pub(crate) fault: BindFault,
}

/// Law: spots are in the order of their numbers. The call does nothing.
pub(crate) fn spots_are_ordered()
    ensures { (a b : Spot) → ⟦<Spot as Ord>⟧.cmp a b ≡ slice_cmp nat_cmp (spot_of a) (spot_of b) }
{}

/// The first of a fault so far, if there is one, and another.
pub(crate) fn earlier(least: Option<Found>, other: Found) -> Found
    ensures { Some (found_of result) ≡ with_found (option_map found_of least) (found_of other) }
{
    match least {
        Some(first) => {
            if precedes(&other, &first) {
                other
            } else {
                first
            }
        }
        None => other,
    }
}

fn precedes(a: &Found, b: &Found) -> bool
    ensures { result ≡ is_lt (slice_cmp nat_cmp (found_of a.now).place (found_of b.now).place) }
{
    spots_are_ordered();
    match a.spot.cmp(&b.spot) {
        Ordering::Less => true,
        Ordering::Equal => has_earlier_kind(&a.spot, a.fault.kind, b.fault.kind),
        Ordering::Greater => false,
    }
}

/// Whether a kind of fault comes before another at one spot.
pub(crate) fn has_earlier_kind(spot: &Spot, kind: BindKind, other: BindKind) -> bool
    ensures { result ≡ is_lt (slice_cmp nat_cmp (place_of spot.now kind) (place_of spot.now other)) }
{
    match spot.side {
        Side::At { row: _ } => rank(kind) < rank(other),
        Side::Behind {
            around: _,
            place: _,
        } => false,
    }
}

// Where a kind stands among those of one node and row.
fn rank(kind: BindKind) -> u32
    ensures { result ≡ spec.rank kind }
{
    match kind {
        BindKind::UnknownRoot => 0,
        BindKind::Excess => 1,
        BindKind::ElementInValue => 2,
        BindKind::BadValue => 3,
        BindKind::CodeNotListed => 4,
        BindKind::CurrencyDiffers => 5,
        BindKind::Disagree => 6,
        BindKind::Missing => 7,
        BindKind::Memory => 8,
    }
}
