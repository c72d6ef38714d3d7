//! Faults by the elements at which they stand.
ghost use Rattle.std.specs.Prelude.{◌≡◌};
ghost use Rattle.schematron_expansion.specs.Found as spec;

use schematron_meaning::Fault;

/// A fault, with the number of the element at which it stands: the one by which faults are ordered. It may be another
/// than the one that the fault tells.
#[derive(Clone, Copy)]
pub struct Found {
    pub at: u32,
    pub fault: Fault,
}

/// The one of two that stands at the element before the other's; at one element the first.
pub fn sooner(a: Option<Found>, b: Option<Found>) -> Option<Found>
    ensures { result ≡ spec.sooner a b }
{
    match a {
        Some(first) => sooner_than(first, b),
        None => b,
    }
}

fn sooner_than(first: Found, other: Option<Found>) -> Option<Found>
    ensures { result ≡ spec.sooner_than first other }
{
    match other {
        Some(second) => Some(sooner_of(first, second)),
        None => Some(first),
    }
}

fn sooner_of(first: Found, second: Found) -> Found
    ensures { result ≡ spec.sooner_of first second }
{
    if first.at <= second.at { first } else { second }
}
