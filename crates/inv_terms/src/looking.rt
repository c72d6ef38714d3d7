ghost use Rattle.std.specs.Prelude.{◌≡◌, true, false, map, option_copied, slice_get};
ghost use Rattle.std.specs.List.Sorted.{IsPartitionPoint};
ghost use Rattle.term_table.specs.Runs.{IsInOrder};
ghost use Rattle.inv_terms.specs.Listing as spec;
ghost use Rattle.inv_terms.specs.Looking.{stands_ahead};

use crate::entries::Entry;
use crate::values::Value;
use term_table::{Context, ListingPlace, Term, place_of};

fn stands_ahead(e: &Entry, place: ListingPlace) -> bool
    ensures { result ≡ stands_ahead place e.now }
{
    match place_of(e.term, e.context) {
        Some(other) => other.precedes(place),
        None => false,
    }
}

fn is_at(e: &Entry, term: Term, context: Context) -> bool
    ensures { result ≡ spec.is_at term context e.now }
{
    e.term.is_same(term) && e.context.is_same(context)
}

// How many entries stand ahead of the place.
fn count_ahead(run: &[Entry], place: ListingPlace) -> usize
    requires { IsInOrder (map spec.seat_of run.now) }
    ensures { IsPartitionPoint (λ e. stands_ahead place e ≡ true) (λ e. stands_ahead place e ≡ false) run.now result }
{
    run.partition_point(|e| stands_ahead(e, place))
}

fn entry_at(run: &[Entry], k: usize) -> Option<&Entry>
    ensures { option_copied result ≡ slice_get run.now k }
{
    run.get(k)
}

/// The value of a term in a context, of entries in listing order, such as a context's run of them. It is found by
/// halving.
pub fn value_in(run: &[Entry], term: Term, context: Context) -> Option<&Value>
    requires { IsInOrder (map spec.seat_of run.now) }
    ensures { option_copied result ≡ spec.value_in run.now term context }
{
    let place = match place_of(term, context) {
        Some(place) => place,
        None => return None,
    };
    match entry_at(run, count_ahead(run, place)) {
        Some(e) => {
            if is_at(e, term, context) {
                Some(&e.value)
            } else {
                None
            }
        }
        None => None,
    }
}
