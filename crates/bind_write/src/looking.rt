//! Values looked up among entries.
ghost use Rattle.std.specs.Prelude.{◌≡◌, map, option_copied};
ghost use Rattle.term_table.specs.Runs.{IsInOrder};
ghost use Rattle.inv_terms.specs.Listing as spec;

use inv_terms::{Entry, Value, value_in};
use term_table::{Context, Term};

/// How many entries are looked at one by one before all are halved. Most occurrences of a group have fewer, and among the entries of
/// the whole invoice its own terms stand first.
const ONE_BY_ONE: usize = 24;

fn is_at(e: &Entry, term: Term, context: Context) -> bool
    ensures { result ≡ spec.is_at term context e.now }
{
    e.term.is_same(term) && e.context.is_same(context)
}

/// The value of a term in a context, of entries that are looked at one by one.
fn first_value(entries: &[Entry], term: Term, context: Context) -> Option<&Value>
    ensures { option_copied result ≡ spec.value_in entries.now term context }
{
    'entries: for e in entries {
        if is_at(e, term, context) {
            return Some(&e.value);
        }
    }
    None
}

/// The value of a term in a context, of entries in listing order.
pub(crate) fn value_of(entries: &[Entry], term: Term, context: Context) -> Option<&Value>
    requires { IsInOrder (map spec.seat_of entries.now) }
    ensures { option_copied result ≡ spec.value_in entries.now term context }
{
    if entries.len() <= ONE_BY_ONE {
        return first_value(entries, term, context);
    }
    let (front, _) = entries.split_at(ONE_BY_ONE);
    match first_value(front, term, context) {
        Some(value) => Some(value),
        None => value_in(entries, term, context),
    }
}
