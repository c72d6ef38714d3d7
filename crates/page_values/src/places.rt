ghost use Rattle.std.specs.Prelude.{◌≡◌, option_copied, is_some};
ghost use Rattle.inv_terms.specs.Listing as listing;
ghost use Rattle.page_values.specs.Places as spec;
ghost use Rattle.page_values.specs.Seen.{IsPlace, index_inside, seen};

use inv_terms::{Counts, Entry, Value, index_in, value_in};
use term_table::{Context, Group, Slot, Term, run_in};

/// Where items stand: in the invoice itself, or in an occurrence of a group.
#[derive(Clone, Copy)]
pub struct Place<'a> {
    /// The entries of the invoice, or those in the occurrence and inside it.
    pub entries: &'a [Entry],
    /// Whose context it is: none of a slot is the invoice itself.
    pub context: Context,
    /// How many bytes are attached to each supporting document (BG-24), where they are base64.
    pub sizes: &'a [Option<usize>],
    /// How many occurrences groups have in the invoice.
    pub counts: &'a Counts,
}

/// The value of a term in a place. In the invoice itself it is found by halving.
pub fn value_at<'a>(place: &Place<'a>, term: Term) -> Option<&'a Value>
    requires { IsPlace place.now }
    ensures { option_copied result ≡ spec.value_at (seen place.now) term }
{
    match place.context.outer {
        None => value_in(place.entries, term, place.context),
        Some(_) => value_among(place.entries, term, place.context),
    }
}

/// The same of few entries, one by one.
fn value_among(entries: &[Entry], term: Term, context: Context) -> Option<&Value>
    ensures { option_copied result ≡ listing.value_in entries.now term context }
{
    'entries: for e in entries {
        if is_at(e, term, context) {
            return Some(&e.value);
        }
    }
    None
}

fn is_at(e: &Entry, term: Term, context: Context) -> bool
    ensures { result ≡ listing.is_at term context e.now }
{
    e.term.is_same(term) && e.context.is_same(context)
}

/// Whether a term has a value in a place.
pub fn has_value(place: &Place<'_>, term: Term) -> bool
    requires { IsPlace place.now }
    ensures { result ≡ is_some (spec.value_at (seen place.now) term) }
{
    value_at(place, term).is_some()
}

/// How many occurrences a group has in a place.
pub fn count_in(place: &Place<'_>, group: Group) -> u32
    requires { IsPlace place.now }
    ensures { result ≡ spec.count_in (seen place.now) group }
{
    match place.context.outer {
        None => place.counts.last(group),
        Some(outer) => last_inner(place.entries, outer, group),
    }
}

/// The number of the last occurrence of a group in an outer one, 0 where there is none.
fn last_inner(entries: &[Entry], outer: Slot, group: Group) -> u32
    ensures { result ≡ listing.last_inner entries.now (Some outer) group }
{
    let mut last = 0;
    'entries: for e in entries {
        last = last.max(index_inside(e.context, outer, group));
    }
    last
}

/// The number of the occurrence of a group in which an entry of that context stands inside an outer one, 0 where it stands in none.
fn index_inside(context: Context, outer: Slot, group: Group) -> u32
    ensures { result ≡ index_inside context (Some outer) group }
{
    let around = Context {
        outer: Some(outer),
        inner: None,
    };
    if context.has_same_outer(around) {
        index_in(group, context.inner)
    } else {
        0
    }
}

fn context_inside(context: Context, inside: Slot) -> Context
    ensures { result ≡ spec.context_inside context inside }
{
    match context.outer {
        None => Context {
            outer: Some(inside),
            inner: None,
        },
        Some(outer) => Context {
            outer: Some(outer),
            inner: Some(inside),
        },
    }
}

/// An occurrence of a group in a place, by its number.
pub fn occurrence<'a>(place: &Place<'a>, group: Group, k: u32) -> Place<'a>
    requires { IsPlace place.now }
    ensures seen { seen result ≡ spec.occurrence (seen place.now) group k }
    ensures place { IsPlace result }
{
    let context = context_inside(place.context, Slot { group, index: k });
    Place {
        entries: run_in(place.entries, context),
        context,
        sizes: place.sizes,
        counts: place.counts,
    }
}

/// How many bytes are attached in the place, where they are base64.
pub(crate) fn size_at(place: &Place<'_>) -> Option<usize>
    ensures { result ≡ spec.size_at (seen place.now) }
{
    match place.context.outer {
        None => None,
        Some(outer) => size_of_number(place.sizes, outer.index),
    }
}

fn size_of_number(sizes: &[Option<usize>], number: u32) -> Option<usize>
    ensures { result ≡ spec.size_of_number sizes.now number }
{
    match sizes.get(number.saturating_sub(1) as usize) {
        Some(size) => *size,
        None => None,
    }
}
