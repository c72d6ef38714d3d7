ghost use Rattle.std.specs.Prelude.{◌≡◌, ◌&&◌, ◌||◌, ◌==◌, ◌+◌, nat_le, Some, option_copied};
ghost use Rattle.inv_terms.specs.Listing as spec;
ghost use Rattle.inv_terms.specs.LastEntry.{outer_behind, inner_behind, is_next_behind};

use crate::entries::Entry;
use term_table::{Context, Group, Slot, place_of};

/// Why an entry may not be added to an invoice.
#[derive(Clone, Copy)]
pub(crate) enum Refusal {
    /// It isn't listed behind the last one.
    OutOfOrder,
    /// Its term has no such context, or an index is neither the last nor the next.
    BadContext,
}

// Whether the term of the entry has such a context.
fn is_placed(e: &Entry) -> bool
    ensures { result ≡ spec.is_placed e.now }
{
    place_of(e.term, e.context).is_some()
}

fn comes_before(a: &Entry, b: &Entry) -> bool
    ensures { result ≡ spec.comes_before a.now b.now }
{
    match (place_of(a.term, a.context), place_of(b.term, b.context)) {
        (Some(a), Some(b)) => a.precedes(b),
        (Some(_), None) => false,
        (None, _) => false,
    }
}

/// The number of the slot, if it is one of that group, and else 0.
pub fn index_in(group: Group, slot: Option<Slot>) -> u32
    ensures { result ≡ spec.index_in group slot }
{
    match slot {
        Some(slot) => {
            if slot.group.is_same(group) {
                slot.index
            } else {
                0
            }
        }
        None => 0,
    }
}

// Whether the number is that of the last occurrence or the next one.
fn is_last_or_next(last: u32, index: u32) -> bool
    ensures { result ≡ (nat_le 1 index && ((index == last) || (index == last + 1))) }
{
    1 <= index && (index == last || index - 1 == last)
}

fn is_next_outer(last: Option<&Entry>, context: Context) -> bool
    ensures { result ≡ spec.is_last_or_next (outer_behind (option_copied last.entry)) context.outer }
{
    match (context.outer, last) {
        (None, _) => true,
        (Some(slot), None) => is_last_or_next(0, slot.index),
        (Some(slot), Some(last)) => is_last_or_next(
            index_in(slot.group, last.context.outer),
            slot.index,
        ),
    }
}

// The number of the last occurrence of a group in the outer slot of a context.
fn inner_behind(last: &Entry, context: Context, group: Group) -> u32
    ensures { result ≡ inner_behind (Some last.now) context group }
{
    if last.context.has_same_outer(context) {
        index_in(group, last.context.inner)
    } else {
        0
    }
}

fn is_next_inner(last: Option<&Entry>, context: Context) -> bool
    ensures { result ≡ spec.is_last_or_next (inner_behind (option_copied last.entry) context) context.inner }
{
    match (context.inner, last) {
        (None, _) => true,
        (Some(slot), None) => is_last_or_next(0, slot.index),
        (Some(slot), Some(last)) => is_last_or_next(
            inner_behind(last, context, slot.group),
            slot.index,
        ),
    }
}

// Whether the occurrences of the context are the last ones or the next ones, as the last entry shows.
fn is_next_behind(last: Option<&Entry>, context: Context) -> bool
    ensures { result ≡ is_next_behind (option_copied last.entry) context }
{
    is_next_outer(last, context) && is_next_inner(last, context)
}

fn last_entry(entries: &[Entry]) -> Option<&Entry>
    ensures { option_copied result ≡ spec.last_entry entries.now }
{
    entries.last()
}

fn is_behind(last: Option<&Entry>, e: &Entry) -> bool
    ensures { result ≡ spec.is_behind_last (option_copied last.entry) e.now }
{
    match last {
        Some(last) => comes_before(last, e),
        None => true,
    }
}

/// Why the entry may not be added behind the others, if so. It looks at the last of them alone.
pub(crate) fn why_refused(entries: &[Entry], e: &Entry) -> Option<Refusal>
    requires { spec.IsInvoice entries.now }
    ensures { result ≡ spec.refusal entries.now e.now }
{
    if !is_placed(e) {
        return Some(Refusal::BadContext);
    }
    let last = last_entry(entries);
    if !is_behind(last, e) {
        return Some(Refusal::OutOfOrder);
    }
    if is_next_behind(last, e.context) {
        None
    } else {
        Some(Refusal::BadContext)
    }
}
