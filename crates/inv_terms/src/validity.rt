ghost use Rattle.std.specs.Prelude.{◌≡◌, [], ◌∷◌, None, fold, map, if◌then◌else◌};
ghost use Rattle.std.specs.List.{prefix_len, take_while};
ghost use Rattle.term_table.specs.Contexts.{is_inside, outer_context, same_slot};
ghost use Rattle.inv_terms.specs.Listing.{IsInvoice, seat_of};
ghost use Rattle.inv_terms.specs.Lacking.{first_missing};
ghost use Rattle.inv_terms.specs.Opened.{opened_missing};
ghost use Rattle.inv_terms.specs.Validity as spec;

use crate::missing::first_missing;
use crate::violations::{ModelViolation, TermFault};
use crate::{Entry, Invoice, Value};
use code_lists::{CodeLists, List};
use term_table::{Context, ROOT, Term, list_in, place_of};

// The earlier of two lacks.
fn earlier(first: Option<ModelViolation>, other: Option<ModelViolation>) -> Option<ModelViolation>
    ensures { result ≡ spec.earlier first other }
{
    match (first, other) {
        (None, other) => other,
        (Some(first), None) => Some(first),
        (Some(first), Some(other)) => {
            if other.place.precedes(first.place) {
                Some(other)
            } else {
                Some(first)
            }
        }
    }
}

fn front_len(entries: &[Entry], context: Context) -> usize
    ensures { result ≡ prefix_len (λ e. is_inside context e.context) entries.now }
{
    entries
        .iter()
        .take_while(|e| context.is_around(e.context))
        .count()
}

// The entries at the front that stand in the context or inside it.
fn front_of(entries: &[Entry], context: Context) -> &[Entry]
    ensures { result.now ≡ take_while (λ e. is_inside context e.context) entries.now }
{
    &entries[..front_len(entries, context)]
}

fn missing_in_front(rest: &[Entry], context: Context) -> Option<ModelViolation>
    ensures { result ≡ first_missing (map seat_of (take_while (λ e. is_inside context e.context) rest.now)) context }
{
    first_missing(front_of(rest, context), context)
}

fn opens_outer(before: Context, context: Context) -> bool
    ensures { result ≡ spec.opens_outer before context }
{
    !before.has_same_outer(context) && context.outer.is_some()
}

fn opens_inner(before: Context, context: Context) -> bool
    ensures { result ≡ spec.opens_inner before context }
{
    !before.is_same(context) && context.inner.is_some()
}

// The first lack so far and those of the contexts that begin with the rest of the entries.
fn with_outer(
    rest: &[Entry],
    before: Context,
    context: Context,
    first: Option<ModelViolation>,
) -> Option<ModelViolation>
    ensures { result ≡ fold spec.earlier first (map (opened_missing rest.now) (if spec.opens_outer before context then outer_context context ∷ [] else [])) }
{
    if opens_outer(before, context) {
        earlier(first, missing_in_front(rest, context.without_inner()))
    } else {
        first
    }
}

fn with_inner(
    rest: &[Entry],
    before: Context,
    context: Context,
    first: Option<ModelViolation>,
) -> Option<ModelViolation>
    ensures { result ≡ fold spec.earlier first (map (opened_missing rest.now) (if spec.opens_inner before context then context ∷ [] else [])) }
{
    if opens_inner(before, context) {
        earlier(first, missing_in_front(rest, context))
    } else {
        first
    }
}

// The first lack of all contexts.
fn earliest_missing(entries: &[Entry]) -> Option<ModelViolation>
    requires { IsInvoice entries.now }
    ensures { result ≡ fold spec.earlier None (map (spec.missing_in entries.now) (spec.contexts entries.now)) }
{
    let mut first = first_missing(entries, ROOT);
    let mut before = ROOT;
    let mut rest = entries;
    'entries: while let Some((e, behind)) = rest.split_first() {
        let outer = with_outer(rest, before, e.context, first);
        first = with_inner(rest, before, e.context, outer);
        before = e.context;
        rest = behind;
    }
    first
}

fn list_of(term: Term, context: Context) -> Option<List>
    ensures { result ≡ spec.list_of term context }
{
    list_in(term, context.outer_group(), context.inner_group())
}

/// Whether the value is a code that isn't in the list, if there is one.
pub fn is_outside(lists: &CodeLists, list: Option<List>, value: &Value) -> bool
    ensures { result ≡ spec.is_outside lists.now list (spec.code_in value.now) }
{
    match list {
        None => false,
        Some(list) => match value {
            Value::Code(code) => !lists.allows(list, code.as_str()),
            Value::Text(_) => false,
            Value::Identifier(_) => false,
            Value::Amount(_) => false,
            Value::Quantity(_) => false,
            Value::Percent(_) => false,
            Value::Date(_) => false,
            Value::Base64(_) => false,
        },
    }
}

/// Whether the entry's value is a code that isn't in its term's list.
pub fn is_unlisted(lists: &CodeLists, e: &Entry) -> bool
    ensures { result ≡ spec.is_unlisted lists.now e.now }
{
    is_outside(lists, list_of(e.term, e.context), &e.value)
}

// The lack of an entry, whose code isn't in its list.
fn unlisted(lists: &CodeLists, e: &Entry) -> Option<ModelViolation>
    ensures { result ≡ spec.unlisted lists.now e.now }
{
    if !is_unlisted(lists, e) {
        return None;
    }
    match place_of(e.term, e.context) {
        Some(place) => Some(ModelViolation {
            place,
            fault: TermFault::CodeNotListed(e.term),
        }),
        None => None,
    }
}

// The first lack so far and those of the entries' codes.
fn with_unlisted(
    entries: &[Entry],
    lists: &CodeLists,
    so_far: Option<ModelViolation>,
) -> Option<ModelViolation>
    ensures { result ≡ fold spec.earlier so_far (map (spec.unlisted lists.now) entries.now) }
{
    let mut first = so_far;
    'entries: for e in entries {
        first = earlier(first, unlisted(lists, e));
    }
    first
}

/// The first lack of an invoice in listing order: a term or a group that is mandatory and isn't there, or a code that
/// isn't in its list. Takes time in proportion to the invoice.
pub fn check(i: &Invoice, lists: &CodeLists) -> Result<(), TermFault>
    ensures { result ≡ spec.answer_of (spec.first_violation i.now lists.now) }
{
    let entries = i.entries();
    match with_unlisted(entries, lists, earliest_missing(entries)) {
        None => Ok(()),
        Some(violation) => Err(violation.fault),
    }
}
