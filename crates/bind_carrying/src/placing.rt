//! Entries of terms that a user added, and the rows that carry them.
ghost use Rattle.std.specs.Prelude.{◌≡◌};
ghost use Rattle.std.specs.List.{list_any};
ghost use Rattle.bind_meaning.specs.Picks.{has_term};
ghost use Rattle.bind_carrying.specs.Carrying as spec;

use crate::carrying::NotCarried;
use bind_rows::{Content, Form, Row, data_type_of_form, is_added, is_same_or_none};
use bind_write::is_of_type;
use inv_terms::{Entry, Invoice, Value};
use term_table::{Context, Group, Term};

fn is_of_term(term: Term, row: &Row) -> bool
    ensures { result ≡ has_term term row.now }
{
    match row.content {
        Content::Term(own) => own.is_same(term),
        Content::Constant(_) => false,
    }
}

/// Whether the context is one of occurrences of the row's groups.
fn has_groups(row: &Row, context: Context) -> bool
    ensures { result ≡ spec.has_groups row.now context }
{
    is_same_or_none(row.outer, context.outer_group())
        && is_same_or_none(row.inner, context.inner_group())
}

/// Whether the form says a type itself, and it is the value's.
fn says_type(form: Form, value: &Value) -> bool
    ensures { result ≡ spec.says_type form value.now }
{
    match data_type_of_form(form) {
        None => false,
        Some(data_type) => is_of_type(data_type, value),
    }
}

/// Whether a user added the row for the entry's term, in its groups and with its type.
fn is_row_of(e: &Entry, row: &Row) -> bool
    ensures { result ≡ spec.is_row_of e.now row.now }
{
    is_added(row)
        && is_of_term(e.term, row)
        && has_groups(row, e.context)
        && says_type(row.form, &e.value)
}

fn has_row(e: &Entry, rows: &[Row]) -> bool
    ensures { result ≡ list_any (spec.is_row_of e.now) rows.now }
{
    'rows: for row in rows {
        if is_row_of(e, row) {
            return true;
        }
    }
    false
}

/// Whether the entry is of a term that a user added, and the table has no row of it.
fn is_unplaced(rows: &[Row], e: &Entry) -> bool
    ensures { result ≡ spec.is_unplaced rows.now e.now }
{
    e.term.is_extension() && !has_row(e, rows)
}

/// The first entry of a term that a user added, of which the table has no row.
pub(crate) fn first_unplaced(i: &Invoice, rows: &[Row]) -> Option<NotCarried>
    ensures { result ≡ spec.first_unplaced rows.now i.now }
{
    let entries = i.entries();
    'entries: for e in entries {
        if is_unplaced(rows, e) {
            return Some(NotCarried {
                condition: 9,
                term: Some(e.term),
            });
        }
    }
    None
}
