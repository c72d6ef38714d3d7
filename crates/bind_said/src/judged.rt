//! Rows with whose values an attribute of the element is judged.

ghost use Rattle.std.specs.Prelude.{◌≡◌};
ghost use Rattle.bind_meaning.specs.Picks as picks;
ghost use Rattle.bind_meaning.specs.Said as said;
ghost use Rattle.bind_said.specs.Judged as spec;

use bind_meaning::{form_for, type_of};
use bind_rows::{Content, Form, Row};
use term_table::{DataType, Term};

/// The term of a row, if it has one.
pub(crate) fn term_in(row: &Row) -> Option<Term>
    ensures { result ≡ picks.term_in row.now.content }
{
    match row.content {
        Content::Term(term) => Some(term),
        Content::Constant(_) => None,
    }
}

/// Whether the row's term is an amount.
pub(crate) fn is_of_amount(row: &Row) -> bool
    ensures { result ≡ said.is_of_amount row.now }
{
    match term_in(row) {
        None => false,
        Some(term) => is_amount(type_of(form_for(row.form, term), term)),
    }
}

fn is_amount(data_type: Option<DataType>) -> bool
    ensures { result ≡ spec.is_amount data_type }
{
    matches!(data_type, Some(DataType::A))
}

/// Whether the row is one of a date without dashes that a user added.
pub(crate) fn is_of_added_date(row: &Row) -> bool
    ensures { result ≡ said.is_of_added_date row.now }
{
    matches!(row.form, Form::TypedPlainDate)
}
