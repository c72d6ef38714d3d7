//! What a string says by the form of a row.
ghost use Rattle.std.specs.Prelude.{◌≡◌, chars, IfOk};
ghost use Rattle.bind_meaning.specs.Values as spec;
ghost use Rattle.bind_terms.specs.ParsedValues.{all_parsed};

use crate::notes::note_of;
use crate::values::{by_type, due_date_type, plain_date};
use bind_meaning::form_for;
use bind_rows::Form;
use inv_terms::Value;
use std::alloc::{AllocError, Global};
use term_table::Term;

/// A value that a string says of a term. None where it is no value of the term.
#[derive(Drop)]
pub struct ParsedValue {
    pub term: Term,
    pub value: Option<Value>,
}

/// All that one string says: of one term, or of two, a note and the subject code in front of it.
#[derive(Drop)]
pub enum ParsedValues {
    One(ParsedValue),
    Two(ParsedValue, ParsedValue),
}

/// What the string says, by the form and the term of its row; a form that isn't one for the term counts for nothing. It
/// goes over the string a few times.
pub fn parse_values(
    alloc: Global,
    form: Form,
    term: Term,
    text: &str,
) -> Result<ParsedValues, AllocError>
    ensures { IfOk result (λ parsed_values. all_parsed parsed_values ≡ spec.parsed form term (chars text.now)) }
{
    match form_for(form, term) {
        Form::Model => Ok(ParsedValues::One(ParsedValue {
            term,
            value: by_type(alloc, term, text)?,
        })),
        Form::PlainDate => Ok(ParsedValues::One(ParsedValue {
            term,
            value: plain_date(text),
        })),
        Form::DueDateTypeCode => Ok(ParsedValues::One(ParsedValue {
            term,
            value: due_date_type(alloc, text)?,
        })),
        Form::CodedNote => note_of(alloc, text),
        Form::Typed(data_type) => Ok(ParsedValues::One(ParsedValue {
            term,
            value: Value::read(alloc, data_type, text)?,
        })),
        Form::TypedPlainDate => Ok(ParsedValues::One(ParsedValue {
            term,
            value: plain_date(text),
        })),
    }
}
