//! The types of terms, and the forms in which their values are written.
ghost use Rattle.std.specs.Prelude.{◌≡◌};
ghost use Rattle.bind_meaning.specs.Values as spec;

use bind_rows::{Form, data_type_of_form};
use term_table::{DataType, Term, data_type_of};

/// The form in which a row writes the values of a term: its own, or that of the model where its own isn't one for the
/// term.
pub fn form_for(form: Form, term: Term) -> Form
    ensures { result ≡ spec.form_for form term }
{
    if suits(form, term) { form } else { Form::Model }
}

/// The type of the values of a term that stands in this form: that of the form, if it says one itself.
pub fn type_of(form: Form, term: Term) -> Option<DataType>
    ensures { result ≡ spec.type_of form term }
{
    match data_type_of_form(form) {
        Some(data_type) => Some(data_type),
        None => data_type_of(term),
    }
}

// Whether the form is one for the term: a day without dashes for a term of that type, BT-8 by UNTDID 2475, BT-22 behind
// its subject code, a type of its own for a term that a user added.
fn suits(form: Form, term: Term) -> bool
    ensures { result ≡ spec.suits form term }
{
    match form {
        Form::Model => true,
        Form::PlainDate => matches!(data_type_of(term), Some(DataType::D)),
        Form::DueDateTypeCode => is_term(8, term),
        Form::CodedNote => is_term(22, term),
        Form::Typed(data_type) => term.is_extension() && !matches!(data_type, DataType::B),
        Form::TypedPlainDate => term.is_extension(),
    }
}

fn is_term(number: u16, term: Term) -> bool
    ensures { result ≡ spec.is_term number term }
{
    term.number == number && term.part == 0
}
