//! Values by the type of a term, dates without dashes, and BT-8 by UNTDID 2475.
ghost use Rattle.std.specs.Prelude.{◌≡◌, chars, IfOk};
ghost use Rattle.bind_meaning.specs.Values as spec;
ghost use Rattle.inv_terms.specs.declared.values.Value.TheVariants as values;

use inv_base::{Txt, is_same_text};
use inv_decimal::Day;
use inv_terms::{Value, trimmed};
use std::alloc::{AllocError, Global};
use term_table::{Term, data_type_of};

/// The value that a string has by the type of the term.
pub(crate) fn by_type(alloc: Global, term: Term, text: &str) -> Result<Option<Value>, AllocError>
    ensures { IfOk result (λ value. value ≡ spec.by_type term (chars text.now)) }
{
    match data_type_of(term) {
        Some(data_type) => Value::read(alloc, data_type, text),
        None => Ok(None),
    }
}

/// The date that a string `YYYYMMDD` says, with white space around it or none. Such a string has no character that XML 1.0
/// doesn't have, so none is looked for.
pub(crate) fn plain_date(text: &str) -> Option<Value>
    ensures { result ≡ spec.plain_date (chars text.now) }
{
    match Day::read_plain(trimmed(text)) {
        Some(day) => Some(Value::Date(day)),
        None => None,
    }
}

/// The code of BT-8 (UNTDID 2005) for one of UNTDID 2475, with white space around it or none.
pub(crate) fn due_date_type(alloc: Global, text: &str) -> Result<Option<Value>, AllocError>
    ensures { IfOk result (λ value. value ≡ spec.due_date_type (chars text.now)) }
{
    image_of(alloc, trimmed(text))
}

fn image_of(alloc: Global, written: &str) -> Result<Option<Value>, AllocError>
    ensures { IfOk result (λ value. value ≡ spec.image_among spec.images (chars written.now)) }
{
    if is_same_text("5", written) {
        return some_code(alloc, "3");
    }
    if is_same_text("29", written) {
        return some_code(alloc, "35");
    }
    if is_same_text("72", written) {
        return some_code(alloc, "432");
    }
    Ok(None)
}

fn some_code(alloc: Global, code: &str) -> Result<Option<Value>, AllocError>
    ensures { IfOk result (λ value. value ≡ Some (values.Code (chars code.now))) }
{
    Ok(Some(Value::Code(Txt::of(alloc, code)?)))
}
