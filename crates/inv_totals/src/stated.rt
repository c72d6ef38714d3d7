//! What an invoice states.
ghost use Rattle.std.specs.Prelude.{◌≡◌, ◌∷◌, option_map, option_copied};
ghost use Rattle.inv_terms.specs.Listing.{value_in};
ghost use Rattle.inv_totals.specs.Totals as spec;

use inv_base::Txt;
use inv_decimal::{Dec, Scaled};
use inv_terms::{Entry, Invoice, Value};
use term_table::{Context, Term};

/// The term of that number in the standard.
pub(crate) fn term(number: u16) -> Term
    ensures { result ≡ spec.term number }
{
    Term { number, part: 0 }
}

fn number_in(value: &Value) -> Option<Scaled>
    ensures { result ≡ spec.number_in value.now }
{
    match value {
        Value::Amount(number) => Some(*number),
        Value::Quantity(number) => Some(*number),
        Value::Percent(number) => Some(*number),
        Value::Text(_) => None,
        Value::Identifier(_) => None,
        Value::Code(_) => None,
        Value::Date(_) => None,
        Value::Base64(_) => None,
    }
}

fn code_in(value: &Value) -> Option<&Txt>
    ensures { option_copied result ≡ spec.code_in value.now }
{
    match value {
        Value::Code(code) => Some(code),
        Value::Text(_) => None,
        Value::Identifier(_) => None,
        Value::Amount(_) => None,
        Value::Quantity(_) => None,
        Value::Percent(_) => None,
        Value::Date(_) => None,
        Value::Base64(_) => None,
    }
}

/// What a number is worth, 0 where there is none.
pub(crate) fn or_zero(number: &Option<Scaled>) -> Dec
    ensures { result ≡ spec.or_zero number.now }
{
    match number {
        Some(number) => number.value(),
        None => Dec::of_parts(0, 0),
    }
}

/// The number of a term in a context, if it stands there.
pub(crate) fn stated(i: &Invoice, number: u16, context: Context) -> Option<Scaled>
    ensures { result ≡ spec.stated i.now number context }
{
    match i.value(term(number), context) {
        Some(value) => number_in(value),
        None => None,
    }
}

/// The code of a term in a context, if it stands there.
pub(crate) fn code_at(i: &Invoice, number: u16, context: Context) -> Option<&Txt>
    ensures { option_copied result ≡ spec.and_then (value_in i.now (spec.term number) context) spec.code_in }
{
    match i.value(term(number), context) {
        Some(value) => code_in(value),
        None => None,
    }
}

/// What a term in a context is worth, 0 where it doesn't stand there.
pub(crate) fn amount(i: &Invoice, number: u16, context: Context) -> Dec
    ensures { result ≡ spec.amount i.now number context }
{
    or_zero(&stated(i, number, context))
}

/// What an entry is worth.
pub(crate) fn entry_amount(e: &Entry) -> Dec
    ensures { result ≡ spec.entry_amount e.now }
{
    or_zero(&number_in(&e.value))
}
