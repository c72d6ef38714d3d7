//! The type that a row says itself, where a user added it, and the values that it writes.
ghost use Rattle.std.specs.Prelude.{◌≡◌, ◌||◌, map, is_none, is_some, option_copied, option_and_then};
ghost use Rattle.term_table.specs.Runs.{IsInOrder};
ghost use Rattle.inv_terms.specs.Listing.{seat_of};
ghost use Rattle.bind_meaning.specs.Writing as writing;

use crate::looking::value_of;
use bind_meaning::form_for;
use bind_rows::{Row, data_type_of_form};
use inv_terms::{Entry, Value};
use term_table::{Context, DataType, Group, Slot, Term};

/// Whether the value has the type.
pub fn is_of_type(data_type: DataType, value: &Value) -> bool
    ensures { result ≡ writing.is_of_type data_type value.now }
{
    match data_type {
        DataType::T => matches!(value, Value::Text(_)),
        DataType::I => matches!(value, Value::Identifier(_)),
        DataType::C => matches!(value, Value::Code(_)),
        DataType::A => matches!(value, Value::Amount(_)),
        DataType::Q => matches!(value, Value::Quantity(_)),
        DataType::P => matches!(value, Value::Percent(_)),
        DataType::D => matches!(value, Value::Date(_)),
        DataType::B => matches!(value, Value::Base64(_)),
    }
}

/// The value, if there is one and it has the type.
fn of_type<'a>(data_type: DataType, value: Option<&'a Value>) -> Option<&'a Value>
    ensures { option_copied result ≡ option_and_then (writing.of_type data_type) (option_copied value.entry) }
{
    match value {
        None => None,
        Some(value) => {
            if is_of_type(data_type, value) {
                Some(value)
            } else {
                None
            }
        }
    }
}

/// Whether there is an occurrence, if the row's context has one there.
fn has_slot(group: Option<Group>, slot: Option<Slot>) -> bool
    ensures { result ≡ (is_none group || is_some slot) }
{
    group.is_none() || slot.is_some()
}

/// Whether the context has an occurrence of each group of the row's.
fn has_slots(row: &Row, context: Context) -> bool
    ensures { result ≡ writing.has_slots row.now context }
{
    has_slot(row.outer, context.outer) && has_slot(row.inner, context.inner)
}

/// The value that the row writes of its term in the context. A row that a user added writes none where its groups have no
/// occurrence, nor one of another type.
pub(crate) fn value_for<'a>(
    row: &Row,
    entries: &'a [Entry],
    term: Term,
    context: Context,
) -> Option<&'a Value>
    requires { IsInOrder (map seat_of entries.now) }
    ensures { option_copied result ≡ writing.value_for row.now entries.now term context }
{
    match data_type_of_form(form_for(row.form, term)) {
        None => value_of(entries, term, context),
        Some(data_type) => {
            if has_slots(row, context) {
                of_type(data_type, value_of(entries, term, context))
            } else {
                None
            }
        }
    }
}
