ghost use Rattle.std.specs.Prelude.{◌≡◌, ◌<◌, ◌^◌, Some, IfOk, OnOk, chars, option_map};
ghost use Rattle.std.specs.List.{list_any};
ghost use Rattle.std.specs.Cow.{cow_str_bytes};
ghost use Rattle.invoice_data.specs.Told.{both};
ghost use Rattle.invoice_data.specs.Values as spec;

use crate::faults::{DataFault, DataKind, DataName};
use crate::input::Input;
use crate::names::Room;
use crate::telling::{Found, Telling};
use inv_terms::{Value, is_blank, is_outside};
use json_reading::{Item, ItemKind, Span};
use std::alloc::{AllocError, Global};
use std::borrow::CowStr;
use term_table::{Seat, TermRow};

fn has_exponent(spelling: &[u8]) -> bool
    ensures { result ≡ list_any spec.is_exponent spelling.now }
{
    'bytes: for byte in spelling {
        if matches!(*byte, b'E' | b'e') {
            return true;
        }
    }
    false
}

fn characters(text: &[u8]) -> Option<&str>
    ensures { option_map (λ s. chars s.now) result ≡ spec.characters text.now }
{
    match str::from_utf8(text) {
        Ok(text) => Some(text),
        Err(_) => None,
    }
}

fn said_by_digits(spelling: &[u8]) -> Option<&str>
    ensures { option_map (λ s. chars s.now) result ≡ spec.said_by_digits spelling.now }
{
    if has_exponent(spelling) {
        return None;
    }
    characters(spelling)
}

/// What a number says: how it is spelled, unless it has an exponent.
#[tactic(auto, unfolding(crate::specs::Values::said_by_number))]
fn said_by_number<'i>(input: &Input<'i>, span: Span) -> Option<&'i str>
    ensures { option_map (λ s. chars s.now) result ≡ spec.said_by_number input.now.bytes span }
{
    said_by_digits(input.spelling(span))
}

/// What a string says, unless half a surrogate pair stands by itself in it.
fn said_by_string<'i>(
    input: &Input<'i>,
    span: Span,
) -> Result<Option<CowStr<'i, Global>>, AllocError>
    ensures { IfOk result (λ said. option_map (λ c. chars (cow_str_bytes c)) said ≡ spec.said_by_string input.now.bytes span) }
{
    input.text_of(span)
}

pub(crate) fn fault_at(kind: DataKind, room: Room, name: DataName, at: u32) -> DataFault
    ensures { result ≡ spec.fault_at kind room name at }
{
    DataFault {
        kind,
        place: room.place,
        name,
        at,
    }
}

fn found(room: Room, row: TermRow, value: Option<Value>) -> Found
    ensures { result ≡ spec.found room row value }
{
    Found {
        seat: Seat {
            term: row.term,
            context: room.context,
        },
        value,
    }
}

fn refuse(
    kind: DataKind,
    room: Room,
    row: TermRow,
    at: u32,
    telling: &mut Telling,
) -> Result<(), AllocError>
    ensures { OnOk result (telling.new ≡ both telling.old (spec.refused kind room row at)) }
{
    telling.put_faulty(
        found(room, row, None),
        fault_at(kind, room, DataName::Term(row.term), at),
    )
}

fn tell_value(
    input: &Input<'_>,
    room: Room,
    row: TermRow,
    at: u32,
    value: Value,
    telling: &mut Telling,
) -> Result<(), AllocError>
    ensures { OnOk result (telling.new ≡ both telling.old (spec.value_told input.now room row at (Some value))) }
{
    if is_outside(input.lists, row.list, &value) {
        drop(value);
        return refuse(DataKind::CodeNotListed, room, row, at, telling);
    }
    telling.put_found(found(room, row, Some(value)))
}

#[tactic(auto, using(crate::proofs::ToldLemmas::same_both), unfolding(crate::specs::Values::text_told))]
fn tell_text(
    input: &Input<'_>,
    room: Room,
    row: TermRow,
    at: u32,
    text: &str,
    telling: &mut Telling,
) -> Result<(), AllocError>
    ensures { OnOk result (telling.new ≡ both telling.old (spec.text_told input.now room row at (chars text.now))) }
{
    if is_blank(text) {
        return Ok(());
    }
    match Value::read(input.alloc, row.data_type, text) {
        Ok(Some(value)) => tell_value(input, room, row, at, value, telling),
        Ok(None) => refuse(DataKind::BadValue, room, row, at, telling),
        Err(error) => Err(error),
    }
}

/// What a number says of a term.
#[tactic(auto, unfolding(crate::specs::Values::said_told))]
fn tell_number(
    input: &Input<'_>,
    room: Room,
    row: TermRow,
    span: Span,
    telling: &mut Telling,
) -> Result<(), AllocError>
    ensures { OnOk result (telling.new ≡ both telling.old (spec.said_told input.now room row span.at (spec.said_by_number input.now.bytes span))) }
{
    match said_by_number(input, span) {
        Some(text) => tell_text(input, room, row, span.at, text, telling),
        None => refuse(DataKind::BadValue, room, row, span.at, telling),
    }
}

/// What a string says of a term.
#[tactic(auto, unfolding(crate::specs::Values::said_told))]
fn tell_string(
    input: &Input<'_>,
    room: Room,
    row: TermRow,
    span: Span,
    telling: &mut Telling,
) -> Result<(), AllocError>
    ensures { OnOk result (telling.new ≡ both telling.old (spec.said_told input.now room row span.at (spec.said_by_string input.now.bytes span))) }
{
    match said_by_string(input, span) {
        Ok(Some(text)) => {
            let told = tell_text(input, room, row, span.at, text.as_str(), telling);
            drop(text);
            told
        }
        Ok(None) => refuse(DataKind::BadValue, room, row, span.at, telling),
        Err(error) => Err(error),
    }
}

/// What an item says of a term.
#[tactic(auto, using(crate::proofs::ToldLemmas::same_both), unfolding(crate::specs::Values::term_told))]
pub(crate) fn tell_term(
    input: &Input<'_>,
    room: Room,
    row: TermRow,
    item: &Item,
    telling: &mut Telling,
) -> Result<(), AllocError>
    ensures { OnOk result (telling.new ≡ both telling.old (spec.term_told input.now room row item.now)) }
{
    match item.kind {
        ItemKind::Null => Ok(()),
        ItemKind::Text => tell_string(input, room, row, item.value, telling),
        ItemKind::Number => tell_number(input, room, row, item.value, telling),
        ItemKind::True | ItemKind::False | ItemKind::Object | ItemKind::Array => {
            refuse(DataKind::NotAText, room, row, item.value.at, telling)
        }
    }
}

fn is_string_blank(input: &Input<'_>, span: Span) -> Result<bool, AllocError>
    ensures { IfOk result (λ blank. blank ≡ spec.is_said_blank (spec.said_by_string input.now.bytes span)) }
{
    match said_by_string(input, span) {
        Ok(Some(text)) => {
            let blank = is_blank(text.as_str());
            drop(text);
            Ok(blank)
        }
        Ok(None) => Ok(false),
        Err(error) => Err(error),
    }
}

fn is_number_blank(input: &Input<'_>, span: Span) -> bool
    ensures { result ≡ spec.is_said_blank (spec.said_by_number input.now.bytes span) }
{
    match said_by_number(input, span) {
        Some(text) => is_blank(text),
        None => false,
    }
}

/// Whether an item is as good as none.
#[tactic(auto, unfolding(crate::specs::Values::says_nothing))]
pub(crate) fn says_nothing(input: &Input<'_>, item: &Item) -> Result<bool, AllocError>
    ensures { IfOk result (λ says. says ≡ spec.says_nothing input.now.bytes item.now) }
{
    match item.kind {
        ItemKind::Null => Ok(true),
        ItemKind::Text => is_string_blank(input, item.value),
        ItemKind::Number => Ok(is_number_blank(input, item.value)),
        ItemKind::True | ItemKind::False | ItemKind::Object | ItemKind::Array => Ok(false),
    }
}
