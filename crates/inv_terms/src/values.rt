ghost use Rattle.std.specs.Prelude.{◌≡◌, IfOk, chars, take, bytes_eq};
ghost use Rattle.std.specs.Ordering.{int_cmp, is_eq};
ghost use Rattle.inv_decimal.specs.CivilDay.{IsDay};
ghost use Rattle.inv_decimal.specs.WrittenNumber.{scaled_text};
ghost use Rattle.inv_decimal.specs.WrittenDay.{dashed_day_text};
ghost use Rattle.std.specs.List.{list_all};
ghost use Rattle.inv_base.specs.Characters.{is_char};
ghost use Rattle.inv_terms.specs.Values as spec;

use crate::spaces::{is_blank, trimmed};
use code_lists::is_code;
use inv_base::{Txt, ascii_text, is_char};
use inv_decimal::laws::printed_texts_are_ascii;
use inv_decimal::{Day, Scaled};
use std::alloc::{AllocError, Global};
use std::cmp::Ordering;
use term_table::DataType;

/// The value of a business term. A number keeps how many digits it was written with behind the point.
#[derive(Drop)]
pub enum Value {
    /// A text as it was given, not blank.
    Text(Txt),
    /// A text without white space at its ends, not empty.
    Identifier(Txt),
    /// 1 to 128 printed ASCII characters, none of them a space.
    Code(Txt),
    Amount(Scaled),
    Quantity(Scaled),
    Percent(Scaled),
    Date(Day),
    /// The base64 text of a binary object, as it was given.
    Base64(Txt),
}

impl Value {
    /// The value that a string has by the type of its term, if it has one. A text is kept as it stands and isn't blank;
    /// of the others the white space at both ends is dropped. A date is read in its form with dashes. A string with a
    /// character that XML 1.0 doesn't have, has no value.
    #[tactic(auto, unfolding(crate::specs::Values::value_of))]
    pub fn read(alloc: Global, data_type: DataType, text: &str) -> Result<Option<Value>, AllocError>
        ensures { IfOk result (λ value. value ≡ spec.value_of data_type (chars text.now)) }
    {
        if !has_chars_alone(text) {
            return Ok(None);
        }
        value_by(alloc, data_type, text)
    }

    /// How the value is written: a text as it is, a number with the digits that it keeps, a day `YYYY-MM-DD`. The
    /// buffer is for numbers and days; what stood in it is lost.
    pub fn text<'a>(&'a self, buf: &'a mut [u8; 40]) -> &'a str
        ensures { chars result.now ≡ spec.spelled self.now }
    {
        match self {
            Value::Text(text) => text.as_str(),
            Value::Identifier(text) => text.as_str(),
            Value::Code(text) => text.as_str(),
            Value::Amount(number) => number_text(number, buf),
            Value::Quantity(number) => number_text(number, buf),
            Value::Percent(number) => number_text(number, buf),
            Value::Date(day) => day_text(day, buf),
            Value::Base64(text) => text.as_str(),
        }
    }

    /// Whether both are of one type and equal as values: texts by their characters, numbers by what they are worth (1.0
    /// is 1.00).
    pub fn is_same(&self, other: &Value) -> bool
        ensures { result ≡ spec.same_value self.now other.now }
    {
        match (self, other) {
            (Value::Text(a), Value::Text(b)) => is_same_text(a, b),
            (Value::Identifier(a), Value::Identifier(b)) => is_same_text(a, b),
            (Value::Code(a), Value::Code(b)) => is_same_text(a, b),
            (Value::Amount(a), Value::Amount(b)) => is_same_number(a, b),
            (Value::Quantity(a), Value::Quantity(b)) => is_same_number(a, b),
            (Value::Percent(a), Value::Percent(b)) => is_same_number(a, b),
            (Value::Date(a), Value::Date(b)) => a.cmp(b) == Ordering::Equal,
            (Value::Base64(a), Value::Base64(b)) => is_same_text(a, b),
            _ => false,
        }
    }
}

fn number_text<'a>(number: &Scaled, buf: &'a mut [u8; 40]) -> &'a str
    ensures { chars result.now ≡ scaled_text number.now }
{
    printed_texts_are_ascii();
    let len = number.print(buf);
    ascii_text(&buf[..len])
}

// Puts the day at the front of the buffer, in ten bytes.
fn put_day(day: &Day, buf: &mut [u8; 40])
    ensures text { take 10 buf.new ≡ dashed_day_text day.now }
    ensures exists { IsDay day.now }
{
    let mut text = [0; 10];
    day.print_dashed(&mut text);
    buf[..10].copy_from_slice(&text);
}

fn day_text<'a>(day: &Day, buf: &'a mut [u8; 40]) -> &'a str
    ensures { chars result.now ≡ dashed_day_text day.now }
{
    printed_texts_are_ascii();
    put_day(day, buf);
    ascii_text(&buf[..10])
}

fn is_same_text(a: &Txt, b: &Txt) -> bool
    ensures { result ≡ bytes_eq a.now b.now }
{
    a.as_str() == b.as_str()
}

fn is_same_number(a: &Scaled, b: &Scaled) -> bool
    ensures { result ≡ is_eq (int_cmp a.now.value b.now.value) }
{
    a.value().cmp(&b.value()) == Ordering::Equal
}

// The value of a string of characters that XML 1.0 has.
fn value_by(alloc: Global, data_type: DataType, text: &str) -> Result<Option<Value>, AllocError>
    ensures { IfOk result (λ value. value ≡ spec.value_by data_type (chars text.now)) }
{
    match data_type {
        DataType::T => Ok(text_of(alloc, text)?.map(Value::Text)),
        DataType::I => Ok(identifier_of(alloc, text)?.map(Value::Identifier)),
        DataType::C => Ok(code_of(alloc, text)?.map(Value::Code)),
        DataType::A => Ok(Scaled::read(trimmed(text)).map(Value::Amount)),
        DataType::Q => Ok(Scaled::read(trimmed(text)).map(Value::Quantity)),
        DataType::P => Ok(Scaled::read(trimmed(text)).map(Value::Percent)),
        DataType::D => Ok(Day::read_dashed(trimmed(text)).map(Value::Date)),
        DataType::B => Ok(text_of(alloc, text)?.map(Value::Base64)),
    }
}

fn text_of(alloc: Global, text: &str) -> Result<Option<Txt>, AllocError>
    ensures { IfOk result (λ t. t ≡ spec.text_of (chars text.now)) }
{
    if is_blank(text) {
        return Ok(None);
    }
    Ok(Some(Txt::of(alloc, text)?))
}

fn identifier_of(alloc: Global, text: &str) -> Result<Option<Txt>, AllocError>
    ensures { IfOk result (λ t. t ≡ spec.identifier_of (chars text.now)) }
{
    let identifier = trimmed(text);
    if identifier.is_empty() {
        return Ok(None);
    }
    Ok(Some(Txt::of(alloc, identifier)?))
}

fn code_of(alloc: Global, text: &str) -> Result<Option<Txt>, AllocError>
    ensures { IfOk result (λ t. t ≡ spec.code_of (chars text.now)) }
{
    let code = trimmed(text);
    if !is_code(code) {
        return Ok(None);
    }
    Ok(Some(Txt::of(alloc, code)?))
}

fn has_chars_alone(text: &str) -> bool
    ensures { result ≡ list_all is_char (chars text.now) }
{
    text.chars().all(|c| is_char(c))
}
