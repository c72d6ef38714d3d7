use crate::texts::{halves, spelled};
use inv_terms::Value;
use std::alloc::{AllocError, Global};
use std::test::Fail;
use term_table::DataType;
use test_rows::{Holds, expect, expect_rows};

/// The letter of a type, a string with `~` for a space and `^` for a form feed, and behind `>` how its value is
/// printed, or `none`.
const READINGS: &str = "\
I ~a~>identifier a
I a~b>identifier a~b
I ~~>none
I >none
I a^>none
T ~a~>text ~a~
T ~~>none
T >none
T a^b>none
C ~380~>code 380
C 3~80>none
C >none
A ~1.50~>amount 1.50
A 1,0>none
A 1e3>none
A >none
Q 007.50>quantity 7.50
P -0.0>percent 0.0
D ~2024-02-29~>date 2024-02-29
D 2023-02-29>none
D 20240229>none
B ~SGk=~>base64 ~SGk=~
B ~>none";

fn data_type_of(word: &str) -> DataType {
    match word {
        "T" => DataType::T,
        "I" => DataType::I,
        "C" => DataType::C,
        "A" => DataType::A,
        "Q" => DataType::Q,
        "P" => DataType::P,
        "D" => DataType::D,
        _ => DataType::B,
    }
}

/// The type of a value, in a word.
fn kind(value: &Value) -> &'static str {
    match value {
        Value::Text(_) => "text",
        Value::Identifier(_) => "identifier",
        Value::Code(_) => "code",
        Value::Base64(_) => "base64",
        Value::Amount(_) => "amount",
        Value::Quantity(_) => "quantity",
        Value::Percent(_) => "percent",
        Value::Date(_) => "date",
    }
}

/// Whether the value is of the type that is wanted, and is written as wanted.
fn is_wanted(value: &Value, want: &str) -> bool {
    let mut buf = [0; 40];
    match want.split_once(' ') {
        Some((type_, text)) => kind(value) == type_ && value.text(&mut buf) == text,
        None => false,
    }
}

/// What a string gives by its type is as wanted.
fn is_read(alloc: Global, data_type: DataType, text: &str, want: &str) -> Result<bool, AllocError> {
    match Value::read(alloc, data_type, text)? {
        Some(value) => {
            let same = is_wanted(&value, want);
            drop(value);
            Ok(same)
        }
        None => Ok(want == "none"),
    }
}

struct Readings;

impl Holds for Readings {
    fn holds(&self, alloc: Global, row: &'static str) -> Result<bool, Fail> {
        let (data_type, rest) = halves(row, ' ');
        let (text, want) = halves(rest, '>');
        let want = spelled(alloc, want)?;
        let text = spelled(alloc, text)?;
        Ok(is_read(alloc, data_type_of(data_type), text.as_str(), want.as_str())?)
    }
}

#[test]
fn strings_have_values_by_type(rt: HostRuntime) -> Result<(), Fail> {
    expect_rows(rt.alloc(), &Readings, READINGS)
}

fn has_value(alloc: Global, data_type: DataType, text: &str) -> Result<bool, AllocError> {
    match Value::read(alloc, data_type, text)? {
        Some(value) => {
            drop(value);
            Ok(true)
        }
        None => Ok(false),
    }
}

fn are_in_limits(alloc: Global) -> Result<[bool; 5], AllocError> {
    Ok([
        has_value(alloc, DataType::T, "\u{20AC}")?,
        has_value(alloc, DataType::C, "\u{20AC}")?,
        has_value(alloc, DataType::I, "\u{A0}")?,
        has_value(alloc, DataType::T, "a\u{FFFE}")?,
        has_value(alloc, DataType::I, "\t\r\n ")?,
    ])
}

#[test]
fn codes_and_characters_have_limits(rt: HostRuntime) -> Result<(), Fail> {
    let found = are_in_limits(rt.alloc())?;
    expect(found == [true, false, true, false, false], "values")
}

/// Pairs of strings with the letter of their type, and whether their values are the same.
const PAIRS: &str = "\
A 1.0 1.00 same
A 1.0 1.01 other
Q 0 -0.0 same
P 7 07 same
D 2024-02-29 2024-02-29 same
D 2024-02-29 2024-03-29 other
C A A same
C A a other
I x x same
T x y other
B SGk= SGk= same";

fn is_same_as(
    alloc: Global,
    value: &Value,
    data_type: DataType,
    text: &str,
) -> Result<Option<bool>, AllocError> {
    match Value::read(alloc, data_type, text)? {
        Some(other) => {
            let same = value.is_same(&other);
            drop(other);
            Ok(Some(same))
        }
        None => Ok(None),
    }
}

/// Whether the values of two strings are the same, where both have one.
fn are_same(
    alloc: Global,
    data_type: DataType,
    first: &str,
    second: &str,
) -> Result<Option<bool>, AllocError> {
    match Value::read(alloc, data_type, first)? {
        Some(value) => {
            let same = is_same_as(alloc, &value, data_type, second);
            drop(value);
            same
        }
        None => Ok(None),
    }
}

struct Pairs;

impl Holds for Pairs {
    fn holds(&self, alloc: Global, row: &'static str) -> Result<bool, Fail> {
        let (data_type, rest) = halves(row, ' ');
        let (first, rest) = halves(rest, ' ');
        let (second, want) = halves(rest, ' ');
        let same = are_same(alloc, data_type_of(data_type), first, second)?;
        Ok(same == Some(want == "same"))
    }
}

#[test]
fn values_are_compared(rt: HostRuntime) -> Result<(), Fail> {
    expect_rows(rt.alloc(), &Pairs, PAIRS)
}
