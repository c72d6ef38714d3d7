//! The values of the generated invoice.
ghost use Rattle.std.specs.Prelude.{◌≡◌, ◌<◌, ◌^◌, ◌++◌, codes, decimal, chars, IfOk, true};
ghost use Rattle.inv_terms.specs.declared.values.Value.TheVariants as values;
ghost use Rattle.trial_invoice.specs.Amounts as spec;
ghost use Rattle.trial_invoice.specs.Generated.{amount};
ghost use Rattle.trial_invoice.specs.Written.{is_ascii, last_digit, hundredths_text};

use inv_base::{Txt, ascii_text};
use inv_decimal::laws::printed_numbers_are_read;
use inv_decimal::{Day, Scaled};
use inv_terms::Value;
use itoa::Buffer;
use std::alloc::{AllocError, Global};

/// A text of ASCII.
pub(crate) fn word(alloc: Global, text: &str) -> Result<Txt, AllocError>
    requires { is_ascii text.now ≡ true }
    ensures { IfOk result (λ t. t ≡ text.now) }
{
    Txt::of(alloc, text)
}

/// The digits of a number.
pub(crate) fn number_word(alloc: Global, number: u32) -> Result<Txt, AllocError>
    ensures { IfOk result (λ t. t ≡ decimal number) }
{
    let mut digits = Buffer::new();
    let text = digits.format(number);
    Txt::of(alloc, text)
}

/// The name of the item of the line of that number.
pub(crate) fn item_name(alloc: Global, line: u32) -> Result<Txt, AllocError>
    ensures { IfOk result (λ t. t ≡ codes "Item " ++ decimal line) }
{
    let mut digits = Buffer::new();
    let mut name = Vec::from_slice(alloc, b"Item ")?;
    name.extend_from_slice(digits.format(line).as_bytes())?;
    Txt::of(alloc, ascii_text(&name))
}

/// The last digit of a number.
fn last_digit(n: u64) -> u8
    ensures value { result ≡ last_digit n }
    ensures ascii { result < 128 }
{
    b'0' + (n % 10) as u8
}

/// So many ones, with no digit behind the point.
pub(crate) fn ones(n: u64) -> Scaled
    requires { n < 10 ^ 18 }
    ensures { result ≡ spec.ones n }
{
    printed_numbers_are_read();
    let mut digits = Buffer::new();
    match Scaled::read(digits.format(n)) {
        Some(number) => number,
        None => unreachable!(),
    }
}

/// So many hundredths, with two digits behind the point.
fn hundredths(alloc: Global, n: u64) -> Result<Scaled, AllocError>
    requires { n < 10 ^ 18 }
    ensures { IfOk result (λ number. number ≡ spec.hundredths n) }
{
    printed_numbers_are_read();
    let mut digits = Buffer::new();
    let mut text = Vec::from_slice(alloc, digits.format(n / 100).as_bytes())?;
    text.extend_from_slice(&[b'.', last_digit(n / 10), last_digit(n)])?;
    match Scaled::read(ascii_text(&text)) {
        Some(number) => Ok(number),
        None => unreachable!(),
    }
}

/// The amount of so many hundredths.
pub(crate) fn amount(alloc: Global, n: u64) -> Result<Value, AllocError>
    requires { n < 10 ^ 18 }
    ensures { IfOk result (λ value. value ≡ amount n) }
{
    Ok(Value::Amount(hundredths(alloc, n)?))
}

/// The day of the invoice.
pub(crate) fn issue_day() -> Day
    ensures { result ≡ record { year = 2024; month = 1; day = 1 } }
{
    match Day::read_dashed("2024-01-01") {
        Some(day) => day,
        None => unreachable!(),
    }
}
