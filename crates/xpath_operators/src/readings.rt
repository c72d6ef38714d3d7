//! How texts are read as values of a type (Functions and Operators, section 17.1.1; XML Schema Part 2, section 3.2).
ghost use Rattle.std.specs.Prelude.{◌≡◌, ◌||◌, chars, codes, bytes_eq};
ghost use Rattle.xpath_meaning.specs.Reading as spec;

use crate::spaces::trimmed;
use inv_decimal::{Day, Dec};
use xpath_items::DynError;

/// The text as a number: a sign, digits and a point, white space at the ends aside.
pub fn read_number(text: &str) -> Result<Dec, DynError>
    ensures { result ≡ spec.read_number (chars text.now) }
{
    match Dec::read(trimmed(text)) {
        Some(number) => Ok(number),
        None => Err(DynError::FORG0001),
    }
}

/// Whether there is a point in the text.
fn has_point(text: &str) -> bool
    ensures { result ≡ spec.has_point (chars text.now) }
{
    text.chars().any(|c| c == '.')
}

/// The text as a whole number: a sign and digits alone, white space at the ends aside.
pub fn read_whole_number(text: &str) -> Result<Dec, DynError>
    ensures { result ≡ spec.read_whole_number (chars text.now) }
{
    let text = trimmed(text);
    if has_point(text) {
        return Err(DynError::FORG0001);
    }
    match Dec::read(text) {
        Some(number) => Ok(number),
        None => Err(DynError::FORG0001),
    }
}

/// The text as a day, `YYYY-MM-DD`, white space at the ends aside.
pub fn read_day(text: &str) -> Result<Day, DynError>
    ensures { result ≡ spec.read_day (chars text.now) }
{
    match Day::read_dashed(trimmed(text)) {
        Some(day) => Ok(day),
        None => Err(DynError::FORG0001),
    }
}

/// Whether the text is the word.
fn is_word(text: &str, word: &str) -> bool
    ensures { result ≡ bytes_eq (chars text.now) (chars word.now) }
{
    text == word
}

/// Whether the text writes true.
#[tactic(auto, using(crate::proofs::TextLemmas::words))]
fn is_true(text: &str) -> bool
    ensures { result ≡ (bytes_eq (chars text.now) (codes "true") || bytes_eq (chars text.now) (codes "1")) }
{
    is_word(text, "true") || is_word(text, "1")
}

/// Whether the text writes false.
#[tactic(auto, using(crate::proofs::TextLemmas::words))]
fn is_false(text: &str) -> bool
    ensures { result ≡ (bytes_eq (chars text.now) (codes "false") || bytes_eq (chars text.now) (codes "0")) }
{
    is_word(text, "false") || is_word(text, "0")
}

/// The boolean that the text writes, if it does.
fn boolean_in(text: &str) -> Option<bool>
    ensures { result ≡ spec.boolean_in (chars text.now) }
{
    if is_true(text) {
        return Some(true);
    }
    if is_false(text) { Some(false) } else { None }
}

/// The text as a boolean, `true`, `false`, `1` or `0`, white space at the ends aside.
pub fn read_boolean(text: &str) -> Result<bool, DynError>
    ensures { result ≡ spec.read_boolean (chars text.now) }
{
    match boolean_in(trimmed(text)) {
        Some(b) => Ok(b),
        None => Err(DynError::FORG0001),
    }
}
