//! The text that a string spells (RFC 8259, section 7): escapes are what they stand for, all else is itself.
ghost use Rattle.std.specs.Prelude.{◌≡◌, ◌≤◌, ◌<◌, ◌==◌, false, length, option_map, string_bytes, IfOk, IfSome, Some};
ghost use Rattle.std.specs.Cow.{cow_str_bytes};
ghost use Rattle.std.specs.List.{list_any};
ghost use Rattle.json_reading.specs.Texts as spec;

use crate::bytes::is_digit;
use std::alloc::{AllocError, Global};
use std::borrow::CowStr;

/// What of an escape is read.
#[derive(Clone, Copy)]
pub enum Digits {
    /// No escape has begun.
    Outside,
    /// Its backslash.
    Backslash,
    /// Its `u`, and the digits behind it.
    None,
    One(u8),
    Two(u8, u8),
    Three(u8, u8, u8),
}

/// What of a string is read and not yet a character.
#[derive(Clone, Copy)]
pub struct Pending {
    /// The first half of a surrogate pair.
    pub high: Option<u16>,
    pub digits: Digits,
}

/// What a byte of a string says.
#[derive(Clone, Copy)]
pub enum Said {
    /// Nothing yet.
    Goes(Pending),
    /// This byte of a character.
    Byte(u8),
    Character(char),
    /// Half a surrogate pair: the string has no text.
    Nothing,
}

/// What the letter behind a backslash stands for.
fn short(byte: u8) -> u8
    ensures { result ≡ spec.short byte }
{
    if byte == b'b' {
        0x8
    } else if byte == b'f' {
        0xC
    } else if byte == b'n' {
        0xA
    } else if byte == b'r' {
        0xD
    } else if byte == b't' {
        0x9
    } else {
        byte
    }
}

fn digit_value(byte: u8) -> u32
    ensures value { result ≡ spec.digit_value byte }
    ensures least { result < 256 }
{
    if is_digit(byte) {
        (byte - b'0') as u32
    } else if byte < b'a' {
        byte.saturating_sub(0x37) as u32
    } else {
        (byte - 0x57) as u32
    }
}

/// The number of four digits.
fn unit(a: u8, b: u8, c: u8, d: u8) -> u32
    ensures { result ≡ spec.unit a b c d }
{
    digit_value(a) * 4096 + digit_value(b) * 256 + digit_value(c) * 16 + digit_value(d)
}

#[tactic(auto, using(crate::proofs::TextLemmas::scalar_said, crate::proofs::TextLemmas::scalar_none))]
fn character(code: u32) -> Said
    ensures { result ≡ spec.character code }
{
    match char::from_u32(code) {
        Some(c) => Said::Character(c),
        None => Said::Nothing,
    }
}

fn going(high: Option<u16>, digits: Digits) -> Said
    ensures { result ≡ spec.going high digits }
{
    Said::Goes(Pending { high, digits })
}

/// The first of two units, or a character by itself.
fn first_unit(unit: u32) -> Said
    ensures { result ≡ spec.first_unit unit }
{
    if 0xD800 <= unit && unit < 0xDC00 {
        going(Some(unit as u16), Digits::Outside)
    } else {
        character(unit)
    }
}

/// The second of two units.
fn second_unit(high: u16, unit: u32) -> Said
    ensures { result ≡ spec.second_unit high unit }
{
    if 0xDC00 <= unit && unit < 0xE000 {
        character(0x10000 + (high.saturating_sub(0xD800)) as u32 * 1024 + (unit - 0xDC00))
    } else {
        Said::Nothing
    }
}

fn unit_read(high: Option<u16>, unit: u32) -> Said
    ensures { result ≡ spec.unit_read high unit }
{
    match high {
        None => first_unit(unit),
        Some(first) => second_unit(first, unit),
    }
}

/// A byte that is one of a character, unless half a pair stands before it.
fn byte_read(high: Option<u16>, byte: u8) -> Said
    ensures { result ≡ spec.byte_read high byte }
{
    match high {
        None => Said::Byte(byte),
        Some(_) => Said::Nothing,
    }
}

fn outside(high: Option<u16>, byte: u8) -> Said
    ensures { result ≡ spec.outside high byte }
{
    if byte == b'\\' {
        going(high, Digits::Backslash)
    } else {
        byte_read(high, byte)
    }
}

fn behind_backslash(high: Option<u16>, byte: u8) -> Said
    ensures { result ≡ spec.behind_backslash high byte }
{
    if byte == b'u' {
        going(high, Digits::None)
    } else {
        byte_read(high, short(byte))
    }
}

/// What a byte says behind what is pending.
#[tactic(auto, unfolding(crate::specs::Texts::saying))]
fn saying(pending: Pending, byte: u8) -> Said
    ensures { result ≡ spec.saying pending byte }
{
    let high = pending.high;
    match pending.digits {
        Digits::Outside => outside(high, byte),
        Digits::Backslash => behind_backslash(high, byte),
        Digits::None => going(high, Digits::One(byte)),
        Digits::One(a) => going(high, Digits::Two(a, byte)),
        Digits::Two(a, b) => going(high, Digits::Three(a, b, byte)),
        Digits::Three(a, b, c) => unit_read(high, unit(a, b, c, byte)),
    }
}

const NOTHING_PENDING: Pending = Pending {
    high: None,
    digits: Digits::Outside,
};

/// Whether a string may end here.
fn is_over(pending: Pending) -> bool
    ensures { result ≡ spec.is_over pending }
{
    match pending.high {
        Some(_) => false,
        None => is_outside(pending.digits),
    }
}

fn is_outside(digits: Digits) -> bool
    ensures { result ≡ spec.is_outside digits }
{
    match digits {
        Digits::Outside => true,
        Digits::Backslash => false,
        Digits::None => false,
        Digits::One(_) => false,
        Digits::Two(_, _) => false,
        Digits::Three(_, _, _) => false,
    }
}

/// Puts a character behind others.
fn put_character(text: &mut Vec<u8>, c: char) -> Result<(), AllocError>
    ensures { IfOk result (λ _. text.new.items ≡ spec.with_character text.old.items c) }
{
    let mut buffer = [0; 4];
    text.extend_from_slice(c.encode_utf8(&mut buffer).as_bytes())
}

/// Puts what is said behind the text; answers what is pending then, and nothing where there is no text.
fn put(text: &mut Vec<u8>, said: Said) -> Result<Option<Pending>, AllocError>
    ensures { IfOk result (λ pending. spec.IsPut said text.old.items text.new.items pending) }
{
    match said {
        Said::Goes(pending) => Ok(Some(pending)),
        Said::Byte(byte) => {
            text.push(byte)?;
            Ok(Some(NOTHING_PENDING))
        }
        Said::Character(c) => {
            put_character(text, c)?;
            Ok(Some(NOTHING_PENDING))
        }
        Said::Nothing => Ok(None),
    }
}

/// Whether the string has a text; if so, puts it behind another.
fn put_text(text: &mut Vec<u8>, bytes: &[u8]) -> Result<bool, AllocError>
    ensures { IfOk result (λ has. spec.IsTextPut bytes.now text.old.items text.new.items has) }
{
    let mut pending = NOTHING_PENDING;
    'bytes: for byte in bytes {
        match put(text, saying(pending, *byte)) {
            Ok(Some(next)) => pending = next,
            Ok(None) => return Ok(false),
            Err(error) => return Err(error),
        }
    }
    Ok(is_over(pending))
}

/// A text whose bytes are these, where they are UTF-8.
fn checked(bytes: Vec<u8>) -> Option<String>
    ensures { spec.IsChecked bytes.items (option_map (λ s. string_bytes s) result) }
{
    match String::from_utf8(bytes) {
        Ok(text) => Some(text),
        Err(error) => {
            drop(error);
            None
        }
    }
}

/// The text of a string, made anew.
#[tactic(auto, using(crate::proofs::TextLemmas::made, crate::proofs::TextLemmas::no_text))]
fn made_text(alloc: Global, bytes: &[u8]) -> Result<Option<String>, AllocError>
    ensures { IfOk result (λ found. spec.IsText bytes.now (option_map (λ s. string_bytes s) found)) }
{
    let mut text = Vec::new(alloc);
    match put_text(&mut text, bytes) {
        Ok(true) => Ok(checked(text)),
        Ok(false) => {
            drop(text);
            Ok(None)
        }
        Err(error) => {
            drop(text);
            Err(error)
        }
    }
}

/// The bytes themselves as a text, where they are UTF-8.
fn plain_text(bytes: &[u8]) -> Option<&str>
    ensures { spec.IsChecked bytes.now (option_map (λ s. s.now) result) }
{
    match str::from_utf8(bytes) {
        Ok(text) => Some(text),
        Err(_) => None,
    }
}

fn has_escape(bytes: &[u8]) -> bool
    ensures { result ≡ list_any (λ b. b == 0x5C) bytes.now }
{
    bytes.contains(&b'\\')
}

/// The text that the bytes between the quotes of a string spell. Nothing is made where they have no escape.
#[tactic(auto, using(crate::proofs::TextLemmas::plain_checked))]
pub(crate) fn text_of<'a>(
    alloc: Global,
    bytes: &'a [u8],
) -> Result<Option<CowStr<'a, Global>>, AllocError>
    ensures { IfOk result (λ found. spec.IsText bytes.now (option_map (λ c. cow_str_bytes c) found)) }
{
    if has_escape(bytes) {
        match made_text(alloc, bytes) {
            Ok(Some(text)) => Ok(Some(CowStr::Owned(text))),
            Ok(None) => Ok(None),
            Err(error) => Err(error),
        }
    } else {
        match plain_text(bytes) {
            Some(text) => Ok(Some(CowStr::Borrowed(text))),
            None => Ok(None),
        }
    }
}
