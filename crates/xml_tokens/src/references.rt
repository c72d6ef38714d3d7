//! References (XML 1.0, productions 66 and 68): by number to a character, or by name to one of the five predefined
//! entities.
ghost use Rattle.std.specs.Prelude.{◌≡◌, ◌≤◌, ◌⊎◌, length, take, option_and_then, Some, None};
ghost use Rattle.std.specs.Str.{bytes_eq};
ghost use Rattle.xml_tokens.specs.References as spec;

use crate::encoding::Begun;
use inv_base::is_char;

/// The greatest number of bytes between `&` and `;`.
const GREATEST_REFERENCE: usize = 12;

fn is_reference_byte(byte: u8) -> bool
    ensures { result ≡ spec.is_reference_byte byte }
{
    matches!(byte, b'A'..=b'Z' | b'a'..=b'z' | b'0'..=b'9' | b'#')
}

/// How many bytes of a reference stand at the front.
fn body_length(bytes: &[u8]) -> usize
    ensures exact { take result bytes.now ≡ spec.reference_body bytes.now 12 }
    ensures within { result ≤ length bytes.now }
    ensures most { result ≤ 12 }
{
    'bytes: for (i, byte) in bytes.iter().enumerate() {
        if i == GREATEST_REFERENCE || !is_reference_byte(*byte) {
            return i;
        }
    }
    bytes.len()
}

/// Whether the bytes are those of the word.
pub fn spells(bytes: &[u8], word: &[u8]) -> bool
    ensures { result ≡ bytes_eq bytes.now word.now }
{
    bytes == word
}

/// The character of the number, where it is a Char.
#[tactic(auto, unfolding(inv_base::specs::Characters::is_char))]
pub fn if_char(number: u32) -> Option<char>
    ensures { result ≡ spec.if_char number }
{
    match char::from_u32(number) {
        Some(c) if is_char(c) => Some(c),
        _ => None,
    }
}

/// The Char of the number that the digits spell.
fn spelled(radix: u32, digits: &[u8]) -> Option<char>
    requires { (radix ≡ 10) ⊎ (radix ≡ 16) }
    ensures { result ≡ option_and_then spec.if_char (spec.number_of_digits radix digits.now) }
{
    if digits.is_empty() {
        return None;
    }
    let mut number: u32 = 0;
    'digits: for (i, digit) in digits.iter().enumerate() {
        match char::from(*digit).to_digit(radix) {
            Some(value) => number = number * radix + value,
            None => return None,
        }
        if number > 0x10FFFF {
            return None;
        }
    }
    if_char(number)
}

/// The predefined entities, section 4.6.
fn entity(name: &[u8]) -> Option<char>
    ensures { result ≡ spec.entity name.now }
{
    if spells(name, b"amp") {
        Some('&')
    } else if spells(name, b"lt") {
        Some('<')
    } else if spells(name, b"gt") {
        Some('>')
    } else if spells(name, b"quot") {
        Some('"')
    } else if spells(name, b"apos") {
        Some('\'')
    } else {
        None
    }
}

/// The character to which the bytes between `&` and `;` refer.
#[tactic(auto, unfolding(crate::specs::References::referred))]
fn referred(body: &[u8]) -> Option<char>
    ensures { result ≡ spec.referred body.now }
{
    match body {
        [b'#', b'x', digits @ ..] => spelled(16, digits),
        [b'#', digits @ ..] => spelled(10, digits),
        _ => entity(body),
    }
}

/// The reference that begins with a `&` before these bytes: the character that it refers to, and how many bytes it
/// takes.
#[tactic(auto, unfolding(crate::specs::References::reference_at))]
pub fn reference_at(bytes: &[u8]) -> Begun<char>
    ensures { result ≡ spec.reference_at bytes.now }
{
    let (body, rest) = bytes.split_at(body_length(bytes));
    match rest {
        [] => Begun::Unfinished,
        [b';', ..] => match referred(body) {
            Some(c) => Begun::Character(c, body.len() + 2),
            None => Begun::Broken(body.len() + 2),
        },
        _ => Begun::Broken(body.len() + 2),
    }
}
