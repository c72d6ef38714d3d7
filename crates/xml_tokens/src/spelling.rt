//! UTF-8 byte by byte, for bytes that come in pieces: where they stand in it, and which characters they end.
ghost use Rattle.std.specs.Prelude.{◌≡◌};
ghost use Rattle.xml_tokens.specs.Spelling as spec;

use crate::encoding::is_within;

/// Where bytes stand in UTF-8: between two characters; inside one, of which so many bytes are still to come, the next
/// one within these bounds, and those that came have this value; or they are no UTF-8, whatever follows.
#[derive(Clone, Copy)]
pub enum Spelling {
    Between,
    Inside(u8, u8, u8, u32),
    Broken,
}

fn behind_first(byte: u8) -> Spelling
    ensures { result ≡ spec.behind_first byte }
{
    match byte {
        0..=0x7F => Spelling::Between,
        0xC2..=0xDF => Spelling::Inside(1, 0x80, 0xBF, u32::from(byte - 0xC0)),
        0xE0 => Spelling::Inside(2, 0xA0, 0xBF, 0),
        0xED => Spelling::Inside(2, 0x80, 0x9F, 0xD),
        0xE1..=0xEF => Spelling::Inside(2, 0x80, 0xBF, u32::from(byte - 0xE0)),
        0xF0 => Spelling::Inside(3, 0x90, 0xBF, 0),
        0xF1..=0xF3 => Spelling::Inside(3, 0x80, 0xBF, u32::from(byte - 0xF0)),
        0xF4 => Spelling::Inside(3, 0x80, 0x8F, 4),
        _ => Spelling::Broken,
    }
}

/// The value of a character's bytes and one more: before the last one it is below 0x8000.
fn value_behind(value: u32, byte: u8) -> u32
    ensures { result ≡ spec.value_behind value byte }
{
    (value % 0x8000) * 64 + u32::from(byte % 64)
}

fn behind_inner(more: u8, low: u8, high: u8, value: u32, byte: u8) -> Spelling
    ensures { result ≡ spec.behind_inner more low high value byte }
{
    if !is_within(low, high, byte) {
        Spelling::Broken
    } else if more < 2 {
        Spelling::Between
    } else {
        Spelling::Inside(more - 1, 0x80, 0xBF, value_behind(value, byte))
    }
}

/// Where bytes stand behind one more.
pub fn spelling_behind(spelling: Spelling, byte: u8) -> Spelling
    ensures { result ≡ spec.spelling_behind spelling byte }
{
    match spelling {
        Spelling::Between => behind_first(byte),
        Spelling::Inside(more, low, high, value) => behind_inner(more, low, high, value, byte),
        Spelling::Broken => Spelling::Broken,
    }
}

/// The number of the character that the byte ends, if it ends one, where the bytes stay UTF-8.
pub fn ended(spelling: Spelling, byte: u8) -> Option<u32>
    ensures { result ≡ spec.ended spelling byte }
{
    match spelling {
        Spelling::Between if byte < 0x80 => Some(u32::from(byte)),
        Spelling::Inside(more, _, _, value) if more < 2 => Some(value_behind(value, byte)),
        _ => None,
    }
}
