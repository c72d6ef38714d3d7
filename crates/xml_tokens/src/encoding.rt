//! Characters in UTF-8: the well-formed byte sequences of the Unicode standard, table 3-7.
ghost use Rattle.std.specs.Prelude.{◌≡◌, ◌<◌, ◌≤◌, ◌+◌};
ghost use Rattle.inv_base.specs.Characters.{is_within};
ghost use Rattle.xml_tokens.specs.Encoding as spec;

/// What begins at a place: a character, and how many bytes it takes; bytes that can't become one, and how many of them
/// show that; or the bytes end before they do either.
#[derive(Clone, Copy)]
pub enum Begun<C> {
    Character(C, usize),
    Broken(usize),
    Unfinished,
}

pub fn is_within(low: u8, high: u8, byte: u8) -> bool
    ensures { result ≡ is_within low high byte }
{
    low <= byte && byte <= high
}

/// A character of which so many bytes are still to come, the next one within these bounds: the bytes that came have
/// this value and number.
fn continued(more: u8, low: u8, high: u8, value: u32, length: usize, bytes: &[u8]) -> Begun<u32>
    requires most { more ≤ 3 }
    requires low { 0x80 ≤ low }
    requires three { more ≡ 3 → value < 6 }
    requires two { more ≡ 2 → value < 510 }
    requires one { more ≡ 1 → value < 32768 }
    requires length { length + more ≤ 4 }
    ensures { result ≡ spec.continued more low high value length bytes.now }
{
    if more == 0 {
        return Begun::Character(value, length);
    }
    match bytes {
        [] => Begun::Unfinished,
        [byte, rest @ ..] if is_within(low, high, *byte) => {
            let next = value * 64 + u32::from(*byte - 0x80);
            continued(more - 1, 0x80, 0xBF, next, length + 1, rest)
        }
        _ => Begun::Broken(length + 1),
    }
}

/// A character of more than one byte, by its first byte and what follows it.
fn behind_lead(byte: u8, bytes: &[u8]) -> Begun<u32>
    ensures { result ≡ spec.behind_lead byte bytes.now }
{
    match byte {
        0xC2..=0xDF => continued(1, 0x80, 0xBF, u32::from(byte - 0xC0), 1, bytes),
        0xE0 => continued(2, 0xA0, 0xBF, 0, 1, bytes),
        0xED => continued(2, 0x80, 0x9F, 0xD, 1, bytes),
        0xE1..=0xEF => continued(2, 0x80, 0xBF, u32::from(byte - 0xE0), 1, bytes),
        0xF0 => continued(3, 0x90, 0xBF, 0, 1, bytes),
        0xF1..=0xF3 => continued(3, 0x80, 0xBF, u32::from(byte - 0xF0), 1, bytes),
        0xF4 => continued(3, 0x80, 0x8F, 4, 1, bytes),
        _ => Begun::Broken(1),
    }
}

/// The character that begins with the byte, by its number.
#[tactic(auto, unfolding(crate::specs::Encoding::character_at))]
pub fn character_at(byte: u8, bytes: &[u8]) -> Begun<u32>
    ensures { result ≡ spec.character_at byte bytes.now }
{
    if byte < 0x80 {
        Begun::Character(u32::from(byte), 1)
    } else {
        behind_lead(byte, bytes)
    }
}
