//! Texts that need no look at their characters, as most texts and nearly all names: tested byte by byte.
ghost use Rattle.std.specs.Prelude.{◌≡◌, false, slice_index_or};
ghost use Rattle.std.specs.List.{list_all};
ghost use Rattle.xml_tokens.specs.Ascii as spec;

use inv_base::{Stops, front_len};
use std::simd::prelude::*;

const Y: bool = true;

const N: bool = false;

/// The letters, digits, `-`, `.` and `_` of ASCII, by their codes.
const NAME_CHARS: [bool; 256] = [
    N, N, N, N, N, N, N, N, N, N, N, N, N, N, N, N, N, N, N, N, N, N, N, N, N, N, N, N, N, N, N, N,
    N, N, N, N, N, N, N, N, N, N, N, N, N, Y, Y, N, Y, Y, Y, Y, Y, Y, Y, Y, Y, Y, N, N, N, N, N, N,
    N, Y, Y, Y, Y, Y, Y, Y, Y, Y, Y, Y, Y, Y, Y, Y, Y, Y, Y, Y, Y, Y, Y, Y, Y, Y, Y, N, N, N, N, Y,
    N, Y, Y, Y, Y, Y, Y, Y, Y, Y, Y, Y, Y, Y, Y, Y, Y, Y, Y, Y, Y, Y, Y, Y, Y, Y, Y, N, N, N, N, N,
    N, N, N, N, N, N, N, N, N, N, N, N, N, N, N, N, N, N, N, N, N, N, N, N, N, N, N, N, N, N, N, N,
    N, N, N, N, N, N, N, N, N, N, N, N, N, N, N, N, N, N, N, N, N, N, N, N, N, N, N, N, N, N, N, N,
    N, N, N, N, N, N, N, N, N, N, N, N, N, N, N, N, N, N, N, N, N, N, N, N, N, N, N, N, N, N, N, N,
    N, N, N, N, N, N, N, N, N, N, N, N, N, N, N, N, N, N, N, N, N, N, N, N, N, N, N, N, N, N, N, N,
];

/// The bytes that are calm: all but control characters that aren't white space, and 0xEF.
const CALM: [bool; 256] = [
    N, N, N, N, N, N, N, N, N, Y, Y, N, N, Y, N, N, N, N, N, N, N, N, N, N, N, N, N, N, N, N, N, N,
    Y, Y, Y, Y, Y, Y, Y, Y, Y, Y, Y, Y, Y, Y, Y, Y, Y, Y, Y, Y, Y, Y, Y, Y, Y, Y, Y, Y, Y, Y, Y, Y,
    Y, Y, Y, Y, Y, Y, Y, Y, Y, Y, Y, Y, Y, Y, Y, Y, Y, Y, Y, Y, Y, Y, Y, Y, Y, Y, Y, Y, Y, Y, Y, Y,
    Y, Y, Y, Y, Y, Y, Y, Y, Y, Y, Y, Y, Y, Y, Y, Y, Y, Y, Y, Y, Y, Y, Y, Y, Y, Y, Y, Y, Y, Y, Y, Y,
    Y, Y, Y, Y, Y, Y, Y, Y, Y, Y, Y, Y, Y, Y, Y, Y, Y, Y, Y, Y, Y, Y, Y, Y, Y, Y, Y, Y, Y, Y, Y, Y,
    Y, Y, Y, Y, Y, Y, Y, Y, Y, Y, Y, Y, Y, Y, Y, Y, Y, Y, Y, Y, Y, Y, Y, Y, Y, Y, Y, Y, Y, Y, Y, Y,
    Y, Y, Y, Y, Y, Y, Y, Y, Y, Y, Y, Y, Y, Y, Y, Y, Y, Y, Y, Y, Y, Y, Y, Y, Y, Y, Y, Y, Y, Y, Y, Y,
    Y, Y, Y, Y, Y, Y, Y, Y, Y, Y, Y, Y, Y, Y, Y, N, Y, Y, Y, Y, Y, Y, Y, Y, Y, Y, Y, Y, Y, Y, Y, Y,
];

fn is_marked(table: &[bool; 256], byte: u8) -> bool
    ensures { result ≡ slice_index_or table.now byte false }
{
    table[byte as usize]
}

/// Whether a name may go on with the byte, which is ASCII.
pub fn is_plain_name_char(byte: u8) -> bool
    ensures { result ≡ spec.is_plain_name_char byte }
{
    is_marked(&NAME_CHARS, byte)
}

/// Whether every character that has the byte in UTF-8 is a Char: no control character but white space, and not 0xEF, with
/// which those from U+F000 to U+FFFF begin.
pub fn is_calm(byte: u8) -> bool
    ensures { result ≡ spec.is_calm byte }
{
    is_marked(&CALM, byte)
}

/// The bytes that aren't calm.
struct Restless;

impl Stops for Restless {
    ghost stops = { spec.is_restless };

    fn is_stop(byte: u8) -> bool {
        !is_calm(byte)
    }

    #[inline(always)]
    fn stops_in(block: u8x16) -> u64 {
        let unlike_tab = block.simd_lt(u8x16::splat(b' ')) & block.simd_ne(u8x16::splat(b'\t'));
        let unlike_ends = block.simd_ne(u8x16::splat(b'\n')) & block.simd_ne(u8x16::splat(b'\r'));
        (unlike_tab & unlike_ends | block.simd_eq(u8x16::splat(0xEF))).to_bitmask()
    }
}

/// Whether all bytes are calm.
pub fn are_calm(bytes: &[u8]) -> bool
    ensures { result ≡ list_all spec.is_calm bytes.now }
{
    front_len::<Restless>(bytes) == bytes.len()
}

/// Whether all bytes are characters of ASCII with which a name may go on.
pub fn are_plain_name_chars(bytes: &[u8]) -> bool
    ensures { result ≡ list_all spec.is_plain_name_char bytes.now }
{
    bytes.iter().all(|byte| is_plain_name_char(*byte))
}

/// Whether a name may begin with the byte, which is ASCII.
#[tactic(auto, unfolding(inv_base::specs::Characters::is_name_start))]
pub fn is_plain_name_start(byte: u8) -> bool
    ensures { result ≡ spec.is_plain_name_start byte }
{
    matches!(byte, b'a'..=b'z' | b'A'..=b'Z' | b'_')
}

/// Whether the bytes are an NCName of ASCII.
pub fn is_plain_ncname(bytes: &[u8]) -> bool
    ensures { result ≡ spec.is_plain_ncname bytes.now }
{
    match bytes {
        [first, behind @ ..] => is_plain_name_start(*first) && are_plain_name_chars(behind),
        [] => false,
    }
}
