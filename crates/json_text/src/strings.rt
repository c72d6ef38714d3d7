ghost use Rattle.std.specs.Prelude.{◌≡◌, ℕ, ◌+◌, ◌/◌, ◌%◌, ◌<◌, ◌≤◌, true, false, List, [], ◌∷◌, flat_map, length, take, chars, encode_utf8_all};
ghost use Rattle.inv_base.specs.Printing.{Prints};
ghost use Rattle.json_text.specs.Layout.{short_escape, hex_digit, long_escape, character_text, string_text};
ghost use Rattle.json_text.specs.Escapes.{is_escaped};

use inv_base::{Printer, Sink, Stops, front_len};
use std::simd::prelude::*;

/// Prints a text as a string.
pub(crate) fn put_string<K: Sink>(text: &str, printer: &mut Printer, out: &mut K)
    ensures { Prints (encode_utf8_all (string_text (chars text.now))) printer.old.failed printer.new.failed (K.view out.old) (K.view out.new) }
{
    printer.put(out, b"\"");
    put_escaped(text.as_bytes(), printer, out);
    printer.put(out, b"\"");
}

/// Prints bytes with their escapes. What stands between two of them goes out at once.
fn put_escaped<K: Sink>(bytes: &[u8], printer: &mut Printer, out: &mut K)
    ensures { Prints (flat_map character_text bytes.now) printer.old.failed printer.new.failed (K.view out.old) (K.view out.new) }
{
    let mut rest = bytes;
    'runs: while let Some((byte, after)) = rest.split_first() {
        if is_escaped(*byte) {
            put_escape(*byte, printer, out);
            rest = after;
        } else {
            let (run, behind) = rest.split_at(plain_len(rest));
            printer.put(out, run);
            rest = behind;
        }
    }
}

/// Prints what stands for a byte that doesn't stand for itself.
fn put_escape<K: Sink>(byte: u8, printer: &mut Printer, out: &mut K)
    requires { is_escaped byte ≡ true }
    ensures { Prints (character_text byte) printer.old.failed printer.new.failed (K.view out.old) (K.view out.new) }
{
    match short_escape(byte) {
        Some(letter) => printer.put(out, &[b'\\', letter]),
        None => printer.put(out, &long_escape(byte)),
    }
}

/// What stands behind a backslash for a byte that has a short escape.
#[tactic(auto, unfolding(crate::specs::Layout::short_escape))]
fn short_escape(byte: u8) -> Option<u8>
    ensures { result ≡ short_escape byte }
{
    match byte {
        b'"' => Some(b'"'),
        b'\\' => Some(b'\\'),
        0x8 => Some(b'b'),
        0xC => Some(b'f'),
        b'\n' => Some(b'n'),
        b'\r' => Some(b'r'),
        b'\t' => Some(b't'),
        _ => None,
    }
}

/// The escape by two digits.
fn long_escape(byte: u8) -> [u8; 6]
    ensures { result ≡ long_escape byte }
{
    [
        b'\\',
        b'u',
        b'0',
        b'0',
        hex_digit(byte / 16),
        hex_digit(byte % 16),
    ]
}

fn hex_digit(digit: u8) -> u8
    requires { digit < 16 }
    ensures { result ≡ hex_digit digit }
{
    if digit < 10 {
        b'0' + digit
    } else {
        b'a' - 10 + digit
    }
}

/// Whether a byte doesn't stand for itself.
fn is_escaped(byte: u8) -> bool
    ensures { result ≡ is_escaped byte }
{
    byte < 0x20 || byte == b'"' || byte == b'\\'
}

/// The bytes that don't stand for themselves.
struct Escaped;

impl Stops for Escaped {
    ghost stops = { is_escaped };

    fn is_stop(byte: u8) -> bool {
        is_escaped(byte)
    }

    #[inline(always)]
    fn stops_in(block: u8x16) -> u64 {
        let quotes = block.simd_eq(u8x16::splat(b'"')) | block.simd_eq(u8x16::splat(b'\\'));
        (block.simd_lt(u8x16::splat(b' ')) | quotes).to_bitmask()
    }
}

/// How many bytes at the front stand for themselves.
fn plain_len(bytes: &[u8]) -> usize
    ensures bound { result ≤ length bytes.now }
    ensures plain { flat_map character_text (take result bytes.now) ≡ take result bytes.now }
    ensures progress { (byte : ℕ) (after : List ℕ) → bytes.now ≡ byte ∷ after → is_escaped byte ≡ false → 0 < result }
{
    front_len::<Escaped>(bytes)
}
