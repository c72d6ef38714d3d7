ghost use Rattle.std.specs.Prelude.{◌≡◌, ◌++◌, length, drop, true, false, chars, position, IfOk, IfErr, IfSome};
ghost use Rattle.std.specs.List.{list_all, list_any};
ghost use Rattle.inv_base.specs.Characters as characters;
ghost use Rattle.xml_tokens.specs.Runs as spec;
ghost use Rattle.xml_tokens.specs.Told.{ends_run};
ghost use Rattle.xml_tokens.specs.Ascii.{is_calm, stirs};

use crate::ascii::is_calm;
use crate::extents::are_all_chars;
use crate::names::first_of;
use inv_base::{Stops, front_len, is_char};
use simdutf8::basic::from_utf8;
use std::simd::prelude::*;
use std::str;

/// From how many bytes on a text is tested in blocks.
const LONG: usize = 128;

/// Whether the byte ends a run: `<`, `&`, `]` or CR.
fn ends_run(byte: u8) -> bool
    ensures { result ≡ ends_run byte }
{
    matches!(byte, b'<' | b'&' | b']' | b'\r')
}

/// The bytes that end a run.
struct RunEnds;

impl Stops for RunEnds {
    ghost stops = { ends_run };

    fn is_stop(byte: u8) -> bool {
        ends_run(byte)
    }

    #[inline(always)]
    fn stops_in(block: u8x16) -> u64 {
        let markup = block.simd_eq(u8x16::splat(b'<')) | block.simd_eq(u8x16::splat(b'&'));
        let others = block.simd_eq(u8x16::splat(b']')) | block.simd_eq(u8x16::splat(b'\r'));
        (markup | others).to_bitmask()
    }
}

fn run_end(bytes: &[u8]) -> Option<usize>
    ensures { result ≡ position ends_run bytes.now }
{
    let end = front_len::<RunEnds>(bytes);
    if end < bytes.len() { Some(end) } else { None }
}

/// The bytes before the first that ends a run, or all.
fn before_end(bytes: &[u8]) -> &[u8]
    ensures front { bytes.now ≡ result.now ++ drop (length result.now) bytes.now }
    ensures none { list_any ends_run result.now ≡ false }
{
    match run_end(bytes) {
        Some(end) => bytes.split_at(end).0,
        None => bytes,
    }
}

/// The bytes as text where they are many and all text: below some 128 bytes the standard library is faster.
fn long_text(bytes: &[u8]) -> Option<&str>
    ensures { IfSome result (λ text. text.now ≡ bytes.now) }
{
    if bytes.len() < LONG {
        return None;
    }
    match from_utf8(bytes) {
        Ok(text) => Some(text),
        Err(_) => None,
    }
}

/// As much of the bytes as is text.
fn text_front(bytes: &[u8]) -> &str
    ensures front { bytes.now ≡ result.now ++ drop (length result.now) bytes.now }
{
    if let Some(text) = long_text(bytes) {
        return text;
    }
    let end = match str::from_utf8(bytes) {
        Ok(text) => return text,
        Err(error) => error.valid_up_to(),
    };
    match str::from_utf8(bytes.split_at(end).0) {
        Ok(text) => text,
        Err(_) => unreachable!(),
    }
}

/// As much of the text as is Chars, one by one.
fn chars_until(text: &str) -> &str
    ensures front { text.now ≡ result.now ++ drop (length result.now) text.now }
    ensures chars { list_all characters.is_char (chars result.now) ≡ true }
{
    let mut rest = text;
    'characters: while let Some((c, behind)) = first_of(rest) {
        if !is_char(c) {
            break;
        }
        rest = behind;
    }
    text.split_at(text.len() - rest.len()).0
}

/// As much of the text as is Chars.
fn chars_front(text: &str) -> &str
    ensures front { text.now ≡ result.now ++ drop (length result.now) text.now }
    ensures chars { list_all characters.is_char (chars result.now) ≡ true }
{
    if are_all_chars(text) {
        text
    } else {
        chars_until(text)
    }
}

/// A run of any characters.
fn any_run(bytes: &[u8]) -> &str
    ensures front { bytes.now ≡ result.now ++ drop (length result.now) bytes.now }
    ensures plain { list_all spec.is_plain (chars result.now) ≡ true }
{
    chars_front(text_front(before_end(bytes)))
}

/// The bytes at which a run ends, or that aren't calm.
struct Stirring;

impl Stops for Stirring {
    ghost stops = { stirs };

    fn is_stop(byte: u8) -> bool {
        ends_run(byte) || !is_calm(byte)
    }

    #[inline(always)]
    fn stops_in(block: u8x16) -> u64 {
        let markup = block.simd_eq(u8x16::splat(b'<')) | block.simd_eq(u8x16::splat(b'&'));
        let unlike_tab = block.simd_lt(u8x16::splat(b' ')) & block.simd_ne(u8x16::splat(b'\t'));
        let control = unlike_tab & block.simd_ne(u8x16::splat(b'\n'));
        let rare = block.simd_eq(u8x16::splat(b']')) | block.simd_eq(u8x16::splat(0xEF));
        (markup | control | rare).to_bitmask()
    }
}

/// The calm bytes before the first that ends a run or isn't calm, or all.
fn calm_front(bytes: &[u8]) -> &[u8]
    ensures front { bytes.now ≡ result.now ++ drop (length result.now) bytes.now }
    ensures none { list_any ends_run result.now ≡ false }
    ensures calm { list_all is_calm result.now ≡ true }
{
    bytes.split_at(front_len::<Stirring>(bytes)).0
}

/// A run of characters with calm bytes, as most are: gone over once before it is tested for UTF-8.
fn calm_run(bytes: &[u8]) -> &str
    ensures front { bytes.now ≡ result.now ++ drop (length result.now) bytes.now }
    ensures plain { list_all spec.is_plain (chars result.now) ≡ true }
{
    text_front(calm_front(bytes))
}

/// Characters at the front of the bytes that are tokens one by one: up to a `<`, `&`, `]` or CR, up to bytes that are
/// no character, or to the end. They may also end before a byte that isn't calm, where the next run begins.
pub fn run_at_front<'b>(bytes: &'b [u8]) -> &'b str
    ensures front { bytes.now ≡ result.now ++ drop (length result.now) bytes.now }
    ensures plain { list_all spec.is_plain (chars result.now) ≡ true }
{
    let run = calm_run(bytes);
    match bytes {
        [first, ..] if run.is_empty() && !ends_run(*first) => any_run(bytes),
        _ => run,
    }
}
