//! Strings (RFC 8259, section 7) and the UTF-8 in them (RFC 3629, section 4).
ghost use Rattle.std.specs.Prelude.{◌≡◌, ◌+◌, ◌<◌, ◌≤◌, ◌^◌, length};
ghost use Rattle.std.specs.List.{position_or_len};
ghost use Rattle.json_reading.specs.Strings as spec;

use crate::bytes::{is_hex, is_short};
use crate::fault::JsonKind;
use crate::item::{ItemKind, Span};
use crate::mode::{Inside, Mode, Role, Tail, TextMode, Turn};
use crate::turns::stops;
use inv_base::{Stops, front_len};
use std::simd::prelude::*;

/// The string is the same, and what comes next in it is this.
fn going(text: TextMode, inside: Inside) -> Turn
    ensures { result ≡ spec.going text inside }
{
    Turn::Goes(Mode::Text(TextMode {
        start: text.start,
        escaped: text.escaped,
        role: text.role,
        inside,
    }))
}

fn escaping(text: TextMode) -> Turn
    ensures { result ≡ spec.escaping text }
{
    Turn::Goes(Mode::Text(TextMode {
        start: text.start,
        escaped: true,
        role: text.role,
        inside: Inside::Escape,
    }))
}

/// The byte at the place is the quote at the end.
fn ending(at: u32, text: TextMode) -> Turn
    requires { at + 1 < 2 ^ 32 }
    ensures { result ≡ spec.ending at text }
{
    let span = Span {
        at: text.start,
        end: at + 1,
        escaped: text.escaped,
    };
    match text.role {
        Role::Name => Turn::Names(span),
        Role::Value => Turn::Tells(ItemKind::Text, span),
    }
}

fn tail(at: u32, left: u8, low: u8, high: u8) -> Option<Tail>
    ensures { result ≡ spec.tail at left low high }
{
    Some(Tail {
        at,
        left,
        low,
        high,
    })
}

/// What has to come behind a byte that begins a character of two or three bytes.
fn short_tail(at: u32, byte: u8) -> Option<Tail>
    ensures { result ≡ spec.short_tail at byte }
{
    if byte < 0xC2 {
        None
    } else if byte < 0xE0 {
        tail(at, 1, 0x80, 0xBF)
    } else if byte == 0xE0 {
        tail(at, 2, 0xA0, 0xBF)
    } else if byte == 0xED {
        tail(at, 2, 0x80, 0x9F)
    } else {
        tail(at, 2, 0x80, 0xBF)
    }
}

/// What has to come behind a byte that begins a character of four bytes.
fn long_tail(at: u32, byte: u8) -> Option<Tail>
    ensures { result ≡ spec.long_tail at byte }
{
    if byte == 0xF0 {
        tail(at, 3, 0x90, 0xBF)
    } else if byte < 0xF4 {
        tail(at, 3, 0x80, 0xBF)
    } else if byte == 0xF4 {
        tail(at, 3, 0x80, 0x8F)
    } else {
        None
    }
}

/// What has to come behind the first byte of a character that isn't ASCII.
fn tail_of(at: u32, byte: u8) -> Option<Tail>
    ensures { result ≡ spec.tail_of at byte }
{
    if byte < 0xF0 {
        short_tail(at, byte)
    } else {
        long_tail(at, byte)
    }
}

/// A byte that isn't ASCII, where a character comes next.
fn wide(at: u32, byte: u8, text: TextMode) -> Turn
    ensures { result ≡ spec.wide at byte text }
{
    match tail_of(at, byte) {
        Some(tail) => going(text, Inside::Tail(tail)),
        None => stops(JsonKind::NotUtf8, at),
    }
}

/// A byte where a character, an escape or the quote at the end comes next.
#[tactic(auto, unfolding(crate::specs::Strings::in_plain))]
fn in_plain(at: u32, byte: u8, text: TextMode) -> Turn
    requires { at + 1 < 2 ^ 32 }
    ensures { result ≡ spec.in_plain at byte text }
{
    if byte == b'"' {
        ending(at, text)
    } else if byte == b'\\' {
        escaping(text)
    } else if byte < 0x20 {
        stops(JsonKind::NotJson, at)
    } else if byte > 0x7F {
        wide(at, byte, text)
    } else {
        going(text, Inside::Plain)
    }
}

/// The byte behind a backslash.
#[tactic(auto, unfolding(crate::specs::Strings::in_escape))]
fn in_escape(at: u32, byte: u8, text: TextMode) -> Turn
    ensures { result ≡ spec.in_escape at byte text }
{
    if is_short(byte) {
        going(text, Inside::Plain)
    } else if byte == b'u' {
        going(text, Inside::Hex(4))
    } else {
        stops(JsonKind::NotJson, at)
    }
}

/// A byte where so many digits have to come.
#[tactic(auto, unfolding(crate::specs::Strings::in_hex))]
fn in_hex(at: u32, byte: u8, text: TextMode, left: u8) -> Turn
    ensures { result ≡ spec.in_hex at byte text left }
{
    if !is_hex(byte) {
        stops(JsonKind::NotJson, at)
    } else if left <= 1 {
        going(text, Inside::Plain)
    } else {
        going(text, Inside::Hex(left - 1))
    }
}

/// A byte in a character.
#[tactic(auto, unfolding(crate::specs::Strings::in_tail))]
fn in_tail(byte: u8, text: TextMode, tail: Tail) -> Turn
    ensures { result ≡ spec.in_tail byte text tail }
{
    if byte < tail.low || tail.high < byte {
        stops(JsonKind::NotUtf8, tail.at)
    } else if tail.left <= 1 {
        going(text, Inside::Plain)
    } else {
        going(
            text,
            Inside::Tail(Tail {
                at: tail.at,
                left: tail.left - 1,
                low: 0x80,
                high: 0xBF,
            }),
        )
    }
}

/// What a byte in a string does.
#[tactic(auto, unfolding(crate::specs::Strings::text_turn))]
pub(crate) fn text_turn(at: u32, byte: u8, text: TextMode) -> Turn
    requires { at + 1 < 2 ^ 32 }
    ensures { result ≡ spec.text_turn at byte text }
{
    match text.inside {
        Inside::Plain => in_plain(at, byte, text),
        Inside::Escape => in_escape(at, byte, text),
        Inside::Hex(left) => in_hex(at, byte, text, left),
        Inside::Tail(tail) => in_tail(byte, text, tail),
    }
}

/// Whether a byte doesn't stand for itself as it is in a string: a quote, a backslash, a control character, or a byte that isn't
/// ASCII.
fn ends_plain(byte: u8) -> bool
    ensures { result ≡ spec.ends_plain byte }
{
    byte < 0x20 || byte > 0x7F || byte == b'"' || byte == b'\\'
}

/// What ends a run of bytes that stand for themselves.
struct PlainEnds;

impl Stops for PlainEnds {
    ghost stops = { spec.ends_plain };

    fn is_stop(byte: u8) -> bool {
        ends_plain(byte)
    }

    #[inline(always)]
    fn stops_in(block: u8x16) -> u64 {
        let quotes = block.simd_eq(u8x16::splat(b'"')) | block.simd_eq(u8x16::splat(b'\\'));
        let others = block.simd_lt(u8x16::splat(b' ')) | block.simd_gt(u8x16::splat(0x7F));
        (others | quotes).to_bitmask()
    }
}

fn is_plain_inside(inside: Inside) -> bool
    ensures { result ≡ spec.is_plain_inside inside }
{
    match inside {
        Inside::Plain => true,
        Inside::Escape => false,
        Inside::Hex(_) => false,
        Inside::Tail(_) => false,
    }
}

/// How many bytes at the front can be passed over in a string, since each of them leaves everything as it is.
fn plain_len(inside: Inside, bytes: &[u8]) -> usize
    ensures exact { result ≡ spec.plain_len inside bytes.now }
    ensures within { result ≤ length bytes.now }
{
    if is_plain_inside(inside) {
        front_len::<PlainEnds>(bytes)
    } else {
        0
    }
}

/// How many bytes at the front can be passed over, since each of them leaves everything as it is.
#[tactic(auto, unfolding(crate::specs::Strings::idle_len))]
pub(crate) fn idle_len(mode: Mode, bytes: &[u8]) -> usize
    ensures exact { result ≡ spec.idle_len mode bytes.now }
    ensures within { result ≤ length bytes.now }
{
    match mode {
        Mode::Text(text) => plain_len(text.inside, bytes),
        Mode::Start => 0,
        Mode::SecondOfMark => 0,
        Mode::ThirdOfMark => 0,
        Mode::Value => 0,
        Mode::FirstItem => 0,
        Mode::FirstMember => 0,
        Mode::Name => 0,
        Mode::Colon => 0,
        Mode::Behind => 0,
        Mode::Number(_) => 0,
        Mode::Word(_) => 0,
    }
}
