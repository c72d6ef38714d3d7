ghost use Rattle.std.specs.Prelude.{◌≡◌, ◌<◌, ◌+◌, ◌-◌, ◌≤◌, ◌^◌, ◌∷◌, length, take, drop, option_map, IfOk, IfErr, Ok};
ghost use Rattle.json_reading.specs.Reading as spec;
ghost use Rattle.std.specs.Cow.{cow_str_bytes};
ghost use Rattle.json_reading.specs.Texts as texts;
ghost use Rattle.json_reading.specs.Standing.{state_of, Follows, Runs, Says, IsTold};

use crate::fault::{JsonFault, JsonKind};
use crate::item::{Item, Span};
use crate::reader::Reader;
use crate::strings::idle_len;
use crate::texts::text_of;
use std::alloc::{AllocError, Global};
use std::borrow::CowStr;

/// How long a text may be, and how many objects and arrays may be inside one another in it.
#[derive(Clone, Copy)]
pub struct JsonLimits {
    pub longest: u32,
    pub deepest: u32,
}

/// The limits of texts that people hand in.
pub const LIMITS: JsonLimits = JsonLimits {
    longest: 67_108_864,
    deepest: 100,
};

/// A text that was read.
pub struct JsonText<'a> {
    /// Its bytes, in which the items have their places.
    pub bytes: &'a [u8],
    /// Its values in their order, each before those inside it.
    pub items: Vec<Item>,
}

impl<'a> Drop for JsonText<'a> {
    fn drop(self) {
        let JsonText { bytes: _, items } = self;
        drop(items);
    }
}

/// What stands from a place on; nothing past the end.
fn from_place(bytes: &[u8], at: usize) -> &[u8]
    ensures { result.now ≡ drop at bytes.now }
{
    if at < bytes.len() {
        bytes.split_at(at).1
    } else {
        &[]
    }
}

/// At most so many bytes of the front.
fn front(bytes: &[u8], most: usize) -> &[u8]
    ensures { result.now ≡ take most bytes.now }
{
    if most < bytes.len() {
        bytes.split_at(most).0
    } else {
        bytes
    }
}

fn between(bytes: &[u8], at: usize, end: usize) -> &[u8]
    ensures { result.now ≡ texts.between at end bytes.now }
{
    front(from_place(bytes, at), end.saturating_sub(at))
}

impl<'a> JsonText<'a> {
    /// How a name or value is spelled, with quotes or brackets.
    pub fn spelling(&self, span: Span) -> &'a [u8]
        ensures { result.now ≡ texts.between span.at span.end self.now.bytes.now }
    {
        between(self.bytes, span.at as usize, span.end as usize)
    }

    /// The text that a name or a string says; none where half a surrogate pair stands by itself in it. Nothing is made where it has
    /// no escape.
    pub fn text_of(
        &self,
        alloc: Global,
        span: Span,
    ) -> Result<Option<CowStr<'a, Global>>, AllocError>
        ensures { IfOk result (λ found. texts.IsText (texts.between (span.at + 1) (span.end - 1) self.now.bytes.now) (option_map (λ c. cow_str_bytes c)
            found)) }
    {
        let first = span.at as usize + 1;
        let last = (span.end as usize).saturating_sub(1);
        text_of(alloc, between(self.bytes, first, last))
    }
}

/// Reads a byte, and passes over those behind it that leave everything as it is. Answers how many these are.
fn read_run(
    reader: &mut Reader,
    deepest: usize,
    at: u32,
    byte: u8,
    behind: &[u8],
) -> Result<usize, JsonFault>
    requires { at + 1 < 2 ^ 32 }
    ensures run { Runs deepest at (byte ∷ behind.now) result (state_of reader.old) (state_of reader.new) }
    ensures within { IfOk result (λ len. len ≤ length behind.now) }
{
    match reader.step(deepest, at, byte) {
        Ok(()) => Ok(idle_len(reader.mode, behind)),
        Err(fault) => Err(fault),
    }
}

/// Reads bytes from the front of a text.
fn read_bytes(reader: &mut Reader, deepest: usize, bytes: &[u8]) -> Result<(), JsonFault>
    requires { length bytes.now < 2 ^ 32 }
    ensures { Follows result (state_of reader.new) (spec.run deepest 0 bytes.now (state_of reader.old)) }
{
    let mut rest = bytes;
    let mut at: u32 = 0;
    'bytes: while let Some((byte, behind)) = rest.split_first() {
        match read_run(reader, deepest, at, *byte, behind) {
            Ok(len) => {
                let (_, next) = behind.split_at(len);
                at += len as u32 + 1;
                rest = next;
            }
            Err(fault) => return Err(fault),
        }
    }
    Ok(())
}

/// Reads a text that isn't too long.
fn read_whole(alloc: Global, deepest: usize, bytes: &[u8]) -> Result<Vec<Item>, JsonFault>
    requires { length bytes.now < 2 ^ 32 }
    ensures { Says result (spec.reading_whole deepest bytes.now) }
{
    let mut reader = Reader::new(alloc);
    match read_bytes(&mut reader, deepest, bytes) {
        Ok(()) => reader.finish(bytes.len() as u32),
        Err(fault) => {
            drop(reader);
            Err(fault)
        }
    }
}

/// Reads the front of a text that is too long.
fn read_front(alloc: Global, deepest: usize, bytes: &[u8]) -> Result<Vec<Item>, JsonFault>
    requires { length bytes.now < 2 ^ 32 }
    ensures { Says result (spec.reading_front deepest bytes.now) }
{
    let mut reader = Reader::new(alloc);
    let read = read_bytes(&mut reader, deepest, bytes);
    drop(reader);
    match read {
        Ok(()) => Err(JsonFault {
            kind: JsonKind::TooLong,
            at: bytes.len() as u64,
        }),
        Err(fault) => Err(fault),
    }
}

#[tactic(auto, unfolding(crate::specs::Reading::reading))]
fn read_items(alloc: Global, limits: JsonLimits, bytes: &[u8]) -> Result<Vec<Item>, JsonFault>
    ensures { Says result (spec.reading limits.longest limits.deepest bytes.now) }
{
    let longest = limits.longest as usize;
    let deepest = limits.deepest as usize;
    if bytes.len() <= longest {
        read_whole(alloc, deepest, bytes)
    } else {
        let (front, _) = bytes.split_at(longest);
        read_front(alloc, deepest, front)
    }
}

/// Reads a text: its values in one pass, or its first fault. Nothing is read behind a fault.
pub fn read<'a>(
    alloc: Global,
    limits: JsonLimits,
    bytes: &'a [u8],
) -> Result<JsonText<'a>, JsonFault>
    ensures items { IfOk result (λ text. spec.reading limits.longest limits.deepest bytes.now ≡ Ok text.items.items) }
    ensures bytes { IfOk result (λ text. text.bytes.now ≡ bytes.now) }
    ensures fault { IfErr result (λ fault. IsTold fault (spec.reading limits.longest limits.deepest bytes.now)) }
{
    match read_items(alloc, limits, bytes) {
        Ok(items) => Ok(JsonText { bytes, items }),
        Err(fault) => Err(fault),
    }
}
