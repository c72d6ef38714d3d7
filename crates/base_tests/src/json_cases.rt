//! JSON text that a pen writes, compared with texts that were written by hand.

use crate::texts::{halves, room_for};
use inv_base::{MemSink, Sink};
use json_text::{Container, DEEPEST, JsonPen};
use std::alloc::{AllocError, Global};
use std::test::Fail;
use test_rows::{Holds, expect};

/// The calls of texts, and what is written of each before the last line feed. A row ends with `§`. Of a call the first word says
/// what it is: `{` and `[` begin an object and an array, `}` and `]` end one, `n` is a name, `t` a text, `d` a number.
const TEXTS: &str = "\
{|}⇒{}§\
[|]⇒[]§\
t⇒\"\"§\
d 0⇒0§\
d 18446744073709551615⇒18446744073709551615§\
t \"\\\u{8}\u{c}\n\r\t⇒\"\\\"\\\\\\b\\f\\n\\r\\t\"§\
t \0\u{1}\u{7}\u{b}\u{e}\u{f}\u{10}\u{1a}\u{1f}⇒\"\\u0000\\u0001\\u0007\\u000b\\u000e\\u000f\\u0010\\u001a\\u001f\"§\
t a/b 'c'\u{7f}\u{80}ß€\u{2028}\u{2029}😀⇒\"a/b 'c'\u{7f}\u{80}ß€\u{2028}\u{2029}😀\"§\
t a long run of plain bytes, \"quoted\", and another one behind⇒\"a long run of plain bytes, \\\"quoted\\\", and another one behind\"§\
{|n a|d 1|}⇒{\n  \"a\": 1\n}§\
{|n a\nb|t|n |d 20|}⇒{\n  \"a\\nb\": \"\",\n  \"\": 20\n}§\
[|d 1|t x|[|]|{|}|]⇒[\n  1,\n  \"x\",\n  [],\n  {}\n]§\
{|n a|[|d 1|{|n b|{|}|}|]|n c|t d|n e|[|[|d 7|]|]|}\
⇒{\n  \"a\": [\n    1,\n    {\n      \"b\": {}\n    }\n  ],\n  \"c\": \"d\",\n  \"e\": [\n    [\n      7\n    ]\n  ]\n}";

fn begin<K: Sink>(pen: &mut JsonPen, out: &mut K, kind: Container) {
    if pen.state.depth < DEEPEST {
        pen.begin(out, kind);
    }
}

fn end<K: Sink>(pen: &mut JsonPen, out: &mut K, kind: Container) {
    if 0 < pen.state.depth {
        pen.end(out, kind);
    }
}

fn make<K: Sink>(pen: &mut JsonPen, out: &mut K, call: &str) {
    let (kind, given) = halves(call, ' ');
    match kind {
        "{" => begin(pen, out, Container::Object),
        "[" => begin(pen, out, Container::Array),
        "}" => end(pen, out, Container::Object),
        "]" => end(pen, out, Container::Array),
        "n" => pen.name(out, given),
        "t" => pen.text(out, given),
        _ => pen.number(out, given.parse().unwrap_or(0)),
    }
}

/// Makes the calls in order, and answers whether printing has failed.
fn write<K: Sink>(out: &mut K, calls: &str) -> bool {
    let mut pen = JsonPen::new();
    'calls: for call in calls.split('|') {
        make(&mut pen, out, call);
    }
    let failed = pen.has_failed();
    pen.finish(out) | failed
}

fn text_of(alloc: Global, wanted: &str) -> Result<String, AllocError> {
    format!(in alloc; "{wanted}\n")
}

/// Whether a sink with this room holds what fits of a text, and a failure is told where not all fits.
fn fits(alloc: Global, calls: &str, text: &str, room: usize) -> Result<bool, AllocError> {
    let mut sink = MemSink::new(alloc, room)?;
    let failed = write(&mut sink, calls);
    let holds = failed == (room < text.len()) && sink.bytes() == room_for(text, room);
    drop(sink);
    Ok(holds)
}

fn fits_everywhere(alloc: Global, calls: &str, text: &str) -> Result<bool, AllocError> {
    let mut held = true;
    for room in 0..=text.len() {
        held &= fits(alloc, calls, text, room)?;
    }
    Ok(held)
}

struct Texts;

impl Holds for Texts {
    fn holds(&self, alloc: Global, row: &'static str) -> Result<bool, Fail> {
        let (calls, wanted) = halves(row, '⇒');
        let text = text_of(alloc, wanted)?;
        Ok(fits_everywhere(alloc, calls, text.as_str())?)
    }
}

/// In a room of each size the sink holds what fits.
#[test]
fn json_texts_are_written(rt: HostRuntime) -> Result<(), Fail> {
    for row in TEXTS.split('§') {
        expect(Texts.holds(rt.alloc(), row)?, row)?;
    }
    Ok(())
}

/// Whether a failure of the 4th write is told, and nothing stands behind what was written before it.
fn stops(sink: &mut MemSink) -> Result<bool, AllocError> {
    sink.fail_at(4)?;
    let failed = write(sink, "[|d 10|d 20|]");
    Ok(failed & (sink.bytes() == b"[\n  ".as_slice()))
}

/// Behind a write that fails nothing more is written.
#[test]
fn json_text_stops_at_a_failure(rt: HostRuntime) -> Result<(), Fail> {
    let mut sink = MemSink::new(rt.alloc(), 100)?;
    let held = stops(&mut sink);
    drop(sink);
    expect(held?, "json")
}
