//! Documents that a pen writes and a gauge measures, compared with texts that were written by hand.

ghost use Rattle.std.specs.Prelude.{◌≡◌, IfOk};
ghost use Rattle.xml_write.specs.Writers.{state_of};

use crate::texts::{columns, halves, room_for};
use inv_base::{MemSink, Place, Sink};
use std::alloc::{AllocError, Global};
use std::test::Fail;
use test_rows::{Holds, expect, expect_rows};
use xml_events::{Events, NameId, NameTable};
use xml_profile::Reader;
use xml_state::{DOCUMENT_LIMITS, XmlFault};
use xml_write::{Gauge, Nowhere, Pen, PenState, WriteFault, Writer};

const FIRST_LINE: &str = "<?xml version=\"1.0\" encoding=\"UTF-8\"?>\n";

/// The calls of documents, what is written of each between the first line and the last line feed, and how many nodes it
/// has. A row ends with `§`. Of a call the first word says what it is: `<` starts an element, `>` ends one, `@` is an
/// attribute, `^` a declaration of a prefix, `#` a text.
const DOCUMENTS: &str = "\
< a|> a⇒<a/>⇒2§\
< a|# |> a⇒<a/>⇒2§\
< a|@ k=|> a⇒<a k=\"\"/>⇒3§\
< a|#  \t|> a⇒<a> \t</a>⇒3§\
< a|# |# x|# |# y|> a⇒<a>xy</a>⇒3§\
< a|# &<>\"'\t\n\r|> a⇒<a>&amp;&lt;&gt;\"'\t\n&#xD;</a>⇒3§\
< a|@ k=&<>\"'\t\n\r|> a⇒<a k=\"&amp;&lt;&gt;&quot;'&#x9;&#xA;&#xD;\"/>⇒3§\
< a|# R&D, a<b && c]]>d\r\n&amp;|> a⇒<a>R&amp;D, a&lt;b &amp;&amp; c]]&gt;d&#xD;\n&amp;amp;</a>⇒3§\
< a|@ k=1 \"2\"|@ l=\n3|# 4|> a⇒<a k=\"1 &quot;2&quot;\" l=\"&#xA;3\">4</a>⇒5§\
< größe|@ ü=ß€|# 日本 😀|> größe⇒<größe ü=\"ß€\">日本 😀</größe>⇒4§\
< a|< b|> b|< c|< d|# 1|> d|> c|> a⇒<a><b/><c><d>1</d></c></a>⇒6§\
< p|# one |< b|# two|> b|# three|# , four|< br|> br|> p⇒<p>one <b>two</b>three, four<br/></p>⇒7§\
< q:a|^ q=urn:x?a&b|@ q:k=v|< q:b|@ l=w|> q:b|> q:a⇒<q:a xmlns:q=\"urn:x?a&amp;b\" q:k=\"v\"><q:b l=\"w\"/></q:a>⇒5§\
< Invoice|^ =urn:oasis:ubl:Invoice-2|^ cbc=urn:oasis:ubl:Basic-2|< cbc:ID|# A1|> cbc:ID|< cbc:Amount|@ currencyID=EUR|# 10.00|> cbc:Amount|> Invoice\
⇒<Invoice xmlns=\"urn:oasis:ubl:Invoice-2\" xmlns:cbc=\"urn:oasis:ubl:Basic-2\"><cbc:ID>A1</cbc:ID><cbc:Amount currencyID=\"EUR\">10.00</cbc:Amount></Invoice>⇒7";

/// A name by its prefix and its local name.
fn halves_of(name: &str) -> (&str, &str) {
    name.split_once(':').unwrap_or(("", name))
}

fn end<W: Writer, K: Sink>(
    writer: &mut W,
    out: &mut K,
    name: &str,
    state: PenState,
) -> Result<PenState, WriteFault>
    requires { state_of (W.view writer.old) ≡ state }
    ensures { IfOk result (λ behind. state_of (W.view writer.new) ≡ behind) }
{
    if state == PenState::Fresh {
        return Ok(state);
    }
    let (prefix, local) = halves_of(name);
    writer.end_qualified(out, prefix, local)?;
    Ok(PenState::PastTag)
}

fn text<W: Writer, K: Sink>(
    writer: &mut W,
    out: &mut K,
    t: &str,
    state: PenState,
) -> Result<PenState, WriteFault>
    requires { state_of (W.view writer.old) ≡ state }
    ensures { IfOk result (λ behind. state_of (W.view writer.new) ≡ behind) }
{
    if state == PenState::Fresh {
        return Ok(state);
    }
    writer.text(out, t)?;
    Ok(if t.is_empty() {
        state
    } else {
        PenState::PastTag
    })
}

/// An attribute, or a declaration of a prefix.
fn attribute<W: Writer, K: Sink>(
    writer: &mut W,
    out: &mut K,
    declares: bool,
    given: &str,
    state: PenState,
) -> Result<PenState, WriteFault>
    requires { state_of (W.view writer.old) ≡ state }
    ensures { IfOk result (λ behind. state_of (W.view writer.new) ≡ behind) }
{
    if state != PenState::InsideTag {
        return Ok(state);
    }
    let (name, value) = halves(given, '=');
    if declares {
        writer.declare(out, name, value)?;
    } else {
        writer.attribute(out, name, value)?;
    }
    Ok(state)
}

/// Makes a call in this state, and answers the state behind it. What may not be called there is left out.
fn make<W: Writer, K: Sink>(
    writer: &mut W,
    out: &mut K,
    call: &str,
    state: PenState,
) -> Result<PenState, WriteFault>
    requires { state_of (W.view writer.old) ≡ state }
    ensures { IfOk result (λ behind. state_of (W.view writer.new) ≡ behind) }
{
    let (kind, given) = halves(call, ' ');
    match kind {
        "<" => {
            let (prefix, local) = halves_of(given);
            writer.start_qualified(out, prefix, local)?;
            Ok(PenState::InsideTag)
        }
        ">" => end(writer, out, given, state),
        "@" => attribute(writer, out, false, given, state),
        "^" => attribute(writer, out, true, given, state),
        _ => text(writer, out, given, state),
    }
}

/// Makes the calls in order, until one fails.
fn make_all<W: Writer, K: Sink>(
    writer: &mut W,
    out: &mut K,
    calls: &str,
) -> Result<PenState, WriteFault>
    requires { state_of (W.view writer.old) ≡ PenState.Fresh }
    ensures { IfOk result (λ behind. state_of (W.view writer.new) ≡ behind) }
{
    let mut state = PenState::Fresh;
    'calls: for call in calls.split('|') {
        state = make(writer, out, call, state)?;
    }
    Ok(state)
}

fn write<K: Sink>(out: &mut K, calls: &str) -> Result<(), WriteFault> {
    let mut pen = Pen::new();
    match make_all(&mut pen, out, calls)? {
        PenState::PastTag => pen.close(out),
        PenState::Fresh | PenState::InsideTag => Ok(()),
    }
}

fn measure(calls: &str) -> Gauge {
    let mut gauge = Gauge::new();
    let _ = make_all(&mut gauge, &mut Nowhere, calls);
    gauge.close()
}

/// The calls of a row, its root, and how many nodes it has.
fn fields_of(row: &'static str) -> (&'static str, &'static str, u64) {
    let (calls, rest) = halves(row, '⇒');
    let (root, nodes) = halves(rest, '⇒');
    (calls, root, nodes.parse().unwrap_or(0))
}

/// The bytes of the longest tag. No `>` stands in a value.
fn longest_in(text: &str) -> u64 {
    let mut longest = 0;
    for piece in text.split('<').skip(1) {
        let (tag, _) = halves(piece, '>');
        longest = longest.max(tag.len().saturating_add(2));
    }
    longest as u64
}

/// Fails with the first row that doesn't hold, of rows with `§` between them.
fn expect_documents<H: Holds>(alloc: Global, test: &H, rows: &'static str) -> Result<(), Fail> {
    for row in rows.split('§') {
        expect(test.holds(alloc, row)?, row)?;
    }
    Ok(())
}

/// Whether a sink with this room holds what fits of a document, and all is written where all fits.
fn fits(alloc: Global, calls: &str, text: &str, room: usize) -> Result<bool, AllocError> {
    let mut sink = MemSink::new(alloc, room)?;
    let whole = write(&mut sink, calls).is_ok();
    let holds = whole == (room == text.len()) && sink.bytes() == room_for(text, room);
    drop(sink);
    Ok(holds)
}

fn fits_everywhere(alloc: Global, calls: &str, text: &str) -> Result<bool, AllocError> {
    let mut held = true;
    for room in 0..=text.len() {
        held &= fits(alloc, calls, text, room)?;
    }
    Ok(held)
}

fn document_of(alloc: Global, root: &str) -> Result<String, AllocError> {
    format!(in alloc; "{FIRST_LINE}{root}\n")
}

struct Documents;

impl Holds for Documents {
    fn holds(&self, alloc: Global, row: &'static str) -> Result<bool, Fail> {
        let (calls, root, _) = fields_of(row);
        let text = document_of(alloc, root)?;
        Ok(fits_everywhere(alloc, calls, text.as_str())?)
    }
}

/// In a room of each size the sink holds what fits.
#[test]
fn documents_are_written(rt: HostRuntime) -> Result<(), Fail> {
    expect_documents(rt.alloc(), &Documents, DOCUMENTS)
}

struct Sizes;

impl Holds for Sizes {
    fn holds(&self, _: Global, row: &'static str) -> Result<bool, Fail> {
        let (calls, root, nodes) = fields_of(row);
        let gauge = measure(calls);
        let bytes = FIRST_LINE
            .len()
            .saturating_add(root.len())
            .saturating_add(1);
        let sizes = [gauge.bytes, gauge.longest_tag, gauge.nodes];
        Ok(sizes == [bytes as u64, longest_in(root), nodes])
    }
}

#[test]
fn documents_are_measured(rt: HostRuntime) -> Result<(), Fail> {
    expect_documents(rt.alloc(), &Sizes, DOCUMENTS)
}

/// Whether all of a document is written where the write of this number fails. Nothing is told where what is written
/// isn't a front of it.
fn writes_into(
    sink: &mut MemSink,
    calls: &str,
    text: &str,
    failing: u64,
) -> Result<Option<bool>, AllocError> {
    sink.fail_at(failing)?;
    let whole = write(sink, calls).is_ok();
    Ok(text.as_bytes().starts_with(sink.bytes()).then_some(whole))
}

fn writes_all(
    alloc: Global,
    calls: &str,
    text: &str,
    failing: u64,
) -> Result<Option<bool>, AllocError> {
    let mut sink = MemSink::new(alloc, 1000)?;
    let written = writes_into(&mut sink, calls, text, failing);
    drop(sink);
    written
}

/// The number of the last write, where each that fails leaves a front, else 0.
fn last_write(alloc: Global, calls: &str, text: &str) -> Result<u64, AllocError> {
    let mut last = 0u64;
    for failing in 1..150u64 {
        match writes_all(alloc, calls, text, failing)? {
            Some(true) => return Ok(last),
            Some(false) => last = failing,
            None => return Ok(0),
        }
    }
    Ok(last)
}

struct FailedWrites;

impl Holds for FailedWrites {
    fn holds(&self, alloc: Global, row: &'static str) -> Result<bool, Fail> {
        let (calls, root, _) = fields_of(row);
        let text = document_of(alloc, root)?;
        let last = last_write(alloc, calls, text.as_str())?;
        Ok(5 <= last && last < 149)
    }
}

/// Each write fails in turn, up to the first number that no write has.
#[test]
fn a_failed_write_is_a_fault(rt: HostRuntime) -> Result<(), Fail> {
    expect_documents(rt.alloc(), &FailedWrites, DOCUMENTS)
}

fn fail_six(sink: &mut MemSink) -> Result<(), AllocError> {
    for failing in [1, 2, 7, 9, 11, 14] {
        sink.fail_at(failing)?;
    }
    Ok(())
}

/// Which calls of a pen fail, or don't, as they are to.
fn calls_behind_faults(sink: &mut MemSink) -> [bool; 9] {
    let mut pen = Pen::new();
    [
        pen.start(sink, "a").is_err(),
        pen.attribute(sink, "k", "1").is_err(),
        pen.attribute(sink, "l", "2").is_err(),
        pen.text(sink, "3&4").is_err(),
        pen.text(sink, "").is_ok(),
        pen.start(sink, "b").is_err(),
        pen.end(sink, "b").is_ok(),
        pen.end(sink, "a").is_err(),
        pen.close(sink).is_ok(),
    ]
}

fn goes_on(sink: &mut MemSink) -> Result<bool, AllocError> {
    fail_six(sink)?;
    let are_right = calls_behind_faults(sink) == [true; 9];
    let is_written = sink.bytes() == b" l=\"2></></\n".as_slice();
    Ok(are_right & is_written)
}

/// A fault leaves the pen as if the call had written all, and the next call writes again.
#[test]
fn a_pen_goes_on_behind_a_fault(rt: HostRuntime) -> Result<(), Fail> {
    let mut sink = MemSink::new(rt.alloc(), 100)?;
    let held = goes_on(&mut sink);
    drop(sink);
    expect(held?, "pen")
}

/// What takes a document and forgets it.
#[derive(Drop)]
struct Ignoring;

impl Events for Ignoring {
    ghost taken = { λ _ _. Unit {0} };

    fn start(&mut self, _name: NameId, _place: Place) -> Result<(), AllocError> {
        Ok(())
    }

    fn attribute(&mut self, _name: NameId, _value: &str) -> Result<(), AllocError> {
        Ok(())
    }

    fn text(&mut self, _piece: &str, _place: Place) -> Result<(), AllocError> {
        Ok(())
    }

    fn end(&mut self) -> Result<(), AllocError> {
        Ok(())
    }
}

fn names_in(mut reader: Reader, document: &[u8]) -> Result<NameTable, XmlFault> {
    reader.feed(document, &mut Ignoring)?;
    reader.finish(&mut Ignoring)
}

/// The kind of the fault of a document and its place, or `read`.
fn reading(alloc: Global, document: &[u8]) -> Result<String, AllocError> {
    match names_in(Reader::new(alloc, DOCUMENT_LIMITS)?, document) {
        Ok(names) => {
            drop(names);
            String::from_str(alloc, "read")
        }
        Err(fault) => format!(in alloc; "{:?} {}", fault.kind, fault.place.byte),
    }
}

fn reads_as(alloc: Global, document: &[u8], want: &str) -> Result<bool, AllocError> {
    Ok(reading(alloc, document)?.as_str() == want)
}

/// The bytes of a start tag, what stands behind the attribute in the document, and what reading answers. A tag of the
/// greatest length is read, be it of an element with or without children.
const LONG_TAGS: &str = "\
262143||read
262144||read
262145||TagTooLong 39
262143|# x|read
262144|# x|read
262145|# x|TagTooLong 39";

/// The calls of a document whose start tag has this length.
fn push_calls(calls: &mut String, length: u32, inside: &str) -> Result<(), AllocError> {
    let around = if inside.is_empty() { 9 } else { 8 };
    calls.push_str("< a|@ k=")?;
    for _ in around..length {
        calls.push_str("x")?;
    }
    write!(calls, "|{inside}|> a")
}

/// Whether a document is written as long as it is measured, and its longest tag has this length.
fn is_measured(sink: &mut MemSink, calls: &str, length: u32) -> bool {
    let whole = write(sink, calls).is_ok();
    let gauge = measure(calls);
    let sizes = [gauge.longest_tag, gauge.bytes];
    whole && sizes == [u64::from(length), sink.bytes().len() as u64]
}

/// Whether a document is written as long as it is measured, and what is written is read so.
fn is_written_and_read(
    alloc: Global,
    calls: &str,
    length: u32,
    want: &str,
) -> Result<bool, AllocError> {
    let mut sink = MemSink::new(alloc, 300_000)?;
    let is_written = is_measured(&mut sink, calls, length);
    let is_read = reads_as(alloc, sink.bytes(), want);
    drop(sink);
    Ok(is_written & is_read?)
}

struct LongTags;

impl Holds for LongTags {
    fn holds(&self, alloc: Global, row: &'static str) -> Result<bool, Fail> {
        let [length, inside, want, ..] = columns(row, '|');
        let length = length.parse().unwrap_or(0);
        let mut calls = String::new(alloc);
        push_calls(&mut calls, length, inside)?;
        Ok(is_written_and_read(alloc, calls.as_str(), length, want)?)
    }
}

#[test]
fn the_longest_tag_is_written_and_read(rt: HostRuntime) -> Result<(), Fail> {
    expect_rows(rt.alloc(), &LongTags, LONG_TAGS)
}
