ghost use Rattle.std.specs.Prelude.{◌≡◌, ◌+◌, length, if◌then◌else◌};
ghost use Rattle.xml_write.specs.Canonical.{qualified, declaring_name};
ghost use Rattle.xml_write.specs.Escapes.{escape_of, escaped};
ghost use Rattle.xml_write.specs.Calls.{call_start, call_attribute, call_declare, call_text, call_end, call_close};
ghost use Rattle.xml_write.specs.Sizes.{stopped, tag_stopped, unmeasured, all_stopped, gauged, with_open_tag};

use crate::escape::{Within, reference};
use crate::pen::PenState;
use crate::writer::Writer;
use crate::writing::WriteFault;
use inv_base::Sink;

/// Where the numbers of bytes and of nodes stop: past the limits of each document that is read.
const MOST_MEASURED: u64 = 268_435_456;

/// Where the numbers of a tag's bytes stop: past the limit on tags.
const LONGEST_MEASURED: u64 = 524_288;

/// Measures canonical text that isn't written: its calls are those of a pen, made in the same order.
///
/// The numbers count bytes of UTF-8. Those of bytes and of nodes stop at 256 MiB, those of tags at 512 KiB. A text that no number
/// counts any more isn't looked at, so that a document of any size costs no more than one of 256 MiB and a little for each call.
#[derive(Clone, Copy, PartialEq, Eq)]
pub struct Gauge {
    /// How far a pen would be.
    pub state: PenState,
    /// What came last is a text, so that a further text goes on with it.
    pub in_text: bool,
    /// The bytes of the text so far.
    pub bytes: u64,
    /// The bytes of the start tag that is open, without what is to end it; 0 where none is.
    pub begun_tag: u64,
    /// The bytes of the longest tag that has ended, with its `<` and its `>` or `/>`.
    pub longest_tag: u64,
    /// The nodes: the document, elements, attributes and texts. A namespace declaration is none.
    pub nodes: u64,
}

impl Gauge {
    /// A gauge before the first call.
    pub fn new() -> Gauge
        ensures { result ≡ unmeasured }
    {
        Gauge {
            state: PenState::Fresh,
            in_text: false,
            bytes: 0,
            begun_tag: 0,
            longest_tag: 0,
            nodes: 1,
        }
    }

    /// Ends the document behind its root.
    pub fn close(self) -> Gauge
        ensures { result ≡ gauged self call_close }
    {
        Gauge {
            state: PenState::PastTag,
            bytes: sum(self.bytes, 1),
            ..self.stopped()
        }
    }

    fn stopped(self) -> Gauge
        ensures { result ≡ all_stopped self }
    {
        Gauge {
            state: self.state,
            in_text: self.in_text,
            bytes: sum(self.bytes, 0),
            begun_tag: tag_sum(self.begun_tag, 0),
            longest_tag: tag_sum(self.longest_tag, 0),
            nodes: sum(self.nodes, 0),
        }
    }

    /// The longest tag once a start or a text has ended the open one, if one is.
    fn with_open_tag(self) -> u64
        ensures { result ≡ tag_stopped (with_open_tag self.state self.begun_tag self.longest_tag) }
    {
        match self.state {
            PenState::InsideTag => {
                tag_sum(self.longest_tag.max(self.begun_tag.saturating_add(1)), 0)
            }
            PenState::Fresh | PenState::PastTag => tag_sum(self.longest_tag, 0),
        }
    }

    fn behind_start(self, prefix: &str, local: &str) -> Gauge
        ensures { result ≡ gauged self (call_start (qualified prefix.now local.now)) }
    {
        let name = qualified_length(prefix, local);
        let lead_in = self.state.lead_in().len() as u64;
        Gauge {
            state: PenState::InsideTag,
            in_text: false,
            bytes: sum(sum(self.bytes, lead_in + 1), name),
            begun_tag: tag_sum(name, 1),
            longest_tag: self.with_open_tag(),
            nodes: sum(self.nodes, 1),
        }
    }

    fn behind_attribute(self, name: &str, value: &str) -> Gauge
        ensures { result ≡ gauged self (call_attribute name.now value.now) }
    {
        let length = self.attribute_length(name.len() as u64, value);
        Gauge {
            state: PenState::InsideTag,
            in_text: false,
            bytes: sum(self.bytes, length),
            begun_tag: tag_sum(self.begun_tag, length),
            longest_tag: tag_sum(self.longest_tag, 0),
            nodes: sum(self.nodes, 1),
        }
    }

    fn behind_declare(self, prefix: &str, uri: &str) -> Gauge
        ensures { result ≡ gauged self (call_declare prefix.now uri.now) }
    {
        let length = self.attribute_length(declaring_name_length(prefix), uri);
        Gauge {
            state: PenState::InsideTag,
            in_text: false,
            bytes: sum(self.bytes, length),
            begun_tag: tag_sum(self.begun_tag, length),
            longest_tag: tag_sum(self.longest_tag, 0),
            nodes: sum(self.nodes, 0),
        }
    }

    /// The bytes of an attribute whose name has so many, as far as the gauge counts them: a space, `=` and two quotes stand around
    /// name and value.
    fn attribute_length(self, name: u64, value: &str) -> u64
        ensures bytes { stopped (self.bytes + result) ≡ stopped (self.bytes + (name + (4 + length (escaped Within.Value value.now)))) }
        ensures tag { tag_stopped (self.begun_tag + result) ≡ tag_stopped (self.begun_tag + (name + (4 + length (escaped Within.Value value.now)))) }
    {
        name.saturating_add(4)
            .saturating_add(self.value_length(value))
    }

    /// The bytes of an attribute's value with its escapes, as far as the gauge counts them.
    fn value_length(self, value: &str) -> u64
        ensures bytes { stopped (self.bytes + result) ≡ stopped (self.bytes + length (escaped Within.Value value.now)) }
        ensures tag { tag_stopped (self.begun_tag + result) ≡ tag_stopped (self.begun_tag + length (escaped Within.Value value.now)) }
    {
        if self.bytes < MOST_MEASURED {
            escaped_length(value, Within::Value)
        } else {
            length_in_tag(self.begun_tag, value)
        }
    }

    fn behind_text(self, t: &str) -> Gauge
        ensures { result ≡ gauged self (call_text t.now) }
    {
        if t.is_empty() {
            return self.stopped();
        }
        let lead_in = self.state.lead_in().len() as u64;
        Gauge {
            state: PenState::PastTag,
            in_text: true,
            bytes: bytes_with_text(sum(self.bytes, lead_in), t),
            begun_tag: 0,
            longest_tag: self.with_open_tag(),
            nodes: self.with_text(),
        }
    }

    /// The nodes once a text has come, which is none of its own behind a text.
    fn with_text(self) -> u64
        ensures { result ≡ stopped (if self.in_text then self.nodes else self.nodes + 1) }
    {
        if self.in_text {
            sum(self.nodes, 0)
        } else {
            sum(self.nodes, 1)
        }
    }

    fn behind_end(self, prefix: &str, local: &str) -> Gauge
        ensures { result ≡ gauged self (call_end (qualified prefix.now local.now)) }
    {
        let end_tag = sum(qualified_length(prefix, local), 3);
        let (written, tag) = match self.state {
            PenState::InsideTag => (2, self.begun_tag.saturating_add(2)),
            PenState::Fresh | PenState::PastTag => (end_tag, end_tag),
        };
        Gauge {
            state: PenState::PastTag,
            in_text: false,
            bytes: sum(self.bytes, written),
            begun_tag: 0,
            longest_tag: tag_sum(self.longest_tag.max(tag), 0),
            nodes: sum(self.nodes, 0),
        }
    }
}

/// The sum of two numbers of bytes or of nodes.
fn sum(a: u64, b: u64) -> u64
    ensures { result ≡ stopped (a + b) }
{
    a.saturating_add(b).min(MOST_MEASURED)
}

/// The sum of two numbers of bytes of a tag.
fn tag_sum(a: u64, b: u64) -> u64
    ensures { result ≡ tag_stopped (a + b) }
{
    a.saturating_add(b).min(LONGEST_MEASURED)
}

/// The bytes of a name.
fn qualified_length(prefix: &str, local: &str) -> u64
    ensures { result ≡ stopped (length (qualified prefix.now local.now)) }
{
    if prefix.is_empty() {
        return sum(local.len() as u64, 0);
    }
    sum(sum(prefix.len() as u64, 1), local.len() as u64)
}

fn declaring_name_length(prefix: &str) -> u64
    ensures { result ≡ stopped (length (declaring_name prefix.now)) }
{
    if prefix.is_empty() {
        return 5;
    }
    sum(prefix.len() as u64, 6)
}

/// The bytes of an attribute's value with its escapes, as far as a tag of so many bytes counts them. A value isn't looked at that
/// ends the tag's number without an escape.
fn length_in_tag(begun: u64, value: &str) -> u64
    ensures { tag_stopped (begun + result) ≡ tag_stopped (begun + length (escaped Within.Value value.now)) }
{
    let plain = value.len() as u64;
    if tag_sum(begun, plain) < LONGEST_MEASURED {
        escaped_length(value, Within::Value)
    } else {
        plain
    }
}

/// The bytes once a text has come behind so many. It isn't looked at where they have stopped.
fn bytes_with_text(bytes: u64, text: &str) -> u64
    ensures { result ≡ stopped (bytes + length (escaped Within.Text text.now)) }
{
    if bytes < MOST_MEASURED {
        sum(bytes, escaped_length(text, Within::Text))
    } else {
        MOST_MEASURED
    }
}

/// The bytes of a text with its escapes. One that is too long by itself isn't looked at.
fn escaped_length(text: &str, within: Within) -> u64
    ensures { result ≡ stopped (length (escaped within text.now)) }
{
    let bytes = text.as_bytes();
    if bytes.len() as u64 >= MOST_MEASURED {
        return MOST_MEASURED;
    }
    let mut length = 0u64;
    'bytes: for byte in bytes {
        length += escape_length(*byte, within);
    }
    sum(length, 0)
}

fn escape_length(byte: u8, within: Within) -> u64
    ensures { result ≡ length (escape_of within byte) }
{
    match reference(byte, within) {
        Some(reference) => reference.len() as u64,
        None => 1,
    }
}

impl Writer for Gauge {
    ghost use Rattle.xml_write.specs.Writers.{measuring};

    ghost view = { measuring };

    fn start<K: Sink>(&mut self, _out: &mut K, name: &str) -> Result<(), WriteFault> {
        *self = self.behind_start("", name);
        Ok(())
    }

    fn start_qualified<K: Sink>(
        &mut self,
        _out: &mut K,
        prefix: &str,
        local: &str,
    ) -> Result<(), WriteFault> {
        *self = self.behind_start(prefix, local);
        Ok(())
    }

    fn attribute<K: Sink>(
        &mut self,
        _out: &mut K,
        name: &str,
        value: &str,
    ) -> Result<(), WriteFault> {
        *self = self.behind_attribute(name, value);
        Ok(())
    }

    fn declare<K: Sink>(
        &mut self,
        _out: &mut K,
        prefix: &str,
        uri: &str,
    ) -> Result<(), WriteFault> {
        *self = self.behind_declare(prefix, uri);
        Ok(())
    }

    fn text<K: Sink>(&mut self, _out: &mut K, t: &str) -> Result<(), WriteFault> {
        *self = self.behind_text(t);
        Ok(())
    }

    fn end<K: Sink>(&mut self, _out: &mut K, name: &str) -> Result<(), WriteFault> {
        *self = self.behind_end("", name);
        Ok(())
    }

    fn end_qualified<K: Sink>(
        &mut self,
        _out: &mut K,
        prefix: &str,
        local: &str,
    ) -> Result<(), WriteFault> {
        *self = self.behind_end(prefix, local);
        Ok(())
    }
}
