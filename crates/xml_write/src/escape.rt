ghost use Rattle.std.specs.Prelude.{◌≡◌, ◌+◌, ◌<◌, [], ◌∷◌, ◌++◌, length, take, drop, MatchOption};
ghost use Rattle.inv_base.specs.Writing.{Writes};
ghost use Rattle.xml_write.specs.Escapes.{in_text, in_value, escape_of, escaped};

use crate::writing::{WriteFault, put, put_bytes};
use inv_base::Sink;

/// Where characters stand that may need an escape: in a text, or in the value of an attribute.
#[derive(Clone, Copy)]
pub(crate) enum Within {
    Text,
    Value,
}

/// The reference that stands for a byte of a text, where it can't stand for itself.
#[tactic(auto, unfolding(crate::specs::Escapes::in_text))]
fn reference_in_text(byte: u8) -> Option<&'static str>
    ensures { MatchOption result (in_text byte ≡ byte ∷ []) (λ reference. in_text byte ≡ reference.now) }
{
    match byte {
        b'&' => Some("&amp;"),
        b'<' => Some("&lt;"),
        b'>' => Some("&gt;"),
        b'\r' => Some("&#xD;"),
        _ => None,
    }
}

/// The same for a byte of an attribute's value.
#[tactic(auto, unfolding(crate::specs::Escapes::in_value))]
fn reference_in_value(byte: u8) -> Option<&'static str>
    ensures { MatchOption result (in_value byte ≡ byte ∷ []) (λ reference. in_value byte ≡ reference.now) }
{
    match byte {
        b'"' => Some("&quot;"),
        b'\t' => Some("&#x9;"),
        b'\n' => Some("&#xA;"),
        _ => reference_in_text(byte),
    }
}

pub(crate) fn reference(byte: u8, within: Within) -> Option<&'static str>
    ensures { MatchOption result (escape_of within byte ≡ byte ∷ []) (λ reference. escape_of within byte ≡ reference.now) }
{
    match within {
        Within::Text => reference_in_text(byte),
        Within::Value => reference_in_value(byte),
    }
}

/// Where the first byte stands that can't stand for itself, and the reference that stands for it.
fn next_escape(bytes: &[u8], within: Within) -> Option<(usize, &'static str)>
    ensures { MatchOption result
        (escaped within bytes.now ≡ bytes.now)
        (λ found. (found.0 < length bytes.now)
        × (escaped within bytes.now ≡ take found.0 bytes.now ++ (found.1.now ++ escaped within (drop (found.0 + 1) bytes.now)))) }
{
    'bytes: for (at, byte) in bytes.iter().enumerate() {
        if let Some(reference) = reference(*byte, within) {
            return Some((at, reference));
        }
    }
    None
}

/// Writes the text with its escapes. What stands between two of them goes out at once.
pub(crate) fn put_escaped<K: Sink>(
    out: &mut K,
    text: &str,
    within: Within,
) -> Result<(), WriteFault>
    ensures { Writes result (escaped within text.now) (K.view out.old) (K.view out.new) }
{
    let mut rest = text.as_bytes();
    'runs: while let Some((at, reference)) = next_escape(rest, within) {
        let (run, behind) = rest.split_at(at);
        put_bytes(out, run)?;
        put(out, reference)?;
        rest = behind.split_at(1).1;
    }
    put_bytes(out, rest)
}
