ghost use Rattle.std.specs.Prelude.{◌≡◌, ◌<◌, ◌≤◌, [], ◌∷◌, ℕ, List, chars, flat_map, length, take, MatchOption, encode_utf8_all};
ghost use Rattle.inv_base.specs.Characters.{is_white_space};
ghost use Rattle.inv_base.specs.Printing.{Prints};
ghost use Rattle.inv_terms.specs.Attachments.{without_white_space};
ghost use Rattle.page_values.specs.Escapes.{escaped_character, in_page, is_marked};
ghost use Rattle.page_values.specs.Seen.{squeezed};

use inv_base::{Printer, Sink, Stops, front_len};
use std::simd::prelude::*;

/// Writes a value's text with its escapes.
pub(crate) fn put_escaped<K: Sink>(text: &str, printer: &mut Printer, out: &mut K)
    ensures { Prints (in_page (chars text.now)) printer.old.failed printer.new.failed (K.view out.old) (K.view out.new) }
{
    put_escaped_bytes(text.as_bytes(), printer, out);
}

fn put_escaped_bytes<K: Sink>(bytes: &[u8], printer: &mut Printer, out: &mut K)
    ensures { Prints (flat_map escaped_character bytes.now) printer.old.failed printer.new.failed (K.view out.old) (K.view out.new) }
{
    let mut rest = bytes;
    'runs: while let Some((byte, after)) = rest.split_first() {
        match reference_for(*byte) {
            Some(reference) => {
                printer.put(out, reference);
                rest = after;
            }
            None => {
                let (run, behind) = rest.split_at(plain_len(rest));
                printer.put(out, run);
                rest = behind;
            }
        }
    }
}

/// What stands for a byte of a value, where it doesn't stand for itself.
fn reference_for(byte: u8) -> Option<&'static [u8]>
    ensures { MatchOption result (escaped_character byte ≡ byte ∷ []) (λ reference. escaped_character byte ≡ reference.now) }
{
    match byte {
        b'&' => Some(b"&amp;"),
        b'<' => Some(b"&lt;"),
        b'>' => Some(b"&gt;"),
        b'"' => Some(b"&quot;"),
        _ => None,
    }
}

/// The bytes that don't stand for themselves.
struct Marked;

impl Stops for Marked {
    ghost stops = { is_marked };

    fn is_stop(byte: u8) -> bool {
        matches!(byte, b'&' | b'<' | b'>' | b'"')
    }

    #[inline(always)]
    fn stops_in(block: u8x16) -> u64 {
        let marks = block.simd_eq(u8x16::splat(b'&')) | block.simd_eq(u8x16::splat(b'<'));
        let quotes = block.simd_eq(u8x16::splat(b'>')) | block.simd_eq(u8x16::splat(b'"'));
        (marks | quotes).to_bitmask()
    }
}

/// How many bytes at the front stand for themselves.
fn plain_len(bytes: &[u8]) -> usize
    ensures bound { result ≤ length bytes.now }
    ensures plain { flat_map escaped_character (take result bytes.now) ≡ take result bytes.now }
    ensures progress { (byte : ℕ) (after : List ℕ) → bytes.now ≡ byte ∷ after → escaped_character byte ≡ byte ∷ [] → 0 < result }
{
    front_len::<Marked>(bytes)
}

/// Writes a text without its white space.
pub(crate) fn put_bare<K: Sink>(text: &str, printer: &mut Printer, out: &mut K)
    ensures { Prints (encode_utf8_all (without_white_space (chars text.now))) printer.old.failed printer.new.failed (K.view out.old) (K.view out.new) }
{
    put_bare_bytes(text.as_bytes(), printer, out);
}

fn put_bare_bytes<K: Sink>(bytes: &[u8], printer: &mut Printer, out: &mut K)
    ensures { Prints (flat_map squeezed bytes.now) printer.old.failed printer.new.failed (K.view out.old) (K.view out.new) }
{
    let mut rest = bytes;
    'runs: while let Some((byte, after)) = rest.split_first() {
        if Blank::is_stop(*byte) {
            rest = after;
        } else {
            let (run, behind) = rest.split_at(bare_len(rest));
            printer.put(out, run);
            rest = behind;
        }
    }
}

/// White space.
struct Blank;

impl Stops for Blank {
    ghost stops = { is_white_space };

    #[tactic(auto, unfolding(inv_base::specs::Characters::is_white_space))]
    fn is_stop(byte: u8) -> bool {
        matches!(byte, b'\t' | b'\n' | b'\r' | b' ')
    }

    #[inline(always)]
    fn stops_in(block: u8x16) -> u64 {
        let ends = block.simd_eq(u8x16::splat(b'\n')) | block.simd_eq(u8x16::splat(b'\r'));
        let spaces = block.simd_eq(u8x16::splat(b'\t')) | block.simd_eq(u8x16::splat(b' '));
        (ends | spaces).to_bitmask()
    }
}

/// How many bytes stand before the first white space.
fn bare_len(bytes: &[u8]) -> usize
    ensures bound { result ≤ length bytes.now }
    ensures plain { flat_map squeezed (take result bytes.now) ≡ take result bytes.now }
    ensures progress { (byte : ℕ) (after : List ℕ) → bytes.now ≡ byte ∷ after → squeezed byte ≡ byte ∷ [] → 0 < result }
{
    front_len::<Blank>(bytes)
}
