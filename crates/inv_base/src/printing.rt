ghost use Rattle.std.specs.Prelude.{◌≡◌, ℕ, ◌<◌, ◌≤◌, List, [], ◌∷◌, flat_map, length, take, MatchOption, chars, encode_utf8_all, false};
ghost use Rattle.inv_base.specs.Printing.{Prints};
ghost use Rattle.inv_base.specs.Text.{quoted, quoted_character, is_escaped};

use crate::fronts::{Stops, front_len};
use crate::outside::Sink;
use crate::writing::write_all;
use std::simd::prelude::*;

/// Prints pieces one after another. Behind the first failure it prints nothing more.
#[derive(Drop)]
pub struct Printer {
    pub failed: bool,
}

impl Printer {
    /// A printer that hasn't failed.
    pub fn new() -> Printer
        ensures { result.failed ≡ false }
    {
        Printer { failed: false }
    }

    /// Prints a piece as it stands.
    pub fn put<K: Sink>(&mut self, out: &mut K, piece: &[u8])
        ensures { Prints piece.now self.old.failed self.new.failed (K.view out.old) (K.view out.new) }
    {
        if !self.failed {
            self.failed = write_all(out, piece).is_err();
        }
    }

    /// Prints a text between quotes, in which a backslash stands before a backslash, a quote, and the
    /// letters `n`, `r` and `t` for LF, CR and TAB.
    pub fn put_quoted<K: Sink>(&mut self, out: &mut K, text: &str)
        ensures { Prints (encode_utf8_all (quoted (chars text.now))) self.old.failed self.new.failed (K.view out.old) (K.view out.new) }
    {
        self.put(out, b"\"");
        self.put_escaped(out, text.as_bytes());
        self.put(out, b"\"");
    }

    fn put_escaped<K: Sink>(&mut self, out: &mut K, bytes: &[u8])
        ensures { Prints (flat_map quoted_character bytes.now) self.old.failed self.new.failed (K.view out.old) (K.view out.new) }
    {
        let mut rest = bytes;
        'runs: while let Some((byte, after)) = rest.split_first() {
            match escape_of(*byte) {
                Some(escape) => {
                    self.put(out, escape);
                    rest = after;
                }
                None => {
                    let (run, behind) = rest.split_at(plain_len(rest));
                    self.put(out, run);
                    rest = behind;
                }
            }
        }
    }
}

/// What stands for a byte between quotes, where it doesn't stand for itself.
fn escape_of(byte: u8) -> Option<&'static [u8]>
    ensures { MatchOption result (quoted_character byte ≡ byte ∷ []) (λ escape. (quoted_character byte ≡ escape.now) × (length escape.now ≡ 2)) }
{
    match byte {
        b'\\' => Some(b"\\\\"),
        b'"' => Some(b"\\\""),
        b'\n' => Some(b"\\n"),
        b'\r' => Some(b"\\r"),
        b'\t' => Some(b"\\t"),
        _ => None,
    }
}

/// The bytes that don't stand for themselves.
struct Escaped;

impl Stops for Escaped {
    ghost stops = { is_escaped };

    fn is_stop(byte: u8) -> bool {
        matches!(byte, b'\\' | b'"' | b'\n' | b'\r' | b'\t')
    }

    #[inline(always)]
    fn stops_in(block: u8x16) -> u64 {
        let quotes = block.simd_eq(u8x16::splat(b'\\')) | block.simd_eq(u8x16::splat(b'"'));
        let ends = block.simd_eq(u8x16::splat(b'\n')) | block.simd_eq(u8x16::splat(b'\r'));
        (quotes | ends | block.simd_eq(u8x16::splat(b'\t'))).to_bitmask()
    }
}

/// How many bytes at the front stand for themselves.
fn plain_len(bytes: &[u8]) -> usize
    ensures bound { result ≤ length bytes.now }
    ensures plain { flat_map quoted_character (take result bytes.now) ≡ take result bytes.now }
    ensures progress { (byte : ℕ) (after : List ℕ) → bytes.now ≡ byte ∷ after → quoted_character byte ≡ byte ∷ [] → 0 < result }
{
    front_len::<Escaped>(bytes)
}
