//! White space of XML around texts.
ghost use Rattle.std.specs.Prelude.{◌≡◌, ℕ, ◌-◌, ◌<◌, ◌≤◌, length, get_or, chars, true, false};
ghost use Rattle.inv_base.specs.Characters as characters;
ghost use Rattle.inv_terms.specs.Values as spec;

use inv_base::is_white_space;

/// Whether a text has no character but white space (XML 1.0, production 3).
pub fn is_blank(text: &str) -> bool
    ensures { result ≡ spec.is_blank (chars text.now) }
{
    text.chars().all(|c| is_white_space(c))
}

/// The text without the white space at both ends (XML 1.0, production 3). White space is ASCII, so it is found by bytes.
pub fn trimmed(text: &str) -> &str
    ensures { chars result.now ≡ spec.trimmed (chars text.now) }
{
    let (_, rest) = text.split_at(count_leading(text.as_bytes()));
    let (kept, _) = rest.split_at(count_kept(rest.as_bytes()));
    kept
}

fn is_white(byte: u8) -> bool
    ensures { result ≡ characters.is_white_space byte }
{
    is_white_space(char::from(byte))
}

// How many bytes of white space a text begins with.
fn count_leading(bytes: &[u8]) -> usize
    ensures bound { result ≤ length bytes.now }
    ensures below { (i : ℕ) → i < result → characters.is_white_space (get_or bytes.now i 0) ≡ true }
    ensures first { result < length bytes.now → characters.is_white_space (get_or bytes.now result 0) ≡ false }
{
    let mut count = 0;
    'bytes: while count < bytes.len() && is_white(bytes[count]) {
        count += 1;
    }
    count
}

// How many bytes stand before the white space at a text's end.
fn count_kept(bytes: &[u8]) -> usize
    ensures bound { result ≤ length bytes.now }
    ensures from { (i : ℕ) → result ≤ i → i < length bytes.now → characters.is_white_space (get_or bytes.now i 0) ≡ true }
    ensures last { 0 < result → characters.is_white_space (get_or bytes.now (result - 1) 0) ≡ false }
{
    let mut kept = bytes.len();
    'bytes: while kept > 0 && is_white(bytes[kept - 1]) {
        kept -= 1;
    }
    kept
}
