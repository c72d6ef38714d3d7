//! White space at the ends of a text (XML Schema Part 2, section 4.3.6).
ghost use Rattle.std.specs.Prelude.{◌≡◌, ◌<◌, ◌≤◌, ◌-◌, true, false, chars, length, drop, reverse, slice_index};
ghost use Rattle.std.specs.List.{list_all};
ghost use Rattle.inv_base.specs.Characters.{is_white_space};
ghost use Rattle.xpath_meaning.specs.Reading as spec;
ghost use Rattle.xpath_operators.specs.Spaces.{leading};

/// Whether the byte is white space: TAB, LF, CR or space.
fn is_white_byte(byte: u8) -> bool
    ensures { result ≡ is_white_space byte }
{
    inv_base::is_white_space(char::from(byte))
}

/// How many bytes at the front are white space.
fn leading_white(bytes: &[u8]) -> usize
    ensures { result ≡ leading bytes.now }
{
    'bytes: for (n, byte) in bytes.iter().enumerate() {
        if !is_white_byte(*byte) {
            return n;
        }
    }
    bytes.len()
}

/// How many bytes there are in front of the white space at the end.
fn front_length(bytes: &[u8]) -> usize
    ensures within { result ≤ length bytes.now }
    ensures white { list_all is_white_space (drop result bytes.now) ≡ true }
    ensures stops { 0 < result → is_white_space (slice_index bytes.now (result - 1)) ≡ false }
{
    let mut n = bytes.len();
    'bytes: while n > 0 {
        if !is_white_byte(bytes[n - 1]) {
            return n;
        }
        n -= 1;
    }
    0
}

/// The text behind the white space at its front.
fn without_leading_space(text: &str) -> &str
    ensures { chars result.now ≡ spec.without_leading_space (chars text.now) }
{
    let (_, rest) = text.split_at(leading_white(text.as_bytes()));
    rest
}

/// The text before the white space at its end.
fn without_trailing_space(text: &str) -> &str
    ensures { chars result.now ≡ reverse (spec.without_leading_space (reverse (chars text.now))) }
{
    let (front, _) = text.split_at(front_length(text.as_bytes()));
    front
}

/// The text between the white space at both ends.
pub fn trimmed(text: &str) -> &str
    ensures { chars result.now ≡ spec.trimmed (chars text.now) }
{
    without_trailing_space(without_leading_space(text))
}
