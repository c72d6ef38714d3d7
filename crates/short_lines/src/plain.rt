ghost use Rattle.std.specs.Prelude.{◌≡◌, true};
ghost use Rattle.inv_base.specs.Text.{is_escaped};
ghost use Rattle.short_lines.specs.Composing.{IsPlain, is_plain};

/// How long a text is at most that is put between quotes in a short one.
const MOST: usize = 72;

/// Whether a text is short, and each of its bytes stands for itself between quotes.
pub fn is_plain(text: &str) -> bool
    ensures exact { result ≡ is_plain text.now }
    ensures plain { result ≡ true → IsPlain text.now }
{
    if MOST < text.len() {
        return false;
    }
    'bytes: for byte in text.as_bytes() {
        if is_escaped(*byte) {
            return false;
        }
    }
    true
}

fn is_escaped(byte: u8) -> bool
    ensures { result ≡ is_escaped byte }
{
    matches!(byte, b'\\' | b'"' | b'\n' | b'\r' | b'\t')
}
