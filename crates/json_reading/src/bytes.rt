ghost use Rattle.std.specs.Prelude.{◌≡◌};
ghost use Rattle.json_reading.specs.Bytes as spec;

/// White space between the parts of a text.
pub(crate) fn is_space(byte: u8) -> bool
    ensures { result ≡ spec.is_space byte }
{
    matches!(byte, b' ' | b'\t' | b'\n' | b'\r')
}

pub(crate) fn is_digit(byte: u8) -> bool
    ensures { result ≡ spec.is_digit byte }
{
    matches!(byte, b'0'..=b'9')
}

/// A digit of a number to the base 16.
pub(crate) fn is_hex(byte: u8) -> bool
    ensures { result ≡ spec.is_hex byte }
{
    matches!(byte, b'0'..=b'9' | b'A'..=b'F' | b'a'..=b'f')
}

/// What may stand behind a backslash, but for the `u`.
pub(crate) fn is_short(byte: u8) -> bool
    ensures { result ≡ spec.is_short byte }
{
    matches!(byte, b'"' | b'\\' | b'/' | b'b' | b'f' | b'n' | b'r' | b't')
}

pub(crate) fn is_exponent(byte: u8) -> bool
    ensures { result ≡ spec.is_exponent byte }
{
    matches!(byte, b'E' | b'e')
}

pub(crate) fn is_sign(byte: u8) -> bool
    ensures { result ≡ spec.is_sign byte }
{
    matches!(byte, b'+' | b'-')
}
