ghost use Rattle.std.specs.Prelude.{◌≡◌, chars};
ghost use Rattle.std.specs.Str.{IsAscii};

use std::str::from_utf8;

/// The text of bytes that are ASCII: each is a character.
pub fn ascii_text(bytes: &[u8]) -> &str
    requires { IsAscii bytes.now }
    ensures bytes { result.now ≡ bytes.now }
    ensures characters { chars result.now ≡ bytes.now }
{
    match from_utf8(bytes) {
        Ok(text) => text,
        Err(_) => unreachable!(),
    }
}
