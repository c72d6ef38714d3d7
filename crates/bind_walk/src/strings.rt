//! Strings without the white space around them.

ghost use Rattle.std.specs.Prelude.{◌≡◌, chars, bytes_eq};
ghost use Rattle.inv_terms.specs.Values as values;

use inv_base::{Txt, is_same_text};
use inv_terms::trimmed;

/// Whether the string is the text, but for white space around it.
pub(crate) fn is_trimmed(string: &str, text: &Txt) -> bool
    ensures { result ≡ bytes_eq (values.trimmed (chars string.now)) text.now }
{
    is_same_text(trimmed(string), text.as_str())
}
