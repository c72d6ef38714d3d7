//! Characters behind a text.
ghost use Rattle.std.specs.Prelude.{◌≡◌, ◌++◌, ◌∷◌, [], chars, string_bytes, OnOk};
ghost use Rattle.std.specs.Option.{option_to_list};

use std::alloc::{AllocError, Global};

/// Puts a character behind a text.
fn push(out: &mut String, c: char) -> Result<(), AllocError>
    ensures { OnOk result (chars (string_bytes out.new) ≡ chars (string_bytes out.old) ++ c ∷ []) }
{
    out.push(c)
}

/// Puts a character behind a text, if there is one.
pub(crate) fn push_some(out: &mut String, c: Option<char>) -> Result<(), AllocError>
    ensures { OnOk result (chars (string_bytes out.new) ≡ chars (string_bytes out.old) ++ option_to_list c) }
{
    match c {
        Some(c) => push(out, c),
        None => Ok(()),
    }
}

/// A text without characters, which may grow.
pub(crate) fn empty_string(alloc: Global) -> String
    ensures { chars (string_bytes result) ≡ [] }
{
    String::new(alloc)
}

/// A text without characters.
pub(crate) fn no_characters() -> &'static str
    ensures { chars result.now ≡ [] }
{
    ""
}
