ghost use Rattle.std.specs.Prelude.{◌≡◌, ◌≤◌, ◌++◌, ◌∷◌, [], chars, string_bytes, string_len, IfOk, OnOk};
ghost use Rattle.schematron_texts.specs.Walking.{IsMade};

use std::alloc::AllocError;

/// Puts a character behind a text.
pub(crate) fn push(text: &mut String, c: char) -> Result<(), AllocError>
    ensures { OnOk result (chars (string_bytes text.new) ≡ chars (string_bytes text.old) ++ c ∷ []) }
{
    text.push(c)
}

/// Puts a character behind a text, unless it would have more than so many bytes then; answers whether it was put.
pub(crate) fn push_within(text: &mut String, most: usize, c: char) -> Result<bool, AllocError>
    requires { string_len text.old ≤ most }
    ensures made { IfOk result (λ fits. IsMade most fits (chars (string_bytes text.old) ++ c ∷ []) (chars (string_bytes text.new))) }
    ensures within { string_len text.new ≤ most }
{
    if c.len_utf8() > most - text.len() {
        return Ok(false);
    }
    text.push(c)?;
    Ok(true)
}

/// The same of a piece.
pub(crate) fn push_text_within(
    text: &mut String,
    most: usize,
    piece: &str,
) -> Result<bool, AllocError>
    requires { string_len text.old ≤ most }
    ensures made { IfOk result (λ fits. IsMade most fits (chars (string_bytes text.old) ++ chars piece.now) (chars (string_bytes text.new))) }
    ensures within { string_len text.new ≤ most }
{
    if piece.len() > most - text.len() {
        return Ok(false);
    }
    text.push_str(piece)?;
    Ok(true)
}
