//! The text of a CDATA section.
ghost use Rattle.std.specs.Prelude.{◌≡◌, ◌==◌, ◌++◌, chars, string_bytes, IfOk, OnOk};
ghost use Rattle.std.specs.List.{list_any};
ghost use Rattle.xml_tokens.specs.Markup.{with_line_feeds};
ghost use Rattle.xml_state.specs.LineEnds as spec;

use std::alloc::{AllocError, Global};

// Whether line ends of the text may have to change.
pub(crate) fn has_carriage_return(text: &str) -> bool
    ensures { result ≡ list_any (λ c. c == 0xD) (chars text.now) }
{
    text.chars().any(|c| c == '\r')
}

// The text with its line ends as LF (XML 1.0, section 2.11).
pub(crate) fn end_lines(alloc: Global, written: &str) -> Result<String, AllocError>
    ensures { IfOk result (λ text. chars (string_bytes text) ≡ with_line_feeds (chars written.now)) }
{
    let mut text = String::new(alloc);
    let mut is_behind_return = false;
    for c in written.chars() {
        push_character(&mut text, is_behind_return, c)?;
        is_behind_return = c == '\r';
    }
    Ok(text)
}

// Adds what a character is where line ends are LF: nothing at a LF behind a CR.
fn push_character(text: &mut String, is_behind_return: bool, c: char) -> Result<(), AllocError>
    ensures { OnOk result (chars (string_bytes text.new) ≡ chars (string_bytes text.old) ++ spec.line_piece is_behind_return c) }
{
    if c == '\r' {
        text.push('\n')?;
        return Ok(());
    }
    if c == '\n' && is_behind_return {
        return Ok(());
    }
    text.push(c)?;
    Ok(())
}
