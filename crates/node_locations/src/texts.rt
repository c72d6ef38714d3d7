//! Pieces of locations, put behind a text.
ghost use Rattle.std.specs.Prelude.{◌≡◌, chars, string_bytes, flat_map};
ghost use Rattle.std.specs.Str.{IsAscii};
ghost use Rattle.std.specs.Option.{ForSome};
ghost use Rattle.std.specs.Prelude.{◌<◌, length, option_map};
ghost use Rattle.xml_events.specs.Events.{name_at};
ghost use Rattle.node_locations.specs.Locations.{doubled, optional_name_test, bracketed};
ghost use Rattle.node_locations.specs.Puts.{Puts};

use itoa::Buffer;
use node_arena::Doc;
use std::alloc::AllocError;
use xml_events::NameId;

/// Puts a text behind another.
fn push_text(text: &str, out: &mut String) -> Result<(), AllocError>
    ensures { Puts result (chars text.now) (chars (string_bytes out.old)) (chars (string_bytes out.new)) }
{
    out.push_str(text)
}

/// Puts a text of ASCII behind another, whose bytes are its characters.
pub(crate) fn push_plain(text: &str, out: &mut String) -> Result<(), AllocError>
    requires { IsAscii text.now }
    ensures { Puts result text.now (chars (string_bytes out.old)) (chars (string_bytes out.new)) }
{
    push_text(text, out)
}

/// Puts a number between brackets behind a text.
pub(crate) fn push_bracketed(number: u32, out: &mut String) -> Result<(), AllocError>
    ensures { Puts result (bracketed number) (chars (string_bytes out.old)) (chars (string_bytes out.new)) }
{
    let mut digits = Buffer::new();
    push_plain("[", out)?;
    push_plain(digits.format(number), out)?;
    push_plain("]", out)
}

/// Puts a text behind another, each of its apostrophes twice.
fn push_doubled(text: &str, out: &mut String) -> Result<(), AllocError>
    ensures { Puts result (flat_map doubled (chars text.now)) (chars (string_bytes out.old)) (chars (string_bytes out.new)) }
{
    'characters: for c in text.chars() {
        push_character(c, out)?;
    }
    Ok(())
}

/// Puts a character behind a text, an apostrophe twice.
fn push_character(c: char, out: &mut String) -> Result<(), AllocError>
    ensures { Puts result (doubled c) (chars (string_bytes out.old)) (chars (string_bytes out.new)) }
{
    if c == '\'' {
        return push_plain("''", out);
    }
    out.push(c)
}

/// Puts a test of a name behind a text, or nothing where there is no name.
pub(crate) fn push_name_test(
    doc: &Doc<'_>,
    name: Option<NameId>,
    out: &mut String,
) -> Result<(), AllocError>
    requires { ForSome name (λ number. number < length doc.now.names) }
    ensures { Puts result (optional_name_test (option_map (name_at doc.now.names) name))
        (chars (string_bytes out.old)) (chars (string_bytes out.new)) }
{
    let Some(id) = name else {
        return Ok(());
    };
    push_plain("*:", out)?;
    push_text(doc.names().local(id), out)?;
    push_plain("[namespace-uri()='", out)?;
    push_doubled(doc.names().uri(id), out)?;
    push_plain("']", out)
}
