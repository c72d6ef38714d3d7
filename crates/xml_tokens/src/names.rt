//! Names as they are written (Namespaces in XML 1.0, productions 4 and 7).
ghost use Rattle.std.specs.Prelude.{◌≡◌, ◌≤◌, ◌<◌, length, drop, chars, position};
ghost use Rattle.std.specs.List.{list_all, position_or_len};
ghost use Rattle.inv_base.specs.Characters as characters;
ghost use Rattle.xml_tokens.specs.WrittenNames as spec;
ghost use Rattle.xml_tokens.specs.Told.{IsFirst};

use crate::ascii::{are_plain_name_chars, is_plain_ncname};
use inv_base::{is_name_char, is_name_start};

/// The first character of a text, and what stands behind it.
pub fn first_of(text: &str) -> Option<(char, &str)>
    ensures { IsFirst text.now result }
{
    let c = text.chars().next()?;
    let (_, behind) = text.split_at(c.len_utf8());
    Some((c, behind))
}

fn are_name_chars(text: &str) -> bool
    ensures { result ≡ list_all characters.is_name_char (chars text.now) }
{
    are_plain_name_chars(text.as_bytes()) || text.chars().all(|c| is_name_char(c))
}

/// NCName, sooner for a name that is ASCII throughout.
pub fn is_ncname(name: &str) -> bool
    ensures { result ≡ spec.is_ncname (chars name.now) }
{
    is_plain_ncname(name.as_bytes()) || is_ncname_of_characters(name)
}

/// NCName, character by character.
fn is_ncname_of_characters(name: &str) -> bool
    ensures { result ≡ spec.is_ncname (chars name.now) }
{
    match first_of(name) {
        Some((first, behind)) => is_name_start(first) && are_name_chars(behind),
        None => false,
    }
}

fn colon(name: &[u8]) -> Option<usize>
    ensures { result ≡ position spec.is_colon name.now }
{
    name.iter().position(|byte| *byte == b':')
}

/// QName.
#[tactic(auto, unfolding(crate::specs::WrittenNames::is_qname))]
pub fn is_qname(name: &str) -> bool
    ensures { result ≡ spec.is_qname name.now }
{
    match colon(name.as_bytes()) {
        Some(place) => {
            let (prefix, rest) = name.split_at(place);
            let (_, local) = rest.split_at(1);
            is_ncname(prefix) && is_ncname(local)
        }
        None => is_ncname(name),
    }
}

/// Whether the byte is white space.
pub fn is_white_space(byte: u8) -> bool
    ensures { result ≡ characters.is_white_space byte }
{
    inv_base::is_white_space(char::from(byte))
}

/// Whether the byte ends a name in a tag. None behind `=` in ASCII does, so that a letter takes one comparison.
#[tactic(auto, unfolding(inv_base::specs::Characters::is_white_space))]
fn ends_name(byte: u8) -> bool
    ensures { result ≡ spec.ends_name byte }
{
    byte <= b'=' && (is_white_space(byte) || byte == b'=' || byte == b'/')
}

fn name_end(bytes: &[u8]) -> Option<usize>
    ensures { result ≡ position spec.ends_name bytes.now }
{
    bytes.iter().position(|byte| ends_name(*byte))
}

/// What stands before the end of a name, and the rest.
pub fn split_name(text: &str) -> (&str, &str)
    ensures name { result.0.now ≡ spec.name_at_front text.now }
    ensures rest { result.1.now ≡ drop (length (spec.name_at_front text.now)) text.now }
{
    match name_end(text.as_bytes()) {
        Some(place) => text.split_at(place),
        None => (text, ""),
    }
}
