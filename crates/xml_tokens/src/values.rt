//! What the values of attributes say (XML 1.0, section 3.3.3).
ghost use Rattle.std.specs.Prelude.{◌≡◌, ◌||◌, ◌&&◌, ◌==◌, ◌∷◌, [], chars, option_map, IfOk, IfSome};
ghost use Rattle.std.specs.List.{list_any};
ghost use Rattle.xml_tokens.specs.References.{reference_at};
ghost use Rattle.xml_tokens.specs.Searches.{begins_with};
ghost use Rattle.xml_tokens.specs.Tags as spec;
ghost use Rattle.xml_tokens.specs.Seen.{seen_value};
ghost use Rattle.xml_tokens.specs.Told.{says_more, says_own, LowFront};

use crate::encoding::Begun;
use crate::names::first_of;
use crate::references::reference_at;
use crate::scanning::begins_with;
use crate::token::Value;
use inv_base::is_white_space;
use std::alloc::{AllocError, Global};

/// What a value has at its front: a character, and how many bytes of what follows belong to it.
#[derive(Clone, Copy)]
pub struct ValuePart {
    pub character: char,
    pub more: usize,
}

/// Whether the byte says something else than it shows: `&`, TAB, LF or CR.
fn says_more(byte: u8) -> bool
    ensures { result ≡ says_more byte }
{
    matches!(byte, b'&' | b'\t' | b'\n' | b'\r')
}

fn any_says_more(bytes: &[u8]) -> bool
    ensures { result ≡ list_any says_more bytes.now }
{
    bytes.iter().any(|byte| says_more(*byte))
}

fn referred_part(bytes: &[u8]) -> Option<ValuePart>
    ensures exact { result ≡ spec.referred_part (reference_at bytes.now) }
    ensures low { IfSome result (λ part. LowFront bytes.now part.more) }
{
    match reference_at(bytes) {
        Begun::Character(character, length) => Some(ValuePart {
            character,
            more: length - 1,
        }),
        _ => None,
    }
}

/// Whether the character and what is behind it begin with CR LF.
fn begins_line_end(c: char, behind: &str) -> bool
    ensures { result ≡ (c == 0xD && begins_with (0xA ∷ []) (chars behind.now)) }
{
    c == '\r' && begins_with(b"\n", behind.as_bytes())
}

/// A reference is its character; CR LF, CR, LF and TAB are one space.
fn value_part(c: char, behind: &str) -> Option<ValuePart>
    ensures exact { result ≡ spec.value_part c (chars behind.now) }
    ensures low { IfSome result (λ part. LowFront behind.now part.more) }
{
    if c == '&' {
        return referred_part(behind.as_bytes());
    }
    if begins_line_end(c, behind) {
        return Some(ValuePart {
            character: ' ',
            more: 1,
        });
    }
    Some(ValuePart {
        character: if is_white_space(c) { ' ' } else { c },
        more: 0,
    })
}

/// What the value says, as a text of its own, none where it holds a `&` that begins no reference.
fn own_value(alloc: Global, value: &str) -> Result<Option<String>, AllocError>
    ensures { IfOk result (λ own. option_map says_own own ≡ spec.value_of 0 (chars value.now)) }
{
    let mut own = String::new(alloc);
    let mut rest = value;
    'characters: while let Some((c, behind)) = first_of(rest) {
        match value_part(c, behind) {
            Some(part) => {
                own.push(part.character)?;
                rest = behind.split_at(part.more).1;
            }
            None => return Ok(None),
        }
    }
    Ok(Some(own))
}

/// What the value says, none where it holds a `&` that begins no reference.
pub fn value_of(alloc: Global, value: &str) -> Result<Option<Value>, AllocError>
    ensures { IfOk result (λ said. option_map seen_value said ≡ spec.value_of 0 (chars value.now)) }
{
    if !any_says_more(value.as_bytes()) {
        return Ok(Some(Value::Lent(value)));
    }
    match own_value(alloc, value)? {
        Some(own) => Ok(Some(Value::Own(own))),
        None => Ok(None),
    }
}
