//! Tags that are a name of ASCII and nothing else, as most tags are: gone over once, where other tags are gone over for
//! their end, their characters and their names.
ghost use Rattle.std.specs.Prelude.{◌≡◌, ◌≤◌, ◌<◌, ◌∷◌, ◌++◌, [], Bool, not, length, take, position, IfSome, true};
ghost use Rattle.xml_tokens.specs.Ascii as spec;
ghost use Rattle.xml_tokens.specs.Ascii.{IsPlainName};
ghost use Rattle.xml_tokens.specs.Beginnings.{beginning, tag_at, good};
ghost use Rattle.xml_tokens.specs.Markup.{a_start_tag};
ghost use Rattle.xml_tokens.specs.Plain.{plain_token};
ghost use Rattle.xml_tokens.specs.Seen.{seen_token};
ghost use Rattle.xml_tokens.specs.Told.{BeginsTag};
ghost use Rattle.xml_tokens.specs.declared.beginning.Position.{Position};

use crate::ascii::{is_plain_name_char, is_plain_name_start};
use crate::scanning::begins_with;
use crate::token::{StartTag, Token};
use std::alloc::Global;
use std::str;

/// From how many bytes on a name is none that is looked for here.
const TOO_LONG: usize = 1_000;

/// The place of the first byte with which no name goes on.
fn plain_end(bytes: &[u8]) -> Option<usize>
    ensures { result ≡ position (λ b. not (spec.is_plain_name_char b)) bytes.now }
{
    bytes.iter().position(|byte| !is_plain_name_char(*byte))
}

/// How many bytes at the front are an NCName, behind which something else stands.
fn ncname_len(bytes: &[u8]) -> Option<usize>
    ensures within { IfSome result (λ n. n ≤ length bytes.now) }
    ensures name { IfSome result (λ n. spec.is_plain_ncname (take n bytes.now) ≡ true) }
{
    match bytes {
        [first, behind @ ..] if is_plain_name_start(*first) => match plain_end(behind) {
            Some(end) => Some(1 + end),
            None => None,
        },
        _ => None,
    }
}

/// How many bytes at the front are a QName, behind which something else stands.
fn qname_len(bytes: &[u8]) -> Option<usize>
    ensures within { IfSome result (λ n. n ≤ length bytes.now) }
    ensures name { IfSome result (λ n. IsPlainName (take n bytes.now)) }
{
    let prefix = ncname_len(bytes)?;
    match bytes.split_at(prefix).1 {
        [colon, behind @ ..] if *colon == b':' => match ncname_len(behind) {
            Some(local) => Some(prefix + (1 + local)),
            None => None,
        },
        _ => Some(prefix),
    }
}

/// The QName at the front, behind which something else stands, and that.
fn name_at(bytes: &[u8]) -> Option<(&str, &[u8])>
    ensures name { IfSome result (λ found. IsPlainName found.0.now) }
    ensures behind { IfSome result (λ found. bytes.now ≡ found.0.now ++ found.1.now) }
    ensures short { IfSome result (λ found. length found.0.now < 1000) }
{
    let len = qname_len(bytes)?;
    let (front, behind) = bytes.split_at(len);
    if len >= TOO_LONG {
        return None;
    }
    match str::from_utf8(front) {
        Ok(name) => Some((name, behind)),
        Err(_) => None,
    }
}

/// Which sort of tag it is.
#[derive(Clone, Copy)]
pub enum PlainKind {
    Start,
    Empty,
    End,
}

/// A tag that is a name of ASCII and nothing else, and how many bytes it takes.
#[derive(Clone, Copy)]
pub struct PlainTag<'b> {
    /// The name as written, its prefix and colon among it.
    pub name: &'b str,
    /// The length of the tag, in bytes.
    pub len: usize,
    /// Whether it is a start tag, an empty-element tag or an end tag.
    pub kind: PlainKind,
}

impl<'b> PlainTag<'b> {
    /// The tag as a token.
    pub fn token(&self, alloc: Global) -> Token<'b>
        ensures { seen_token result ≡ plain_token self.now }
    {
        match self.kind {
            PlainKind::Start => bare(alloc, self.name, false),
            PlainKind::Empty => bare(alloc, self.name, true),
            PlainKind::End => Token::EndTag(self.name),
        }
    }
}

/// The end tag, by what stands behind its `/`.
fn plain_end_tag(bytes: &[u8]) -> Option<PlainTag<'_>>
    ensures { IfSome result (λ tag. tag_at (0x2F ∷ bytes.now) ≡ good (plain_token tag) tag.len) }
{
    let (name, behind) = name_at(bytes)?;
    if begins_with(b">", behind) {
        Some(PlainTag {
            name,
            len: name.len() + 3,
            kind: PlainKind::End,
        })
    } else {
        None
    }
}

/// A start tag without attributes.
fn bare<'b>(alloc: Global, name: &'b str, is_empty: bool) -> Token<'b>
    ensures { seen_token result ≡ a_start_tag (record { name = name.now; attributes = []; is_empty = is_empty }) }
{
    Token::StartTag(StartTag {
        name,
        attributes: Vec::new(alloc),
        is_empty,
    })
}

/// The start tag or empty-element tag, by what stands behind its `<`.
fn plain_start_tag(bytes: &[u8]) -> Option<PlainTag<'_>>
    ensures tag { IfSome result (λ tag. tag_at bytes.now ≡ good (plain_token tag) tag.len) }
    ensures begins { IfSome result (λ tag. BeginsTag bytes.now) }
{
    let (name, behind) = name_at(bytes)?;
    if begins_with(b">", behind) {
        Some(PlainTag {
            name,
            len: name.len() + 2,
            kind: PlainKind::Start,
        })
    } else if begins_with(b"/>", behind) {
        Some(PlainTag {
            name,
            len: name.len() + 3,
            kind: PlainKind::Empty,
        })
    } else {
        None
    }
}

/// The same of each sort, by what stands behind its `<`.
fn plain_tag_behind(bytes: &[u8]) -> Option<PlainTag<'_>>
    ensures tag { IfSome result (λ tag. tag_at bytes.now ≡ good (plain_token tag) tag.len) }
    ensures begins { IfSome result (λ tag. BeginsTag bytes.now) }
{
    match bytes {
        [first, behind @ ..] if *first == b'/' => plain_end_tag(behind),
        _ => plain_start_tag(bytes),
    }
}

/// The tag that begins at the front of the bytes, where it is a name of ASCII and nothing else. None where it is another
/// tag or isn't whole, or where no tag begins.
pub fn plain_tag(bytes: &[u8]) -> Option<PlainTag<'_>>
    ensures { IfSome result (λ tag. (position : Position) → (ended : Bool) → beginning position ended bytes.now ≡ good (plain_token tag) tag.len) }
{
    match bytes {
        [first, behind @ ..] if *first == b'<' => plain_tag_behind(behind),
        _ => None,
    }
}
