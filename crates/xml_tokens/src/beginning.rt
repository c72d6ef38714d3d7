ghost use Rattle.std.specs.Prelude.{◌≡◌, ◌≢◌, ◌∷◌, ◌&&◌, not, codes, IfOk};
ghost use Rattle.xml_tokens.specs.Beginnings as spec;
ghost use Rattle.xml_tokens.specs.Seen.{Shows};
ghost use Rattle.xml_tokens.specs.References.{reference_at};
ghost use Rattle.xml_tokens.specs.Encoding.{character_at};
ghost use Rattle.xml_tokens.specs.Searching.{Fits, Continues, Keeps};
ghost use Rattle.xml_tokens.specs.Searches.{ends_inside};

use crate::encoding::{Begun, character_at};
use crate::extents::markup_at;
use crate::kind::XmlKind;
use crate::references::{if_char, reference_at};
use crate::scanning::{begins_with, ends_inside};
use crate::search::Search;
use crate::token::Token;
use std::alloc::{AllocError, Global};

/// Where a place is, which decides whether the byte order mark and the declaration may stand there.
#[derive(Clone, Copy, PartialEq, Eq)]
pub enum Position {
    /// At the start of the bytes.
    AtStart,
    /// Right behind the byte order mark.
    BehindMark,
    /// Farther on.
    Farther,
}

/// What begins at a place of the bytes.
#[derive(Debug, Drop)]
pub enum Beginning<'b> {
    /// A token, and how many bytes it takes.
    Good(Token<'b>, usize),
    /// The kind of a fault, and how many bytes show it.
    Bad(XmlKind, usize),
    /// The bytes end before it is either.
    Later,
}

/// A reference, by the bytes behind its `&`.
fn reference_token<'b>(bytes: &'b [u8]) -> Beginning<'b>
    ensures { Shows result (spec.reference_token (reference_at bytes.now)) }
{
    match reference_at(bytes) {
        Begun::Character(c, length) => Beginning::Good(Token::Reference(c), length),
        Begun::Broken(length) => Beginning::Bad(XmlKind::BadReference, length),
        Begun::Unfinished => Beginning::Later,
    }
}

/// Whether the bytes may go on to spell `]>`.
fn may_end(ended: bool, bytes: &[u8]) -> bool
    ensures { result ≡ (not ended && ends_inside (codes "]>") bytes.now) }
{
    !ended && ends_inside(b"]>", bytes)
}

/// A `]`, by the bytes behind it.
fn bracket_at<'b>(ended: bool, bytes: &'b [u8]) -> Beginning<'b>
    ensures { Shows result (spec.bracket_at ended bytes.now) }
{
    if begins_with(b"]>", bytes) {
        Beginning::Bad(XmlKind::BadMarkup, 3)
    } else if may_end(ended, bytes) {
        Beginning::Later
    } else {
        Beginning::Good(Token::Character(']'), 1)
    }
}

/// A CR, by the bytes behind it.
fn line_end_at<'b>(ended: bool, bytes: &'b [u8]) -> Beginning<'b>
    ensures { Shows result (spec.line_end_at ended bytes.now) }
{
    match bytes {
        [first, ..] if *first == b'\n' => Beginning::Good(Token::Character('\n'), 2),
        [_, ..] => Beginning::Good(Token::Character('\n'), 1),
        [] if ended => Beginning::Good(Token::Character('\n'), 1),
        [] => Beginning::Later,
    }
}

/// A character, which is a Char, by its first byte and what follows it.
fn character_token<'b>(byte: u8, bytes: &'b [u8]) -> Beginning<'b>
    ensures { Shows result (spec.character_token (character_at byte bytes.now)) }
{
    match character_at(byte, bytes) {
        Begun::Character(number, length) => match if_char(number) {
            Some(c) => Beginning::Good(Token::Character(c), length),
            None => Beginning::Bad(XmlKind::BadChar, length),
        },
        Begun::Broken(length) => Beginning::Bad(XmlKind::NotUtf8, length),
        Begun::Unfinished => Beginning::Later,
    }
}

/// Whether the bytes begin with the byte order mark, at their start.
fn begins_with_mark(position: Position, bytes: &[u8]) -> bool
    ensures { result ≡ spec.begins_with_mark position bytes.now }
{
    match position {
        Position::AtStart => begins_with(b"\xEF\xBB\xBF", bytes),
        _ => false,
    }
}

/// What begins with another byte than `<`, by that byte and what follows it.
fn text_at<'b>(
    position: Position,
    ended: bool,
    first: u8,
    behind: &'b [u8],
    bytes: &'b [u8],
) -> Beginning<'b>
    requires whole { bytes.now ≡ first ∷ behind.now }
    requires no_markup { first ≢ 0x3C }
    ensures { Shows result (spec.beginning position ended bytes.now) }
{
    match first {
        b'&' => reference_token(behind),
        b']' => bracket_at(ended, behind),
        b'\r' => line_end_at(ended, behind),
        _ if begins_with_mark(position, bytes) => Beginning::Good(Token::Mark, 3),
        _ => character_token(first, behind),
    }
}

/// What begins at the front of the bytes; behind `Later` the search is for the next call.
fn found_at<'b>(
    alloc: Global,
    position: Position,
    ended: bool,
    bytes: &'b [u8],
    search: &mut Search,
) -> Result<Beginning<'b>, AllocError>
    requires { Fits search.old bytes.now }
    ensures answer { IfOk result (λ found. Shows found (spec.beginning position ended bytes.now)) }
    ensures search { IfOk result (λ found. Keeps found search.new bytes.now) }
{
    match bytes {
        [first, behind @ ..] if *first == b'<' => markup_at(alloc, position, behind, search),
        [first, behind @ ..] => Ok(text_at(position, ended, *first, behind, bytes)),
        [] => Ok(Beginning::Later),
    }
}

/// What begins at the front of the bytes, behind which the input has ended or may go on. The search is that of the
/// calls before for the same beginning, with fewer of its bytes; behind `Later` it is for the next call.
pub fn what_begins<'b>(
    alloc: Global,
    position: Position,
    ended: bool,
    bytes: &'b [u8],
    search: &mut Search,
) -> Result<Beginning<'b>, AllocError>
    requires { Fits search.old bytes.now }
    ensures answer { IfOk result (λ found. Shows found (spec.beginning position ended bytes.now)) }
    ensures search { IfOk result (λ found. Continues found search.new bytes.now) }
{
    match found_at(alloc, position, ended, bytes, search) {
        Ok(Beginning::Later) => Ok(Beginning::Later),
        Ok(found) => {
            *search = Search::new();
            Ok(found)
        }
        Err(error) => Err(error),
    }
}
