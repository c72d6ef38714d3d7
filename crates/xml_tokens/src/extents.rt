//! Tokens that begin with `<`.
ghost use Rattle.std.specs.Prelude.{◌≡◌, ◌≢◌, ◌+◌, ◌-◌, ◌≤◌, ◌<◌, ◌∷◌, length, take, None, IfOk, IfSome, IfNone, MatchResult, codes};
ghost use Rattle.xml_tokens.specs.Searches as searches;
ghost use Rattle.xml_tokens.specs.Markup as markup;
ghost use Rattle.xml_tokens.specs.Beginnings as spec;
ghost use Rattle.xml_tokens.specs.Seen.{Shows, seen_token};
ghost use Rattle.xml_tokens.specs.Searching.{Fits, Keeps};
ghost use Rattle.xml_tokens.specs.Told as told;

use crate::ascii::are_calm;
use crate::beginning::{Beginning, Position};
use crate::greatest::GREATEST_TAG;
use crate::kind::XmlKind;
use crate::markup::{comment, instruction, section};
use crate::scanning::{TagEnd, begins_with, ends_inside, place_after, shared_front, tag_end};
use crate::search::Search;
use crate::tags::tag;
use crate::token::Token;
use inv_base::is_char;
use std::alloc::{AllocError, Global};
use std::str;

/// Whether all characters of the text are Chars.
fn are_chars(text: &str) -> bool
    ensures { result ≡ told.are_chars text.now }
{
    text.chars().all(|c| is_char(c))
}

/// The same, sooner for a text of calm bytes.
pub fn are_all_chars(text: &str) -> bool
    ensures { result ≡ told.are_chars text.now }
{
    are_calm(text.as_bytes()) || are_chars(text)
}

/// What stands inside an extent as text, or why it is none.
fn text_of(inside: &[u8]) -> Result<&str, XmlKind>
    ensures { MatchResult result (λ text. told.IsRight inside.now text.now) (told.IsWrong inside.now) }
{
    match str::from_utf8(inside) {
        Ok(text) if are_all_chars(text) => Ok(text),
        Ok(_) => Err(XmlKind::BadChar),
        Err(_) => Err(XmlKind::NotUtf8),
    }
}

fn beginning_of<'b>(length: usize, read: Result<Token<'b>, XmlKind>) -> Beginning<'b>
    ensures { result ≡ told.beginning_of length read.entry }
{
    match read {
        Ok(token) => Beginning::Good(token, length),
        Err(kind) => Beginning::Bad(kind, length),
    }
}

/// How much stands before the string that ends an extent, by what is behind the bytes that begin it; where it isn't
/// there yet, that was searched.
fn end_of(string: &[u8], opening: usize, behind: &[u8], search: &mut Search) -> Option<usize>
    requires some { 0 < length string.now }
    requires opening { opening ≤ 9 }
    requires within { search.old.searched - opening ≤ length behind.now }
    requires in_vain { searches.place_of string.now (take (search.old.searched - opening) behind.now) ≡ None }
    ensures exact { result ≡ searches.place_of string.now behind.now }
    ensures within { IfSome result (λ n. n + length string.now ≤ length behind.now) }
    ensures search { IfNone result (search.new ≡ record { searched = opening + length behind.now; quote = None }) }
{
    let end = place_after(string, behind, search.searched_behind(opening));
    if end.is_none() {
        search.reach(opening + behind.len(), None);
    }
    end
}

/// A comment, by the bytes behind its `<!--`.
fn comment_at<'b>(behind: &'b [u8], search: &mut Search) -> Beginning<'b>
    requires { Fits search.old (0x3C ∷ 0x21 ∷ 0x2D ∷ 0x2D ∷ behind.now) }
    ensures answer { Shows result (spec.extent_through (codes "-->") 4 behind.now markup.comment) }
    ensures search { Keeps result search.new (0x3C ∷ 0x21 ∷ 0x2D ∷ 0x2D ∷ behind.now) }
{
    match end_of(b"-->", 4, behind, search) {
        Some(end) => match text_of(behind.split_at(end).0) {
            Ok(inside) => beginning_of(4 + (end + 3), comment(inside)),
            Err(kind) => Beginning::Bad(kind, 4 + (end + 3)),
        },
        None => Beginning::Later,
    }
}

/// A CDATA section, by the bytes behind its `<![CDATA[`.
fn section_at<'b>(behind: &'b [u8], search: &mut Search) -> Beginning<'b>
    requires { Fits search.old (0x3C ∷ 0x21 ∷ 0x5B ∷ 0x43 ∷ 0x44 ∷ 0x41 ∷ 0x54 ∷ 0x41 ∷ 0x5B ∷ behind.now) }
    ensures answer { Shows result (spec.extent_through (codes "]]>") 9 behind.now markup.section) }
    ensures search { Keeps result search.new (0x3C ∷ 0x21 ∷ 0x5B ∷ 0x43 ∷ 0x44 ∷ 0x41 ∷ 0x54 ∷ 0x41 ∷ 0x5B ∷ behind.now) }
{
    match end_of(b"]]>", 9, behind, search) {
        Some(end) => match text_of(behind.split_at(end).0) {
            Ok(inside) => beginning_of(9 + (end + 3), section(inside)),
            Err(kind) => Beginning::Bad(kind, 9 + (end + 3)),
        },
        None => Beginning::Later,
    }
}

/// A processing instruction or the declaration, by the bytes behind its `<?`.
fn instruction_at<'b>(may_declare: bool, behind: &'b [u8], search: &mut Search) -> Beginning<'b>
    requires { Fits search.old (0x3C ∷ 0x3F ∷ behind.now) }
    ensures answer { Shows result (spec.extent_through (codes "?>") 2 behind.now (markup.instruction may_declare)) }
    ensures search { Keeps result search.new (0x3C ∷ 0x3F ∷ behind.now) }
{
    match end_of(b"?>", 2, behind, search) {
        Some(end) => match text_of(behind.split_at(end).0) {
            Ok(inside) => beginning_of(2 + (end + 2), instruction(may_declare, inside)),
            Err(kind) => Beginning::Bad(kind, 2 + (end + 2)),
        },
        None => Beginning::Later,
    }
}

/// How much of one of the strings that may stand behind `<!` the bytes begin with, at most.
fn shared_with_any(bytes: &[u8]) -> usize
    ensures { result ≡ told.shared_with_any bytes.now }
{
    let section = shared_front(b"[CDATA[", bytes).max(shared_front(b"DOCTYPE", bytes));
    shared_front(b"--", bytes).max(section)
}

fn ends_inside_any(bytes: &[u8]) -> bool
    ensures { result ≡ told.ends_inside_any bytes.now }
{
    ends_inside(b"--", bytes) || ends_inside(b"[CDATA[", bytes) || ends_inside(b"DOCTYPE", bytes)
}

/// What begins with `<!`, by the bytes behind it.
fn comment_or_section_at<'b>(bytes: &'b [u8], search: &mut Search) -> Beginning<'b>
    requires { Fits search.old (0x3C ∷ 0x21 ∷ bytes.now) }
    ensures answer { Shows result (spec.comment_or_section_at bytes.now) }
    ensures search { Keeps result search.new (0x3C ∷ 0x21 ∷ bytes.now) }
{
    if begins_with(b"--", bytes) {
        comment_at(bytes.split_at(2).1, search)
    } else if begins_with(b"[CDATA[", bytes) {
        section_at(bytes.split_at(7).1, search)
    } else if begins_with(b"DOCTYPE", bytes) {
        Beginning::Bad(XmlKind::Doctype, 9)
    } else if ends_inside_any(bytes) {
        Beginning::Later
    } else {
        Beginning::Bad(XmlKind::BadMarkup, 3 + shared_with_any(bytes))
    }
}

/// The tag of so many bytes, by what stands inside.
fn ended_tag<'b>(
    alloc: Global,
    length: usize,
    inside: &'b [u8],
) -> Result<Beginning<'b>, AllocError>
    ensures { IfOk result (λ found. told.ShowsTag found length inside.now) }
{
    match text_of(inside) {
        Ok(text) => match tag(alloc, text) {
            Ok(read) => Ok(beginning_of(length, read)),
            Err(error) => Err(error),
        },
        Err(kind) => Ok(Beginning::Bad(kind, length)),
    }
}

/// A tag, by where it ends.
fn tag_at<'b>(
    alloc: Global,
    bytes: &'b [u8],
    search: &mut Search,
) -> Result<Beginning<'b>, AllocError>
    requires fits { Fits search.old (0x3C ∷ bytes.now) }
    requires is_tag { told.BeginsTag bytes.now }
    ensures answer { IfOk result (λ found. Shows found (spec.tag_at bytes.now)) }
    ensures search { IfOk result (λ found. Keeps found search.new (0x3C ∷ bytes.now)) }
{
    match tag_end(bytes, search.searched_behind(1), search.open_quote()) {
        TagEnd::Behind(end) => ended_tag(alloc, end + 2, bytes.split_at(end).0),
        TagEnd::NoneWithin => Ok(Beginning::Bad(XmlKind::TagTooLong, GREATEST_TAG)),
        TagEnd::NoneYet(quote) => {
            search.reach(1 + bytes.len(), quote);
            Ok(Beginning::Later)
        }
    }
}

/// Whether the declaration may stand there.
pub fn may_declare(position: Position) -> bool
    ensures { result ≡ spec.may_declare position }
{
    match position {
        Position::AtStart | Position::BehindMark => true,
        Position::Farther => false,
    }
}

/// What begins with `<`, by the bytes behind it.
pub fn markup_at<'b>(
    alloc: Global,
    position: Position,
    bytes: &'b [u8],
    search: &mut Search,
) -> Result<Beginning<'b>, AllocError>
    requires { Fits search.old (0x3C ∷ bytes.now) }
    ensures answer { IfOk result (λ found. Shows found (spec.markup_at position bytes.now)) }
    ensures search { IfOk result (λ found. Keeps found search.new (0x3C ∷ bytes.now)) }
{
    match bytes {
        [] => Ok(Beginning::Later),
        [first, behind @ ..] => match *first {
            b'!' => Ok(comment_or_section_at(behind, search)),
            b'?' => Ok(instruction_at(may_declare(position), behind, search)),
            _ => tag_at(alloc, bytes, search),
        },
    }
}
