//! Comments, CDATA sections, processing instructions and the declaration, by what stands inside them.
ghost use Rattle.std.specs.Prelude.{◌≡◌, ◌==◌, ◌||◌, ◌&&◌, ◌++◌, ◌-◌, length, chars, codes, is_none, slice_index};
ghost use Rattle.xml_tokens.specs.Searches.{place_of};
ghost use Rattle.xml_tokens.specs.Markup as spec;
ghost use Rattle.xml_tokens.specs.WrittenNames.{is_colon};
ghost use Rattle.inv_base.specs.Characters as characters;
ghost use Rattle.xml_tokens.specs.Told.{Tells, IsTarget, aside_if};

use crate::declaration::is_declaration;
use crate::kind::XmlKind;
use crate::names::{first_of, is_ncname};
use crate::references::spells;
use crate::scanning::place_after;
use crate::token::{Section, Token};
use inv_base::{is_name_char, is_white_space};

fn ends_in_hyphen(bytes: &[u8]) -> bool
    ensures { result ≡ (slice_index bytes.now (length bytes.now - 1) == 0x2D) }
{
    match bytes {
        [.., last] => *last == b'-',
        [] => false,
    }
}

/// Whether no `--` stands inside, also not with the first `-` of the comment's end.
fn is_comment(inside: &[u8]) -> bool
    ensures { result ≡ is_none (place_of (codes "--") (inside.now ++ codes "-")) }
{
    place_after(b"--", inside, 0).is_none() && !ends_in_hyphen(inside)
}

/// A comment, production 15.
pub fn comment(inside: &str) -> Result<Token, XmlKind>
    ensures { Tells result (spec.comment inside.now) }
{
    aside_if(is_comment(inside.as_bytes()), XmlKind::BadMarkup)
}

/// A CDATA section, production 18.
pub fn section(inside: &str) -> Result<Token, XmlKind>
    ensures { Tells result (spec.section inside.now) }
{
    Ok(Token::Section(Section { written: inside }))
}

/// Whether the character may go on a target.
pub fn is_target_char(c: char) -> bool
    ensures { result ≡ (is_colon c || characters.is_name_char c) }
{
    c == ':' || is_name_char(c)
}

/// The target of an instruction, and the rest.
fn split_target(inside: &str) -> (&str, &str)
    ensures { IsTarget inside.now result.0.now result.1.now }
{
    let mut rest = inside;
    'characters: while let Some((c, behind)) = first_of(rest) {
        if !is_target_char(c) {
            break;
        }
        rest = behind;
    }
    inside.split_at(inside.len() - rest.len())
}

fn is_target(target: &str) -> bool
    ensures { result ≡ spec.is_target (chars target.now) }
{
    is_ncname(target) && !target.eq_ignore_ascii_case("xml")
}

/// Whether nothing stands behind the target, or white space first.
fn ends_target(rest: &str) -> bool
    ensures { result ≡ spec.ends_target (chars rest.now) }
{
    match first_of(rest) {
        Some((c, _)) => is_white_space(c),
        None => true,
    }
}

/// Whether the target and what is behind it are an instruction.
fn is_instruction(target: &str, rest: &str) -> bool
    ensures { result ≡ (spec.is_target (chars target.now) && spec.ends_target (chars rest.now)) }
{
    is_target(target) && ends_target(rest)
}

/// Whether what is behind `<?xml` is a declaration, where it may stand.
fn declares(may_declare: bool, rest: &str) -> bool
    ensures { result ≡ (may_declare && spec.is_declaration rest.now) }
{
    may_declare && is_declaration(rest)
}

/// An aside, or why it is none.
fn aside_if<'b>(right: bool, kind: XmlKind) -> Result<Token<'b>, XmlKind>
    ensures { result ≡ aside_if right kind }
{
    if right { Ok(Token::Aside) } else { Err(kind) }
}

/// A processing instruction, production 16, or with the target `xml` the declaration, where it may stand.
pub fn instruction(may_declare: bool, inside: &str) -> Result<Token, XmlKind>
    ensures { Tells result (spec.instruction may_declare inside.now) }
{
    let (target, rest) = split_target(inside);
    if spells(target.as_bytes(), b"xml") {
        aside_if(declares(may_declare, rest), XmlKind::BadDeclaration)
    } else {
        aside_if(is_instruction(target, rest), XmlKind::BadMarkup)
    }
}
