//! The declaration (XML 1.0, production 23), by what stands behind `<?xml`.
ghost use Rattle.std.specs.Prelude.{◌≡◌, option_map};
ghost use Rattle.std.specs.List.{list_all};
ghost use Rattle.std.specs.Prelude.{codes};
ghost use Rattle.inv_base.specs.Characters as characters;
ghost use Rattle.xml_tokens.specs.Markup as spec;
ghost use Rattle.xml_tokens.specs.Told.{seen_text, seen_literal, declared};

use crate::literals::{Literal, begins_with_space, behind_white_space, behind_word, literal_at};
use crate::references::spells;

/// The literal behind white space, the word and `=`.
fn declared<'b>(word: &str, text: &'b str) -> Option<Literal<'b>>
    ensures { option_map seen_literal result ≡ declared word.now text.now }
{
    if !begins_with_space(text) {
        return None;
    }
    match behind_word(word, behind_white_space(text)) {
        Some(rest) => literal_at(rest),
        None => None,
    }
}

fn is_version(value: &str) -> bool
    ensures { result ≡ spec.is_version value.now }
{
    spells(value.as_bytes(), b"1.0")
}

fn is_encoding(value: &str) -> bool
    ensures { result ≡ spec.is_encoding value.now }
{
    value.eq_ignore_ascii_case("utf-8")
}

fn is_yes_or_no(value: &str) -> bool
    ensures { result ≡ spec.is_yes_or_no value.now }
{
    spells(value.as_bytes(), b"yes") || spells(value.as_bytes(), b"no")
}

fn behind_version(text: &str) -> Option<&str>
    ensures { option_map seen_text result ≡ spec.behind_declared (codes "version") spec.is_version text.now }
{
    match declared("version", text) {
        Some(literal) if is_version(literal.value) => Some(literal.rest),
        _ => None,
    }
}

fn behind_encoding(text: &str) -> &str
    ensures { result.now ≡ spec.behind_optional (codes "encoding") spec.is_encoding text.now }
{
    match declared("encoding", text) {
        Some(literal) if is_encoding(literal.value) => literal.rest,
        _ => text,
    }
}

fn behind_standalone(text: &str) -> &str
    ensures { result.now ≡ spec.behind_optional (codes "standalone") spec.is_yes_or_no text.now }
{
    match declared("standalone", text) {
        Some(literal) if is_yes_or_no(literal.value) => literal.rest,
        _ => text,
    }
}

/// Whether the text is white space alone.
pub fn is_blank(text: &str) -> bool
    ensures { result ≡ list_all characters.is_white_space text.now }
{
    behind_white_space(text).is_empty()
}

/// Whether the text is the declaration behind its `<?xml`.
#[tactic(auto, unfolding(crate::specs::Markup::is_declaration))]
pub fn is_declaration(text: &str) -> bool
    ensures { result ≡ spec.is_declaration text.now }
{
    match behind_version(text) {
        Some(rest) => is_blank(behind_standalone(behind_encoding(rest))),
        None => false,
    }
}
