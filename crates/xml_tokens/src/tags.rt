//! Start tags, empty-element tags and end tags (XML 1.0, productions 40 to 44), by what stands between `<` and `>`.
ghost use Rattle.std.specs.Prelude.{◌≡◌, ◌==◌, ◌&&◌, option_map, IfOk, chars};
ghost use Rattle.std.specs.List.{list_any, list_all};
ghost use Rattle.inv_base.specs.Characters as characters;
ghost use Rattle.xml_tokens.specs.WrittenNames.{is_qname};
ghost use Rattle.xml_tokens.specs.Tags as spec;
ghost use Rattle.xml_tokens.specs.Told.{Tells, seen_found, AreAttributes, without_attributes};

use crate::declaration::is_blank;
use crate::kind::XmlKind;
use crate::literals::{begins_with_space, behind_white_space, behind_word, literal_at};
use crate::names::{is_qname, split_name};
use crate::references::spells;
use crate::token::{Attribute, StartTag, Token};
use crate::values::value_of;
use std::alloc::{AllocError, Global};

/// An attribute as it stands, and what is behind it.
#[derive(Clone, Copy)]
pub struct Found<'b> {
    pub name: &'b str,
    pub value: &'b str,
    pub rest: &'b str,
}

/// The attributes at the front of what stands behind the name of a tag, whether each `&` in their values begins a
/// reference, and what is behind them.
#[derive(Drop)]
pub struct Attributes<'b> {
    pub found: Vec<Attribute<'b>>,
    pub are_right: bool,
    pub rest: &'b str,
}

fn has_less_than(bytes: &[u8]) -> bool
    ensures { result ≡ list_any (λ b. b == 0x3C) bytes.now }
{
    bytes.iter().any(|byte| *byte == b'<')
}

/// The attribute that begins with white space and a name, production 41.
#[tactic(auto, unfolding(crate::specs::Tags::attribute_at))]
fn attribute_at(text: &str) -> Option<Found>
    ensures { option_map seen_found result ≡ spec.attribute_at text.now }
{
    let (name, behind) = split_name(behind_white_space(text));
    if !begins_with_space(text) || !is_qname(name) {
        return None;
    }
    match literal_at(behind) {
        Some(literal) if !has_less_than(literal.value.as_bytes()) => Some(Found {
            name,
            value: literal.value,
            rest: literal.rest,
        }),
        _ => None,
    }
}

/// As many attributes as stand at the front.
fn attributes_at(alloc: Global, text: &str) -> Result<Attributes, AllocError>
    ensures { IfOk result (λ attributes. AreAttributes text.now attributes) }
{
    let mut found: Vec<Attribute> = Vec::new(alloc);
    let mut are_right = true;
    let mut rest = text;
    'attributes: while let Some(attribute) = attribute_at(rest) {
        match value_of(alloc, attribute.value)? {
            Some(value) => found.push(Attribute {
                name: attribute.name,
                value,
            })?,
            None => are_right = false,
        }
        rest = attribute.rest;
    }
    Ok(Attributes {
        found,
        are_right,
        rest,
    })
}

/// The end of a tag behind its attributes: white space, and perhaps a `/`, with which the element is empty.
fn tag_rest(text: &str) -> Option<bool>
    ensures { option_map without_attributes result ≡ spec.tag_rest text.now }
{
    let rest = behind_white_space(text);
    if rest.is_empty() {
        Some(false)
    } else if spells(rest.as_bytes(), b"/") {
        Some(true)
    } else {
        None
    }
}

/// A start tag or an empty-element tag.
fn start_tag(alloc: Global, inside: &str) -> Result<Result<Token, XmlKind>, AllocError>
    ensures { IfOk result (λ read. Tells read (spec.start_tag inside.now)) }
{
    let (name, behind) = split_name(inside);
    if !is_qname(name) {
        return Ok(Err(XmlKind::BadMarkup));
    }
    let attributes = attributes_at(alloc, behind)?;
    match tag_rest(attributes.rest) {
        None => Ok(Err(XmlKind::BadMarkup)),
        Some(_) if !attributes.are_right => Ok(Err(XmlKind::BadReference)),
        Some(is_empty) => Ok(Ok(Token::StartTag(StartTag {
            name,
            attributes: attributes.found,
            is_empty,
        }))),
    }
}

/// Whether this is a name and white space behind it.
fn is_ended_name(name: &str, behind: &str) -> bool
    ensures { result ≡ (is_qname name.now && list_all characters.is_white_space behind.now) }
{
    is_qname(name) && is_blank(behind)
}

/// An end tag, by what stands behind its `/`.
fn end_tag(inside: &str) -> Result<Token, XmlKind>
    ensures { Tells result (spec.end_tag inside.now) }
{
    let (name, behind) = split_name(inside);
    if is_ended_name(name, behind) {
        Ok(Token::EndTag(name))
    } else {
        Err(XmlKind::BadMarkup)
    }
}

/// A tag of any kind.
pub fn tag(alloc: Global, inside: &str) -> Result<Result<Token, XmlKind>, AllocError>
    ensures { IfOk result (λ read. Tells read (spec.tag inside.now)) }
{
    match behind_word("/", inside) {
        Some(name) => Ok(end_tag(name)),
        None => start_tag(alloc, inside),
    }
}
