ghost use Rattle.std.specs.Prelude.{◌≡◌, IfOk, codes, if◌then◌else◌};
ghost use Rattle.std.specs.Str.{bytes_eq};
ghost use Rattle.xpath_tokens.specs.Tokens as spec;
ghost use Rattle.xpath_tokens.specs.declared.token.Name.TheVariants as names;

use crate::pieces::{spells, split};
use crate::spelled::operator_word;
use crate::token::{Keyword, Name, Operator, Place, Token};
use inv_base::Txt;
use std::alloc::{AllocError, Global};

/// The name of a name token.
fn name_of(alloc: Global, word: &[char]) -> Result<Name, AllocError>
    ensures { IfOk result (λ name. name ≡ spec.name_of word.now) }
{
    let (prefix, local) = split(word, ':');
    if prefix.len() >= word.len() {
        return Ok(Name::Plain(Txt::from_characters(alloc, word)?));
    }
    if spells(prefix, b"*") {
        return Ok(Name::AnyPrefix(Txt::from_characters(alloc, local)?));
    }
    let prefix = Txt::from_characters(alloc, prefix)?;
    name_behind(alloc, prefix, local)
}

/// The name of a prefix and what stands behind its colon.
fn name_behind(alloc: Global, prefix: Txt, local: &[char]) -> Result<Name, AllocError>
    ensures { IfOk result (λ name. name ≡ (if bytes_eq local.now (codes "*") then names.AnyLocal prefix else names.Prefixed prefix local.now)) }
{
    if spells(local, b"*") {
        return Ok(Name::AnyLocal(prefix));
    }
    let local = Txt::from_characters(alloc, local)?;
    Ok(Name::Prefixed(prefix, local))
}

/// The keyword that a word is, given the word behind it.
fn keyword_of(word: &[char], next: &[char]) -> Option<Keyword>
    ensures { result ≡ spec.keyword_of word.now next.now }
{
    if spells(next, b"(") {
        if spells(word, b"if") {
            Some(Keyword::If)
        } else {
            None
        }
    } else if !spells(next, b"$") {
        None
    } else if spells(word, b"for") {
        Some(Keyword::For)
    } else if spells(word, b"some") {
        Some(Keyword::Some)
    } else if spells(word, b"every") {
        Some(Keyword::Every)
    } else {
        None
    }
}

/// A keyword, or else a name.
fn named(alloc: Global, word: &[char], next: &[char]) -> Result<Token, AllocError>
    ensures { IfOk result (λ token. token ≡ spec.named word.now next.now) }
{
    match keyword_of(word, next) {
        Some(keyword) => Ok(Token::Keyword(keyword)),
        None => Ok(Token::Name(name_of(alloc, word)?)),
    }
}

/// Whether the subset lacks what the word begins where an operand may stand.
fn is_lacking_operand(word: &[char], next: &[char]) -> bool
    ensures { result ≡ spec.is_lacking_operand word.now next.now }
{
    if spells(next, b"::") {
        return spells(word, b"namespace");
    }
    spells(next, b"(")
        && (spells(word, b"comment")
            || spells(word, b"processing-instruction")
            || spells(word, b"schema-element")
            || spells(word, b"schema-attribute"))
}

/// Whether the subset lacks what the word begins where an operator may stand.
fn is_lacking_operator(word: &[char], next: &[char]) -> bool
    ensures { result ≡ spec.is_lacking_operator word.now next.now }
{
    spells(word, b"is")
        || (spells(word, b"instance") && spells(next, b"of"))
        || (spells(word, b"treat") && spells(next, b"as"))
}

fn operand_token(alloc: Global, word: &[char], next: &[char]) -> Result<Option<Token>, AllocError>
    ensures { IfOk result (λ token. token ≡ spec.operand_token word.now next.now) }
{
    if is_lacking_operand(word, next) {
        return Ok(None);
    }
    Ok(Some(named(alloc, word, next)?))
}

fn operator_token(alloc: Global, word: &[char], next: &[char]) -> Result<Option<Token>, AllocError>
    ensures { IfOk result (λ token. token ≡ spec.operator_token word.now next.now) }
{
    match operator_word(word) {
        Some(operator) => Ok(Some(Token::Operator(operator))),
        None => {
            if is_lacking_operator(word, next) {
                return Ok(None);
            }
            Ok(Some(Token::Name(name_of(alloc, word)?)))
        }
    }
}

/// The token of a name, none where the subset lacks what it begins.
pub fn name_token(
    alloc: Global,
    place: Place,
    word: &[char],
    next: &[char],
) -> Result<Option<Token>, AllocError>
    ensures { IfOk result (λ token. token ≡ spec.name_token place word.now next.now) }
{
    match place {
        Place::Operand => operand_token(alloc, word, next),
        Place::Name => Ok(Some(named(alloc, word, next)?)),
        Place::As => {
            if spells(word, b"as") {
                return Ok(Some(Token::Operator(Operator::As)));
            }
            operand_token(alloc, word, next)
        }
        Place::Operator => operator_token(alloc, word, next),
    }
}
