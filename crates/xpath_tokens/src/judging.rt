ghost use Rattle.std.specs.Prelude.{◌≡◌, ◌≤◌, IfOk, length, map, false, ◌==◌, ◌&&◌, ◌<◌, ◌+◌, drop, None, option_map, if◌then◌else◌};
ghost use Rattle.std.specs.List.{list_any};
ghost use Rattle.xpath_tokens.specs.declared.token.Place.TheVariants as place;
ghost use Rattle.xpath_tokens.specs.Scanning as scan;
ghost use Rattle.xpath_tokens.specs.Tokens as spec;

use crate::names::name_token;
use crate::numbers::number_of;
use crate::pieces::spells;
use crate::scanning::{is_digit, is_exponent_mark, is_quote};
use crate::spelled::sign;
use crate::token::{Operator, Place, SyntaxFault, Token};
use inv_base::{Txt, is_name_start};
use std::alloc::{AllocError, Global};

fn is_numeric(word: &[char]) -> bool
    ensures { result ≡ spec.is_numeric word.now }
{
    match word {
        [first, second, ..] => is_digit(*first) || (*first == '.' && is_digit(*second)),
        [first] => is_digit(*first),
        [] => false,
    }
}

/// Whether a numeric word is a double.
fn is_double(word: &[char]) -> bool
    ensures { result ≡ spec.is_double word.now }
{
    word.iter().any(|c| is_exponent_mark(*c))
}

fn is_wide(word: &[char]) -> bool
    ensures { result ≡ spec.is_wide word.now }
{
    is_numeric(word) && !is_double(word) && number_of(word).is_none()
}

/// Whether some word is a number that is too wide.
pub fn has_wide(words: &[&[char]]) -> bool
    ensures { result ≡ list_any spec.is_wide (map (λ word. word.now) words.now) }
{
    'words: for (i, word) in words.iter().enumerate() {
        if is_wide(word) {
            return true;
        }
    }
    false
}

/// Whether the character is a quote directly behind one that was the first of two.
fn is_second(half: bool, c: char, quote: char) -> bool
    ensures { result ≡ (half && c == quote) }
{
    half && c == quote
}

fn begins_string(word: &[char]) -> bool
    ensures { result ≡ spec.begins_string word.now }
{
    match word {
        [first, ..] => is_quote(*first),
        [] => false,
    }
}

/// What a string stands for: what is between its quotes, each doubled one once.
fn string_value(alloc: Global, word: &[char]) -> Result<Txt, AllocError>
    ensures { IfOk result (λ text. text ≡ spec.string_value word.now) }
{
    match word {
        [quote, behind @ ..] => {
            let (inside, _) = behind.split_at(behind.len().saturating_sub(1));
            undoubled(alloc, *quote, inside)
        }
        [] => Txt::from_characters(alloc, word),
    }
}

/// The text with each doubled quote once.
fn undoubled(alloc: Global, quote: char, text: &[char]) -> Result<Txt, AllocError>
    ensures { IfOk result (λ value. value ≡ spec.undoubled quote false text.now) }
{
    let mut value: Vec<char> = Vec::new(alloc);
    let mut half = false;
    'characters: for (i, c) in text.iter().enumerate() {
        if is_second(half, *c, quote) {
            half = false;
        } else {
            value.push(*c)?;
            half = *c == quote;
        }
    }
    Txt::from_characters(alloc, value.as_slice())
}

fn place_behind_operator(operator: Operator) -> Place
    ensures { result ≡ spec.place_behind (Token.Operator operator) }
{
    match operator {
        Operator::As => Place::Name,
        Operator::Cast | Operator::Castable => Place::As,
        _ => Place::Operand,
    }
}

/// What may stand behind a token.
fn place_behind(token: &Token) -> Place
    ensures { result ≡ spec.place_behind token.now }
{
    match token {
        Token::At
        | Token::DoubleColon
        | Token::LeftParenthesis
        | Token::LeftBracket
        | Token::Comma => Place::Operand,
        Token::Dollar => Place::Name,
        Token::Operator(operator) => place_behind_operator(*operator),
        _ => Place::Operator,
    }
}

/// The token of a word, none where the subset lacks it. Next is the word behind, without characters where there is none.
#[tactic(auto, unfolding(crate::specs::Tokens::token_of))]
fn token_of(
    alloc: Global,
    place: Place,
    word: &[char],
    next: &[char],
) -> Result<Option<Token>, AllocError>
    ensures { IfOk result (λ token. token ≡ spec.token_of place word.now next.now) }
{
    if is_numeric(word) {
        return Ok(number_token(word));
    }
    if begins_string(word) {
        return Ok(Some(Token::Literal(string_value(alloc, word)?)));
    }
    if begins_name(word) {
        return name_token(alloc, place, word, next);
    }
    Ok(sign_token(place, word))
}

/// The token of a number, none for a double.
fn number_token(word: &[char]) -> Option<Token>
    ensures { result ≡ (if spec.is_double word.now then None else option_map Token.Number (spec.number_of word.now)) }
{
    if is_double(word) {
        return None;
    }
    match number_of(word) {
        Some(number) => Some(Token::Number(number)),
        None => None,
    }
}

/// Whether a word is a name token.
fn begins_name(word: &[char]) -> bool
    ensures { result ≡ spec.begins_name word.now }
{
    match word {
        [first, _, ..] => is_name_start(*first) || *first == '*',
        [first] => is_name_start(*first),
        [] => false,
    }
}

/// The token of a sign, none where the subset lacks it.
fn sign_token(place: Place, word: &[char]) -> Option<Token>
    ensures { result ≡ spec.sign_token place word.now }
{
    if !spells(word, b"*") {
        return sign(word);
    }
    match place {
        Place::Operator => Some(Token::Operator(Operator::Times)),
        _ => Some(Token::Star),
    }
}

/// The word behind the place, without characters where there is none.
fn next_of<'a>(words: &[&'a [char]], i: usize) -> &'a [char]
    requires { i < length words.now }
    ensures { result.now ≡ spec.first_of (map (λ word. word.now) (drop (i + 1) words.now)) }
{
    match words.get(i + 1) {
        Some(word) => word,
        None => &[],
    }
}

/// The tokens of the words, or the first word that the subset lacks.
pub fn judged(alloc: Global, words: &[&[char]]) -> Result<Vec<Token>, SyntaxFault>
    requires { length words.now ≤ 65536 }
    ensures { scan.Judges result (spec.judged place.Operand 0 (map (λ word. word.now) words.now)) }
{
    let mut tokens: Vec<Token> = Vec::new(alloc);
    let mut place = Place::Operand;
    'words: for (i, word) in words.iter().enumerate() {
        match token_of(alloc, place, word, next_of(words, i))? {
            Some(token) => {
                place = place_behind(&token);
                tokens.push(token)?;
            }
            None => return Err(SyntaxFault::Unsupported(i as u32)),
        }
    }
    Ok(tokens)
}
