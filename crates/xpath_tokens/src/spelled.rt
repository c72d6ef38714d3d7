ghost use Rattle.std.specs.Prelude.{◌≡◌, [], ◌∷◌, take, drop};
ghost use Rattle.xpath_tokens.specs.Tokens as spec;

use crate::pieces::spells;
use crate::token::{Operator, Token};

/// The operator that a word is, where an operator may stand.
pub fn operator_word(word: &[char]) -> Option<Operator>
    ensures { result ≡ spec.entry_of spec.operator_words word.now }
{
    match value_operator(word) {
        Some(operator) => Some(operator),
        None => clause_operator(word),
    }
}

/// The operator between values that a word is.
fn value_operator(word: &[char]) -> Option<Operator>
    ensures { result ≡ spec.entry_of spec.value_words word.now }
{
    match calculating_operator(word) {
        Some(operator) => Some(operator),
        None => comparing_operator(word),
    }
}

/// The logical or arithmetic operator that a word is.
fn calculating_operator(word: &[char]) -> Option<Operator>
    ensures { result ≡ spec.entry_of (take 5 spec.value_words) word.now }
{
    if spells(word, b"and") {
        Some(Operator::And)
    } else if spells(word, b"or") {
        Some(Operator::Or)
    } else if spells(word, b"div") {
        Some(Operator::Div)
    } else if spells(word, b"idiv") {
        Some(Operator::Idiv)
    } else if spells(word, b"mod") {
        Some(Operator::Mod)
    } else {
        None
    }
}

/// The operator that compares values, or makes a sequence, that a word is.
fn comparing_operator(word: &[char]) -> Option<Operator>
    ensures { result ≡ spec.entry_of (drop 5 spec.value_words) word.now }
{
    if spells(word, b"eq") {
        Some(Operator::Eq)
    } else if spells(word, b"ne") {
        Some(Operator::Ne)
    } else if spells(word, b"lt") {
        Some(Operator::Lt)
    } else if spells(word, b"le") {
        Some(Operator::Le)
    } else if spells(word, b"gt") {
        Some(Operator::Gt)
    } else if spells(word, b"ge") {
        Some(Operator::Ge)
    } else if spells(word, b"to") {
        Some(Operator::To)
    } else if spells(word, b"union") {
        Some(Operator::Union)
    } else if spells(word, b"intersect") {
        Some(Operator::Intersect)
    } else if spells(word, b"except") {
        Some(Operator::Except)
    } else {
        None
    }
}

/// The operator inside a clause that a word is.
fn clause_operator(word: &[char]) -> Option<Operator>
    ensures { result ≡ spec.entry_of spec.clause_words word.now }
{
    if spells(word, b"in") {
        Some(Operator::In)
    } else if spells(word, b"return") {
        Some(Operator::Return)
    } else if spells(word, b"satisfies") {
        Some(Operator::Satisfies)
    } else if spells(word, b"then") {
        Some(Operator::Then)
    } else if spells(word, b"else") {
        Some(Operator::Else)
    } else if spells(word, b"cast") {
        Some(Operator::Cast)
    } else if spells(word, b"castable") {
        Some(Operator::Castable)
    } else if spells(word, b"as") {
        Some(Operator::As)
    } else {
        None
    }
}

/// The token of a sign of one character.
fn single_sign(c: char) -> Option<Token>
    ensures { result ≡ spec.entry_of spec.signs (c ∷ []) }
{
    match c {
        '(' => Some(Token::LeftParenthesis),
        ')' => Some(Token::RightParenthesis),
        '[' => Some(Token::LeftBracket),
        ']' => Some(Token::RightBracket),
        ',' => Some(Token::Comma),
        '@' => Some(Token::At),
        '$' => Some(Token::Dollar),
        '.' => Some(Token::Dot),
        '?' => Some(Token::Question),
        '/' => Some(Token::Operator(Operator::Slash)),
        '|' => Some(Token::Operator(Operator::Bar)),
        '+' => Some(Token::Operator(Operator::Plus)),
        '-' => Some(Token::Operator(Operator::Minus)),
        '=' => Some(Token::Operator(Operator::Equal)),
        '<' => Some(Token::Operator(Operator::Less)),
        '>' => Some(Token::Operator(Operator::Greater)),
        _ => None,
    }
}

/// The token of a sign of two characters.
fn double_sign(c: char, d: char) -> Option<Token>
    ensures { result ≡ spec.entry_of spec.signs (c ∷ d ∷ []) }
{
    match (c, d) {
        (':', ':') => Some(Token::DoubleColon),
        ('.', '.') => Some(Token::DoubleDot),
        ('/', '/') => Some(Token::Operator(Operator::DoubleSlash)),
        ('!', '=') => Some(Token::Operator(Operator::NotEqual)),
        ('<', '=') => Some(Token::Operator(Operator::LessOrEqual)),
        ('>', '=') => Some(Token::Operator(Operator::GreaterOrEqual)),
        _ => None,
    }
}

/// The token of a sign, whatever stands before it.
pub fn sign(word: &[char]) -> Option<Token>
    ensures { result ≡ spec.entry_of spec.signs word.now }
{
    match word {
        [c] => single_sign(*c),
        [c, d] => double_sign(*c, *d),
        _ => None,
    }
}
