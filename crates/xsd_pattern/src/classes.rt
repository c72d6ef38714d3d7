//! Which characters a class has, and what stands for itself.
ghost use Rattle.std.specs.Prelude.{◌≡◌};
ghost use Rattle.std.specs.List.{list_any};
ghost use Rattle.xsd_pattern.specs.Classes as spec;
ghost use Rattle.xsd_pattern.specs.Steps.{has_at};

use crate::token::{Class, Member, Token};
use inv_base::is_char;

pub(crate) fn is_digit(c: char) -> bool
    ensures { result ≡ spec.is_digit c }
{
    '0' <= c && c <= '9'
}

fn is_space(c: char) -> bool
    ensures { result ≡ spec.is_space c }
{
    matches!(c, '\t' | '\n' | '\r' | ' ')
}

fn is_member(member: Member, c: char) -> bool
    ensures { result ≡ spec.is_member c member }
{
    match member {
        Member::Range(low, high) => low <= c && c <= high,
        Member::Digit => is_digit(c),
        Member::NotDigit => !is_digit(c),
        Member::Space => is_space(c),
        Member::NotSpace => !is_space(c),
    }
}

fn is_any_member(members: &[Member], c: char) -> bool
    ensures { result ≡ list_any (spec.is_member c) members.now }
{
    'members: for member in members {
        if is_member(*member, c) {
            return true;
        }
    }
    false
}

/// Whether the class has the character.
fn has(class: &Class, c: char) -> bool
    ensures { result ≡ spec.has class.now c }
{
    class.negated != is_any_member(class.members.as_slice(), c)
}

/// Whether the class of the token at the place has the character, if a place is named.
pub(crate) fn has_at(tokens: &[Token<Class>], place: Option<usize>, c: char) -> bool
    ensures { result ≡ has_at tokens.now place c }
{
    match place {
        None => true,
        Some(place) => match tokens.get(place) {
            Some(Token::Item(class)) => has(class, c),
            _ => false,
        },
    }
}

fn is_special(c: char) -> bool
    ensures { result ≡ spec.is_special c }
{
    matches!(
        c,
        '.' | '\\' | '?' | '*' | '+' | '{' | '}' | '(' | ')' | '[' | ']' | '|' | '^' | '$'
    )
}

/// Whether the character stands for itself.
pub(crate) fn is_plain(c: char) -> bool
    ensures { result ≡ spec.is_plain c }
{
    is_char(c) && !is_special(c)
}

/// Whether the character stands for itself in brackets.
pub(crate) fn is_plain_inside(c: char) -> bool
    ensures { result ≡ spec.is_plain_inside c }
{
    is_char(c) && !matches!(c, '[' | ']' | '\\' | '-' | '^')
}

/// The character that a letter behind a backslash stands for.
pub(crate) fn escaped_one(letter: char) -> Option<char>
    ensures { result ≡ spec.escaped_one letter }
{
    match letter {
        'n' => Some('\n'),
        'r' => Some('\r'),
        't' => Some('\t'),
        _ => {
            if is_special(letter) || letter == '-' {
                Some(letter)
            } else {
                None
            }
        }
    }
}

/// The member of a class that a letter behind a backslash stands for where it isn't one character.
pub(crate) fn escaped_several(letter: char) -> Option<Member>
    ensures { result ≡ spec.escaped_several letter }
{
    match letter {
        'd' => Some(Member::Digit),
        'D' => Some(Member::NotDigit),
        's' => Some(Member::Space),
        'S' => Some(Member::NotSpace),
        _ => None,
    }
}

/// The member of a class that a letter behind a backslash stands for.
pub(crate) fn escaped(letter: char) -> Option<Member>
    ensures { result ≡ spec.escaped letter }
{
    match escaped_one(letter) {
        Some(c) => Some(Member::Range(c, c)),
        None => escaped_several(letter),
    }
}
