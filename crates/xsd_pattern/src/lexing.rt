//! The tokens of a pattern, character by character.
ghost use Rattle.std.specs.Prelude.{◌≡◌, ◌∷◌, ◌++◌, ◌<◌, [], IfOk, IfSome, List, true};
ghost use Rattle.xsd_pattern.specs.declared.token.Member.{Member};
ghost use Rattle.xsd_pattern.specs.declared.token.Class.{Class};
ghost use Rattle.xsd_pattern.specs.declared.token.Token.{Token};
ghost use Rattle.std.specs.Str.{chars};
ghost use Rattle.xsd_pattern.specs.Classes as classes;
ghost use Rattle.xsd_pattern.specs.Lexing as spec;
ghost use Rattle.xsd_pattern.specs.States.{only_if};

use crate::classes::{escaped, escaped_one, escaped_several, is_digit, is_plain, is_plain_inside};
use crate::mode::Mode;
use crate::token::{Class, Member, Repeat, Token};
use inv_base::Many;
use std::alloc::{AllocError, Global};
use std::mem;

/// The token that is a character of its own.
fn sign(c: char) -> Option<Token<Class>>
    ensures { result ≡ spec.sign c }
{
    match c {
        '?' => Some(Token::Quantifier(Repeat::Question)),
        '*' => Some(Token::Quantifier(Repeat::Star)),
        '+' => Some(Token::Quantifier(Repeat::Plus)),
        '(' => Some(Token::Opens),
        ')' => Some(Token::Closes),
        '|' => Some(Token::Bar),
        '^' => Some(Token::Begins),
        '$' => Some(Token::Ends),
        _ => None,
    }
}

/// Where a token goes on that begins with the character.
fn entered(c: char) -> Option<Mode>
    ensures { result ≡ spec.entered c }
{
    match c {
        '\\' => Some(Mode::Escaped),
        '{' => Some(Mode::Least(0, 0)),
        '[' => Some(Mode::Bracket),
        _ => None,
    }
}

/// The class of one member, or of what it has not.
fn class_of(alloc: Global, negated: bool, member: Member) -> Result<Class, AllocError>
    ensures { IfOk result (λ class. class ≡ record { negated = negated; members = member ∷ [] }) }
{
    let mut members = Many::new(alloc);
    members.push(member)?;
    Ok(Class { negated, members })
}

/// A token ends.
fn put(tokens: &mut Many<Token<Class>>, token: Token<Class>) -> Result<Option<Mode>, AllocError>
    ensures { IfOk result (λ next. (next ≡ Some Mode.Between) × (tokens.new ≡ tokens.old ++ token ∷ [])) }
{
    tokens.push(token)?;
    Ok(Some(Mode::Between))
}

fn put_class(
    alloc: Global,
    negated: bool,
    member: Member,
    tokens: &mut Many<Token<Class>>,
) -> Result<Option<Mode>, AllocError>
    ensures { IfOk result (λ next. (next ≡ Some Mode.Between) ×
        (tokens.new ≡ tokens.old ++ Token.Item (record { negated = negated; members = member ∷ [] }) ∷ [])) }
{
    let class = class_of(alloc, negated, member)?;
    put(tokens, Token::Item(class))
}

fn at_item(
    alloc: Global,
    c: char,
    tokens: &mut Many<Token<Class>>,
) -> Result<Option<Mode>, AllocError>
    ensures { IfOk result (λ next. (members : List Member) → spec.Gives (spec.at_item members c) next members tokens.old tokens.new) }
{
    if c == '.' {
        return put_class(alloc, true, Member::Range('\n', '\n'), tokens);
    }
    if is_plain(c) {
        return put_class(alloc, false, Member::Range(c, c), tokens);
    }
    Ok(None)
}

fn at_between(
    alloc: Global,
    c: char,
    tokens: &mut Many<Token<Class>>,
) -> Result<Option<Mode>, AllocError>
    ensures { IfOk result (λ next. (members : List Member) → spec.Gives (spec.at_between members c) next members tokens.old tokens.new) }
{
    match sign(c) {
        Some(token) => put(tokens, token),
        None => match entered(c) {
            Some(mode) => Ok(Some(mode)),
            None => at_item(alloc, c, tokens),
        },
    }
}

fn at_escaped(
    alloc: Global,
    c: char,
    tokens: &mut Many<Token<Class>>,
) -> Result<Option<Mode>, AllocError>
    ensures { IfOk result (λ next. (members : List Member) → spec.Gives (spec.an_item members (classes.escaped c)) next members tokens.old tokens.new) }
{
    match escaped(c) {
        Some(member) => put_class(alloc, false, member, tokens),
        None => Ok(None),
    }
}

fn class_ended(
    alloc: Global,
    negated: bool,
    members: &mut Many<Member>,
    tokens: &mut Many<Token<Class>>,
) -> Result<Option<Mode>, AllocError>
    ensures { IfOk result (λ next. spec.Gives (spec.class_ended negated members.old) next members.new tokens.old tokens.new) }
{
    if members.len() == 0 {
        return Ok(None);
    }
    let members = mem::replace(members, Many::new(alloc));
    put(tokens, Token::Item(Class { negated, members }))
}

fn at_member(
    alloc: Global,
    negated: bool,
    members: &mut Many<Member>,
    c: char,
    tokens: &mut Many<Token<Class>>,
) -> Result<Option<Mode>, AllocError>
    ensures { IfOk result (λ next. spec.Gives (spec.at_member negated members.old c) next members.new tokens.old tokens.new) }
{
    if c == ']' {
        return class_ended(alloc, negated, members, tokens);
    }
    if c == '\\' {
        return Ok(Some(Mode::Escape(negated)));
    }
    if is_plain_inside(c) {
        return Ok(Some(Mode::Got(negated, c)));
    }
    Ok(None)
}

fn ranged(
    negated: bool,
    members: &mut Many<Member>,
    low: char,
    high: char,
) -> Result<Option<Mode>, AllocError>
    ensures { IfOk result (λ next. (tokens : List (Token Class)) → spec.Gives (spec.ranged negated members.old low high) next members.new tokens tokens) }
{
    if low > high {
        return Ok(None);
    }
    members.push(Member::Range(low, high))?;
    Ok(Some(Mode::Inside(negated)))
}

fn at_dash(
    negated: bool,
    members: &mut Many<Member>,
    low: char,
    c: char,
) -> Result<Option<Mode>, AllocError>
    ensures { IfOk result (λ next. (tokens : List (Token Class)) → spec.Gives (spec.at (Mode.Dash negated low) members.old c) next members.new tokens tokens) }
{
    if c == '\\' {
        return Ok(Some(Mode::DashEscape(negated, low)));
    }
    if is_plain_inside(c) {
        return ranged(negated, members, low, c);
    }
    Ok(None)
}

fn at_escape(negated: bool, members: &mut Many<Member>, c: char) -> Result<Option<Mode>, AllocError>
    ensures { IfOk result (λ next. (tokens : List (Token Class)) →
        spec.Gives (spec.escape_ended negated members.old (classes.escaped_one c) (classes.escaped_several c)) next members.new tokens tokens) }
{
    match escaped_one(c) {
        Some(c) => Ok(Some(Mode::Got(negated, c))),
        None => match escaped_several(c) {
            Some(member) => {
                members.push(member)?;
                Ok(Some(Mode::Inside(negated)))
            }
            None => Ok(None),
        },
    }
}

fn at_dash_escape(
    negated: bool,
    members: &mut Many<Member>,
    low: char,
    c: char,
) -> Result<Option<Mode>, AllocError>
    ensures { IfOk result (λ next. (tokens : List (Token Class)) →
        spec.Gives (spec.range_ended negated members.old low (classes.escaped_one c)) next members.new tokens tokens) }
{
    match escaped_one(c) {
        Some(high) => ranged(negated, members, low, high),
        None => Ok(None),
    }
}

fn at_got(
    alloc: Global,
    negated: bool,
    members: &mut Many<Member>,
    before: char,
    c: char,
    tokens: &mut Many<Token<Class>>,
) -> Result<Option<Mode>, AllocError>
    ensures { IfOk result (λ next. spec.Gives (spec.at (Mode.Got negated before) members.old c) next members.new tokens.old tokens.new) }
{
    if c == '-' {
        return Ok(Some(Mode::Dash(negated, before)));
    }
    members.push(Member::Range(before, before))?;
    at_member(alloc, negated, members, c, tokens)
}

/// The value behind one more digit, if there may be one.
fn digit_behind(k: u8, n: u16, c: char) -> Option<u16>
    requires { classes.is_digit c ≡ true }
    ensures value { result ≡ spec.digit_behind k n c }
    ensures few { IfSome result (λ _. k < 4) }
{
    let value = 10 * u32::from(n) + (u32::from(c) - 48);
    if k < 4 && value <= 1_000 {
        Some(value as u16)
    } else {
        None
    }
}

fn at_least(
    k: u8,
    n: u16,
    c: char,
    tokens: &mut Many<Token<Class>>,
) -> Result<Option<Mode>, AllocError>
    ensures { IfOk result (λ next. (members : List Member) → spec.Gives (spec.at_least members k n c) next members tokens.old tokens.new) }
{
    if is_digit(c) {
        return match digit_behind(k, n, c) {
            Some(n) => Ok(Some(Mode::Least(k + 1, n))),
            None => Ok(None),
        };
    }
    if k == 0 {
        return Ok(None);
    }
    match c {
        '}' => put(tokens, Token::Quantifier(Repeat::Counted(n, Some(0)))),
        ',' => Ok(Some(Mode::Most(n, 0, 0))),
        _ => Ok(None),
    }
}

fn most_ended(
    n: u16,
    k: u8,
    m: u16,
    tokens: &mut Many<Token<Class>>,
) -> Result<Option<Mode>, AllocError>
    ensures { IfOk result (λ next. (members : List Member) → spec.Gives (spec.most_ended members n k m) next members tokens.old tokens.new) }
{
    if k == 0 {
        return put(tokens, Token::Quantifier(Repeat::Counted(n, None)));
    }
    if n > m {
        return Ok(None);
    }
    put(tokens, Token::Quantifier(Repeat::Counted(n, Some(m - n))))
}

fn at_most(
    n: u16,
    k: u8,
    m: u16,
    c: char,
    tokens: &mut Many<Token<Class>>,
) -> Result<Option<Mode>, AllocError>
    ensures { IfOk result (λ next. (members : List Member) → spec.Gives (spec.at_most members n k m c) next members tokens.old tokens.new) }
{
    if is_digit(c) {
        return match digit_behind(k, m, c) {
            Some(m) => Ok(Some(Mode::Most(n, k + 1, m))),
            None => Ok(None),
        };
    }
    if c == '}' {
        return most_ended(n, k, m, tokens);
    }
    Ok(None)
}

fn at_bracket(
    alloc: Global,
    members: &mut Many<Member>,
    c: char,
    tokens: &mut Many<Token<Class>>,
) -> Result<Option<Mode>, AllocError>
    ensures { IfOk result (λ next. spec.Gives (spec.at Mode.Bracket members.old c) next members.new tokens.old tokens.new) }
{
    if c == '^' {
        return Ok(Some(Mode::Inside(true)));
    }
    at_member(alloc, false, members, c, tokens)
}

/// Reads one character: the mode behind it, none where no token goes on so.
fn at(
    alloc: Global,
    mode: Mode,
    members: &mut Many<Member>,
    c: char,
    tokens: &mut Many<Token<Class>>,
) -> Result<Option<Mode>, AllocError>
    ensures { IfOk result (λ next. spec.Gives (spec.at mode members.old c) next members.new tokens.old tokens.new) }
{
    match mode {
        Mode::Between => at_between(alloc, c, tokens),
        Mode::Escaped => at_escaped(alloc, c, tokens),
        Mode::Bracket => at_bracket(alloc, members, c, tokens),
        Mode::Inside(negated) => at_member(alloc, negated, members, c, tokens),
        Mode::Got(negated, before) => at_got(alloc, negated, members, before, c, tokens),
        Mode::Dash(negated, low) => at_dash(negated, members, low, c),
        Mode::Escape(negated) => at_escape(negated, members, c),
        Mode::DashEscape(negated, low) => at_dash_escape(negated, members, low, c),
        Mode::Least(k, n) => at_least(k, n, c, tokens),
        Mode::Most(n, k, m) => at_most(n, k, m, c, tokens),
    }
}

fn is_between(mode: Mode) -> bool
    ensures { result ≡ spec.is_between mode }
{
    matches!(mode, Mode::Between)
}

/// Puts the tokens of the text behind the tokens. False where it has a part that is none.
pub(crate) fn read_tokens(
    alloc: Global,
    text: &str,
    tokens: &mut Many<Token<Class>>,
) -> Result<bool, AllocError>
    ensures { IfOk result (λ read. spec.put_before tokens.old (spec.tokens_of (chars text.now)) ≡ only_if read tokens.new) }
{
    let mut mode = Mode::Between;
    let mut members = Many::new(alloc);
    'text: for c in text.chars() {
        mode = match at(alloc, mode, &mut members, c, tokens)? {
            Some(mode) => mode,
            None => return Ok(false),
        };
    }
    Ok(is_between(mode))
}
