ghost use Rattle.std.specs.Prelude.{◌≡◌, ◌≤◌, ◌<◌, ◌+◌, ◌^◌, ◌==◌, ◌||◌, [], ◌∷◌, length, false, IfSome};
ghost use Rattle.std.specs.List.{prefix_len};
ghost use Rattle.inv_base.specs.Characters as chars;
ghost use Rattle.xpath_tokens.specs.Longest.{longest, longest_length};
ghost use Rattle.xpath_tokens.specs.Words as spec;
ghost use Rattle.xpath_tokens.specs.Scanning as scan;

use inv_base::{is_name_char, is_name_start};

pub fn is_digit(c: char) -> bool
    ensures { result ≡ spec.is_digit c }
{
    c >= '0' && c <= '9'
}

pub fn is_exponent_mark(c: char) -> bool
    ensures { result ≡ spec.is_exponent_mark c }
{
    c == 'e' || c == 'E'
}

fn is_sign(c: char) -> bool
    ensures { result ≡ spec.is_sign c }
{
    c == '+' || c == '-'
}

/// How many characters of a name the text begins with.
fn name_characters(text: &[char]) -> usize
    ensures exact { result ≡ prefix_len chars.is_name_char text.now }
    ensures within { result ≤ length text.now }
{
    for (i, c) in text.iter().enumerate() {
        if !is_name_char(*c) {
            return i;
        }
    }
    text.len()
}

/// How many digits the text begins with.
pub fn digits(text: &[char]) -> usize
    ensures exact { result ≡ prefix_len spec.is_digit text.now }
    ensures within { result ≤ length text.now }
{
    for (i, c) in text.iter().enumerate() {
        if !is_digit(*c) {
            return i;
        }
    }
    text.len()
}

#[tactic(auto, unfolding(crate::specs::Scanning::ncname_at))]
fn ncname_length(text: &[char]) -> Option<usize>
    ensures exact { result ≡ scan.ncname_at text.now }
    ensures within { IfSome result (λ n. n ≤ length text.now) }
{
    match text {
        [first, behind @ ..] if is_name_start(*first) => Some(1 + name_characters(behind)),
        _ => None,
    }
}

/// Behind the colon of a name.
#[tactic(auto, unfolding(crate::specs::Scanning::local_at))]
fn local_length(text: &[char]) -> Option<usize>
    ensures exact { result ≡ scan.local_at text.now }
    ensures within { IfSome result (λ n. n ≤ length text.now) }
{
    match text {
        ['*', ..] => Some(1),
        [_, ..] => ncname_length(text),
        [] => None,
    }
}

/// Behind the prefix of a name.
#[tactic(auto, unfolding(crate::specs::Scanning::local_part_at))]
fn local_part_length(text: &[char]) -> Option<usize>
    ensures exact { result ≡ scan.local_part_at text.now }
    ensures within { IfSome result (λ n. n ≤ length text.now) }
{
    match text {
        [':', local @ ..] => Some(1 + local_length(local)?),
        _ => None,
    }
}

/// Behind `*`, the prefix of a name.
#[tactic(auto, unfolding(crate::specs::Scanning::any_prefix_at))]
fn any_prefix_length(text: &[char]) -> Option<usize>
    ensures exact { result ≡ scan.any_prefix_at text.now }
    ensures within { IfSome result (λ n. n ≤ length text.now) }
{
    match text {
        [':', local @ ..] => Some(1 + ncname_length(local)?),
        _ => None,
    }
}

/// Behind a name of so many characters, which may be a prefix.
#[tactic(auto, unfolding(crate::specs::Scanning::prefixed_at))]
fn prefixed_length(text: &[char], name: usize) -> usize
    requires { name ≤ length text.now }
    ensures exact { Some result ≡ scan.prefixed_at (Some name) text.now }
    ensures within { result ≤ length text.now }
{
    let (_, behind) = text.split_at(name);
    match local_part_length(behind) {
        Some(n) => name + n,
        None => name,
    }
}

#[tactic(auto, unfolding(crate::specs::Scanning::name_at, crate::specs::Scanning::prefixed_at))]
fn name_length(text: &[char]) -> Option<usize>
    ensures exact { result ≡ scan.name_at text.now }
    ensures within { IfSome result (λ n. n ≤ length text.now) }
{
    match text {
        ['*', behind @ ..] => Some(1 + any_prefix_length(behind)?),
        [_, ..] => Some(prefixed_length(text, ncname_length(text)?)),
        [] => None,
    }
}

#[tactic(auto, unfolding(crate::specs::Scanning::digits_at))]
fn some_digits(text: &[char]) -> Option<usize>
    ensures exact { result ≡ scan.digits_at text.now }
    ensures within { IfSome result (λ n. n ≤ length text.now) }
{
    match digits(text) {
        0 => None,
        n => Some(n),
    }
}

/// Behind the mark of an exponent.
#[tactic(auto, unfolding(crate::specs::Scanning::signed_digits_at))]
fn signed_digits(text: &[char]) -> Option<usize>
    ensures exact { result ≡ scan.signed_digits_at text.now }
    ensures within { IfSome result (λ n. n ≤ length text.now) }
{
    match text {
        [first, behind @ ..] if is_sign(*first) => Some(1 + some_digits(behind)?),
        [_, ..] => some_digits(text),
        [] => None,
    }
}

#[tactic(auto, unfolding(crate::specs::Scanning::exponent_at))]
fn exponent_length(text: &[char]) -> Option<usize>
    ensures exact { result ≡ scan.exponent_at text.now }
    ensures within { IfSome result (λ n. n ≤ length text.now) }
{
    match text {
        [first, behind @ ..] if is_exponent_mark(*first) => Some(1 + signed_digits(behind)?),
        _ => None,
    }
}

/// So many digits, and the exponent behind them, where there is one.
#[tactic(auto, unfolding(crate::specs::Scanning::with_exponent))]
fn length_with_exponent(text: &[char], digits: usize) -> usize
    requires { digits ≤ length text.now }
    ensures exact { result ≡ scan.with_exponent digits text.now }
    ensures within { result ≤ length text.now }
{
    let (_, behind) = text.split_at(digits);
    match exponent_length(behind) {
        Some(n) => digits + n,
        None => digits,
    }
}

/// What stands behind the digits at the front of a number: how long the number is with these.
#[tactic(auto, unfolding(crate::specs::Scanning::number_rest_at))]
fn number_rest_length(behind: &[char], whole: usize) -> Option<usize>
    requires { whole + length behind.now < 2 ^ 64 }
    ensures exact { result ≡ scan.number_rest_at whole behind.now }
    ensures within { IfSome result (λ n. n ≤ whole + length behind.now) }
{
    match behind {
        ['.', fraction @ ..] => {
            let digits = digits(fraction);
            if whole + digits == 0 {
                return None;
            }
            Some(whole + (1 + length_with_exponent(fraction, digits)))
        }
        _ if whole == 0 => None,
        [_, ..] => match exponent_length(behind) {
            Some(n) => Some(whole + n),
            None => Some(whole),
        },
        [] => Some(whole),
    }
}

/// A number or a double.
#[tactic(auto, unfolding(crate::specs::Scanning::number_at))]
fn number_length(text: &[char]) -> Option<usize>
    ensures exact { result ≡ scan.number_at text.now }
    ensures within { IfSome result (λ n. n ≤ length text.now) }
{
    let whole = digits(text);
    let (_, behind) = text.split_at(whole);
    number_rest_length(behind, whole)
}

/// Whether the character is a sign by itself.
fn is_sign_of_one(c: char) -> bool
    ensures { result ≡ spec.is_sign_of_one c }
{
    matches!(
        c,
        '(' | ')'
            | '['
            | ']'
            | ','
            | '@'
            | '$'
            | '.'
            | '?'
            | '*'
            | '/'
            | '|'
            | '+'
            | '-'
            | '='
            | '<'
            | '>'
    )
}

/// Whether the characters are a sign together.
fn is_sign_of_two(c: char, d: char) -> bool
    ensures { result ≡ spec.is_sign_of_two (c ∷ d ∷ []) }
{
    matches!(
        (c, d),
        (':', ':')
            | ('.', '.')
            | ('/', '/')
            | ('!', '=')
            | ('<', '=')
            | ('>', '=')
            | ('<', '<')
            | ('>', '>')
    )
}

#[tactic(auto, unfolding(crate::specs::Scanning::symbol_at))]
fn symbol_length(text: &[char]) -> Option<usize>
    ensures exact { result ≡ scan.symbol_at text.now }
    ensures within { IfSome result (λ n. n ≤ length text.now) }
{
    match text {
        [first, second, ..] if is_sign_of_two(*first, *second) => Some(2),
        [first, ..] if is_sign_of_one(*first) => Some(1),
        _ => None,
    }
}

/// Behind the opening quote of a string, the longest text that closes it: a quote that isn't doubled ends it.
fn closing_length(quote: char, text: &[char]) -> Option<usize>
    ensures exact { result ≡ longest (spec.closes quote false) text.now }
    ensures within { IfSome result (λ n. n ≤ length text.now) }
{
    let mut end = None;
    let mut closed = false;
    'characters: for (i, c) in text.iter().enumerate() {
        if *c != quote {
            if closed {
                return end;
            }
        } else if closed {
            closed = false;
        } else {
            closed = true;
            end = Some(i + 1);
        }
    }
    end
}

#[tactic(auto, unfolding(crate::specs::Scanning::string_at))]
fn string_length(text: &[char]) -> Option<usize>
    ensures exact { result ≡ scan.string_at text.now }
    ensures within { IfSome result (λ n. n ≤ length text.now) }
{
    match text {
        [quote, behind @ ..] if is_quote(*quote) => Some(1 + closing_length(*quote, behind)?),
        _ => None,
    }
}

/// Whether the character opens a string.
pub fn is_quote(c: char) -> bool
    ensures { result ≡ (c == 34 || c == 39) }
{
    c == '"' || c == '\''
}

/// The later of two ends.
fn later(a: Option<usize>, b: Option<usize>) -> Option<usize>
    ensures { result ≡ scan.later a b }
{
    match (a, b) {
        (Some(m), Some(n)) => Some(m.max(n)),
        (Some(m), None) => Some(m),
        (None, other) => other,
    }
}

/// The length of the longest word at the front of the text, 0 where no word begins there.
pub fn word_length(text: &[char]) -> usize
    ensures exact { result ≡ longest_length spec.is_word text.now }
    ensures within { result ≤ length text.now }
{
    let number_or_string = later(number_length(text), string_length(text));
    later(
        symbol_length(text),
        later(name_length(text), number_or_string),
    )
    .unwrap_or(0)
}
