//! White space, `=` and quoted values, of which tags and the declaration are made, and what stands behind them.
ghost use Rattle.std.specs.Prelude.{◌≡◌, ◌==◌, ◌≤◌, length, drop, position, option_map, not};
ghost use Rattle.inv_base.specs.Characters.{is_white_space};
ghost use Rattle.xml_tokens.specs.Searches.{behind_string};
ghost use Rattle.xml_tokens.specs.Literals as spec;
ghost use Rattle.xml_tokens.specs.Told.{seen_literal, seen_text, ended_literal};

use crate::names::is_white_space;
use crate::scanning::{begins_with, is_quote};

/// What stands between two equal quotes, and what is behind them.
#[derive(Clone, Copy)]
pub struct Literal<'b> {
    pub value: &'b str,
    pub rest: &'b str,
}

fn space_end(bytes: &[u8]) -> Option<usize>
    ensures { result ≡ position (λ b. not (is_white_space b)) bytes.now }
{
    bytes.iter().position(|byte| !is_white_space(*byte))
}

/// The text without the white space at its front.
pub fn behind_white_space(text: &str) -> &str
    ensures { result.now ≡ spec.behind_white_space text.now }
{
    match space_end(text.as_bytes()) {
        Some(place) => text.split_at(place).1,
        None => "",
    }
}

/// Whether the text begins with white space.
pub fn begins_with_space(text: &str) -> bool
    ensures { result ≡ spec.begins_with_space text.now }
{
    match text.as_bytes() {
        [first, ..] => is_white_space(*first),
        [] => false,
    }
}

/// What stands behind the word, where the text begins with it.
pub fn behind_word<'b>(word: &str, text: &'b str) -> Option<&'b str>
    ensures { option_map seen_text result ≡ behind_string word.now text.now }
{
    if begins_with(word.as_bytes(), text.as_bytes()) {
        Some(text.split_at(word.len()).1)
    } else {
        None
    }
}

/// What stands behind `=` with white space on both sides.
fn behind_equals(text: &str) -> Option<&str>
    ensures { option_map seen_text result ≡ spec.behind_equals text.now }
{
    match behind_word("=", behind_white_space(text)) {
        Some(rest) => Some(behind_white_space(rest)),
        None => None,
    }
}

fn quote_place(quote: u8, bytes: &[u8]) -> Option<usize>
    ensures { result ≡ position (λ b. b == quote) bytes.now }
{
    bytes.iter().position(|byte| *byte == quote)
}

/// The literal that ends at the next such quote.
fn ended_literal(quote: u8, text: &str) -> Option<Literal>
    requires { quote ≤ 127 }
    ensures { option_map seen_literal result ≡ ended_literal quote text.now }
{
    match quote_place(quote, text.as_bytes()) {
        Some(place) => {
            let (value, ended) = text.split_at(place);
            let (_, rest) = ended.split_at(1);
            Some(Literal { value, rest })
        }
        None => None,
    }
}

/// The literal that begins with its quote.
fn quoted_literal(text: &str) -> Option<Literal>
    ensures { option_map seen_literal result ≡ spec.quoted_literal text.now }
{
    match text.as_bytes() {
        [quote, ..] if is_quote(*quote) => ended_literal(*quote, text.split_at(1).1),
        _ => None,
    }
}

/// The literal behind `=`.
pub fn literal_at(text: &str) -> Option<Literal>
    ensures { option_map seen_literal result ≡ spec.literal_at text.now }
{
    match behind_equals(text) {
        Some(rest) => quoted_literal(rest),
        None => None,
    }
}
