//! Upper and lower case, of the letters of ASCII alone (Functions and Operators, sections 7.4.7 and 7.4.8).
ghost use Rattle.std.specs.Prelude.{◌≡◌, chars, string_bytes, map, IfOk};
ghost use Rattle.xpath_meaning.specs.Texts as spec;

use std::alloc::{AllocError, Global};

fn upper(c: char) -> char
    ensures { result ≡ spec.upper c }
{
    c.to_ascii_uppercase()
}

fn lower(c: char) -> char
    ensures { result ≡ spec.lower c }
{
    c.to_ascii_lowercase()
}

/// The text with small letters of ASCII as capital ones.
pub(crate) fn upper_case(alloc: Global, text: &str) -> Result<String, AllocError>
    ensures { IfOk result (λ s. chars (string_bytes s) ≡ map spec.upper (chars text.now)) }
{
    text.chars().map(|c| upper(c)).collect(alloc)
}

/// The text with capital letters of ASCII as small ones.
pub(crate) fn lower_case(alloc: Global, text: &str) -> Result<String, AllocError>
    ensures { IfOk result (λ s. chars (string_bytes s) ≡ map spec.lower (chars text.now)) }
{
    text.chars().map(|c| lower(c)).collect(alloc)
}
