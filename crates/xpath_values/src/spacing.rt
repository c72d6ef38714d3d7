//! Runs of white space (Functions and Operators, section 7.4.5).
ghost use Rattle.std.specs.Prelude.{◌≡◌, false, chars, string_bytes, IfOk};
ghost use Rattle.std.specs.List.{list_any};
ghost use Rattle.std.specs.Option.{option_to_list};
ghost use Rattle.inv_base.specs.Characters as characters;
ghost use Rattle.xpath_meaning.specs.Texts as meaning;
ghost use Rattle.xpath_values.specs.Spacing as spec;

use crate::pushing::push_some;
use inv_base::is_white_space;
use std::alloc::{AllocError, Global};
use xpath_items::Str;
use xpath_operators::trimmed;

/// What a character adds where a run of white space is one space: nothing inside a run.
fn spaced(in_run: bool, c: char) -> Option<char>
    ensures { option_to_list result ≡ spec.spaced_piece in_run c }
{
    if !is_white_space(c) {
        return Some(c);
    }
    if in_run { None } else { Some(' ') }
}

/// The text with each run of white space as one space.
fn single_spaced(alloc: Global, text: &str) -> Result<String, AllocError>
    ensures { IfOk result (λ s. chars (string_bytes s) ≡ meaning.single_spaced false (chars text.now)) }
{
    let mut out = String::new(alloc);
    let mut in_run = false;
    'characters: for c in text.chars() {
        push_some(&mut out, spaced(in_run, c))?;
        in_run = is_white_space(c);
    }
    Ok(out)
}

/// The text with each run of white space as one space, and without those at the ends.
pub(crate) fn normalised(alloc: Global, text: &str) -> Result<String, AllocError>
    ensures { IfOk result (λ s. chars (string_bytes s) ≡ meaning.normalised (chars text.now)) }
{
    single_spaced(alloc, trimmed(text))
}

fn has_white_space(text: &str) -> bool
    ensures { result ≡ list_any characters.is_white_space (chars text.now) }
{
    text.chars().any(|c| is_white_space(c))
}

/// The same of a text that is handed over, which is given back as it is where it has no white space.
pub(crate) fn normal<'a>(alloc: Global, text: Str<'a>) -> Result<Str<'a>, AllocError>
    ensures { IfOk result (λ t. t ≡ meaning.normalised text.entry) }
{
    if !has_white_space(text.as_str()) {
        return Ok(text);
    }
    let made = normalised(alloc, text.as_str());
    drop(text);
    Ok(Str::made(made?))
}
