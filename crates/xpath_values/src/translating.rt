//! `translate` (Functions and Operators, section 7.4.9).
ghost use Rattle.std.specs.Prelude.{◌≡◌, ℕ, List, chars, string_bytes, IfOk, slice_get};
ghost use Rattle.std.specs.BTreeMap.{get};
ghost use Rattle.std.specs.Option.{option_to_list};
ghost use Rattle.std.specs.Ordering.{nat_cmp};
ghost use Rattle.xpath_meaning.specs.Texts as meaning;
ghost use Rattle.xpath_values.specs.Translations as spec;

use crate::pushing::push_some;
use std::alloc::{AllocError, Global};
use std::collections::BTreeMap;

fn characters_of(alloc: Global, text: &str) -> Result<Vec<char>, AllocError>
    ensures { IfOk result (λ characters. characters.items ≡ chars text.now) }
{
    let characters: Vec<char> = text.chars().collect(alloc)?;
    Ok(characters)
}

/// The character at a place, from 0 on.
fn character_at(characters: &[char], place: usize) -> Option<char>
    ensures { result ≡ slice_get characters.now place }
{
    characters.get(place).copied()
}

/// What each of the characters becomes: what stands in the other list at its first place, nothing where that ends
/// before.
fn translations(
    alloc: Global,
    from: &[char],
    to: &[char],
) -> Result<BTreeMap<char, Option<char>>, AllocError>
    ensures { IfOk result (λ table. spec.Translates (get nat_cmp table) from.now to.now) }
{
    let mut table = BTreeMap::new(alloc);
    let mut place = from.len();
    'characters: while place > 0 {
        place -= 1;
        table.insert(from[place], character_at(to, place))?;
    }
    Ok(table)
}

/// What a character becomes: one that isn't in the table stays.
fn looked_up(table: &BTreeMap<char, Option<char>>, c: char) -> Option<char>
    ensures { option_to_list result ≡ spec.looked_up (get nat_cmp table.now) c }
{
    match table.get(&c) {
        Some(found) => *found,
        None => Some(c),
    }
}

/// The text with each of its characters looked up.
fn translated_by(
    alloc: Global,
    table: &BTreeMap<char, Option<char>>,
    text: &str,
) -> Result<String, AllocError>
    ensures { (from to : List ℕ) → spec.Translates (get nat_cmp table.now) from to
        → IfOk result (λ s. chars (string_bytes s) ≡ meaning.translated (chars text.now) from to) }
{
    let mut out = String::new(alloc);
    'characters: for c in text.chars() {
        push_some(&mut out, looked_up(table, c))?;
    }
    Ok(out)
}

/// The text with each of its characters translated. It takes the sum of the lengths, but for the logarithm of the
/// second.
pub(crate) fn translated(
    alloc: Global,
    text: &str,
    from: &str,
    to: &str,
) -> Result<String, AllocError>
    ensures { IfOk result (λ s. chars (string_bytes s) ≡ meaning.translated (chars text.now) (chars from.now) (chars to.now)) }
{
    let from = characters_of(alloc, from)?;
    let to = characters_of(alloc, to)?;
    let table = translations(alloc, &from, &to)?;
    translated_by(alloc, &table, text)
}
