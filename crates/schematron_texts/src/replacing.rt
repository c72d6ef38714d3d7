ghost use Rattle.std.specs.Prelude.{◌≡◌, ◌≤◌, ◌∷◌, ◌++◌, [], ℕ, List, chars, string_bytes, string_len, false, IfOk, OnOk};
ghost use Rattle.schematron_texts.specs.Replacing as spec;
ghost use Rattle.schematron_texts.specs.Walking as walking;

use crate::parameters::Parameters;
use crate::pushing::{push, push_text_within, push_within};
use inv_base::{is_name_char, is_name_start};
use std::alloc::{AllocError, Global};

/// How far a walk over a text is.
#[derive(Drop)]
pub(crate) struct Walk {
    /// What was made so far.
    pub out: String,
    /// A `$` was read, and the name behind it goes on.
    pub in_name: bool,
    /// The name so far.
    pub name: String,
}

/// The text with the values of parameters in it. A value stands for `$` and the longest name behind it where that is
/// the name of a parameter; what is put in isn't read again.
pub fn replaced(alloc: Global, parameters: &Parameters, text: &str) -> Result<String, AllocError>
    ensures { IfOk result (λ s. chars (string_bytes s) ≡ spec.replaced parameters.now (chars text.now)) }
{
    match replaced_within(alloc, parameters, text, usize::MAX)? {
        Some(made) => Ok(made),
        None => Err(AllocError),
    }
}

/// The same, or None exactly where it would have more than so many bytes. No more than these are ever made.
pub fn replaced_within(
    alloc: Global,
    parameters: &Parameters,
    text: &str,
    most: usize,
) -> Result<Option<String>, AllocError>
    ensures { IfOk result (λ made. spec.IsWithin most (spec.replaced parameters.now (chars text.now)) made) }
{
    let mut walk = Walk {
        out: String::new(alloc),
        in_name: false,
        name: String::new(alloc),
    };
    'characters: for c in text.chars() {
        if !take(&mut walk, parameters, most, c)? {
            return Ok(None);
        }
    }
    end(walk, parameters, most)
}

/// What was made, with the name that is open at the end of the text.
fn end(mut walk: Walk, parameters: &Parameters, most: usize) -> Result<Option<String>, AllocError>
    requires { string_len walk.out ≤ most }
    ensures { IfOk result (λ made. spec.IsWithin most (walking.made_with parameters.now walk []) made) }
{
    if close(&mut walk, parameters, most)? {
        Ok(Some(walk.out))
    } else {
        Ok(None)
    }
}

/// Puts in the name that is open, if one is, and keeps what is made within so many bytes.
fn close(walk: &mut Walk, parameters: &Parameters, most: usize) -> Result<bool, AllocError>
    requires { string_len walk.old.out ≤ most }
    ensures made { IfOk result (λ fits. walking.IsMade most fits (walking.made_with parameters.now walk.old []) (chars (string_bytes walk.new.out))) }
    ensures within { string_len walk.new.out ≤ most }
{
    if !walk.in_name {
        return Ok(true);
    }
    put_name(walk, parameters, most)
}

/// Reads a character, and keeps what is made within so many bytes; answers whether all was made.
fn take(walk: &mut Walk, parameters: &Parameters, most: usize, c: char) -> Result<bool, AllocError>
    requires { string_len walk.old.out ≤ most }
    ensures made { IfOk result (λ fits. (rest : List ℕ)
        → walking.IsMade most fits (walking.made_with parameters.now walk.old (c ∷ rest)) (walking.made_with parameters.now walk.new rest)) }
    ensures within { string_len walk.new.out ≤ most }
{
    if !walk.in_name {
        return take_outside(walk, most, c);
    }
    if goes_on(walk.name.as_str(), c) {
        push(&mut walk.name, c)?;
        return Ok(true);
    }
    if !put_name(walk, parameters, most)? {
        return Ok(false);
    }
    take_outside(walk, most, c)
}

/// Whether a name goes on with the character, or begins with it.
fn goes_on(name: &str, c: char) -> bool
    ensures { result ≡ walking.goes_on (chars name.now) c }
{
    if name.is_empty() {
        is_name_start(c)
    } else {
        is_name_char(c)
    }
}

/// Reads a character where no name is open.
fn take_outside(walk: &mut Walk, most: usize, c: char) -> Result<bool, AllocError>
    requires in_name { walk.old.in_name ≡ false }
    requires within { string_len walk.old.out ≤ most }
    ensures made { IfOk result (λ fits. (parameters : List spec.Parameter) (rest : List ℕ)
        → walking.IsMade most fits (walking.made_with parameters walk.old (c ∷ rest)) (walking.made_with parameters walk.new rest)) }
    ensures within { string_len walk.new.out ≤ most }
{
    if c == '$' {
        walk.in_name = true;
        walk.name.clear();
        return Ok(true);
    }
    push_within(&mut walk.out, most, c)
}

/// Puts in what stands for `$` and the name, and closes it.
fn put_name(walk: &mut Walk, parameters: &Parameters, most: usize) -> Result<bool, AllocError>
    requires { string_len walk.old.out ≤ most }
    ensures made { IfOk result (λ fits. walking.IsMade most fits
        (chars (string_bytes walk.old.out) ++ walking.put parameters.now (chars (string_bytes walk.old.name))) (chars (string_bytes walk.new.out))) }
    ensures within { string_len walk.new.out ≤ most }
    ensures in_name { walk.new.in_name ≡ false }
{
    walk.in_name = false;
    match value_for(parameters, walk.name.as_str()) {
        Some(value) => push_text_within(&mut walk.out, most, value),
        None => put_back(walk, most),
    }
}

/// The value for a name, and none where there is no name.
fn value_for<'a>(parameters: &'a Parameters, name: &str) -> Option<&'a str>
    ensures { walking.found_for parameters.now (chars name.now) result }
{
    if name.is_empty() {
        return None;
    }
    parameters.value(name)
}

/// Puts `$` and the name in as they stand.
fn put_back(walk: &mut Walk, most: usize) -> Result<bool, AllocError>
    requires { string_len walk.old.out ≤ most }
    ensures made { IfOk result (λ fits. walking.IsMade most fits
        (chars (string_bytes walk.old.out) ++ 36 ∷ chars (string_bytes walk.old.name)) (chars (string_bytes walk.new.out))) }
    ensures within { string_len walk.new.out ≤ most }
    ensures in_name { walk.new.in_name ≡ walk.old.in_name }
{
    if !push_within(&mut walk.out, most, '$')? {
        return Ok(false);
    }
    push_text_within(&mut walk.out, most, walk.name.as_str())
}
