//! The path of a term's element, as a text.
ghost use Rattle.std.specs.Prelude.{◌≡◌, ◌&&◌, nat_le, length, IfOk, map, option_map};
ghost use Rattle.std.specs.List.{list_all, slice_split};
ghost use Rattle.std.specs.Char.{is_ascii_alphanumeric};
ghost use Rattle.extension_files.specs.PathTexts as spec;

use bind_rows::{ElementName, Namespace, Word, prefix_of};
use inv_base::Many;
use std::alloc::{AllocError, Global};

/// The names that a path's text spells, if it is one of names in these namespaces.
#[tactic(auto, using(crate::proofs::PathLemmas::paths))]
pub(crate) fn path_of(
    alloc: Global,
    spaces: &[Namespace],
    text: &str,
) -> Result<Option<Many<ElementName>>, AllocError>
    ensures { IfOk result (λ path. path ≡ spec.path_of spaces.now text.now) }
{
    let texts = texts_between(alloc, text)?;
    if texts.len() <= 20 {
        names_of(alloc, spaces, texts.as_slice())
    } else {
        Ok(None)
    }
}

// The texts between the slashes.
fn texts_between<'a>(alloc: Global, text: &'a str) -> Result<Vec<&'a str>, AllocError>
    ensures { IfOk result (λ texts. map (λ text. text.now) texts.items ≡ slice_split spec.is_slash text.now) }
{
    text.split('/').collect(alloc)
}

// The names that the texts spell, if each spells one.
#[tactic(auto, using(crate::proofs::PathLemmas::names))]
fn names_of(
    alloc: Global,
    spaces: &[Namespace],
    texts: &[&str],
) -> Result<Option<Many<ElementName>>, AllocError>
    ensures { IfOk result (λ names. names ≡ spec.names_of spaces.now (map (λ text. text.now) texts.now)) }
{
    let mut names = Many::new(alloc);
    'texts: for text in texts {
        match name_of(alloc, spaces, text)? {
            Some(name) => names.push(name)?,
            None => {
                drop(names);
                return Ok(None);
            }
        }
    }
    Ok(Some(names))
}

fn name_of(
    alloc: Global,
    spaces: &[Namespace],
    text: &str,
) -> Result<Option<ElementName>, AllocError>
    ensures { IfOk result (λ name. name ≡ spec.name_of spaces.now text.now) }
{
    match parts_of(spaces, text) {
        Some((namespace, local)) => Ok(Some(ElementName {
            namespace,
            local: Word::of(alloc, local)?,
        })),
        None => Ok(None),
    }
}

// The namespace and the local part of the name that a text spells.
fn parts_of<'a>(spaces: &[Namespace], text: &'a str) -> Option<(Namespace, &'a str)>
    ensures { option_map (λ parts. (parts.0, parts.1.now)) result ≡ spec.parts_of spaces.now text.now }
{
    match text.split_once(':') {
        Some((prefix, local)) => parts_by(spaces, prefix, local),
        None => None,
    }
}

// The same, by what stands before the colon and behind it.
#[tactic(auto, using(crate::proofs::PathLemmas::parts))]
fn parts_by<'a>(spaces: &[Namespace], prefix: &str, local: &'a str) -> Option<(Namespace, &'a str)>
    ensures { option_map (λ parts. (parts.0, parts.1.now)) result ≡ spec.parts_by spaces.now prefix.now local.now }
{
    if !is_local(local) {
        return None;
    }
    match namespace_of(spaces, prefix) {
        Some(namespace) => Some((namespace, local)),
        None => None,
    }
}

fn namespace_of(spaces: &[Namespace], prefix: &str) -> Option<Namespace>
    ensures { result ≡ spec.namespace_of spaces.now prefix.now }
{
    spaces
        .iter()
        .copied()
        .find(|space| prefix_of(*space) == prefix)
}

// Whether the text is a letter, and then at most 99 letters and digits.
#[tactic(auto, using(crate::proofs::PathLemmas::locals))]
fn is_local(text: &str) -> bool
    ensures { result ≡ spec.is_local text.now }
{
    match text.as_bytes().split_first() {
        Some((first, others)) => first.is_ascii_alphabetic() && is_rest_of_local(others),
        None => false,
    }
}

fn is_rest_of_local(bytes: &[u8]) -> bool
    ensures { result ≡ (nat_le (length bytes.now) 99 && list_all is_ascii_alphanumeric bytes.now) }
{
    bytes.len() <= 99 && are_alphanumeric(bytes)
}

fn are_alphanumeric(bytes: &[u8]) -> bool
    ensures { result ≡ list_all is_ascii_alphanumeric bytes.now }
{
    'bytes: for byte in bytes {
        if !byte.is_ascii_alphanumeric() {
            return false;
        }
    }
    true
}
