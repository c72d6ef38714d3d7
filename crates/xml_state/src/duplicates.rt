//! Whether two attributes of a tag are one: equal as written, or by the numbers of their expanded names.
ghost use Rattle.std.specs.Prelude.{◌≡◌, [], map, IfOk, bytes_eq, nat_eq};
ghost use Rattle.std.specs.List.{list_any};
ghost use Rattle.xml_tokens.specs.Seen.{seen_attribute, seen_tag};
ghost use Rattle.xml_state.specs.StartTags as spec;

use std::alloc::{AllocError, Global};
use std::collections::BTreeSet;
use xml_events::NameId;
use xml_tokens::{Attribute, StartTag};

// So many are compared one with another; more are looked up in a set, which takes memory. It is ordered, since no choice
// of names makes a look-up in it slow.
const FEW: usize = 16;

// Whether two attributes of a tag are one, by the numbers of its names, of which the first is that of the element.
pub(crate) fn is_duplicated(
    alloc: Global,
    tag: &StartTag<'_>,
    numbers: &[NameId],
) -> Result<bool, AllocError>
    ensures { IfOk result (λ twice. twice ≡ spec.is_duplicated (seen_tag tag.now) numbers.now) }
{
    if is_written_twice(alloc, &tag.attributes)? {
        return Ok(true);
    }
    match numbers.split_first() {
        Some((_, others)) => is_numbered_twice(alloc, others),
        None => Ok(false),
    }
}

// Whether two attributes have the same name as written.
fn is_written_twice(alloc: Global, attributes: &[Attribute<'_>]) -> Result<bool, AllocError>
    ensures { IfOk result (λ twice. twice ≡ spec.twice_behind bytes_eq [] (spec.written_names (map seen_attribute attributes.now))) }
{
    if attributes.len() <= FEW {
        Ok(compares_names(attributes))
    } else {
        looks_names_up(alloc, attributes)
    }
}

// Whether two numbers are the same.
fn is_numbered_twice(alloc: Global, numbers: &[NameId]) -> Result<bool, AllocError>
    ensures { IfOk result (λ twice. twice ≡ spec.twice_behind nat_eq [] numbers.now) }
{
    if numbers.len() <= FEW {
        Ok(compares_numbers(numbers))
    } else {
        looks_numbers_up(alloc, numbers)
    }
}

fn has_name(attributes: &[Attribute<'_>], name: &str) -> bool
    ensures { result ≡ list_any (bytes_eq name.now) (spec.written_names (map seen_attribute attributes.now)) }
{
    for attribute in attributes {
        if name == attribute.name {
            return true;
        }
    }
    false
}

fn compares_names(attributes: &[Attribute<'_>]) -> bool
    ensures { result ≡ spec.twice_behind bytes_eq [] (spec.written_names (map seen_attribute attributes.now)) }
{
    for (i, attribute) in attributes.iter().enumerate() {
        let (before, _) = attributes.split_at(i);
        if has_name(before, attribute.name) {
            return true;
        }
    }
    false
}

fn looks_names_up(alloc: Global, attributes: &[Attribute<'_>]) -> Result<bool, AllocError>
    ensures { IfOk result (λ twice. twice ≡ spec.twice_behind bytes_eq [] (spec.written_names (map seen_attribute attributes.now))) }
{
    let mut names: BTreeSet<&str> = BTreeSet::new(alloc);
    for attribute in attributes {
        if !names.insert(attribute.name)? {
            return Ok(true);
        }
    }
    Ok(false)
}

fn has_number(numbers: &[NameId], number: u32) -> bool
    ensures { result ≡ list_any (nat_eq number) numbers.now }
{
    for other in numbers {
        if number == other.number() {
            return true;
        }
    }
    false
}

fn compares_numbers(numbers: &[NameId]) -> bool
    ensures { result ≡ spec.twice_behind nat_eq [] numbers.now }
{
    for (i, number) in numbers.iter().enumerate() {
        let (before, _) = numbers.split_at(i);
        if has_number(before, number.number()) {
            return true;
        }
    }
    false
}

fn looks_numbers_up(alloc: Global, numbers: &[NameId]) -> Result<bool, AllocError>
    ensures { IfOk result (λ twice. twice ≡ spec.twice_behind nat_eq [] numbers.now) }
{
    let mut seen: BTreeSet<u32> = BTreeSet::new(alloc);
    for number in numbers {
        if !seen.insert(number.number())? {
            return Ok(true);
        }
    }
    Ok(false)
}
