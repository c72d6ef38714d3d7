//! Names that elements have: which they must not share, and by which others name them.
ghost use Rattle.std.specs.Prelude.{◌≡◌, ◌++◌, chars, map, not, option_map, Some, IfOk, OnOk};
ghost use Rattle.std.specs.List.{list_any};
ghost use Rattle.schematron_meaning.specs.declared.attribute.Attribute.TheVariants.{Id};
ghost use Rattle.schematron_meaning.specs.Lookup.{attribute};
ghost use Rattle.schematron_meaning.specs.Showing as show;
ghost use Rattle.schematron_entries.specs.Keys as spec;
ghost use Rattle.schematron_entries.specs.Seen.{seen_entry, seen_entries};

use crate::entry::Entry;
use crate::keys::{Key, KeySet, Sort};
use crate::showing::fault;
use schematron_meaning::{Attribute, Fault, Role, RuleKind, Space};
use std::alloc::{AllocError, Global};

fn space_of(role: Role) -> Option<Space>
    ensures { result ≡ show.space_of role }
{
    match role {
        Role::Pattern | Role::Use | Role::AbstractPattern => Some(Space::Patterns),
        Role::Rule | Role::AbstractRule => Some(Space::Rules),
        Role::Phase => Some(Space::Phases),
        Role::Let | Role::Parameter => Some(Space::Variables),
        _ => None,
    }
}

fn naming(space: Space) -> Attribute
    ensures { result ≡ show.naming space }
{
    match space {
        Space::Variables => Attribute::Name,
        _ => Attribute::Id,
    }
}

fn reach_of(space: Space, parent: u32) -> u32
    ensures { result ≡ show.reach_of space parent }
{
    match space {
        Space::Variables => parent,
        _ => 0,
    }
}

fn sort_of(space: Space) -> Sort
    ensures { result ≡ spec.sort_of space }
{
    match space {
        Space::Patterns => Sort::Patterns,
        Space::Rules => Sort::Rules,
        Space::Phases => Sort::Phases,
        Space::Variables => Sort::Variables,
    }
}

/// The name of an element that it must not share, with what it is a name among.
fn name_of<'d>(e: &Entry<'d>, space: Space) -> Option<Key<'d>>
    ensures { option_map spec.seen_key result ≡ option_map spec.kept (show.key_by space e.now.parent (attribute (show.naming space) (seen_entry e.now))) }
{
    match e.attribute(naming(space)) {
        Some(name) => Some(Key {
            sort: sort_of(space),
            reach: reach_of(space, e.parent),
            name,
        }),
        None => None,
    }
}

/// Puts a name in, where there is one, and tells whether it is new or there is none.
fn put<'d>(names: &mut KeySet<'d>, key: Option<Key<'d>>) -> Result<bool, AllocError>
    ensures added { IfOk result (λ added. added ≡ spec.is_new names.old (option_map spec.seen_key key.entry)) }
    ensures keys { OnOk result (names.new ≡ spec.with_option names.old (option_map spec.seen_key key.entry)) }
{
    match key {
        Some(key) => names.insert(key),
        None => Ok(true),
    }
}

/// Puts the name of an element to the others that it must not share, or tells that it does.
pub(crate) fn claim_name<'d>(
    e: &Entry<'d>,
    names: &mut KeySet<'d>,
) -> Result<Option<Fault>, AllocError>
    ensures fault { IfOk result (λ found. found ≡ spec.duplicate_among names.old (seen_entry e.now)) }
    ensures keys { OnOk result (names.new ≡ spec.with_option names.old (spec.name_key (seen_entry e.now))) }
{
    match space_of(e.role) {
        Some(space) => {
            if put(names, name_of(e, space))? {
                Ok(None)
            } else {
                Ok(Some(fault(RuleKind::DuplicateId, Some(naming(space)), e)))
            }
        }
        None => Ok(None),
    }
}

fn named_sort(role: Role) -> Option<Sort>
    ensures { result ≡ spec.named_sort role }
{
    match role {
        Role::Pattern | Role::Use => Some(Sort::Judged),
        Role::AbstractPattern => Some(Sort::AbstractPatterns),
        Role::AbstractRule => Some(Sort::AbstractRules),
        _ => None,
    }
}

/// The name by which others may name an element.
fn id_of<'d>(e: &Entry<'d>) -> Option<Key<'d>>
    ensures { option_map spec.seen_key result ≡ spec.id_key (seen_entry e.now) }
{
    match named_sort(e.role) {
        Some(sort) => match e.attribute(Attribute::Id) {
            Some(name) => Some(Key {
                sort,
                reach: 0,
                name,
            }),
            None => None,
        },
        None => None,
    }
}

/// The names by which elements may be named.
pub(crate) fn ids_of<'d>(alloc: Global, entries: &[Entry<'d>]) -> Result<KeySet<'d>, AllocError>
    ensures { IfOk result (λ ids. spec.AreKeysOf spec.id_key ids (seen_entries entries.now)) }
{
    let mut ids = KeySet::new(alloc);
    'entries: for e in entries {
        put(&mut ids, id_of(e))?;
    }
    Ok(ids)
}

/// Whether an element of the sort has the name that an attribute says.
fn is_there<'d>(ids: &KeySet<'d>, sort: Sort, e: &Entry<'d>, name: Attribute) -> bool
    ensures { result ≡ spec.is_there ids.now sort (attribute name (seen_entry e.now)) }
{
    match e.attribute(name) {
        Some(id) => ids.contains(Key {
            sort,
            reach: 0,
            name: id,
        }),
        None => false,
    }
}

/// A fault unless it is so.
fn unless(is_so: bool, kind: RuleKind, attribute: Attribute, e: &Entry<'_>) -> Option<Fault>
    ensures { result ≡ show.first_in (show.when (not is_so) (show.fault kind (Some attribute) (seen_entry e.now))) }
{
    if is_so {
        None
    } else {
        Some(fault(kind, Some(attribute), e))
    }
}

/// What an element names that isn't there.
pub(crate) fn unnamed<'d>(ids: &KeySet<'d>, e: &Entry<'d>) -> Option<Fault>
    ensures { result ≡ show.first_in (spec.unnamed_by e.now.role ids.now (seen_entry e.now)) }
{
    match e.role {
        Role::Use => unless(
            is_there(ids, Sort::AbstractPatterns, e, Attribute::IsA),
            RuleKind::NoSuchPattern,
            Attribute::IsA,
            e,
        ),
        Role::Active => unless(
            is_there(ids, Sort::Judged, e, Attribute::Pattern),
            RuleKind::NoSuchPattern,
            Attribute::Pattern,
            e,
        ),
        Role::Extends => unless(
            is_there(ids, Sort::AbstractRules, e, Attribute::Rule),
            RuleKind::NoSuchRule,
            Attribute::Rule,
            e,
        ),
        _ => None,
    }
}
