//! What the rules of each element come to: how many there are, and how many assertions they have.
ghost use Rattle.std.specs.Prelude.{◌≡◌, ℕ, nat_eq, IfOk, OnOk};
ghost use Rattle.indexmap.specs.IndexMap.{get};
ghost use Rattle.schematron_meaning.specs.Lookup.{is_own_rule};
ghost use Rattle.schematron_entries.specs.Seen.{seen_entry};
ghost use Rattle.schematron_expansion.specs.Sizes.{assertions_inside_all};
ghost use Rattle.schematron_faults.specs.Stopped as spec;

use indexmap::IndexMap;
use schematron_entries::Entry;
use schematron_expansion::RuleFile;
use std::alloc::{AllocError, Global};

/// How many rules an element has, and how many assertions these have, in numbers that stop.
#[derive(Clone, Copy)]
pub(crate) struct Size {
    pub rules: u64,
    pub assertions: u64,
}

/// Of each element that has rules what these come to, where it is known of each entry how many assertions stand in it
/// as a rule.
pub(crate) fn sizes_of(
    alloc: Global,
    file: &RuleFile<'_, '_>,
    inside: &[u64],
) -> Result<IndexMap<u32, Size>, AllocError>
    requires { inside.now ≡ assertions_inside_all file.now file.now.entries }
    ensures { IfOk result (λ sizes. spec.AreSizes (λ n. get nat_eq sizes n) file.now file.now.entries) }
{
    let entries = file.entries();
    let mut sizes: IndexMap<u32, Size> = IndexMap::new(alloc);
    'places: for at in 0..entries.len() {
        take_entry(&mut sizes, &entries[at], inside[at])?;
    }
    Ok(sizes)
}

/// Counts an entry, if it is a rule, to those of the element that it stands in.
fn take_entry(
    sizes: &mut IndexMap<u32, Size>,
    e: &Entry<'_>,
    assertions: u64,
) -> Result<(), AllocError>
    ensures { OnOk result (spec.AddsRule (λ n. get nat_eq sizes.old n) (λ n. get nat_eq sizes.new n) (seen_entry e.now) assertions) }
{
    if e.role.is_own_rule() {
        add_rule(sizes, e.parent, assertions)
    } else {
        Ok(())
    }
}

/// Counts a rule of an element.
fn add_rule(sizes: &mut IndexMap<u32, Size>, parent: u32, assertions: u64) -> Result<(), AllocError>
    ensures { OnOk result ((n : ℕ) → spec.size_found (get nat_eq sizes.new n) ≡ spec.grown_if (nat_eq parent n)
        (spec.size_found (get nat_eq sizes.old n)) assertions) }
{
    let old = size_at(sizes, parent);
    let new = Size {
        rules: old.rules.saturating_add(1),
        assertions: old.assertions.saturating_add(assertions),
    };
    sizes.insert(parent, new)?;
    Ok(())
}

/// What the rules of the element of this number come to.
pub(crate) fn size_at(sizes: &IndexMap<u32, Size>, number: u32) -> Size
    ensures { result ≡ spec.size_found (get nat_eq sizes.now number) }
{
    match sizes.get(&number).copied() {
        Some(size) => size,
        None => Size {
            rules: 0,
            assertions: 0,
        },
    }
}
