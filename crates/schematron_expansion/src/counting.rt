//! Which rules count, so that what stands in them does.
ghost use Rattle.std.specs.Prelude.{◌≡◌, map, option_map, option_to_list, option_copied, slice_get, IfOk};
ghost use Rattle.schematron_meaning.specs.Lookup.{is_own_pattern, is_own_rule, at_node};
ghost use Rattle.schematron_meaning.specs.Counts.{is_of_a_pattern, is_counted_rule};
ghost use Rattle.schematron_entries.specs.Seen.{seen_entry, seen_entries};
ghost use Rattle.schematron_expansion.specs.Counted as spec;

use schematron_entries::{Chains, Entry};
use std::alloc::{AllocError, Global};

/// Of each entry whether it stands in a rule that counts: one that stands for itself, in a pattern that does.
pub fn counted(alloc: Global, entries: &[Entry<'_>]) -> Result<Vec<bool>, AllocError>
    ensures { IfOk result (λ found. found.items ≡ spec.counted_among (seen_entries entries.now) (seen_entries entries.now)) }
{
    let nodes = Chains::of(alloc, nodes(alloc, entries)?)?;
    counted_by(alloc, entries, &nodes)
}

fn counted_by(alloc: Global, entries: &[Entry<'_>], nodes: &Chains) -> Result<Vec<bool>, AllocError>
    requires { nodes.now ≡ spec.numbers (seen_entries entries.now) }
    ensures { IfOk result (λ found. found.items ≡ spec.counted_among (seen_entries entries.now) (seen_entries entries.now)) }
{
    let mut found = Vec::new(alloc);
    'entries: for e in entries {
        found.push(is_counted_rule(entries, nodes, e.parent))?;
    }
    Ok(found)
}

/// The nodes of entries.
pub(crate) fn nodes(alloc: Global, entries: &[Entry<'_>]) -> Result<Vec<u32>, AllocError>
    ensures { IfOk result (λ found. found.items ≡ spec.numbers (seen_entries entries.now)) }
{
    let mut found = Vec::new(alloc);
    'entries: for e in entries {
        found.push(e.node.number())?;
    }
    Ok(found)
}

/// The rule at the node counts.
fn is_counted_rule(entries: &[Entry<'_>], nodes: &Chains, n: u32) -> bool
    requires { nodes.now ≡ spec.numbers (seen_entries entries.now) }
    ensures { result ≡ is_counted_rule (seen_entries entries.now) (at_node (seen_entries entries.now) n) }
{
    match entry_at(entries, nodes, n) {
        Some(e) => e.role.is_own_rule() & is_of_a_pattern(entries, nodes, e.parent),
        None => false,
    }
}

/// The pattern at the node stands for itself.
fn is_of_a_pattern(entries: &[Entry<'_>], nodes: &Chains, n: u32) -> bool
    requires { nodes.now ≡ spec.numbers (seen_entries entries.now) }
    ensures { result ≡ is_of_a_pattern (seen_entries entries.now) (at_node (seen_entries entries.now) n) }
{
    match entry_at(entries, nodes, n) {
        Some(e) => e.role.is_own_pattern(),
        None => false,
    }
}

/// The entry of a node, if it has one.
pub(crate) fn entry_at<'e, 'd>(
    entries: &'e [Entry<'d>],
    nodes: &Chains,
    n: u32,
) -> Option<&'e Entry<'d>>
    requires { nodes.now ≡ spec.numbers (seen_entries entries.now) }
    ensures { option_to_list (option_map seen_entry (option_copied result)) ≡ at_node (seen_entries entries.now) n }
{
    match nodes.first(n) {
        Some(at) => get(entries, at),
        None => None,
    }
}

pub(crate) fn get<'e, 'd>(entries: &'e [Entry<'d>], at: usize) -> Option<&'e Entry<'d>>
    ensures { option_copied result ≡ slice_get entries.now at }
{
    entries.get(at)
}
