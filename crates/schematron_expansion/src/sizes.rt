//! How many assertions elements put in the rules that they stand in.
ghost use Rattle.std.specs.Prelude.{◌≡◌, List, option_to_list, IfOk};
ghost use Rattle.schematron_graph.specs.Counts.{count_of};
ghost use Rattle.schematron_graph.specs.Rules.{expansion};
ghost use Rattle.schematron_meaning.specs.Bodies as bodies;
ghost use Rattle.schematron_meaning.specs.Entries as meaning;
ghost use Rattle.schematron_entries.specs.Seen.{seen_entry, seen_entries};
ghost use Rattle.schematron_expansion.specs.Bodied as spec;
ghost use Rattle.schematron_expansion.specs.Sizes as sizes;

use crate::abstracts::abstract_rules;
use crate::bodies::{body, parents, part_of};
use indexmap::IndexMap;
use schematron_entries::{Chains, Entry};
use schematron_graph::{Graph, Part};
use std::alloc::{AllocError, Global};

/// Of each entry, how many assertions it puts in a rule, with those of the rules that an `extends` puts; the greatest
/// `u64` where there are more. No rule is expanded for it.
pub fn assertions(
    alloc: Global,
    entries: &[Entry<'_>],
    graph: &Graph,
) -> Result<Vec<u64>, AllocError>
    ensures { IfOk result (λ found. found.items
        ≡ sizes.assertions_among (sizes.file_with (seen_entries entries.now) graph.now) (seen_entries entries.now)) }
{
    let rules = abstract_rules(alloc, entries)?;
    sizes_of(alloc, entries, graph, &rules.names)
}

/// Of each entry, how many assertions stand in it if it is a rule, with those of the rules that it extends; the
/// greatest `u64` where there are more. No rule is expanded for it.
pub fn assertions_inside(
    alloc: Global,
    entries: &[Entry<'_>],
    graph: &Graph,
) -> Result<Vec<u64>, AllocError>
    ensures { IfOk result (λ found. found.items
        ≡ sizes.assertions_inside_all (sizes.file_with (seen_entries entries.now) graph.now) (seen_entries entries.now)) }
{
    let rules = abstract_rules(alloc, entries)?;
    let chains = Chains::of(alloc, parents(alloc, entries)?)?;
    sizes_inside(alloc, entries, graph, &chains, &rules.names)
}

fn sizes_inside<'d>(
    alloc: Global,
    entries: &[Entry<'d>],
    graph: &Graph,
    chains: &Chains,
    names: &IndexMap<&'d str, usize>,
) -> Result<Vec<u64>, AllocError>
    requires chains { chains.now ≡ spec.parents (seen_entries entries.now) }
    requires names { spec.AreNames (spec.named_in (λ key. key.now) names.now) (bodies.abstract_rules (seen_entries entries.now)) }
    ensures { IfOk result (λ found. found.items
        ≡ sizes.assertions_inside_all (sizes.file_with (seen_entries entries.now) graph.now) (seen_entries entries.now)) }
{
    let mut found = Vec::new(alloc);
    'entries: for e in entries {
        let parts = body(alloc, entries, chains, names, e.node.number())?;
        found.push(graph.size(&parts))?;
    }
    Ok(found)
}

fn sizes_of<'d>(
    alloc: Global,
    entries: &[Entry<'d>],
    graph: &Graph,
    names: &IndexMap<&'d str, usize>,
) -> Result<Vec<u64>, AllocError>
    requires { spec.AreNames (spec.named_in (λ key. key.now) names.now) (bodies.abstract_rules (seen_entries entries.now)) }
    ensures { IfOk result (λ found. found.items
        ≡ sizes.assertions_among (sizes.file_with (seen_entries entries.now) graph.now) (seen_entries entries.now)) }
{
    let mut found = Vec::new(alloc);
    'entries: for e in entries {
        found.push(size_of_entry(graph, names, e))?;
    }
    Ok(found)
}

fn size_of_entry<'d>(graph: &Graph, names: &IndexMap<&'d str, usize>, e: &Entry<'d>) -> u64
    ensures { (named : List meaning.Entry) → spec.AreNames (spec.named_in (λ key. key.now) names.now) named
        → result ≡ count_of (expansion graph.now (bodies.part_by e.now.role named (seen_entry e.now))) }
{
    size_of_part(graph, part_of(e, names))
}

fn size_of_part(graph: &Graph, part: Option<Part>) -> u64
    ensures { result ≡ count_of (expansion graph.now (option_to_list part)) }
{
    match part {
        Some(part) => graph.size(&[part]),
        None => 0,
    }
}
