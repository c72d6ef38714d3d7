//! What abstract rules put, as parts by number.
ghost use Rattle.std.specs.Prelude.{◌≡◌, ◌++◌, ℕ, List, map, option_to_list, IfOk, OnOk};
ghost use Rattle.schematron_graph.specs.Rules.{bodies_of};
ghost use Rattle.schematron_meaning.specs.Lookup.{is_assertion, is_item};
ghost use Rattle.schematron_meaning.specs.Bodies as bodies;
ghost use Rattle.schematron_meaning.specs.Entries as meaning;
ghost use Rattle.schematron_entries.specs.Seen.{seen_entry, seen_entries};
ghost use Rattle.schematron_expansion.specs.Bodied as spec;

use crate::abstracts::{abstract_rules, place_of};
use indexmap::IndexMap;
use schematron_entries::{Chains, Entry};
use schematron_graph::{Graph, Part, Thing};
use schematron_meaning::{Attribute, Role};
use std::alloc::{AllocError, Global};

/// The abstract rules of a rule file by their order, each with what its body puts. Takes time in proportion to the
/// entries where no two have one number.
pub fn graph_of(alloc: Global, entries: &[Entry<'_>]) -> Result<Graph, AllocError>
    ensures { IfOk result (λ graph. graph ≡ bodies.bodies (seen_entries entries.now)) }
{
    let rules = abstract_rules(alloc, entries)?;
    let graph = graph_with(alloc, entries, &rules.names, &rules.nodes);
    drop(rules);
    graph
}

fn graph_with<'d>(
    alloc: Global,
    entries: &[Entry<'d>],
    names: &IndexMap<&'d str, usize>,
    nodes: &[u32],
) -> Result<Graph, AllocError>
    requires names { spec.AreNames (spec.named_in (λ key. key.now) names.now) (bodies.abstract_rules (seen_entries entries.now)) }
    ensures { IfOk result (λ graph. graph ≡ spec.bodies_at (seen_entries entries.now) nodes.now) }
{
    let chains = parents_chained(alloc, entries)?;
    let graph = graph_by(alloc, entries, &chains, names, nodes);
    drop(chains);
    graph
}

fn parents_chained(alloc: Global, entries: &[Entry<'_>]) -> Result<Chains, AllocError>
    ensures { IfOk result (λ chains. chains ≡ spec.parents (seen_entries entries.now)) }
{
    Chains::of(alloc, parents(alloc, entries)?)
}

/// What the rules at these nodes put.
pub(crate) fn graph_by<'d>(
    alloc: Global,
    entries: &[Entry<'d>],
    chains: &Chains,
    names: &IndexMap<&'d str, usize>,
    nodes: &[u32],
) -> Result<Graph, AllocError>
    requires chains { chains.now ≡ spec.parents (seen_entries entries.now) }
    requires names { spec.AreNames (spec.named_in (λ key. key.now) names.now) (bodies.abstract_rules (seen_entries entries.now)) }
    ensures { IfOk result (λ graph. graph ≡ spec.bodies_at (seen_entries entries.now) nodes.now) }
{
    Graph::new(alloc, all_bodies(alloc, entries, chains, names, nodes)?)
}

/// The elements that entries stand in.
pub(crate) fn parents(alloc: Global, entries: &[Entry<'_>]) -> Result<Vec<u32>, AllocError>
    ensures { IfOk result (λ found. found.items ≡ spec.parents (seen_entries entries.now)) }
{
    let mut found = Vec::new(alloc);
    'entries: for e in entries {
        found.push(e.parent)?;
    }
    Ok(found)
}

/// The body of each abstract rule.
pub(crate) fn all_bodies<'d>(
    alloc: Global,
    entries: &[Entry<'d>],
    chains: &Chains,
    names: &IndexMap<&'d str, usize>,
    nodes: &[u32],
) -> Result<Vec<Vec<Part>>, AllocError>
    requires chains { chains.now ≡ spec.parents (seen_entries entries.now) }
    requires names { spec.AreNames (spec.named_in (λ key. key.now) names.now) (bodies.abstract_rules (seen_entries entries.now)) }
    ensures { IfOk result (λ found. bodies_of found.items ≡ spec.bodies_at (seen_entries entries.now) nodes.now) }
{
    let mut found = Vec::new(alloc);
    'rules: for node in nodes {
        found.push(body(alloc, entries, chains, names, *node)?)?;
    }
    Ok(found)
}

/// The body of the rule at a node: what stands in it, by the chain of its parts.
pub(crate) fn body<'d>(
    alloc: Global,
    entries: &[Entry<'d>],
    chains: &Chains,
    names: &IndexMap<&'d str, usize>,
    node: u32,
) -> Result<Vec<Part>, AllocError>
    requires chains { chains.now ≡ spec.parents (seen_entries entries.now) }
    requires names { spec.AreNames (spec.named_in (λ key. key.now) names.now) (bodies.abstract_rules (seen_entries entries.now)) }
    ensures { IfOk result (λ parts. parts.items ≡ spec.body_of_all (seen_entries entries.now) node) }
{
    let mut parts = Vec::new(alloc);
    let mut next = chains.first(node);
    'items: while let Some(at) = next {
        push_item(&mut parts, &entries[at], names)?;
        next = chains.next(at);
    }
    Ok(parts)
}

/// Adds what an element puts in the rule that it stands in.
fn push_item<'d>(
    parts: &mut Vec<Part>,
    e: &Entry<'d>,
    names: &IndexMap<&'d str, usize>,
) -> Result<(), AllocError>
    ensures { OnOk result ((named : List meaning.Entry) → spec.AreNames (spec.named_in (λ key. key.now) names.now) named
        → parts.new.items ≡ parts.old.items ++ spec.parts_at named (seen_entry e.now)) }
{
    if is_item(e.role) {
        push_part(parts, part_of(e, names))
    } else {
        Ok(())
    }
}

fn push_part(parts: &mut Vec<Part>, part: Option<Part>) -> Result<(), AllocError>
    ensures { OnOk result (parts.new.items ≡ parts.old.items ++ option_to_list part) }
{
    match part {
        Some(part) => {
            parts.push(part)?;
            Ok(())
        }
        None => Ok(()),
    }
}

/// What an element of a rule puts: the rule that an `extends` names, or itself.
pub(crate) fn part_of<'d>(e: &Entry<'d>, names: &IndexMap<&'d str, usize>) -> Option<Part>
    ensures { (named : List meaning.Entry) → spec.AreNames (spec.named_in (λ key. key.now) names.now) named
        → option_to_list result ≡ bodies.part_by e.now.role named (seen_entry e.now) }
{
    match e.role {
        Role::Extends => putting(place_of(names, e.attribute(Attribute::Rule))),
        role => Some(Part::Own(Thing {
            number: e.node.number(),
            counts: role.is_assertion(),
        })),
    }
}

fn putting(rule: Option<usize>) -> Option<Part>
    ensures { option_to_list result ≡ bodies.putting rule }
{
    match rule {
        Some(rule) => Some(Part::Puts(rule)),
        None => None,
    }
}

pub(crate) fn is_item(role: Role) -> bool
    ensures { result ≡ is_item role }
{
    matches!(
        role,
        Role::Let | Role::Assert | Role::Report | Role::Extends
    )
}
