//! What is looked up among the entries of a rule file.
ghost use Rattle.std.specs.Prelude.{◌≡◌, IfOk};
ghost use Rattle.schematron_entries.specs.Seen.{seen_entries};
ghost use Rattle.schematron_expansion.specs.Bodied.{named_in};
ghost use Rattle.schematron_expansion.specs.Bodied as bodied;
ghost use Rattle.schematron_expansion.specs.Counted.{numbers};
ghost use Rattle.schematron_expansion.specs.Linked as spec;

use crate::abstracts::{AbstractRules, abstract_patterns, abstract_rules};
use crate::bodies::{graph_by, parents};
use crate::counting::nodes;
use indexmap::IndexMap;
use schematron_entries::{Chains, Entry};
use schematron_graph::Graph;
use std::alloc::{AllocError, Global};

/// What is looked up among entries.
pub(crate) struct Links<'d> {
    /// The elements that they stand in.
    pub parents: Chains,
    /// Their own numbers.
    pub numbers: Chains,
    /// The abstract rules.
    pub rules: AbstractRules<'d>,
    /// Of each name the place of the first abstract pattern that has it.
    pub patterns: IndexMap<&'d str, usize>,
    /// What abstract rules put.
    pub graph: Graph,
}

impl Drop for Links<'_> {
    fn drop(self) {
        let Links {
            parents,
            numbers,
            rules,
            patterns,
            graph,
        } = self;
        drop(parents);
        drop(numbers);
        drop(rules);
        drop(patterns);
        drop(graph);
    }
}

/// The chains of the elements that entries stand in.
fn chains_of_parents(alloc: Global, entries: &[Entry<'_>]) -> Result<Chains, AllocError>
    ensures { IfOk result (λ chains. chains ≡ bodied.parents (seen_entries entries.now)) }
{
    Chains::of(alloc, parents(alloc, entries)?)
}

/// The chains of the nodes of entries.
fn chains_of_nodes(alloc: Global, entries: &[Entry<'_>]) -> Result<Chains, AllocError>
    ensures { IfOk result (λ chains. chains ≡ numbers (seen_entries entries.now)) }
{
    Chains::of(alloc, nodes(alloc, entries)?)
}

/// What is looked up among these entries. Takes time in proportion to them.
pub(crate) fn links_of<'d>(alloc: Global, entries: &[Entry<'d>]) -> Result<Links<'d>, AllocError>
    ensures { IfOk result (λ links. spec.AreLinks links.parents links.numbers links.rules.nodes.items (named_in (λ key. key.now) links.rules.names)
        (named_in (λ key. key.now) links.patterns) links.graph (seen_entries entries.now)) }
{
    let rules = abstract_rules(alloc, entries)?;
    match abstract_patterns(alloc, entries) {
        Ok(patterns) => linked(alloc, entries, rules, patterns),
        Err(error) => {
            drop(rules);
            Err(error)
        }
    }
}

/// The chains of entries, by the elements that they stand in and by their own numbers.
fn chained(alloc: Global, entries: &[Entry<'_>]) -> Result<(Chains, Chains), AllocError>
    ensures parents { IfOk result (λ both. both.0 ≡ bodied.parents (seen_entries entries.now)) }
    ensures numbers { IfOk result (λ both. both.1 ≡ numbers (seen_entries entries.now)) }
{
    let parents = chains_of_parents(alloc, entries)?;
    match chains_of_nodes(alloc, entries) {
        Ok(numbers) => Ok((parents, numbers)),
        Err(error) => {
            drop(parents);
            Err(error)
        }
    }
}

/// All that is looked up, with what is known of rules and patterns.
fn linked<'d>(
    alloc: Global,
    entries: &[Entry<'d>],
    rules: AbstractRules<'d>,
    patterns: IndexMap<&'d str, usize>,
) -> Result<Links<'d>, AllocError>
    requires rules { bodied.AreRules rules.nodes.items (named_in (λ key. key.now) rules.names) (seen_entries entries.now) }
    requires patterns { spec.ArePatterns (named_in (λ key. key.now) patterns) (seen_entries entries.now) }
    ensures { IfOk result (λ links. spec.AreLinks links.parents links.numbers links.rules.nodes.items (named_in (λ key. key.now) links.rules.names)
        (named_in (λ key. key.now) links.patterns) links.graph (seen_entries entries.now)) }
{
    match chained(alloc, entries) {
        Ok((parents, numbers)) => {
            match graph_by(alloc, entries, &parents, &rules.names, &rules.nodes) {
                Ok(graph) => Ok(Links {
                    parents,
                    numbers,
                    rules,
                    patterns,
                    graph,
                }),
                Err(error) => {
                    drop(rules);
                    drop(patterns);
                    drop(parents);
                    drop(numbers);
                    Err(error)
                }
            }
        }
        Err(error) => {
            drop(rules);
            drop(patterns);
            Err(error)
        }
    }
}
