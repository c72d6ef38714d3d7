//! The entries of a rule file, with what stands in what.
ghost use Rattle.std.specs.Prelude.{◌≡◌, ◌++◌, ◌∷◌, [], map, cond, chars, option_to_list, option_map, option_copied, IfOk, OnOk};
ghost use Rattle.schematron_meaning.specs.declared.attribute.Attribute.TheVariants as a;
ghost use Rattle.schematron_meaning.specs.Lookup as lookup;
ghost use Rattle.schematron_meaning.specs.Bodies.{put_by};
ghost use Rattle.schematron_meaning.specs.Expansion as expansion;
ghost use Rattle.schematron_entries.specs.Seen.{seen_entry, seen_entries};
ghost use Rattle.schematron_expansion.specs.Bodied.{named_in, parents};
ghost use Rattle.schematron_expansion.specs.Linked.{ArePatterns};
ghost use Rattle.schematron_expansion.specs.Seen.{seen_things};
ghost use Rattle.schematron_expansion.specs.Sorts.{test_of};

use crate::abstracts::{place_of, place_of_name};
use crate::counting::{entry_at, get};
use crate::links::{Links, links_of};
use crate::sorts::is_of;
use indexmap::IndexMap;
use schematron_entries::{Chains, Entry};
use schematron_graph::{Budget, Graph};
use schematron_meaning::Attribute;
use std::alloc::{AllocError, Global};
use std::marker::Model;

/// Which things of an element are asked for.
#[derive(Clone, Copy, PartialEq, Eq)]
pub enum Sort {
    /// Lets.
    Lets,
    /// Rules that stand for themselves.
    Rules,
    /// Both, in their order.
    LetsAndRules,
    /// What stands in a rule: lets, assertions, and the rules that it extends.
    Items,
    /// The texts of a message, and what it asks for.
    MessageParts,
    /// Parameters of a pattern that uses another.
    Parameters,
    /// The patterns that a phase makes active.
    Actives,
}

/// The entries of a rule file, with what stands in each, its abstract patterns and rules by their names, and what
/// abstract rules put. Contracts see it as the definition's file.
pub struct RuleFile<'e, 'd> {
    entries: &'e [Entry<'d>],
    links: Links<'d>,
}

impl Drop for RuleFile<'_, '_> {
    fn drop(self) {
        let RuleFile { entries: _, links } = self;
        drop(links);
    }
}

impl<'e, 'd> Model for RuleFile<'e, 'd> {
    ghost use Rattle.schematron_meaning.specs.Expansion.{File, file_of};
    ghost use Rattle.schematron_entries.specs.Seen.{seen_entries};
    ghost use Rattle.schematron_expansion.specs.Bodied.{named_in};
    ghost use Rattle.schematron_expansion.specs.Linked.{AreLinks};

    ghost Value = { File };

    ghost view = { λ file. file_of (seen_entries file.entries.now) };

    ghost invariant = { λ file. AreLinks file.links.parents file.links.numbers file.links.rules.nodes.items (named_in (λ key. key.now) file.links.rules.names)
        (named_in (λ key. key.now) file.links.patterns) file.links.graph (seen_entries file.entries.now) };
}

impl<'e, 'd> RuleFile<'e, 'd> {
    /// The file of these entries. Takes time in proportion to them.
    pub fn of(alloc: Global, entries: &'e [Entry<'d>]) -> Result<RuleFile<'e, 'd>, AllocError>
        ensures { IfOk result (λ file. file ≡ expansion.file_of (seen_entries entries.now)) }
    {
        let links = links_of(alloc, entries)?;
        Ok(RuleFile { entries, links })
    }

    /// All entries in their order.
    pub fn entries(&self) -> &'e [Entry<'d>]
        ensures { seen_entries result.now ≡ self.now.entries }
    {
        self.entries
    }

    /// The file has the abstract rules of its entries, and what they put. It has no code.
    pub fn is_of_its_entries(&self)
        ensures { self.now ≡ expansion.file_of self.now.entries }
    {
        let _entries = self.entries;
    }

    /// What abstract rules put.
    pub fn graph(&self) -> &Graph
        ensures { result.now ≡ self.now.bodies }
    {
        &self.links.graph
    }

    /// What stands in the element of this number, of a sort, in order. Takes time in proportion to what stands in it.
    pub fn inside(
        &self,
        alloc: Global,
        sort: Sort,
        number: u32,
    ) -> Result<Vec<&'e Entry<'d>>, AllocError>
        ensures { IfOk result (λ found. map (λ e. seen_entry e.now) found.items ≡ lookup.inside (test_of sort) self.now.entries number) }
    {
        let mut ample = Budget { left: u64::MAX };
        self.inside_within(alloc, &mut ample, sort, number)
    }

    /// The same, where each entry that stands there takes a turn, of the sort or not.
    pub fn inside_within(
        &self,
        alloc: Global,
        left: &mut Budget,
        sort: Sort,
        number: u32,
    ) -> Result<Vec<&'e Entry<'d>>, AllocError>
        ensures { IfOk result (λ found. map (λ e. seen_entry e.now) found.items ≡ lookup.inside (test_of sort) self.now.entries number) }
    {
        inside(alloc, left, self.entries, &self.links.parents, sort, number)
    }

    /// The entry of this number, if there is one.
    pub fn at(&self, number: u32) -> Option<&'e Entry<'d>>
        ensures { option_to_list (option_map seen_entry (option_copied result)) ≡ lookup.at_node self.now.entries number }
    {
        entry_at(self.entries, &self.links.numbers, number)
    }

    /// The abstract pattern that a pattern uses: the first of the name that it gives.
    pub fn pattern_used(&self, e: &Entry<'d>) -> Option<&'e Entry<'d>>
        ensures { option_map seen_entry (option_copied result) ≡ expansion.pattern_used self.now.entries (seen_entry e.now) }
    {
        pattern_named(
            self.entries,
            &self.links.patterns,
            e.attribute(Attribute::IsA),
        )
    }

    /// The number of the abstract rule that an `extends` puts: the first of the name that it gives.
    pub fn rule_put(&self, e: &Entry<'d>) -> Option<usize>
        ensures { result ≡ put_by self.now.rules (seen_entry e.now) }
    {
        place_of(&self.links.rules.names, e.attribute(Attribute::Rule))
    }
}

/// What stands in an element, of a sort, by the chain of what stands there.
fn inside<'e, 'd>(
    alloc: Global,
    left: &mut Budget,
    entries: &'e [Entry<'d>],
    chains: &Chains,
    sort: Sort,
    number: u32,
) -> Result<Vec<&'e Entry<'d>>, AllocError>
    requires { chains.now ≡ parents (seen_entries entries.now) }
    ensures { IfOk result (λ found. seen_things (λ e. e.now) found.items ≡ lookup.inside (test_of sort) (seen_entries entries.now) number) }
{
    let mut found = Vec::new(alloc);
    let mut next = chains.first(number);
    'things: while let Some(at) = next {
        left.take()?;
        push_of(&mut found, &entries[at], sort)?;
        next = chains.next(at);
    }
    Ok(found)
}

/// Adds an entry if it is of the sort.
fn push_of<'e, 'd>(
    found: &mut Vec<&'e Entry<'d>>,
    e: &'e Entry<'d>,
    sort: Sort,
) -> Result<(), AllocError>
    ensures { OnOk result (seen_things (λ e. e.now) found.new.items ≡ seen_things (λ e. e.now) found.old.items
        ++ cond (test_of sort e.now.role) (seen_entry e.now ∷ []) []) }
{
    if is_of(sort, e.role) {
        found.push(e)?;
    }
    Ok(())
}

/// The first abstract pattern of that name.
fn pattern_named<'e, 'd>(
    entries: &'e [Entry<'d>],
    names: &IndexMap<&'d str, usize>,
    id: Option<&'d str>,
) -> Option<&'e Entry<'d>>
    requires { ArePatterns (named_in (λ key. key.now) names.now) (seen_entries entries.now) }
    ensures { option_map seen_entry (option_copied result)
        ≡ lookup.identified lookup.is_abstract_pattern (option_map (λ name. chars name.now) id.entry) (seen_entries entries.now) }
{
    match id {
        Some(id) => pattern_of_text(entries, names, id),
        None => None,
    }
}

fn pattern_of_text<'e, 'd>(
    entries: &'e [Entry<'d>],
    names: &IndexMap<&'d str, usize>,
    id: &'d str,
) -> Option<&'e Entry<'d>>
    requires { ArePatterns (named_in (λ key. key.now) names.now) (seen_entries entries.now) }
    ensures { option_map seen_entry (option_copied result) ≡ lookup.named lookup.is_abstract_pattern a.Id (chars id.now) (seen_entries entries.now) }
{
    match place_of_name(names, id) {
        Some(at) => get(entries, at),
        None => None,
    }
}
