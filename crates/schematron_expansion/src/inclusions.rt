//! The lets and assertions of a rule, with those of the rules that it extends.
ghost use Rattle.std.specs.Prelude.{◌≡◌, ◌++◌, ◌∷◌, [], map, Some, IfOk, OnOk};
ghost use Rattle.schematron_meaning.specs.Lookup.{at_node};
ghost use Rattle.schematron_meaning.specs.Expansion as expansion;
ghost use Rattle.schematron_entries.specs.Seen.{seen_entry};
ghost use Rattle.schematron_expansion.specs.Seen.{seen_put, first_puts, Tells};

use crate::file::{RuleFile, Sort};
use indexmap::IndexSet;
use schematron_entries::Entry;
use schematron_graph::{Budget, Part};
use schematron_meaning::Role;
use std::alloc::{AllocError, Global};

/// A let or an assertion in a rule.
#[derive(Drop)]
pub struct Inclusion<'e, 'd> {
    /// The number of the outermost element by which it was put there; none where it stands there itself.
    pub stand: Option<u32>,
    pub entry: &'e Entry<'d>,
}

/// The first puts of lets and assertions, with the numbers of these.
#[derive(Drop)]
struct Firsts<'e, 'd> {
    told: IndexSet<u32>,
    found: Vec<Inclusion<'e, 'd>>,
}

impl<'e, 'd> RuleFile<'e, 'd> {
    /// The lets and assertions of the rule of this number in their order, where all stand at one element if one is
    /// given. More than so many with those of the rules that it extends count as want of memory.
    pub fn inclusions(
        &self,
        alloc: Global,
        most: usize,
        stand: Option<u32>,
        number: u32,
    ) -> Result<Vec<Inclusion<'e, 'd>>, AllocError>
        ensures { IfOk result (λ found. map seen_put found.items ≡ expansion.inclusions self.now stand number) }
    {
        let items = self.inside(alloc, Sort::Items, number)?;
        let mut found = Vec::new(alloc);
        'items: for e in items {
            push_puts(self, alloc, most, stand, e, &mut found)?;
        }
        Ok(found)
    }

    /// The same without copies: of each let and assertion the first. However often a rule is put, it is gone over once
    /// for each `extends` of this rule. Each entry that stands in this rule takes a turn, and what an `extends` puts
    /// fewer than three for each thing, that `extends` included. Where none is left this counts as want of memory.
    pub fn first_puts(
        &self,
        alloc: Global,
        left: &mut Budget,
        stand: Option<u32>,
        number: u32,
    ) -> Result<Vec<Inclusion<'e, 'd>>, AllocError>
        ensures { IfOk result (λ found. map seen_put found.items ≡ first_puts (expansion.inclusions self.now stand number)) }
    {
        let items = self.inside_within(alloc, left, Sort::Items, number)?;
        let mut firsts = Firsts {
            told: IndexSet::new(alloc),
            found: Vec::new(alloc),
        };
        'items: for e in items {
            tell_puts(self, alloc, left, stand, e, &mut firsts)?;
        }
        let Firsts { found, .. } = firsts;
        Ok(found)
    }
}

/// Adds what an element of a rule puts there.
fn push_puts<'e, 'd>(
    file: &RuleFile<'e, 'd>,
    alloc: Global,
    most: usize,
    stand: Option<u32>,
    e: &'e Entry<'d>,
    found: &mut Vec<Inclusion<'e, 'd>>,
) -> Result<(), AllocError>
    ensures { OnOk result (map seen_put found.new.items ≡ map seen_put found.old.items ++ expansion.puts_by e.now.role file.now stand (seen_entry e.now)) }
{
    match e.role {
        Role::Extends => push_rule(
            file,
            alloc,
            most,
            Some(or_itself(stand, e.node.number())),
            file.rule_put(e),
            found,
        ),
        _ => push_put(stand, e, found),
    }
}

fn or_itself(stand: Option<u32>, number: u32) -> u32
    ensures { result ≡ expansion.or_itself stand number }
{
    stand.unwrap_or(number)
}

/// Adds an element.
fn push_put<'e, 'd>(
    stand: Option<u32>,
    entry: &'e Entry<'d>,
    found: &mut Vec<Inclusion<'e, 'd>>,
) -> Result<(), AllocError>
    ensures { OnOk result (map seen_put found.new.items ≡ map seen_put found.old.items ++ expansion.put_at_stand stand (seen_entry entry.now) ∷ []) }
{
    found.push(Inclusion { stand, entry })?;
    Ok(())
}

/// Adds what the abstract rule of a place has, with what it puts, if there is one.
fn push_rule<'e, 'd>(
    file: &RuleFile<'e, 'd>,
    alloc: Global,
    most: usize,
    stand: Option<u32>,
    rule: Option<usize>,
    found: &mut Vec<Inclusion<'e, 'd>>,
) -> Result<(), AllocError>
    ensures { OnOk result (map seen_put found.new.items ≡ map seen_put found.old.items ++ expansion.put_at file.now stand rule) }
{
    match rule {
        Some(rule) => push_things(file, alloc, most, stand, rule, found),
        None => Ok(()),
    }
}

fn push_things<'e, 'd>(
    file: &RuleFile<'e, 'd>,
    alloc: Global,
    most: usize,
    stand: Option<u32>,
    rule: usize,
    found: &mut Vec<Inclusion<'e, 'd>>,
) -> Result<(), AllocError>
    ensures { OnOk result (map seen_put found.new.items ≡ map seen_put found.old.items ++ expansion.put_at file.now stand (Some rule)) }
{
    let more = most.saturating_sub(found.len());
    let things = file.graph().expand(alloc, more, &[Part::Puts(rule)])?;
    'things: for thing in &things {
        push_at(file, stand, thing.number, found)?;
    }
    Ok(())
}

/// Adds the entry of a number, if there is one.
fn push_at<'e, 'd>(
    file: &RuleFile<'e, 'd>,
    stand: Option<u32>,
    number: u32,
    found: &mut Vec<Inclusion<'e, 'd>>,
) -> Result<(), AllocError>
    ensures { OnOk result (map seen_put found.new.items ≡ map seen_put found.old.items
        ++ map (expansion.put_at_stand stand) (at_node file.now.entries number)) }
{
    match file.at(number) {
        Some(e) => push_put(stand, e, found),
        None => Ok(()),
    }
}

/// Tells of what an element of a rule puts what wasn't told.
fn tell_puts<'e, 'd>(
    file: &RuleFile<'e, 'd>,
    alloc: Global,
    left: &mut Budget,
    stand: Option<u32>,
    e: &'e Entry<'d>,
    firsts: &mut Firsts<'e, 'd>,
) -> Result<(), AllocError>
    ensures { OnOk result (Tells firsts.old.told.keys (map seen_put firsts.old.found.items) firsts.new.told.keys (map seen_put firsts.new.found.items)
        (expansion.puts_by e.now.role file.now stand (seen_entry e.now))) }
{
    match e.role {
        Role::Extends => tell_rule(
            file,
            alloc,
            left,
            Some(or_itself(stand, e.node.number())),
            file.rule_put(e),
            firsts,
        ),
        _ => tell_put(stand, e, firsts),
    }
}

/// Tells an element, unless it was told.
fn tell_put<'e, 'd>(
    stand: Option<u32>,
    entry: &'e Entry<'d>,
    firsts: &mut Firsts<'e, 'd>,
) -> Result<(), AllocError>
    ensures { OnOk result (Tells firsts.old.told.keys (map seen_put firsts.old.found.items) firsts.new.told.keys (map seen_put firsts.new.found.items)
        (expansion.put_at_stand stand (seen_entry entry.now) ∷ [])) }
{
    if firsts.told.insert(entry.node.number())? {
        firsts.found.push(Inclusion { stand, entry })?;
    }
    Ok(())
}

/// Tells of what the abstract rule of a place has, with what it puts, what wasn't told.
fn tell_rule<'e, 'd>(
    file: &RuleFile<'e, 'd>,
    alloc: Global,
    left: &mut Budget,
    stand: Option<u32>,
    rule: Option<usize>,
    firsts: &mut Firsts<'e, 'd>,
) -> Result<(), AllocError>
    ensures { OnOk result (Tells firsts.old.told.keys (map seen_put firsts.old.found.items) firsts.new.told.keys (map seen_put firsts.new.found.items)
        (expansion.put_at file.now stand rule)) }
{
    match rule {
        Some(rule) => tell_things(file, alloc, left, stand, rule, firsts),
        None => Ok(()),
    }
}

fn tell_things<'e, 'd>(
    file: &RuleFile<'e, 'd>,
    alloc: Global,
    left: &mut Budget,
    stand: Option<u32>,
    rule: usize,
    firsts: &mut Firsts<'e, 'd>,
) -> Result<(), AllocError>
    ensures { OnOk result (Tells firsts.old.told.keys (map seen_put firsts.old.found.items) firsts.new.told.keys (map seen_put firsts.new.found.items)
        (expansion.put_at file.now stand (Some rule))) }
{
    let things = file.graph().firsts(alloc, left, &[Part::Puts(rule)])?;
    'things: for thing in &things {
        tell_at(file, stand, thing.number, firsts)?;
    }
    Ok(())
}

/// Tells the entry of a number, if there is one and it wasn't told.
fn tell_at<'e, 'd>(
    file: &RuleFile<'e, 'd>,
    stand: Option<u32>,
    number: u32,
    firsts: &mut Firsts<'e, 'd>,
) -> Result<(), AllocError>
    ensures { OnOk result (Tells firsts.old.told.keys (map seen_put firsts.old.found.items) firsts.new.told.keys (map seen_put firsts.new.found.items)
        (map (expansion.put_at_stand stand) (at_node file.now.entries number))) }
{
    match file.at(number) {
        Some(e) => tell_put(stand, e, firsts),
        None => Ok(()),
    }
}
