//! The abstract rules and abstract patterns of a rule file, by their names.
ghost use Rattle.std.specs.Prelude.{◌≡◌, ◌++◌, ◌∷◌, [], List, length, chars, option_map, Some, IfOk, OnOk};
ghost use Rattle.schematron_meaning.specs.Lookup.{is_abstract_rule, is_abstract_pattern};
ghost use Rattle.schematron_meaning.specs.Bodies as bodies;
ghost use Rattle.schematron_meaning.specs.Entries as meaning;
ghost use Rattle.schematron_entries.specs.Seen.{seen_entry, seen_entries};
ghost use Rattle.schematron_expansion.specs.Bodied as spec;
ghost use Rattle.schematron_expansion.specs.Linked.{ArePatterns};

use indexmap::IndexMap;
use schematron_entries::Entry;
use schematron_meaning::{Attribute, Role};
use std::alloc::{AllocError, Global};

/// The abstract rules in their order.
pub(crate) struct AbstractRules<'d> {
    /// The nodes of all.
    pub nodes: Vec<u32>,
    /// Of each name the place of the first that has it.
    pub names: IndexMap<&'d str, usize>,
}

impl Drop for AbstractRules<'_> {
    fn drop(self) {
        let AbstractRules { nodes, names } = self;
        drop(nodes);
        drop(names);
    }
}

/// The abstract rules of these entries.
pub(crate) fn abstract_rules<'d>(
    alloc: Global,
    entries: &[Entry<'d>],
) -> Result<AbstractRules<'d>, AllocError>
    ensures { IfOk result (λ rules. spec.AreRules rules.nodes.items (spec.named_in (λ key. key.now) rules.names) (seen_entries entries.now)) }
{
    let mut rules = AbstractRules {
        nodes: Vec::new(alloc),
        names: IndexMap::new(alloc),
    };
    'entries: for e in entries {
        take_entry(&mut rules, e)?;
    }
    Ok(rules)
}

/// Goes over an entry, which may be an abstract rule.
fn take_entry<'d>(rules: &mut AbstractRules<'d>, e: &Entry<'d>) -> Result<(), AllocError>
    ensures { OnOk result ((es : List meaning.Entry) → spec.AreRules rules.old.nodes.items (spec.named_in (λ key. key.now) rules.old.names) es
        → spec.AreRules rules.new.nodes.items (spec.named_in (λ key. key.now) rules.new.names) (es ++ seen_entry e.now ∷ [])) }
{
    if e.role.is_abstract_rule() {
        add_rule(rules, e)
    } else {
        Ok(())
    }
}

/// Adds a rule behind the others.
fn add_rule<'d>(rules: &mut AbstractRules<'d>, e: &Entry<'d>) -> Result<(), AllocError>
    ensures nodes { OnOk result (rules.new.nodes.items ≡ rules.old.nodes.items ++ e.now.node ∷ []) }
    ensures names { OnOk result (spec.AddsName (spec.named_in (λ key. key.now) rules.old.names) (spec.named_in (λ key. key.now) rules.new.names)
        (spec.id_of (seen_entry e.now)) (length rules.old.nodes.items)) }
{
    add_name(
        &mut rules.names,
        e.attribute(Attribute::Id),
        rules.nodes.len(),
    )?;
    rules.nodes.push(e.node.number())?;
    Ok(())
}

/// Of each name of abstract patterns the place of the first entry that is one of that name.
pub(crate) fn abstract_patterns<'d>(
    alloc: Global,
    entries: &[Entry<'d>],
) -> Result<IndexMap<&'d str, usize>, AllocError>
    ensures { IfOk result (λ names. ArePatterns (spec.named_in (λ key. key.now) names) (seen_entries entries.now)) }
{
    let mut names = IndexMap::new(alloc);
    'entries: for (at, e) in entries.iter().enumerate() {
        take_pattern(&mut names, e, at)?;
    }
    Ok(names)
}

/// Goes over the entry at a place, which may be an abstract pattern.
fn take_pattern<'d>(
    names: &mut IndexMap<&'d str, usize>,
    e: &Entry<'d>,
    at: usize,
) -> Result<(), AllocError>
    ensures { OnOk result ((es : List meaning.Entry) → length es ≡ at → ArePatterns (spec.named_in (λ key. key.now) names.old) es
        → ArePatterns (spec.named_in (λ key. key.now) names.new) (es ++ seen_entry e.now ∷ [])) }
{
    if is_abstract_pattern(e.role) {
        add_name(names, e.attribute(Attribute::Id), at)
    } else {
        Ok(())
    }
}

fn is_abstract_pattern(role: Role) -> bool
    ensures { result ≡ is_abstract_pattern role }
{
    matches!(role, Role::AbstractPattern)
}

/// Adds the name of what stands at a place, unless something before it has that name.
fn add_name<'d>(
    names: &mut IndexMap<&'d str, usize>,
    id: Option<&'d str>,
    place: usize,
) -> Result<(), AllocError>
    ensures { OnOk result (spec.AddsName (spec.named_in (λ key. key.now) names.old) (spec.named_in (λ key. key.now) names.new)
        (option_map (λ name. chars name.now) id.entry) place) }
{
    match id {
        Some(id) => add_text(names, id, place),
        None => Ok(()),
    }
}

fn add_text<'d>(
    names: &mut IndexMap<&'d str, usize>,
    id: &'d str,
    place: usize,
) -> Result<(), AllocError>
    ensures { OnOk result (spec.AddsName (spec.named_in (λ key. key.now) names.old) (spec.named_in (λ key. key.now) names.new) (Some (chars id.now)) place) }
{
    if names.contains_key(&id) {
        return Ok(());
    }
    names.insert(id, place)?;
    Ok(())
}

/// The place of the first rule of that name.
pub(crate) fn place_of<'d>(names: &IndexMap<&'d str, usize>, id: Option<&'d str>) -> Option<usize>
    ensures { (rules : List meaning.Entry) → spec.AreNames (spec.named_in (λ key. key.now) names.now) rules
        → result ≡ bodies.rule_named rules (option_map (λ name. chars name.now) id.entry) }
{
    match id {
        Some(id) => place_of_text(names, id),
        None => None,
    }
}

fn place_of_text<'d>(names: &IndexMap<&'d str, usize>, id: &'d str) -> Option<usize>
    ensures { (rules : List meaning.Entry) → spec.AreNames (spec.named_in (λ key. key.now) names.now) rules
        → result ≡ bodies.rule_named rules (Some (chars id.now)) }
{
    place_of_name(names, id)
}

/// The place that is kept of a name.
pub(crate) fn place_of_name<'d>(names: &IndexMap<&'d str, usize>, id: &'d str) -> Option<usize>
    ensures { result ≡ spec.named_in (λ key. key.now) names.now id.now }
{
    names.get(&id).copied()
}
