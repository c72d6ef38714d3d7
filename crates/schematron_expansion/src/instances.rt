//! Patterns that are judged.
ghost use Rattle.std.specs.Prelude.{◌≡◌, ◌++◌, [], map, chars, Some, option_map, IfOk, OnOk};
ghost use Rattle.schematron_meaning.specs.declared.role.Role.TheVariants as r;
ghost use Rattle.schematron_meaning.specs.Expansion as expansion;
ghost use Rattle.schematron_entries.specs.Seen.{seen_entry};
ghost use Rattle.schematron_expansion.specs.Seen.{seen_instance};

use crate::file::{RuleFile, Sort};
use schematron_entries::Entry;
use schematron_meaning::{Attribute, Role};
use schematron_texts::Parameters;
use std::alloc::{AllocError, Global};

/// A pattern that is judged.
pub struct Instance<'e, 'd> {
    pub pattern: &'e Entry<'d>,
    /// The number of the element whose lets and rules it has: its own, or that of the pattern that it uses.
    pub body: u32,
    /// Where faults of what it uses stand: at itself. None where it has its own.
    pub stand: Option<u32>,
    pub params: Parameters,
}

impl Drop for Instance<'_, '_> {
    fn drop(self) {
        let Instance {
            pattern: _,
            body: _,
            stand: _,
            params,
        } = self;
        drop(params);
    }
}

impl<'e, 'd> RuleFile<'e, 'd> {
    /// The patterns that are judged, in their order. One whose abstract pattern isn't there is none.
    pub fn instances(&self, alloc: Global) -> Result<Vec<Instance<'e, 'd>>, AllocError>
        ensures { IfOk result (λ found. map seen_instance found.items ≡ expansion.instances self.now.entries) }
    {
        let mut found = Vec::new(alloc);
        'entries: for e in self.entries() {
            push_instance(self, alloc, e, &mut found)?;
        }
        Ok(found)
    }
}

/// Adds an entry if it is a pattern that is judged.
fn push_instance<'e, 'd>(
    file: &RuleFile<'e, 'd>,
    alloc: Global,
    e: &'e Entry<'d>,
    found: &mut Vec<Instance<'e, 'd>>,
) -> Result<(), AllocError>
    ensures { OnOk result (map seen_instance found.new.items ≡ map seen_instance found.old.items ++ expansion.instance_of file.now.entries (seen_entry e.now)) }
{
    match e.role {
        Role::Pattern => push_own(alloc, e, found),
        Role::Use => push_used(file, alloc, e, found),
        _ => Ok(()),
    }
}

/// Adds a pattern that has lets and rules of its own.
fn push_own<'e, 'd>(
    alloc: Global,
    pattern: &'e Entry<'d>,
    found: &mut Vec<Instance<'e, 'd>>,
) -> Result<(), AllocError>
    ensures { OnOk result (map seen_instance found.new.items ≡ map seen_instance found.old.items
        ++ expansion.instance_by r.Pattern [] (seen_entry pattern.now)) }
{
    found.push(Instance {
        pattern,
        body: pattern.node.number(),
        stand: None,
        params: Parameters::new(alloc),
    })?;
    Ok(())
}

/// Adds a pattern that uses another, if that one is there.
fn push_used<'e, 'd>(
    file: &RuleFile<'e, 'd>,
    alloc: Global,
    pattern: &'e Entry<'d>,
    found: &mut Vec<Instance<'e, 'd>>,
) -> Result<(), AllocError>
    ensures { OnOk result (map seen_instance found.new.items ≡ map seen_instance found.old.items
        ++ expansion.instance_by r.Use file.now.entries (seen_entry pattern.now)) }
{
    match file.pattern_used(pattern) {
        Some(body) => push_body(file, alloc, pattern, body, found),
        None => Ok(()),
    }
}

/// Adds a pattern with the one that it uses.
fn push_body<'e, 'd>(
    file: &RuleFile<'e, 'd>,
    alloc: Global,
    pattern: &'e Entry<'d>,
    body: &'e Entry<'d>,
    found: &mut Vec<Instance<'e, 'd>>,
) -> Result<(), AllocError>
    ensures { OnOk result (map seen_instance found.new.items ≡ map seen_instance found.old.items
        ++ expansion.used_by file.now.entries (seen_entry pattern.now) (Some (seen_entry body.now))) }
{
    let number = pattern.node.number();
    let params = parameters(file, alloc, number)?;
    found.push(Instance {
        pattern,
        body: body.node.number(),
        stand: Some(number),
        params,
    })?;
    Ok(())
}

/// The parameters that a pattern gives.
fn parameters(file: &RuleFile<'_, '_>, alloc: Global, number: u32) -> Result<Parameters, AllocError>
    ensures { IfOk result (λ params. params ≡ expansion.parameters file.now.entries number) }
{
    let given = file.inside(alloc, Sort::Parameters, number)?;
    let mut params = Parameters::new(alloc);
    'given: for e in given {
        push_given(
            &mut params,
            alloc,
            e.attribute(Attribute::Name),
            e.attribute(Attribute::Value),
        )?;
    }
    Ok(params)
}

/// Adds a parameter, if it has a name and a value.
fn push_given(
    params: &mut Parameters,
    alloc: Global,
    name: Option<&str>,
    value: Option<&str>,
) -> Result<(), AllocError>
    ensures { OnOk result (params.new ≡ expansion.with_given params.old (option_map (λ name. chars name.now) name.entry)
        (option_map (λ value. chars value.now) value.entry)) }
{
    match name {
        Some(name) => push_value(params, alloc, name, value),
        None => Ok(()),
    }
}

fn push_value(
    params: &mut Parameters,
    alloc: Global,
    name: &str,
    value: Option<&str>,
) -> Result<(), AllocError>
    ensures { OnOk result (params.new ≡ expansion.with_given params.old (Some (chars name.now)) (option_map (λ value. chars value.now) value.entry)) }
{
    match value {
        Some(value) => params.push(alloc, name, value),
        None => Ok(()),
    }
}
