//! Lets of the schema and of its phases.
ghost use Rattle.std.specs.Prelude.{◌≡◌, ◌∷◌, [], IfOk, OnOk};
ghost use Rattle.schematron_meaning.specs.Lookup.{is_let, is_phase, inside};
ghost use Rattle.schematron_meaning.specs.Written as written;
ghost use Rattle.schematron_entries.specs.Seen.{seen_entry};
ghost use Rattle.schematron_faults.specs.Phases as phases;
ghost use Rattle.schematron_faults.specs.Searching as spec;

use crate::lets::judge_lets;
use crate::search::Search;
use schematron_entries::Entry;
use schematron_expansion::{RuleFile, Sort};
use schematron_rules::{declare_let, prefixes};
use schematron_texts::Parameters;
use std::alloc::{AllocError, Global};
use xpath_types::Scope;

/// The number of the root element.
const THE_SCHEMA: u32 = 1;

/// Goes over the lets of the schema and of all phases.
pub(crate) fn judge_outside(
    alloc: Global,
    search: &mut Search,
    file: &RuleFile<'_, '_>,
) -> Result<(), AllocError>
    ensures { OnOk result (spec.Goes search.old search.new (phases.written_outside file.now.entries)) }
{
    let mut scope = prefixes(alloc, file.entries())?;
    judge_lets(alloc, search, file, &mut scope, THE_SCHEMA)?;
    judge_phases(alloc, search, file, &mut scope)
}

fn judge_phases(
    alloc: Global,
    search: &mut Search,
    file: &RuleFile<'_, '_>,
    scope: &mut Scope,
) -> Result<(), AllocError>
    ensures { OnOk result (spec.Goes search.old search.new (phases.written_phases_of file.now.entries scope.old file.now.entries)) }
{
    let entries = file.entries();
    'entries: for e in entries {
        judge_phase(alloc, search, file, scope, e)?;
    }
    Ok(())
}

/// Goes over the lets of a phase, if the element is one.
fn judge_phase(
    alloc: Global,
    search: &mut Search,
    file: &RuleFile<'_, '_>,
    scope: &mut Scope,
    e: &Entry<'_>,
) -> Result<(), AllocError>
    ensures goes { OnOk result (spec.Goes search.old search.new (phases.written_phases_of file.now.entries scope.old (seen_entry e.now ∷ []))) }
    ensures scope { OnOk result (scope.new ≡ scope.old) }
{
    if !e.role.is_phase() {
        return Ok(());
    }
    let count = scope.count();
    judge_lets(alloc, search, file, scope, e.node.number())?;
    scope.truncate(count);
    Ok(())
}

/// What is declared in all patterns.
pub(crate) fn outer_scope(alloc: Global, file: &RuleFile<'_, '_>) -> Result<Scope, AllocError>
    ensures { IfOk result (λ scope. scope ≡ written.outer_scope file.now.entries) }
{
    let mut scope = prefixes(alloc, file.entries())?;
    declare_inside(alloc, file, &mut scope, THE_SCHEMA)?;
    declare_phases(alloc, file, &mut scope)?;
    Ok(scope)
}

/// Declares the lets that stand in an element, which no parameters change.
fn declare_inside(
    alloc: Global,
    file: &RuleFile<'_, '_>,
    scope: &mut Scope,
    number: u32,
) -> Result<(), AllocError>
    ensures { OnOk result (scope.new ≡ written.with_lets [] scope.old (inside is_let file.now.entries number)) }
{
    let params = Parameters::new(alloc);
    let lets = file.inside(alloc, Sort::Lets, number)?;
    'lets: for e in lets {
        declare_let(alloc, scope, &params, e)?;
    }
    Ok(())
}

/// Declares the lets of all phases.
fn declare_phases(
    alloc: Global,
    file: &RuleFile<'_, '_>,
    scope: &mut Scope,
) -> Result<(), AllocError>
    ensures { OnOk result (scope.new ≡ written.with_lets [] scope.old (written.phase_lets file.now.entries)) }
{
    let entries = file.entries();
    'entries: for e in entries {
        declare_phase(alloc, file, scope, e)?;
    }
    Ok(())
}

/// Declares the lets of a phase, if the element is one.
fn declare_phase(
    alloc: Global,
    file: &RuleFile<'_, '_>,
    scope: &mut Scope,
    e: &Entry<'_>,
) -> Result<(), AllocError>
    ensures { OnOk result (scope.new ≡ written.with_lets [] scope.old (phases.lets_of_phases file.now.entries (seen_entry e.now ∷ []))) }
{
    if e.role.is_phase() {
        declare_inside(alloc, file, scope, e.node.number())
    } else {
        Ok(())
    }
}
