//! Phases.
ghost use Rattle.std.specs.Prelude.{◌≡◌, [], map, IfOk, OnOk};
ghost use Rattle.schematron_meaning.specs.Lookup as lookup;
ghost use Rattle.schematron_meaning.specs.Rules as spec;
ghost use Rattle.schematron_meaning.specs.Expansion as expansion;
ghost use Rattle.schematron_meaning.specs.Written as written;
ghost use Rattle.schematron_entries.specs.Seen.{seen_entry, seen_entries};
ghost use Rattle.schematron_rules.specs.Seen.{seen_lets, seen_phases, seen_phase};
ghost use Rattle.schematron_compile.specs.Lent.{lent_entries, lent_instances};
ghost use Rattle.schematron_compile.specs.Places.{ArePlaces, places_in, ids_of};

use crate::budget::Budget;
use crate::lets::{declare_all, plain_lets_inside};
use crate::patterns::copied;
use crate::picking::push_if;
use crate::places::{Places, numbers_named};
use inv_base::Many;
use schematron_entries::Entry;
use schematron_expansion::{RuleFile, Sort};
use schematron_meaning::Attribute;
use schematron_rules::{Let, Phase};
use schematron_texts::Parameters;
use std::alloc::{AllocError, Global};
use xpath_types::Scope;

/// The phases of a file.
pub(crate) fn phases_among<'e, 'd>(
    alloc: Global,
    entries: &'e [Entry<'d>],
) -> Result<Vec<&'e Entry<'d>>, AllocError>
    ensures { IfOk result (λ found. lent_entries found.items ≡ lookup.of_role lookup.is_phase (seen_entries entries.now)) }
{
    let mut found = Vec::new(alloc);
    'entries: for e in entries {
        push_if(&mut found, e, e.role.is_phase())?;
    }
    Ok(found)
}

/// The lets of a phase in a scope, which is the same behind them.
fn lets_of(
    alloc: Global,
    budget: &mut Budget,
    file: &RuleFile<'_, '_>,
    scope: &mut Scope,
    element: u32,
) -> Result<Many<Let>, AllocError>
    ensures lets { IfOk result (λ lets. seen_lets lets ≡ spec.lets_behind [] scope.old (lookup.inside lookup.is_let file.now.entries element)) }
    ensures scope { OnOk result (scope.new ≡ scope.old) }
{
    let count = scope.count();
    let lets = plain_lets_inside(alloc, budget, file, scope, element)?;
    scope.truncate(count);
    Ok(lets)
}

/// The places of the patterns that a phase names.
fn patterns_of<'d>(
    alloc: Global,
    file: &RuleFile<'_, 'd>,
    places: &Places<'d>,
    element: u32,
) -> Result<Many<u32>, AllocError>
    requires { ArePlaces (places_in places.now) (ids_of (expansion.instances file.now.entries)) }
    ensures { IfOk result (λ patterns. patterns ≡ spec.numbers_named (lookup.inside lookup.is_active file.now.entries element) 0
        (expansion.instances file.now.entries)) }
{
    let actives = file.inside(alloc, Sort::Actives, element)?;
    let patterns = numbers_named(alloc, places, actives)?;
    Ok(patterns)
}

/// Both of a phase.
fn lets_and_patterns<'d>(
    alloc: Global,
    budget: &mut Budget,
    file: &RuleFile<'_, 'd>,
    scope: &mut Scope,
    places: &Places<'d>,
    element: u32,
) -> Result<(Many<Let>, Many<u32>), AllocError>
    requires { ArePlaces (places_in places.now) (ids_of (expansion.instances file.now.entries)) }
    ensures lets { IfOk result (λ both. seen_lets both.0 ≡ spec.lets_behind [] scope.old (lookup.inside lookup.is_let file.now.entries element)) }
    ensures patterns { IfOk result (λ both. both.1 ≡ spec.numbers_named (lookup.inside lookup.is_active file.now.entries element) 0
        (expansion.instances file.now.entries)) }
    ensures scope { OnOk result (scope.new ≡ scope.old) }
{
    let lets = lets_of(alloc, budget, file, scope, element)?;
    match patterns_of(alloc, file, places, element) {
        Ok(patterns) => Ok((lets, patterns)),
        Err(error) => {
            drop(lets);
            Err(error)
        }
    }
}

/// A phase in the scope of the schema, which is the same behind it.
fn phase_of<'d>(
    alloc: Global,
    budget: &mut Budget,
    file: &RuleFile<'_, 'd>,
    scope: &mut Scope,
    places: &Places<'d>,
    e: &Entry<'d>,
) -> Result<Phase, AllocError>
    requires scope { scope.old ≡ written.schema_scope file.now.entries }
    requires places { ArePlaces (places_in places.now) (ids_of (expansion.instances file.now.entries)) }
    ensures phase { IfOk result (λ phase. seen_phase phase ≡ spec.phase_of file.now.entries (seen_entry e.now)) }
    ensures scope { OnOk result (scope.new ≡ scope.old) }
{
    let id = copied(alloc, budget, e.attribute(Attribute::Id))?;
    match lets_and_patterns(alloc, budget, file, scope, places, e.node.number()) {
        Ok((lets, patterns)) => Ok(Phase { id, lets, patterns }),
        Err(error) => {
            drop(id);
            Err(error)
        }
    }
}

/// Phases in the scope of the schema, which is the same behind them.
pub(crate) fn phases_of<'d>(
    alloc: Global,
    budget: &mut Budget,
    file: &RuleFile<'_, 'd>,
    scope: &mut Scope,
    places: &Places<'d>,
    phases: Vec<&Entry<'d>>,
) -> Result<Many<Phase>, AllocError>
    requires scope { scope.old ≡ written.schema_scope file.now.entries }
    requires places { ArePlaces (places_in places.now) (ids_of (expansion.instances file.now.entries)) }
    ensures phases { IfOk result (λ found. seen_phases found ≡ map (spec.phase_of file.now.entries) (lent_entries phases.entry.items)) }
    ensures scope { OnOk result (scope.new ≡ scope.old) }
{
    let mut found = Many::new(alloc);
    'phases: for e in phases {
        found.push(phase_of(alloc, budget, file, scope, places, e)?)?;
    }
    Ok(found)
}

/// Declares the lets of all phases: what a pattern may name.
pub(crate) fn declare_phases(
    alloc: Global,
    file: &RuleFile<'_, '_>,
    scope: &mut Scope,
    phases: Vec<&Entry<'_>>,
) -> Result<(), AllocError>
    requires { lent_entries phases.items ≡ lookup.of_role lookup.is_phase file.now.entries }
    ensures { OnOk result (scope.new ≡ written.with_lets [] scope.old (written.phase_lets file.now.entries)) }
{
    let none = Parameters::new(alloc);
    'phases: for e in phases {
        let lets = file.inside(alloc, Sort::Lets, e.node.number())?;
        declare_all(alloc, &none, scope, lets)?;
    }
    Ok(())
}
