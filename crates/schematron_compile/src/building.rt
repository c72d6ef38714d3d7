//! What the elements of a rule file come to.
ghost use Rattle.std.specs.Prelude.{◌≡◌, [], map, IfOk, OnOk};
ghost use Rattle.schematron_meaning.specs.Expansion as expansion;
ghost use Rattle.schematron_meaning.specs.Lookup as lookup;
ghost use Rattle.schematron_meaning.specs.Rules as spec;
ghost use Rattle.schematron_meaning.specs.Written as written;
ghost use Rattle.schematron_entries.specs.Seen.{seen_entries};
ghost use Rattle.schematron_rules.specs.Seen.{seen_lets, seen_pattern, seen_phases, seen_rules};
ghost use Rattle.schematron_compile.specs.Lent.{lent_instances};
ghost use Rattle.schematron_compile.specs.Places.{ArePlaces, places_in, ids_of};

use crate::budget::Budget;
use crate::lets::plain_lets_inside;
use crate::patterns::{copied, patterns_of};
use crate::phases::{declare_phases, phases_among, phases_of};
use crate::places::{Places, places_of};
use inv_base::{Many, Txt};
use schematron_entries::Entry;
use schematron_expansion::{Instance, RuleFile};
use schematron_meaning::Attribute;
use schematron_rules::{Compiled, Expanded, Let, Phase, prefixes};
use std::alloc::{AllocError, Global};
use xpath_types::Scope;

/// The number of the root element.
const SCHEMA: u32 = 1;

/// The default phase of a file, which its first element names.
fn default_phase(
    alloc: Global,
    budget: &mut Budget,
    entries: &[Entry<'_>],
) -> Result<Option<Txt>, AllocError>
    ensures { IfOk result (λ name. name ≡ spec.default_phase_of (seen_entries entries.now)) }
{
    match entries.first() {
        Some(e) => copied(alloc, budget, e.attribute(Attribute::DefaultPhase)),
        None => Ok(None),
    }
}

/// The lets of the schema, which are declared for what follows.
fn schema_lets(
    alloc: Global,
    budget: &mut Budget,
    file: &RuleFile<'_, '_>,
    scope: &mut Scope,
) -> Result<Many<Let>, AllocError>
    requires { scope.old ≡ written.prefixes file.now.entries }
    ensures lets { IfOk result (λ lets. seen_lets lets
        ≡ spec.lets_behind [] (written.prefixes file.now.entries) (lookup.inside lookup.is_let file.now.entries lookup.the_schema)) }
    ensures scope { OnOk result (scope.new ≡ written.schema_scope file.now.entries) }
{
    let lets = plain_lets_inside(alloc, budget, file, scope, SCHEMA)?;
    Ok(lets)
}

/// All phases, whose lets are declared for what follows.
fn all_phases<'d>(
    alloc: Global,
    budget: &mut Budget,
    file: &RuleFile<'_, 'd>,
    scope: &mut Scope,
    instances: &[Instance<'_, 'd>],
) -> Result<Many<Phase>, AllocError>
    requires scope { scope.old ≡ written.schema_scope file.now.entries }
    requires instances { lent_instances instances.now ≡ expansion.instances file.now.entries }
    ensures phases { IfOk result (λ phases. seen_phases phases
        ≡ map (spec.phase_of file.now.entries) (lookup.of_role lookup.is_phase file.now.entries)) }
    ensures scope { OnOk result (scope.new ≡ written.outer_scope file.now.entries) }
{
    let places = places_of(alloc, instances)?;
    let phases = phases_with(alloc, budget, file, scope, &places);
    drop(places);
    phases
}

/// All phases, with the places of the patterns that they name.
fn phases_with<'d>(
    alloc: Global,
    budget: &mut Budget,
    file: &RuleFile<'_, 'd>,
    scope: &mut Scope,
    places: &Places<'d>,
) -> Result<Many<Phase>, AllocError>
    requires scope { scope.old ≡ written.schema_scope file.now.entries }
    requires places { ArePlaces (places_in places.now) (ids_of (expansion.instances file.now.entries)) }
    ensures phases { IfOk result (λ phases. seen_phases phases
        ≡ map (spec.phase_of file.now.entries) (lookup.of_role lookup.is_phase file.now.entries)) }
    ensures scope { OnOk result (scope.new ≡ written.outer_scope file.now.entries) }
{
    let found = phases_among(alloc, file.entries())?;
    let phases = phases_of(alloc, budget, file, scope, places, found)?;
    match declare_lets_of_phases(alloc, file, scope) {
        Ok(()) => Ok(phases),
        Err(error) => {
            drop(phases);
            Err(error)
        }
    }
}

/// Declares the lets of all phases: what a pattern may name.
fn declare_lets_of_phases(
    alloc: Global,
    file: &RuleFile<'_, '_>,
    scope: &mut Scope,
) -> Result<(), AllocError>
    ensures { OnOk result (scope.new ≡ written.with_lets [] scope.old (written.phase_lets file.now.entries)) }
{
    let phases = phases_among(alloc, file.entries())?;
    declare_phases(alloc, file, scope, phases)
}

/// The phases and the patterns, in the scope that patterns share.
fn phases_and_patterns<'d>(
    alloc: Global,
    budget: &mut Budget,
    file: &RuleFile<'_, 'd>,
    scope: &mut Scope,
    instances: &[Instance<'_, 'd>],
) -> Result<(Many<Phase>, Many<Expanded>), AllocError>
    requires scope { scope.old ≡ written.schema_scope file.now.entries }
    requires instances { lent_instances instances.now ≡ expansion.instances file.now.entries }
    ensures phases { IfOk result (λ both. seen_phases both.0
        ≡ map (spec.phase_of file.now.entries) (lookup.of_role lookup.is_phase file.now.entries)) }
    ensures patterns { IfOk result (λ both. map seen_pattern both.1
        ≡ map (spec.pattern_of file.now (written.outer_scope file.now.entries)) (lent_instances instances.now)) }
{
    let phases = all_phases(alloc, budget, file, scope, instances)?;
    match patterns_of(alloc, budget, file, scope, instances) {
        Ok(patterns) => Ok((phases, patterns)),
        Err(error) => {
            drop(phases);
            Err(error)
        }
    }
}

/// What the file says whose patterns these are, in the scope of its prefixes.
fn built_in<'d>(
    alloc: Global,
    file: &RuleFile<'_, 'd>,
    scope: &mut Scope,
    instances: &[Instance<'_, 'd>],
) -> Result<Compiled, AllocError>
    requires scope { scope.old ≡ written.prefixes file.now.entries }
    requires instances { lent_instances instances.now ≡ expansion.instances file.now.entries }
    ensures { IfOk result (λ rules. seen_rules rules ≡ spec.compiled file.now) }
{
    let mut budget = Budget::new();
    let default_phase = default_phase(alloc, &mut budget, file.entries())?;
    match schema_lets(alloc, &mut budget, file, scope) {
        Ok(lets) => match phases_and_patterns(alloc, &mut budget, file, scope, instances) {
            Ok((phases, patterns)) => Ok(Compiled {
                default_phase,
                lets,
                phases,
                patterns,
            }),
            Err(error) => {
                drop(default_phase);
                drop(lets);
                Err(error)
            }
        },
        Err(error) => {
            drop(default_phase);
            Err(error)
        }
    }
}

/// What the file says whose patterns these are.
fn built_with<'d>(
    alloc: Global,
    file: &RuleFile<'_, 'd>,
    instances: &[Instance<'_, 'd>],
) -> Result<Compiled, AllocError>
    requires { lent_instances instances.now ≡ expansion.instances file.now.entries }
    ensures { IfOk result (λ rules. seen_rules rules ≡ spec.compiled file.now) }
{
    let mut scope = prefixes(alloc, file.entries())?;
    let rules = built_in(alloc, file, &mut scope, instances);
    drop(scope);
    rules
}

/// What the file says, whatever is wrong with it: a text that is refused as an expression says nothing.
///
/// One scope grows and is cut back from element to element. What comes to more than the caps of schematron_meaning counts
/// as want of memory.
pub(crate) fn build(alloc: Global, file: &RuleFile<'_, '_>) -> Result<Compiled, AllocError>
    ensures { IfOk result (λ rules. seen_rules rules ≡ spec.compiled file.now) }
{
    let instances = file.instances(alloc)?;
    let rules = built_with(alloc, file, &instances);
    drop(instances);
    rules
}
