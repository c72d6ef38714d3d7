//! Patterns by their identifiers.
ghost use Rattle.std.specs.Prelude.{◌≡◌, ◌++◌, ◌∷◌, [], ℕ, List, Option, length, option_map, chars, Some, IfOk, OnOk};
ghost use Rattle.inv_base.specs.Tree.{is_among};
ghost use Rattle.schematron_meaning.specs.Expansion as expansion;
ghost use Rattle.schematron_meaning.specs.Rules as meaning;
ghost use Rattle.schematron_compile.specs.Lent.{lent_entries, lent_instances};
ghost use Rattle.schematron_compile.specs.Places as spec;

use inv_base::Many;
use schematron_entries::Entry;
use schematron_expansion::Instance;
use schematron_meaning::Attribute;
use schematron_rules::number_of;
use std::alloc::{AllocError, Global};
use std::collections::BTreeMap;

/// The places of patterns by their identifiers.
pub(crate) type Places<'d> = BTreeMap<&'d str, Vec<usize>>;

/// The places of these patterns.
pub(crate) fn places_of<'d>(
    alloc: Global,
    instances: &[Instance<'_, 'd>],
) -> Result<Places<'d>, AllocError>
    ensures { IfOk result (λ places. spec.ArePlaces (spec.places_in places) (spec.ids_of (lent_instances instances.now))) }
{
    let mut places = BTreeMap::new(alloc);
    'instances: for (place, instance) in instances.iter().enumerate() {
        add_place(
            &mut places,
            instance.pattern.attribute(Attribute::Id),
            place,
        )?;
    }
    Ok(places)
}

/// Adds a pattern, which may have no identifier.
fn add_place<'d>(
    places: &mut Places<'d>,
    id: Option<&'d str>,
    place: usize,
) -> Result<(), AllocError>
    ensures { OnOk result (spec.AddsPlace (spec.places_in places.old) (spec.places_in places.new) (option_map (λ text. chars text.now) id.entry) place) }
{
    match id {
        Some(id) => add_named(places, id, place),
        None => Ok(()),
    }
}

fn add_named<'d>(places: &mut Places<'d>, id: &'d str, place: usize) -> Result<(), AllocError>
    ensures { OnOk result (spec.AddsPlace (spec.places_in places.old) (spec.places_in places.new) (Some (chars id.now)) place) }
{
    places.entry(id)?.or_default().push(place)?;
    Ok(())
}

/// Adds the places of the patterns of a name behind others.
fn push_named<'d>(
    found: &mut Vec<usize>,
    places: &Places<'d>,
    name: &'d str,
) -> Result<(), AllocError>
    ensures { OnOk result ((ids : List (Option (List ℕ))) → spec.ArePlaces (spec.places_in places.now) ids
        → found.new.items ≡ found.old.items ++ spec.places_with (chars name.now) 0 ids) }
{
    match places.get(&name) {
        Some(more) => found.extend_from_slice(more),
        None => Ok(()),
    }
}

/// The same of a name that may be missing.
fn push_places<'d>(
    found: &mut Vec<usize>,
    places: &Places<'d>,
    name: Option<&'d str>,
) -> Result<(), AllocError>
    ensures { OnOk result ((ids : List (Option (List ℕ))) → spec.ArePlaces (spec.places_in places.now) ids
        → found.new.items ≡ found.old.items ++ spec.places_named (option_map (λ text. chars text.now) name.entry) 0 ids) }
{
    match name {
        Some(name) => push_named(found, places, name),
        None => Ok(()),
    }
}

/// The places that the elements of a phase name, one element after another.
fn places_active<'d>(
    alloc: Global,
    places: &Places<'d>,
    actives: Vec<&Entry<'d>>,
) -> Result<Vec<usize>, AllocError>
    ensures { IfOk result (λ found. (ids : List (Option (List ℕ))) → spec.ArePlaces (spec.places_in places.now) ids
        → found.items ≡ spec.places_active (lent_entries actives.entry.items) 0 ids) }
{
    let mut found = Vec::new(alloc);
    'actives: for e in actives {
        push_places(&mut found, places, e.attribute(Attribute::Pattern))?;
    }
    Ok(found)
}

/// The numbers in order, each once.
fn in_order(numbers: Vec<usize>) -> Vec<usize>
    ensures rises { spec.Rises 0 result.items }
    ensures same { (n : ℕ) → is_among n result.items ≡ is_among n numbers.items }
{
    let mut ordered = numbers;
    ordered.sort_unstable();
    ordered.dedup();
    ordered
}

fn push_number(list: &mut Many<u32>, place: usize) -> Result<(), AllocError>
    ensures { OnOk result (list.new ≡ list.old ++ place ∷ []) }
{
    let number = number_of(place)?;
    list.push(number)?;
    Ok(())
}

fn listed(alloc: Global, numbers: &[usize]) -> Result<Many<u32>, AllocError>
    ensures { IfOk result (λ list. list ≡ numbers.now) }
{
    let mut list = Many::new(alloc);
    'numbers: for n in numbers {
        push_number(&mut list, *n)?;
    }
    Ok(list)
}

/// The places of the patterns that the elements of a phase name, each once, in the order of the file. Takes time for the
/// elements and for what they name, whatever other patterns there are.
pub(crate) fn numbers_named<'d>(
    alloc: Global,
    places: &Places<'d>,
    actives: Vec<&Entry<'d>>,
) -> Result<Many<u32>, AllocError>
    ensures { IfOk result (λ numbers. (instances : List expansion.Instance) → spec.ArePlaces (spec.places_in places.now) (spec.ids_of instances)
        → numbers ≡ meaning.numbers_named (lent_entries actives.entry.items) 0 instances) }
{
    let numbers = in_order(places_active(alloc, places, actives)?);
    listed(alloc, &numbers)
}
