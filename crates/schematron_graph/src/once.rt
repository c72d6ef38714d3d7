//! The things of a body without copies, for which each rule is gone over once, however often it is put.
ghost use Rattle.std.specs.Prelude.{◌≡◌, ◌++◌, [], ◌∷◌, List, true, IfOk, OnOk};
ghost use Rattle.std.specs.List.{flat_map};
ghost use Rattle.indexmap.specs.IndexSet as set;
ghost use Rattle.schematron_graph.specs.declared.part.Thing.{Thing};
ghost use Rattle.schematron_graph.specs.Rules.{bodies_of, things_of};
ghost use Rattle.schematron_graph.specs.Firsts.{firsts, firsts_behind};
ghost use Rattle.schematron_graph.specs.Ranked.{found, things_behind, are_ranked};
ghost use Rattle.schematron_graph.specs.Once as spec;

use crate::budget::Budget;
use crate::part::{Part, Thing};
use crate::walk::{Place, part_at};
use indexmap::IndexSet;
use std::alloc::{AllocError, Global};

/// Of each number the first thing of a body, with those of the rules that it puts. Takes time in proportion to the body
/// and to the rules that it reaches, and a turn for each part of them and for each end of a rule.
pub(crate) fn firsts_of_body(
    alloc: Global,
    left: &mut Budget,
    bodies: &[Vec<Part>],
    body: &[Part],
) -> Result<Vec<Thing>, AllocError>
    requires { are_ranked 0 (bodies_of bodies.now) ≡ true }
    ensures { IfOk result (λ things. things.items ≡ firsts (flat_map (things_of (found (things_behind (bodies_of bodies.now)))) body.now)) }
{
    let things = once(alloc, left, bodies, body)?;
    firsts_of(alloc, &things)
}

/// Of each number the first thing.
fn firsts_of(alloc: Global, things: &[Thing]) -> Result<Vec<Thing>, AllocError>
    ensures { IfOk result (λ found. found.items ≡ firsts things.now) }
{
    let mut told: IndexSet<u32> = IndexSet::new(alloc);
    let mut found = Vec::new(alloc);
    'things: for thing in things {
        push_first(&mut told, &mut found, *thing)?;
    }
    Ok(found)
}

/// Adds a thing, unless one of its number was told.
fn push_first(
    told: &mut IndexSet<u32>,
    found: &mut Vec<Thing>,
    thing: Thing,
) -> Result<(), AllocError>
    ensures { OnOk result ((things : List Thing) → found.new.items ++ firsts_behind told.new.keys things ≡ found.old.items ++
        firsts_behind told.old.keys (thing ∷ things)) }
{
    if told.insert(thing.number)? {
        found.push(thing)?;
    }
    Ok(())
}

/// The things of a body, with those of each rule at the first place at least where it is put.
fn once(
    alloc: Global,
    left: &mut Budget,
    bodies: &[Vec<Part>],
    body: &[Part],
) -> Result<Vec<Thing>, AllocError>
    requires { are_ranked 0 (bodies_of bodies.now) ≡ true }
    ensures { IfOk result (λ things. spec.Alike things.items (flat_map (things_of (found (things_behind (bodies_of bodies.now)))) body.now)) }
{
    let mut gone: IndexSet<usize> = IndexSet::new(alloc);
    let mut things = Vec::new(alloc);
    let pushed = push_parts(alloc, left, bodies, body, &mut gone, &mut things);
    drop(gone);
    match pushed {
        Ok(()) => Ok(things),
        Err(error) => {
            drop(things);
            Err(error)
        }
    }
}

/// Adds the things of each part, where nothing was gone over.
fn push_parts(
    alloc: Global,
    left: &mut Budget,
    bodies: &[Vec<Part>],
    body: &[Part],
    gone: &mut IndexSet<usize>,
    things: &mut Vec<Thing>,
) -> Result<(), AllocError>
    requires ranked { are_ranked 0 (bodies_of bodies.now) ≡ true }
    requires gone { gone.old.keys ≡ [] }
    requires things { things.old.items ≡ [] }
    ensures { OnOk result (spec.Alike things.new.items (flat_map (things_of (found (things_behind (bodies_of bodies.now)))) body.now)) }
{
    'parts: for part in body {
        left.take()?;
        push_part_once(alloc, left, bodies, *part, gone, things)?;
    }
    Ok(())
}

/// Adds the things of a part, unless it puts a rule that was gone over.
fn push_part_once(
    alloc: Global,
    left: &mut Budget,
    bodies: &[Vec<Part>],
    part: Part,
    gone: &mut IndexSet<usize>,
    out: &mut Vec<Thing>,
) -> Result<(), AllocError>
    requires ranked { are_ranked 0 (bodies_of bodies.now) ≡ true }
    requires written { spec.AreWritten (found (things_behind (bodies_of bodies.now))) gone.old.keys out.old.items }
    ensures written { OnOk result (spec.AreWritten (found (things_behind (bodies_of bodies.now))) gone.new.keys out.new.items) }
    ensures alike { OnOk result (spec.Alike out.new.items (out.old.items ++ things_of (found (things_behind (bodies_of bodies.now))) part)) }
{
    match part {
        Part::Own(thing) => {
            out.push(thing)?;
            Ok(())
        }
        Part::Puts(rule) => {
            if gone.contains(&rule) {
                return Ok(());
            }
            push_once(alloc, left, bodies, rule, gone, out)
        }
    }
}

/// Adds the things of a rule, with those of the rules that it puts and that weren't gone over. A rule that is open isn't
/// met, since each puts only rules of smaller ranks.
fn push_once(
    alloc: Global,
    left: &mut Budget,
    bodies: &[Vec<Part>],
    rank: usize,
    gone: &mut IndexSet<usize>,
    out: &mut Vec<Thing>,
) -> Result<(), AllocError>
    requires ranked { are_ranked 0 (bodies_of bodies.now) ≡ true }
    requires written { spec.AreWritten (found (things_behind (bodies_of bodies.now))) gone.old.keys out.old.items }
    ensures written { OnOk result (spec.AreWritten (found (things_behind (bodies_of bodies.now))) gone.new.keys out.new.items) }
    ensures alike { OnOk result (spec.Alike out.new.items (out.old.items ++ found (things_behind (bodies_of bodies.now)) rank)) }
{
    let mut above = Vec::new(alloc);
    let mut place = Place { rank, next: 0 };
    'budget: loop {
        left.take()?;
        match part_at(bodies, place) {
            Some(Part::Own(thing)) => {
                out.push(thing)?;
                place.next += 1;
            }
            Some(Part::Puts(rule)) => {
                place.next += 1;
                if !gone.contains(&rule) {
                    above.push(place)?;
                    place = Place {
                        rank: rule,
                        next: 0,
                    };
                }
            }
            None => {
                gone.insert(place.rank)?;
                match above.pop() {
                    Some(last) => place = last,
                    None => return Ok(()),
                }
            }
        }
    }
}
