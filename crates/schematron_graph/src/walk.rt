ghost use Rattle.std.specs.Prelude.{◌≡◌, ◌+◌, ◌<◌, ◌^◌, [], ◌∷◌, ◌++◌, OnOk, IfSome, slice_get, true};
ghost use Rattle.schematron_graph.specs.Rules.{bodies_of, body_of};
ghost use Rattle.schematron_graph.specs.Ranked.{found, things_behind, are_ranked};

use crate::part::{Part, Thing};
use std::alloc::{AllocError, Global};

/// A place in a body, by the rank of its rule and how many parts are before it.
#[derive(Clone, Copy)]
pub(crate) struct Place {
    pub rank: usize,
    pub next: usize,
}

/// The part at a place.
pub(crate) fn part_at(bodies: &[Vec<Part>], place: Place) -> Option<Part>
    ensures part { result ≡ slice_get (body_of (bodies_of bodies.now) place.rank) place.next }
    ensures more { IfSome result (λ _. place.next + 1 < 2 ^ 64) }
{
    let body = bodies.get(place.rank)?.as_slice();
    if place.next < body.len() {
        Some(body[place.next])
    } else {
        None
    }
}

/// Adds a thing. More than so many count as want of memory.
pub(crate) fn push_thing(most: usize, thing: Thing, out: &mut Vec<Thing>) -> Result<(), AllocError>
    ensures { OnOk result (out.new.items ≡ out.old.items ++ thing ∷ []) }
{
    if out.len() >= most {
        return Err(AllocError);
    }
    out.push(thing)?;
    Ok(())
}

/// Adds the things of a rule, with those of the rules that it puts. What it does is linear in how many these are where
/// each rule that is put has two parts or more.
pub(crate) fn push_things(
    alloc: Global,
    most: usize,
    bodies: &[Vec<Part>],
    rank: usize,
    out: &mut Vec<Thing>,
) -> Result<(), AllocError>
    requires { are_ranked 0 (bodies_of bodies.now) ≡ true }
    ensures { OnOk result (out.new.items ≡ out.old.items ++ found (things_behind (bodies_of bodies.now)) rank) }
{
    let mut above = Vec::new(alloc);
    let mut place = Place { rank, next: 0 };
    'budget: loop {
        match part_at(bodies, place) {
            Some(Part::Own(thing)) => {
                push_thing(most, thing, out)?;
                place.next += 1;
            }
            Some(Part::Puts(rule)) => {
                place.next += 1;
                above.push(place)?;
                place = Place {
                    rank: rule,
                    next: 0,
                };
            }
            None => match above.pop() {
                Some(last) => place = last,
                None => return Ok(()),
            },
        }
    }
}
