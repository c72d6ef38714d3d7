ghost use Rattle.std.specs.Prelude.{◌≡◌, ℕ, ◌+◌, ◌<◌, vec_len, vec_capacity, true, List, [], ◌∷◌, ◌++◌, length, map, IfOk, OnOk, OnErr};
ghost use Rattle.std.specs.List.{list_all, flat_map};
ghost use Rattle.schematron_graph.specs.declared.part.Thing.{Thing};
ghost use Rattle.schematron_graph.specs.Rules.{bodies_of, things_of};
ghost use Rattle.schematron_graph.specs.Counts.{count_of};
ghost use Rattle.schematron_graph.specs.Firsts.{firsts};
ghost use Rattle.schematron_graph.specs.Ranked.{found, things_behind, is_below, are_ranked};

use crate::budget::Budget;
use crate::once::firsts_of_body;
use crate::part::{Part, Thing};
use crate::walk::{push_thing, push_things};
use std::alloc::{AllocError, Global};
use std::marker::Model;

/// Rules in an order in which each puts only earlier ones, by their places in it: their ranks.
///
/// How large each is has been counted before anything is built.
pub struct Ranked {
    bodies: Vec<Vec<Part>>,
    sizes: Vec<u64>,
}

impl Drop for Ranked {
    fn drop(self) {
        let Ranked { bodies, sizes } = self;
        drop(bodies);
        drop(sizes);
    }
}

impl Model for Ranked {
    ghost use Rattle.std.specs.Prelude.{◌≡◌, true, List, map};
    ghost use Rattle.schematron_graph.specs.declared.part.Part.{Part};
    ghost use Rattle.schematron_graph.specs.Rules.{bodies_of};
    ghost use Rattle.schematron_graph.specs.Counts.{count_of};
    ghost use Rattle.schematron_graph.specs.Ranked.{things_behind, are_ranked};

    ghost Value = { List (List Part) };

    ghost view = { λ r. bodies_of r.bodies.items };

    ghost invariant = { λ r. (are_ranked 0 (bodies_of r.bodies.items) ≡ true) × (r.sizes.items ≡ map count_of (things_behind (bodies_of r.bodies.items))) };
}

impl Ranked {
    /// No rule.
    pub fn new(alloc: Global) -> Ranked
        ensures { result ≡ [] }
    {
        Ranked {
            bodies: Vec::new(alloc),
            sizes: Vec::new(alloc),
        }
    }

    /// How many rules there are, which is the rank of the next one.
    pub fn len(&self) -> usize
        ensures { result ≡ length self.now }
    {
        self.bodies.len()
    }

    /// Adds a rule behind the others. Where memory is wanting nothing changes.
    pub fn push(&mut self, body: Vec<Part>) -> Result<(), AllocError>
        requires { list_all (is_below (length self.old)) body.items ≡ true }
        ensures ok { OnOk result (self.new ≡ self.old ++ body.items ∷ []) }
        ensures err { OnErr result (self.new ≡ self.old) }
    {
        push_rule(&mut self.bodies, &mut self.sizes, body)
    }

    /// How many things of a body count, with those of the rules that it puts, or the greatest `u64` where there are
    /// more.
    pub fn size(&self, body: &[Part]) -> u64
        ensures { result ≡ count_of (flat_map (things_of (found (things_behind self.now))) body.now) }
    {
        size_of_parts(&self.sizes, body)
    }

    /// The things of a body in order, with those of the rules that it puts at their places. More than so many count as
    /// want of memory.
    pub fn expand(
        &self,
        alloc: Global,
        most: usize,
        body: &[Part],
    ) -> Result<Vec<Thing>, AllocError>
        ensures { IfOk result (λ things. things.items ≡ flat_map (things_of (found (things_behind self.now))) body.now) }
    {
        expanded(alloc, most, &self.bodies, body)
    }

    /// The same without copies: of each number the first. Takes turns of those that are left.
    pub fn firsts(
        &self,
        alloc: Global,
        left: &mut Budget,
        body: &[Part],
    ) -> Result<Vec<Thing>, AllocError>
        ensures { IfOk result (λ things. things.items ≡ firsts (flat_map (things_of (found (things_behind self.now))) body.now)) }
    {
        firsts_of_body(alloc, left, &self.bodies, body)
    }
}

/// Adds a body and its size, both or none.
fn push_rule(
    bodies: &mut Vec<Vec<Part>>,
    sizes: &mut Vec<u64>,
    body: Vec<Part>,
) -> Result<(), AllocError>
    ensures bodies { OnOk result (bodies.new.items ≡ bodies.old.items ++ body ∷ []) }
    ensures sizes { OnOk result ((things : List (List Thing)) → sizes.old.items ≡ map count_of things
        → sizes.new.items ≡ map count_of things ++ count_of (flat_map (things_of (found things)) body.items) ∷ []) }
    ensures err { OnErr result ((bodies.new.items ≡ bodies.old.items) × (sizes.new.items ≡ sizes.old.items)) }
{
    let size = size_of_parts(sizes, &body);
    bodies.reserve(1)?;
    sizes.reserve(1)?;
    push_within(bodies, body);
    push_within(sizes, size);
    Ok(())
}

/// Adds an item where there is room for it.
fn push_within<T: Drop>(items: &mut Vec<T>, item: T)
    requires { vec_len items.old < vec_capacity items.old }
    ensures { items.new.items ≡ items.old.items ++ item ∷ [] }
{
    let _ = items.push(item);
}

fn expanded(
    alloc: Global,
    most: usize,
    bodies: &[Vec<Part>],
    body: &[Part],
) -> Result<Vec<Thing>, AllocError>
    requires { are_ranked 0 (bodies_of bodies.now) ≡ true }
    ensures { IfOk result (λ things. things.items ≡ flat_map (things_of (found (things_behind (bodies_of bodies.now)))) body.now) }
{
    let mut things = Vec::new(alloc);
    'parts: for part in body {
        push_part(alloc, most, bodies, *part, &mut things)?;
    }
    Ok(things)
}

fn push_part(
    alloc: Global,
    most: usize,
    bodies: &[Vec<Part>],
    part: Part,
    things: &mut Vec<Thing>,
) -> Result<(), AllocError>
    requires { are_ranked 0 (bodies_of bodies.now) ≡ true }
    ensures { OnOk result (things.new.items ≡ things.old.items ++ things_of (found (things_behind (bodies_of bodies.now))) part) }
{
    match part {
        Part::Own(thing) => push_thing(most, thing, things),
        Part::Puts(rule) => push_things(alloc, most, bodies, rule, things),
    }
}

/// By the sizes of the rules that are put.
fn size_of_parts(sizes: &[u64], parts: &[Part]) -> u64
    ensures { (things : List (List Thing)) → sizes.now ≡ map count_of things → result ≡ count_of (flat_map (things_of (found things)) parts.now) }
{
    let mut size = 0u64;
    'parts: for part in parts {
        size = size.saturating_add(size_of_part(sizes, *part));
    }
    size
}

fn size_of_part(sizes: &[u64], part: Part) -> u64
    ensures { (things : List (List Thing)) → sizes.now ≡ map count_of things → result ≡ count_of (things_of (found things) part) }
{
    match part {
        Part::Own(thing) => u64::from(thing.counts),
        Part::Puts(rule) => sizes.get(rule).copied().unwrap_or(0),
    }
}
