ghost use Rattle.std.specs.Prelude.{◌≡◌, IfOk};
ghost use Rattle.std.specs.List.{flat_map};
ghost use Rattle.schematron_graph.specs.Rules.{bodies_of, things_of, ends, expansion};
ghost use Rattle.schematron_graph.specs.Counts.{count_of};
ghost use Rattle.schematron_graph.specs.Firsts.{firsts};
ghost use Rattle.schematron_graph.specs.Ranked.{found, things_behind};
ghost use Rattle.schematron_graph.specs.Back.{IsFirstBack};
ghost use Rattle.schematron_graph.specs.Built.{built_body, parts_put};

use crate::back::first_back;
use crate::budget::Budget;
use crate::building::{Substitute, build_all, built_body, built_part, is_settled};
use crate::guess::guessed;
use crate::part::{Part, Spot, Thing};
use crate::ranked::Ranked;
use std::alloc::{AllocError, Global};
use std::marker::Model;

/// Rules by their numbers, each of which may put the things of others. Contracts see their bodies.
pub struct Graph {
    rules: Vec<Vec<Part>>,
    ranked: Ranked,
    puts: Vec<Option<Substitute>>,
    labels: Vec<usize>,
}

impl Drop for Graph {
    fn drop(self) {
        let Graph {
            rules,
            ranked,
            puts,
            labels,
        } = self;
        drop(rules);
        drop(ranked);
        drop(puts);
        drop(labels);
    }
}

impl Model for Graph {
    ghost use Rattle.std.specs.Prelude.{List};
    ghost use Rattle.schematron_graph.specs.declared.part.Part.{Part};
    ghost use Rattle.schematron_graph.specs.Rules.{bodies_of};
    ghost use Rattle.schematron_graph.specs.Built.{Fits, IsClosed};

    ghost Value = { List (List Part) };

    ghost view = { λ g. bodies_of g.rules.items };

    ghost invariant = { λ g. (Fits (bodies_of g.rules.items) g.ranked g.puts.items) × (IsClosed (bodies_of g.rules.items) g.puts.items) };
}

impl Graph {
    /// The rules of these bodies.
    pub fn new(alloc: Global, rules: Vec<Vec<Part>>) -> Result<Graph, AllocError>
        ensures { IfOk result (λ g. g ≡ bodies_of rules.items) }
    {
        let guess = guessed(alloc, &rules)?;
        let built = build_all(alloc, &rules, &guess.order)?;
        Ok(Graph {
            rules,
            ranked: built.ranked,
            puts: built.puts,
            labels: guess.labels,
        })
    }

    /// Whether the rule ends: no chain of rules, each of which puts the next, goes on from it without an end.
    pub fn ends(&self, rule: usize) -> bool
        ensures { result ≡ ends self.now rule }
    {
        is_settled(&self.puts, rule)
    }

    /// The first part, in the order of the rules and of their parts, that puts the rule in which it stands or one that
    /// leads back to it.
    pub fn first_back(&self, alloc: Global) -> Result<Option<Spot>, AllocError>
        ensures { IfOk result (λ found. IsFirstBack self.now found) }
    {
        first_back(alloc, &self.rules, &self.labels)
    }

    /// How many things of a body count, with those of the rules that it puts, or the greatest `u64` where there are
    /// more. Nothing of them is built.
    pub fn size(&self, body: &[Part]) -> u64
        ensures { result ≡ count_of (expansion self.now body.now) }
    {
        size_of_parts(&self.ranked, &self.puts, body)
    }

    /// Of each number the first thing of a body, in order, with those of the rules that it puts: what `expand` gives
    /// without copies. Each rule is gone over once, however often it is put. Each part that is gone over takes a turn,
    /// and so does the end of each rule; fewer than three for each thing that `expand` gives. Where none is left this
    /// counts as want of memory.
    pub fn firsts(
        &self,
        alloc: Global,
        left: &mut Budget,
        body: &[Part],
    ) -> Result<Vec<Thing>, AllocError>
        ensures { IfOk result (λ things. things.items ≡ firsts (expansion self.now body.now)) }
    {
        let parts = built_body(alloc, &self.puts, body)?;
        self.ranked.firsts(alloc, left, &parts)
    }

    /// The things of a body in order, with those of the rules that it puts at their places. A rule that doesn't end has
    /// none. More than so many count as want of memory.
    pub fn expand(
        &self,
        alloc: Global,
        most: usize,
        body: &[Part],
    ) -> Result<Vec<Thing>, AllocError>
        ensures { IfOk result (λ things. things.items ≡ expansion self.now body.now) }
    {
        let parts = built_body(alloc, &self.puts, body)?;
        self.ranked.expand(alloc, most, &parts)
    }
}

fn size_of_parts(ranked: &Ranked, puts: &[Option<Substitute>], parts: &[Part]) -> u64
    ensures { result ≡ count_of (flat_map (things_of (found (things_behind ranked.now))) (built_body puts.now parts.now)) }
{
    let mut size = 0u64;
    'parts: for part in parts {
        size = size.saturating_add(size_of_put(ranked, built_part(puts, *part)));
    }
    size
}

fn size_of_put(ranked: &Ranked, put: Substitute) -> u64
    ensures { result ≡ count_of (flat_map (things_of (found (things_behind ranked.now))) (parts_put put)) }
{
    match put {
        Substitute::Nothing => 0,
        Substitute::One(part) => ranked.size(&[part]),
    }
}
