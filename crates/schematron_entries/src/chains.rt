//! Numbers of which each leads to the next equal one: what stands in an element, one after another.
ghost use Rattle.std.specs.Prelude.{◌≡◌, ◌<◌, ℕ, nat_eq, length, get_or, None, IfOk, option_copied};
ghost use Rattle.std.specs.List.{position_from};
ghost use Rattle.indexmap.specs.IndexMap.{get};
ghost use Rattle.schematron_entries.specs.Chains as spec;

use indexmap::IndexMap;
use std::alloc::{AllocError, Global};
use std::marker::Model;

/// Numbers in order, as the elements that entries stand in. Contracts see them as a list.
pub struct Chains {
    numbers: Vec<u32>,
    links: Links,
}

impl Drop for Chains {
    fn drop(self) {
        let Chains { numbers, links } = self;
        drop(numbers);
        drop(links);
    }
}

/// Where the first of each number is, and from each the next that is the same.
struct Links {
    first: IndexMap<u32, usize>,
    next: Vec<Option<usize>>,
}

impl Drop for Links {
    fn drop(self) {
        let Links { first, next } = self;
        drop(first);
        drop(next);
    }
}

impl Model for Chains {
    ghost use Rattle.std.specs.Prelude.{List, ℕ, nat_eq};
    ghost use Rattle.indexmap.specs.IndexMap.{get};
    ghost use Rattle.schematron_entries.specs.Chains.{AreLinked};

    ghost Value = { List ℕ };

    ghost view = { λ chains. chains.numbers.items };

    ghost invariant = { λ chains. AreLinked 0 chains.numbers.items (λ n. get nat_eq chains.links.first n) chains.links.next.items };
}

impl Chains {
    /// The chains of these numbers. Takes time in proportion to them.
    pub fn of(alloc: Global, numbers: Vec<u32>) -> Result<Chains, AllocError>
        ensures { IfOk result (λ chains. chains ≡ numbers.items) }
    {
        let links = links_of(alloc, numbers.as_slice())?;
        Ok(Chains { numbers, links })
    }

    /// The place of the first that is this number.
    pub fn first(&self, number: u32) -> Option<usize>
        ensures { result ≡ position_from (nat_eq number) 0 self.now }
    {
        self.links.first.get(&number).copied()
    }

    /// The place of the next that is the same number as at a place.
    pub fn next(&self, at: usize) -> Option<usize>
        requires { at < length self.now }
        ensures { result ≡ spec.next_of self.now at }
    {
        self.links.next[at]
    }
}

/// No link yet.
fn unlinked(alloc: Global, count: usize) -> Result<Vec<Option<usize>>, AllocError>
    ensures { IfOk result (λ next. length next.items ≡ count) }
{
    let mut next = Vec::new(alloc);
    'places: for _at in 0..count {
        next.push(None)?;
    }
    Ok(next)
}

/// The links of all numbers, from the last back.
fn links_of(alloc: Global, numbers: &[u32]) -> Result<Links, AllocError>
    ensures { IfOk result (λ links. spec.AreLinked 0 numbers.now (λ n. get nat_eq links.first n) links.next.items) }
{
    let mut first: IndexMap<u32, usize> = IndexMap::new(alloc);
    let mut next = unlinked(alloc, numbers.len())?;
    let mut at = numbers.len();
    'back: while at > 0 {
        at -= 1;
        let number = numbers[at];
        next[at] = first.get(&number).copied();
        first.insert(number, at)?;
    }
    Ok(Links { first, next })
}
