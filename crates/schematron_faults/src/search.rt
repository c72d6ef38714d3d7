//! The soonest fault so far, while the expressions of a file are gone over.
ghost use Rattle.std.specs.Prelude.{◌≡◌, false};
ghost use Rattle.schematron_expansion.specs.Found as soon;
ghost use Rattle.schematron_faults.specs.Least as least;
ghost use Rattle.schematron_faults.specs.Searching as spec;

use crate::texts::{Texts, is_changed};
use schematron_expansion::{Found, sooner};
use schematron_graph::Budget;
use schematron_meaning::{MOST_JUDGED_BYTES, MOST_TURNS};
use std::alloc::AllocError;

/// How far a search is.
pub(crate) struct Search {
    /// The soonest so far.
    pub best: Option<Found>,
    /// Where a fault stands that is told if no expression that stands there or before is refused.
    pub last: Option<u32>,
    /// What is gone over was right at another use of the same abstract pattern, but for what parameters change.
    pub again: bool,
    /// What no parameter changes.
    pub texts: Texts,
    /// How much may still be gone over.
    pub left: u64,
    /// How many turns walks may still take.
    pub budget: Budget,
}

impl Drop for Search {
    fn drop(self) {
        let Search {
            best: _,
            last: _,
            again: _,
            texts,
            left: _,
            budget: _,
        } = self;
        drop(texts);
    }
}

/// A search that has gone over nothing.
pub(crate) fn begin(best: Option<Found>, last: Option<u32>, texts: Texts) -> Search
    ensures best { result.best ≡ best }
    ensures last { result.last ≡ last }
    ensures again { result.again ≡ false }
    ensures texts { result.texts ≡ texts }
{
    Search {
        best,
        last,
        again: false,
        texts,
        left: MOST_JUDGED_BYTES,
        budget: Budget { left: MOST_TURNS },
    }
}

/// Counts so much. What is beyond the limit counts as want of memory.
pub(crate) fn spend(search: &mut Search, much: u64) -> Result<(), AllocError>
    ensures best { search.new.best ≡ search.old.best }
    ensures keeps { spec.Keeps search.old search.new }
{
    if much > search.left {
        return Err(AllocError);
    }
    search.left -= much;
    Ok(())
}

/// Counts by how much this is more than what was counted of it.
pub(crate) fn spend_more(search: &mut Search, counted: u64, much: u64) -> Result<(), AllocError>
    ensures best { search.new.best ≡ search.old.best }
    ensures keeps { spec.Keeps search.old search.new }
{
    spend(search, much.saturating_sub(counted))
}

/// The expressions of the element are passed over: they were judged at another use, in the same scope, and were right.
pub(crate) fn is_passed(search: &Search, number: u32) -> bool
    ensures { result ≡ spec.is_passed search.now number }
{
    search.again && !is_changed(&search.texts, number)
}

/// A fault at this element would be told.
pub(crate) fn wants(search: &Search, at: u32) -> bool
    ensures { result ≡ spec.wants search.now at }
{
    is_sooner(search, at) & is_up_to(search.last, at)
}

/// The same where all stands at one element, if one is given.
pub(crate) fn wants_at(search: &Search, stand: Option<u32>) -> bool
    ensures { result ≡ spec.wants_at search.now stand }
{
    match stand {
        Some(at) => wants(search, at),
        None => true,
    }
}

fn is_sooner(search: &Search, at: u32) -> bool
    ensures { result ≡ least.is_sooner search.now.best at }
{
    match &search.best {
        Some(found) => at < found.at,
        None => true,
    }
}

fn is_up_to(last: Option<u32>, at: u32) -> bool
    ensures { result ≡ least.is_up_to last at }
{
    match last {
        Some(last) => at <= last,
        None => true,
    }
}

/// Takes what was found at an element.
pub(crate) fn take(search: &mut Search, found: Option<Found>)
    ensures best { search.new.best ≡ soon.sooner search.old.best found }
    ensures keeps { spec.Keeps search.old search.new }
{
    search.best = sooner(search.best, found);
}
