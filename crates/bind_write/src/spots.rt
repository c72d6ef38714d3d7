ghost use Rattle.std.specs.Prelude.{◌≡◌, ◌<◌, ◌+◌, max, fold, map, length, Some, slice_get};
ghost use Rattle.bind_meaning.specs.Trees as trees;
ghost use Rattle.bind_write.specs.Sources as sources;
ghost use Rattle.bind_write.specs.Spots as spec;

use crate::source::{Source, occurrence};
use inv_terms::{Entry, index_in};
use term_table::{Context, Group};

/// Where a line is written: in each occurrence of its group, or once where there is none.
#[derive(Clone, Copy)]
pub(crate) struct Spots {
    group: Group,
    count: u32,
}

/// Where a line is written in a context.
pub(crate) fn spots_of(source: &Source<'_>, group: Option<Group>) -> Spots
    requires { sources.IsSource source.now }
    ensures { sources.spots_by source.now.context result.group result.count ≡ trees.spots source.now.entries.now source.now.context group }
{
    match group {
        None => Spots {
            group: Group::Root,
            count: 0,
        },
        Some(group) => Spots {
            group,
            count: count_of(source, group),
        },
    }
}

/// How many spots there are.
pub(crate) fn number_of(spots: Spots) -> u32
    ensures { result ≡ max spots.count 1 }
{
    spots.count.max(1)
}

/// The invoice as the k-th of the spots sees it, from 0. Its entries are looked for at a place first.
pub(crate) fn spot_at<'a>(source: &Source<'a>, spots: Spots, k: u32, place: usize) -> Source<'a>
    requires source { sources.IsSource source.now }
    requires among { k < max spots.count 1 }
    ensures { sources.Sees source.now.rows.now source.now.entries.now (spec.nth_spot source.now.context spots.group spots.count k) result }
{
    if spots.count == 0 {
        *source
    } else {
        occurrence(source, spots.group, k + 1, place)
    }
}

/// How many occurrences of the group there are in the context.
fn count_of(source: &Source<'_>, group: Group) -> u32
    requires { sources.IsSource source.now }
    ensures { result ≡ spec.count_in source.now.entries.now source.now.context group }
{
    match source.context.outer {
        None => source.counts.last(group),
        Some(_) => last_inner(source.run, group),
    }
}

fn last_inner(run: &[Entry], group: Group) -> u32
    ensures { result ≡ spec.inner_count_of run.now group }
{
    let mut last = 0u32;
    'entries: for e in run {
        last = last.max(index_in(group, e.context.inner));
    }
    last
}
