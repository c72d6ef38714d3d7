ghost use Rattle.std.specs.Prelude.{◌≡◌, true, map};
ghost use Rattle.std.specs.List.{list_all};
ghost use Rattle.term_table.specs.Contexts.{root_context};
ghost use Rattle.term_table.specs.Runs.{IsInOrder};
ghost use Rattle.inv_terms.specs.Listing.{seat_of};
ghost use Rattle.inv_terms.specs.Counts.{AreCounted};
ghost use Rattle.bind_meaning.specs.Writing as writing;
ghost use Rattle.bind_write.specs.Sources as spec;

use bind_rows::Row;
use inv_terms::{Counts, Entry, Presence};
use term_table::{Context, Group, ROOT, Slot, run_near};

/// An invoice and a table, seen from one of the invoice's contexts.
#[derive(Clone, Copy)]
pub(crate) struct Source<'a> {
    pub rows: &'a [Row],
    /// All entries of the invoice.
    pub entries: &'a [Entry],
    /// Those in the outer occurrence of the context. All, where it has none.
    pub run: &'a [Entry],
    /// How many of all stand before those and among them: where those of the next outer occurrence are looked for first.
    pub end: usize,
    /// What may stand among those.
    pub presence: Presence,
    /// How many occurrences of outer groups the invoice has.
    pub counts: &'a Counts,
    pub context: Context,
}

/// The invoice itself.
pub(crate) fn whole<'a>(rows: &'a [Row], entries: &'a [Entry], counts: &'a Counts) -> Source<'a>
    requires order { IsInOrder (map seat_of entries.now) }
    requires notes { list_all spec.has_plain_attribute rows.now ≡ true }
    requires counted { AreCounted counts.now entries.now }
    ensures { spec.Sees rows.now entries.now root_context result }
{
    Source {
        rows,
        entries,
        run: entries,
        end: 0,
        presence: Presence::of_any(),
        counts,
        context: ROOT,
    }
}

/// The same from an occurrence of a group: of an outer one where the context has none, whose entries are looked for at a place
/// first, else of an inner one.
pub(crate) fn occurrence<'a>(
    source: &Source<'a>,
    group: Group,
    index: u32,
    place: usize,
) -> Source<'a>
    requires { spec.IsSource source.now }
    ensures { spec.Sees source.now.rows.now source.now.entries.now (spec.spot_of source.now.context group index) result }
{
    let slot = Slot { group, index };
    match source.context.outer {
        None => outer_occurrence(source, slot, place),
        Some(_) => inner_occurrence(source, slot),
    }
}

fn outer_occurrence<'a>(source: &Source<'a>, slot: Slot, place: usize) -> Source<'a>
    requires { spec.IsSource source.now }
    ensures { spec.Sees source.now.rows.now source.now.entries.now (spec.in_outer slot) result }
{
    let context = Context {
        outer: Some(slot),
        inner: None,
    };
    let run = run_near(source.entries, context, place);
    Source {
        rows: source.rows,
        entries: source.entries,
        run: run.seats,
        end: run.end,
        presence: Presence::among(run.seats),
        counts: source.counts,
        context,
    }
}

fn inner_occurrence<'a>(source: &Source<'a>, slot: Slot) -> Source<'a>
    requires { spec.IsSource source.now }
    ensures { spec.Sees source.now.rows.now source.now.entries.now (spec.in_inner source.now.context.outer slot) result }
{
    Source {
        rows: source.rows,
        entries: source.entries,
        run: source.run,
        end: source.end,
        presence: source.presence,
        counts: source.counts,
        context: Context {
            outer: source.context.outer,
            inner: Some(slot),
        },
    }
}

fn slot_for(group: Option<Group>, slot: Option<Slot>) -> Option<Slot>
    ensures { result ≡ writing.slot_for group slot }
{
    match group {
        None => None,
        Some(_) => slot,
    }
}

/// The context of a row inside the elements of a context.
pub(crate) fn context_for(row: &Row, context: Context) -> Context
    ensures { result ≡ writing.context_for row.now context }
{
    Context {
        outer: slot_for(row.outer, context.outer),
        inner: slot_for(row.inner, context.inner),
    }
}

/// The entries among which those of such a context stand: the run, unless the context lies further out.
pub(crate) fn entries_for<'a>(source: &Source<'a>, context: Context) -> &'a [Entry]
    requires source { spec.IsSource source.now }
    requires context { spec.IsAround source.now.context context }
    ensures order { IsInOrder (map seat_of result.now) }
    ensures same { spec.HasSameValues source.now.entries.now result.now context }
{
    if context.outer.is_none() {
        source.entries
    } else {
        source.run
    }
}
