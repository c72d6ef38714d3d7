//! What judging needs of a document: what the rows of a table pick, with the occurrences of groups in which it stands.
ghost use Rattle.std.specs.Prelude.{◌≡◌, ◌<◌, All, IfOk, IfSome, Ok, length};
ghost use Rattle.node_arena.specs.Moves.{tree_nodes};
ghost use Rattle.bind_table.specs.WellFormed.{first_fault};
ghost use Rattle.bind_meaning.specs.Currencies.{currencies};
ghost use Rattle.bind_meaning.specs.Faults.{passed_nodes};
ghost use Rattle.bind_meaning.specs.Kept.{all_kept, all_kept_placed};
ghost use Rattle.bind_meaning.specs.Losses.{lost_nodes, misplaced_nodes, unread_nodes};
ghost use Rattle.bind_meaning.specs.Picks.{all_picked, has_any_term, rows_where};
ghost use Rattle.bind_meaning.specs.Terms.{in_order};
ghost use Rattle.bind_run.specs.Reading.{earlier, first_of};
ghost use Rattle.bind_terms.specs.Reading.{indicator_picks, term_places};

use bind_said::said_nodes;
use bind_seats::{NumberedPicks, number_occurrences};
use bind_table::Binding;
use bind_walk::{Losses, Picks, losses_of, pick_all};
use inv_base::Steps;
use node_arena::{Doc, NodeId};
use reading_laws::numbers_of_nodes_rise;
use std::alloc::{AllocError, Global};
use std::mem::replace;
use std::sync::ledger::Ledger;

/// What the rows of a table pick in a document.
pub(crate) struct Gathered {
    /// What is picked of indicators, and the elements that the table passes over.
    pub(crate) others: Picks,
    /// What rows with a term pick, with its seats.
    pub(crate) numbered: NumberedPicks,
}

impl Drop for Gathered {
    fn drop(self) {
        let Gathered { others, numbered } = self;
        drop(others);
        drop(numbered);
    }
}

/// It goes over the document and the lines of the table once. Picks without their seats are let go as soon as these are known.
pub(crate) fn gather<L: Ledger>(
    alloc: Global,
    doc: &Doc<'_>,
    table: &Binding,
    steps: &mut Steps<L>,
) -> Result<Gathered, AllocError>
    requires { first_fault table.now ≡ Ok tt }
    ensures picks { IfOk result (λ gathered. gathered.numbered.picks.items ≡ all_kept_placed (term_places (tree_nodes doc.now) table.now)) }
    ensures currency { IfOk result (λ gathered. gathered.numbered.invoice_currency ≡ (currencies (tree_nodes doc.now) table.now).invoice) }
    ensures indicators { IfOk result (λ gathered. gathered.others.indicators.items
        ≡ all_kept (in_order (tree_nodes doc.now) (indicator_picks (tree_nodes doc.now) table.now))) }
    ensures passed_over { IfOk result (λ gathered. gathered.others.passed_over.items ≡ passed_nodes (tree_nodes doc.now) table.now) }
    ensures passed_within { IfOk result (λ gathered. All (λ n. n < length doc.now.nodes) gathered.others.passed_over.items) }
{
    let others = picks_of(alloc, doc, table, steps)?;
    with_occurrences(alloc, doc, table, others, steps)
}

/// The same, with the first of the document that is lost.
pub(crate) fn gather_whole<L: Ledger>(
    alloc: Global,
    doc: &Doc<'_>,
    table: &Binding,
    steps: &mut Steps<L>,
) -> Result<(Gathered, Option<NodeId>), AllocError>
    requires { first_fault table.now ≡ Ok tt }
    ensures picks { IfOk result (λ found. found.0.numbered.picks.items ≡ all_kept_placed (term_places (tree_nodes doc.now) table.now)) }
    ensures currency { IfOk result (λ found. found.0.numbered.invoice_currency ≡ (currencies (tree_nodes doc.now) table.now).invoice) }
    ensures indicators { IfOk result (λ found. found.0.others.indicators.items
        ≡ all_kept (in_order (tree_nodes doc.now) (indicator_picks (tree_nodes doc.now) table.now))) }
    ensures passed_over { IfOk result (λ found. found.0.others.passed_over.items ≡ passed_nodes (tree_nodes doc.now) table.now) }
    ensures lost { IfOk result (λ found. found.1 ≡ first_of (lost_nodes (tree_nodes doc.now) table.now)) }
    ensures within { IfOk result (λ found. IfSome found.1 (λ n. n < length doc.now.nodes)) }
{
    let picks = picks_of(alloc, doc, table, steps)?;
    match first_lost(alloc, doc, table, &picks, steps) {
        Ok(lost) => match with_occurrences(alloc, doc, table, picks, steps) {
            Ok(gathered) => Ok((gathered, lost)),
            Err(error) => Err(error),
        },
        Err(error) => {
            drop(picks);
            Err(error)
        }
    }
}

/// The same, with what of the document is unread or misplaced.
pub(crate) fn gather_with_losses<L: Ledger>(
    alloc: Global,
    doc: &Doc<'_>,
    table: &Binding,
    steps: &mut Steps<L>,
) -> Result<(Gathered, Losses), AllocError>
    requires { first_fault table.now ≡ Ok tt }
    ensures picks { IfOk result (λ found. found.0.numbered.picks.items ≡ all_kept_placed (term_places (tree_nodes doc.now) table.now)) }
    ensures currency { IfOk result (λ found. found.0.numbered.invoice_currency ≡ (currencies (tree_nodes doc.now) table.now).invoice) }
    ensures indicators { IfOk result (λ found. found.0.others.indicators.items
        ≡ all_kept (in_order (tree_nodes doc.now) (indicator_picks (tree_nodes doc.now) table.now))) }
    ensures passed_over { IfOk result (λ found. found.0.others.passed_over.items ≡ passed_nodes (tree_nodes doc.now) table.now) }
    ensures passed_within { IfOk result (λ found. All (λ n. n < length doc.now.nodes) found.0.others.passed_over.items) }
    ensures unread { IfOk result (λ found. found.1.unread.items ≡ unread_nodes (tree_nodes doc.now) table.now) }
    ensures misplaced { IfOk result (λ found. found.1.misplaced.items ≡ misplaced_nodes (tree_nodes doc.now) table.now) }
    ensures unread_within { IfOk result (λ found. All (λ n. n < length doc.now.nodes) found.1.unread.items) }
    ensures misplaced_within { IfOk result (λ found. All (λ n. n < length doc.now.nodes) found.1.misplaced.items) }
{
    let picks = picks_of(alloc, doc, table, steps)?;
    match losses_by(alloc, doc, table, &picks, steps) {
        Ok(losses) => match with_occurrences(alloc, doc, table, picks, steps) {
            Ok(gathered) => Ok((gathered, losses)),
            Err(error) => {
                drop(losses);
                Err(error)
            }
        },
        Err(error) => {
            drop(picks);
            Err(error)
        }
    }
}

/// What the rows of the table pick in the document.
pub(crate) fn picks_of<L: Ledger>(
    alloc: Global,
    doc: &Doc<'_>,
    table: &Binding,
    steps: &mut Steps<L>,
) -> Result<Picks, AllocError>
    requires { first_fault table.now ≡ Ok tt }
    ensures terms { IfOk result (λ picks. picks.terms.items
        ≡ all_kept (in_order (tree_nodes doc.now) (all_picked (tree_nodes doc.now) (rows_where has_any_term table.now)))) }
    ensures indicators { IfOk result (λ picks. picks.indicators.items
        ≡ all_kept (in_order (tree_nodes doc.now) (indicator_picks (tree_nodes doc.now) table.now))) }
    ensures passed_over { IfOk result (λ picks. picks.passed_over.items ≡ passed_nodes (tree_nodes doc.now) table.now) }
    ensures passed_within { IfOk result (λ picks. All (λ n. n < length doc.now.nodes) picks.passed_over.items) }
{
    let picks = pick_all(alloc, doc, table, steps)?;
    Ok(picks)
}

/// The picks, those of terms with the occurrences of groups in which they stand.
pub(crate) fn with_occurrences<L: Ledger>(
    alloc: Global,
    doc: &Doc<'_>,
    table: &Binding,
    picks: Picks,
    steps: &mut Steps<L>,
) -> Result<Gathered, AllocError>
    requires formed { first_fault table.now ≡ Ok tt }
    requires terms { picks.terms.items
        ≡ all_kept (in_order (tree_nodes doc.now) (all_picked (tree_nodes doc.now) (rows_where has_any_term table.now))) }
    ensures picks { IfOk result (λ gathered. gathered.numbered.picks.items ≡ all_kept_placed (term_places (tree_nodes doc.now) table.now)) }
    ensures currency { IfOk result (λ gathered. gathered.numbered.invoice_currency ≡ (currencies (tree_nodes doc.now) table.now).invoice) }
    ensures indicators { IfOk result (λ gathered. gathered.others.indicators.items ≡ picks.indicators.items) }
    ensures passed_over { IfOk result (λ gathered. gathered.others.passed_over.items ≡ picks.passed_over.items) }
{
    let mut others = picks;
    let terms = replace(&mut others.terms, Vec::new(alloc));
    match number_occurrences(alloc, doc, table, terms, steps) {
        Ok(numbered) => Ok(Gathered { others, numbered }),
        Err(error) => {
            drop(others);
            Err(error)
        }
    }
}

/// What of the document is unread or misplaced, by what the rows of the table pick in it.
pub(crate) fn losses_by<L: Ledger>(
    alloc: Global,
    doc: &Doc<'_>,
    table: &Binding,
    picks: &Picks,
    steps: &mut Steps<L>,
) -> Result<Losses, AllocError>
    requires formed { first_fault table.now ≡ Ok tt }
    requires terms { picks.now.terms.items
        ≡ all_kept (in_order (tree_nodes doc.now) (all_picked (tree_nodes doc.now) (rows_where has_any_term table.now))) }
    ensures unread { IfOk result (λ losses. losses.unread.items ≡ unread_nodes (tree_nodes doc.now) table.now) }
    ensures misplaced { IfOk result (λ losses. losses.misplaced.items ≡ misplaced_nodes (tree_nodes doc.now) table.now) }
    ensures unread_within { IfOk result (λ losses. All (λ n. n < length doc.now.nodes) losses.unread.items) }
    ensures misplaced_within { IfOk result (λ losses. All (λ n. n < length doc.now.nodes) losses.misplaced.items) }
{
    let said = said_nodes(alloc, doc, table, picks.terms.as_slice(), steps)?;
    let losses = losses_of(alloc, doc, table, said.as_slice(), steps);
    drop(said);
    losses
}

/// The first in document order of the elements that are passed over and of the nodes that are unread.
pub(crate) fn first_lost<L: Ledger>(
    alloc: Global,
    doc: &Doc<'_>,
    table: &Binding,
    picks: &Picks,
    steps: &mut Steps<L>,
) -> Result<Option<NodeId>, AllocError>
    requires formed { first_fault table.now ≡ Ok tt }
    requires terms { picks.now.terms.items
        ≡ all_kept (in_order (tree_nodes doc.now) (all_picked (tree_nodes doc.now) (rows_where has_any_term table.now))) }
    requires passed_over { picks.now.passed_over.items ≡ passed_nodes (tree_nodes doc.now) table.now }
    requires passed_within { All (λ n. n < length doc.now.nodes) picks.now.passed_over.items }
    ensures lost { IfOk result (λ lost. lost ≡ first_of (lost_nodes (tree_nodes doc.now) table.now)) }
    ensures within { IfOk result (λ lost. IfSome lost (λ n. n < length doc.now.nodes)) }
{
    numbers_of_nodes_rise();
    doc.is_of_a_tree();
    let losses = losses_by(alloc, doc, table, picks, steps)?;
    let first = earlier(
        first_of(picks.passed_over.as_slice()),
        first_of(losses.unread.as_slice()),
    );
    drop(losses);
    Ok(first)
}

fn first_of(nodes: &[NodeId]) -> Option<NodeId>
    ensures { result ≡ first_of nodes.now }
{
    nodes.first().copied()
}

/// The one of two nodes that stands before the other, or the one that is there.
fn earlier(first: Option<NodeId>, second: Option<NodeId>) -> Option<NodeId>
    ensures { result ≡ earlier first second }
{
    match first {
        None => second,
        Some(a) => match second {
            None => first,
            Some(b) => {
                if b.number() < a.number() {
                    second
                } else {
                    first
                }
            }
        },
    }
}
