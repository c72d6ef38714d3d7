//! What the rows of a table pick in a document.

ghost use Rattle.std.specs.Prelude.{◌≡◌, ◌<◌, [], length, All, IfOk};
ghost use Rattle.node_arena.specs.Moves.{tree_nodes};
ghost use Rattle.bind_table.specs.Limits.{HasSteps};
ghost use Rattle.bind_table.specs.Lines.{Plan, plan_of};
ghost use Rattle.bind_meaning.specs.Kept.{all_kept};
ghost use Rattle.bind_meaning.specs.Picks.{has_any_term, rows_where, all_picked};
ghost use Rattle.bind_meaning.specs.Faults.{passed_nodes};
ghost use Rattle.bind_meaning.specs.Terms.{in_order};
ghost use Rattle.bind_walk.specs.Finds.{lists_of, put_all};
ghost use Rattle.bind_walk.specs.Lines.{lined};
ghost use Rattle.bind_walk.specs.Picks.{is_indicator};
ghost use Rattle.bind_walk.specs.Sorting.{Sorts};
ghost use Rattle.bind_walk.specs.Walks.{strolled, AreLined};
ghost use Rattle.bind_walk.specs.Finding as spec;

use crate::finds::{Find, Finds};
use crate::lines::{FoundLine, find_lines};
use crate::passed::passed_of;
use crate::sorting::sorted;
use crate::walk::{Carried, Position, lines_lead_as_steps_do, walk};
use crate::{WalkInput, chains_lead_on};
use bind_meaning::Picked;
use bind_rows::Many;
use bind_table::Binding;
use bind_table::laws::rows_pick_what_lines_pick;
use inv_base::Steps;
use node_arena::{Doc, NodeId, moves_lead_on, names_are_found_by_number};
use std::alloc::{AllocError, Global};
use std::sync::ledger::Ledger;

/// What the rows of a table pick in a document, in document order and at one node by their rows.
pub struct Picks {
    /// What rows with a term pick, before any rule on placeholders and currencies.
    pub terms: Vec<Picked>,
    /// What rows without a term pick, whose word is checked.
    pub indicators: Vec<Picked>,
    /// The elements that the table passes over, in document order: those whose names lead no further along any row, right inside one
    /// whose names do, guards aside.
    pub passed_over: Vec<NodeId>,
}

impl Drop for Picks {
    fn drop(self) {
        let Picks {
            terms,
            indicators,
            passed_over,
        } = self;
        drop(terms);
        drop(indicators);
        drop(passed_over);
    }
}

/// What the rows of the table pick, each by itself over the whole document: one walk over the table's lines and the document finds it.
/// Several rows may pick one node.
pub fn pick_all<L: Ledger>(
    alloc: Global,
    doc: &Doc<'_>,
    table: &Binding,
    steps: &mut Steps<L>,
) -> Result<Picks, AllocError>
    requires { All HasSteps table.now }
    ensures terms { IfOk result (λ picks. picks.terms.items
        ≡ all_kept (in_order (tree_nodes doc.now) (all_picked (tree_nodes doc.now) (rows_where has_any_term table.now)))) }
    ensures indicators { IfOk result (λ picks. picks.indicators.items
        ≡ all_kept (in_order (tree_nodes doc.now) (all_picked (tree_nodes doc.now) (rows_where is_indicator table.now)))) }
    ensures passed_over { IfOk result (λ picks. picks.passed_over.items ≡ passed_nodes (tree_nodes doc.now) table.now) }
    ensures passed_within { IfOk result (λ picks. All (λ m. m < length doc.now.nodes) picks.passed_over.items) }
{
    let lines = lines_of(alloc, doc, table)?;
    let picks = picks_by(alloc, doc, table, &lines, steps);
    drop(lines);
    picks
}

/// What the rows of the table pick, by its lines.
fn picks_by<L: Ledger>(
    alloc: Global,
    doc: &Doc<'_>,
    table: &Binding,
    lines: &[FoundLine],
    steps: &mut Steps<L>,
) -> Result<Picks, AllocError>
    requires steps { All HasSteps table.now }
    requires lines { lines.now ≡ lined doc.now (plan_of table.now) }
    ensures terms { IfOk result (λ picks. picks.terms.items
        ≡ all_kept (in_order (tree_nodes doc.now) (all_picked (tree_nodes doc.now) (rows_where has_any_term table.now)))) }
    ensures indicators { IfOk result (λ picks. picks.indicators.items
        ≡ all_kept (in_order (tree_nodes doc.now) (all_picked (tree_nodes doc.now) (rows_where is_indicator table.now)))) }
    ensures passed_over { IfOk result (λ picks. picks.passed_over.items ≡ passed_nodes (tree_nodes doc.now) table.now) }
    ensures passed_within { IfOk result (λ picks. All (λ m. m < length doc.now.nodes) picks.passed_over.items) }
{
    rows_are_walked();
    lines_lead_as_steps_do(doc);
    picks_are_sorted_finds(doc);
    let passed_over = passed_of(alloc, doc, table.rows(), lines, steps)?;
    let finds = find_all(alloc, doc, lines, steps)?;
    sorted_picks(finds, passed_over)
}

/// What was found, each list sorted by nodes and then by rows.
fn sorted_picks(finds: Finds, passed_over: Vec<NodeId>) -> Result<Picks, AllocError>
    ensures terms { IfOk result (λ picks. Sorts finds.terms picks.terms.items) }
    ensures indicators { IfOk result (λ picks. Sorts finds.indicators picks.indicators.items) }
    ensures passed_over { IfOk result (λ picks. picks.passed_over.items ≡ passed_over.items) }
{
    let (terms, indicators) = finds.into_lists();
    let terms = sorted(terms)?;
    let indicators = sorted(indicators)?;
    Ok(Picks {
        terms,
        indicators,
        passed_over,
    })
}

/// The lines of the table with their names as the document has them.
pub(crate) fn lines_of(
    alloc: Global,
    doc: &Doc<'_>,
    table: &Binding,
) -> Result<Vec<FoundLine>, AllocError>
    ensures { IfOk result (λ lines. lines.items ≡ lined doc.now (plan_of table.now)) }
{
    rows_are_walked();
    let lines = find_lines(alloc, doc, table)?;
    Ok(lines)
}

/// What is found by the lines, for each reason in the order of the walk.
fn find_all<L: Ledger>(
    alloc: Global,
    doc: &Doc<'_>,
    lines: &[FoundLine],
    steps: &mut Steps<L>,
) -> Result<Finds, AllocError>
    requires { AreLined doc.now lines.now }
    ensures { IfOk result (λ finds. (plan : Plan) → lines.now ≡ lined doc.now plan → finds ≡ put_all (lists_of [] []) (strolled doc.now plan [] 0)) }
{
    let mut finds = Finds::new(alloc);
    let input = WalkInput { alloc, doc };
    let top = Position {
        node: doc.document(),
        around: &[],
    };
    walk(&input, lines, &top, &mut finds, steps)?;
    Ok(finds)
}

/// What is found by the lines of a table is what its rows pick, in another order. It has no code.
fn rows_are_walked()
    ensures { spec.RowsAreWalked }
{
    rows_pick_what_lines_pick::<NodeId, Many<Carried>, Find>();
}

/// What was found for one reason, sorted, is what the rows of that sort pick in document order. It has no code.
fn picks_are_sorted_finds(doc: &Doc<'_>)
    ensures { spec.SortsPicks doc.now }
{
    doc.is_of_a_tree();
    chains_lead_on(doc);
    names_are_found_by_number();
    moves_lead_on();
}
