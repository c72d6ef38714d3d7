//! Which nodes of a document are said.

ghost use Rattle.std.specs.Prelude.{◌≡◌, All, IfOk, OnOk};
ghost use Rattle.node_arena.specs.Moves.{tree_nodes};
ghost use Rattle.bind_meaning.specs.Kept.{all_kept};
ghost use Rattle.bind_meaning.specs.Picks.{has_any_term, rows_where, all_picked};
ghost use Rattle.bind_meaning.specs.Terms.{in_order};
ghost use Rattle.bind_meaning.specs.Said as spec;
ghost use Rattle.bind_said.specs.Judged.{IsWithin};
ghost use Rattle.bind_said.specs.Marks.{mark_all};
ghost use Rattle.bind_said.specs.Whole as own;

use crate::constants::mark_constants;
use crate::marks::no_marks;
use crate::picked::mark_picked;
use crate::schemes::mark_schemes;
use bind_meaning::Picked;
use bind_rows::Row;
use bind_table::Binding;
use bind_walk::{WalkInput, chains_lead_on};
use inv_base::Steps;
use node_arena::{Doc, moves_lead_on, names_are_found_by_number};
use std::alloc::{AllocError, Global};
use std::sync::ledger::Ledger;

/// Of each node of the document, in document order, whether it is said: a row with a term picks it; or a row with a constant reaches
/// it, and its string without the white space around it is one of the constant's words; or it is an attribute that is judged with the
/// value of its element, the currency of an amount or the format of an added date. `terms` is what the rows with a term pick, as
/// `pick_all` of bind_walk has it.
pub fn said_nodes<L: Ledger>(
    alloc: Global,
    doc: &Doc<'_>,
    table: &Binding,
    terms: &[Picked],
    steps: &mut Steps<L>,
) -> Result<Vec<bool>, AllocError>
    requires terms { terms.now ≡ all_kept (in_order (tree_nodes doc.now) (all_picked (tree_nodes doc.now) (rows_where has_any_term table.now))) }
    ensures { IfOk result (λ said. said.items ≡ spec.said_nodes (tree_nodes doc.now) table.now) }
{
    marks_are_said(doc);
    let input = WalkInput { alloc, doc };
    let mut marks = no_marks(alloc, doc, steps)?;
    mark_said(&input, table.rows(), terms, &mut marks, steps)?;
    Ok(marks)
}

fn mark_said<L: Ledger>(
    input: &WalkInput<'_, '_>,
    rows: &[Row],
    terms: &[Picked],
    marks: &mut Vec<bool>,
    steps: &mut Steps<L>,
) -> Result<(), AllocError>
    requires { All (IsWithin input.now.doc.now) terms.now }
    ensures { OnOk result (marks.new.items ≡ mark_all marks.old.items (own.said_by_all input.now.doc.now rows.now terms.now)) }
{
    mark_picked(input, rows, terms, marks, steps)?;
    mark_constants(input, rows, marks, steps)?;
    mark_schemes(input, rows, marks, steps)
}

/// The marked nodes are the said ones. It has no code.
fn marks_are_said(doc: &Doc<'_>)
    ensures { own.MarksAreSaid doc.now }
{
    doc.is_of_a_tree();
    chains_lead_on(doc);
    names_are_found_by_number();
    moves_lead_on();
}
