//! The walk over the lines of a table and the elements of a document.

ghost use Rattle.std.specs.Prelude.{◌≡◌, ◌<◌, ◌++◌, ◌∷◌, [], ◌&&◌, length, Some, OnOk, IfOk};
ghost use Rattle.std.specs.List.{list_all};
ghost use Rattle.node_arena.specs.Document.{node_at};
ghost use Rattle.node_arena.specs.Moves.{has_found};
ghost use Rattle.bind_walk.specs.Found.{is_met};
ghost use Rattle.bind_walk.specs.Finds.{put_all};
ghost use Rattle.bind_walk.specs.Walks as spec;

use crate::finds::{Find, Finds};
use crate::lines::{End, FoundLine, FoundRow};
use crate::names::is_number;
use crate::{WalkInput, are_met, chains_lead_on, has_name};
use bind_meaning::{Picked, is_blank_at};
use bind_rows::is_same_or_none;
use inv_base::Steps;
use node_arena::{Doc, NodeId, names_are_found_by_number};
use std::alloc::{AllocError, Global};
use std::sync::ledger::Ledger;
use term_table::Group;

/// An element that carries a group, around those that are walked.
#[derive(Clone, Copy)]
pub(crate) struct Carried {
    pub(crate) group: Group,
    pub(crate) element: NodeId,
}

/// Where the walk stands: at a node, inside the elements that carry groups, from the outermost on.
#[derive(Clone, Copy)]
pub(crate) struct Position<'p> {
    pub(crate) node: NodeId,
    pub(crate) around: &'p [Carried],
}

/// A line leads where its step does, and what is found at it is what its rows pick. It has no code.
pub(crate) fn lines_lead_as_steps_do(doc: &Doc<'_>)
    ensures { spec.LeadsAlike doc.now }
{
    doc.is_of_a_tree();
    chains_lead_on(doc);
    names_are_found_by_number();
}

/// Records what the rows at these lines pick below an element.
#[cycle(walking)]
pub(crate) fn walk<L: Ledger>(
    input: &WalkInput<'_, '_>,
    lines: &[FoundLine],
    position: &Position<'_>,
    finds: &mut Finds,
    steps: &mut Steps<L>,
) -> Result<(), AllocError>
    requires within { position.now.node < length input.now.doc.now.nodes }
    requires lined { spec.AreLined input.now.doc.now lines.now }
    ensures { OnOk result (spec.Walks input.now.doc.now lines.now position.now.node position.now.around.now finds.old finds.new) }
{
    if lines.is_empty() {
        return Ok(());
    }
    chains_lead_on(input.doc);
    let mut at = input.doc.first_child(position.node, steps);
    'children: while let Some(m) = at {
        let child = Position {
            node: m,
            around: position.around,
        };
        meet(input, lines, &child, finds, steps)?;
        at = input.doc.next_sibling(m, steps);
    }
    Ok(())
}

/// Records what the rows at these lines and inside them pick in one child.
#[cycle(walking)]
fn meet<L: Ledger>(
    input: &WalkInput<'_, '_>,
    lines: &[FoundLine],
    position: &Position<'_>,
    finds: &mut Finds,
    steps: &mut Steps<L>,
) -> Result<(), AllocError>
    requires within { position.now.node < length input.now.doc.now.nodes }
    requires lined { spec.AreLined input.now.doc.now lines.now }
    ensures { OnOk result (spec.Meets input.now.doc.now lines.now position.now.node position.now.around.now finds.old finds.new) }
{
    match input.doc.name(position.node) {
        Some(name) => follow(input, lines, position, name.number(), finds, steps),
        None => Ok(()),
    }
}

/// The same where the child's name has this number: by the lines that have it too.
#[cycle(walking)]
fn follow<L: Ledger>(
    input: &WalkInput<'_, '_>,
    lines: &[FoundLine],
    position: &Position<'_>,
    name: u32,
    finds: &mut Finds,
    steps: &mut Steps<L>,
) -> Result<(), AllocError>
    requires within { position.now.node < length input.now.doc.now.nodes }
    requires named { (node_at input.now.doc.now.nodes position.now.node).name ≡ Some name }
    requires lined { spec.AreLined input.now.doc.now lines.now }
    ensures { OnOk result (spec.Meets input.now.doc.now lines.now position.now.node position.now.around.now finds.old finds.new) }
{
    let mut left = lines;
    'lines: while let Some((line, behind)) = left.split_first() {
        let (inside, rest) = behind.split_at(line.size);
        if is_number(line.name, name) {
            enter(input, line, inside, position, finds, steps)?;
        }
        left = rest;
    }
    Ok(())
}

/// Records what the rows at a line and inside it pick in a child, where it is an element of the line.
#[cycle(walking)]
fn enter<L: Ledger>(
    input: &WalkInput<'_, '_>,
    line: &FoundLine,
    inside: &[FoundLine],
    position: &Position<'_>,
    finds: &mut Finds,
    steps: &mut Steps<L>,
) -> Result<(), AllocError>
    requires within { position.now.node < length input.now.doc.now.nodes }
    requires lined { spec.AreLined input.now.doc.now inside.now }
    ensures { OnOk result (spec.Enters input.now.doc.now line.now inside.now position.now.node position.now.around.now finds.old finds.new) }
{
    if !passes(input, line, position.node, steps)? {
        return Ok(());
    }
    match line.group {
        None => pick_in(input, line, inside, position, finds, steps),
        Some(group) => {
            let carried = Carried {
                group,
                element: position.node,
            };
            let further = with_carrier(input.alloc, position.around, carried)?;
            let carrier = Position {
                node: position.node,
                around: further.as_slice(),
            };
            pick_in(input, line, inside, &carrier, finds, steps)
        }
    }
}

/// The same in an element of the line.
#[cycle(walking)]
fn pick_in<L: Ledger>(
    input: &WalkInput<'_, '_>,
    line: &FoundLine,
    inside: &[FoundLine],
    position: &Position<'_>,
    finds: &mut Finds,
    steps: &mut Steps<L>,
) -> Result<(), AllocError>
    requires within { position.now.node < length input.now.doc.now.nodes }
    requires lined { spec.AreLined input.now.doc.now inside.now }
    ensures { OnOk result (spec.PicksIn input.now.doc.now line.now inside.now position.now.node position.now.around.now finds.old finds.new) }
{
    pick_here(input, line.rows.as_slice(), position, finds, steps)?;
    walk(input, inside, position, finds, steps)
}

/// The elements around, and one more behind them.
fn with_carrier(
    alloc: Global,
    around: &[Carried],
    carried: Carried,
) -> Result<Vec<Carried>, AllocError>
    ensures { IfOk result (λ further. further.items ≡ around.now ++ carried ∷ []) }
{
    let mut further = Vec::with_capacity(alloc, around.len() + 1)?;
    further.extend_from_slice(around)?;
    further.push(carried)?;
    Ok(further)
}

/// Whether a node is an element of the line, its guards met.
fn passes<L: Ledger>(
    input: &WalkInput<'_, '_>,
    line: &FoundLine,
    n: NodeId,
    steps: &mut Steps<L>,
) -> Result<bool, AllocError>
    requires { n < length input.now.doc.now.nodes }
    ensures { IfOk result (λ passes. passes ≡ (has_found line.now.name (node_at input.now.doc.now.nodes n)
        && list_all (is_met input.now.doc.now n) line.now.guards)) }
{
    if !has_name(input.doc, n, line.name) {
        return Ok(false);
    }
    are_met(input, n, line.guards.as_slice(), steps)
}

/// Records what rows pick that end at an element or at an attribute of it.
fn pick_here<L: Ledger>(
    input: &WalkInput<'_, '_>,
    rows: &[FoundRow],
    position: &Position<'_>,
    finds: &mut Finds,
    steps: &mut Steps<L>,
) -> Result<(), AllocError>
    requires { position.now.node < length input.now.doc.now.nodes }
    ensures { OnOk result (finds.new ≡ put_all finds.old (spec.found_here input.now.doc.now position.now.around.now position.now.node rows.now)) }
{
    if rows.is_empty() {
        return Ok(());
    }
    if is_blank_at(input.alloc, input.doc, position.node, steps)? {
        return Ok(());
    }
    'rows: for row in rows {
        pick_row(input, row, position, finds, steps)?;
    }
    Ok(())
}

fn pick_row<L: Ledger>(
    input: &WalkInput<'_, '_>,
    row: &FoundRow,
    position: &Position<'_>,
    finds: &mut Finds,
    steps: &mut Steps<L>,
) -> Result<(), AllocError>
    requires { position.now.node < length input.now.doc.now.nodes }
    ensures { OnOk result (finds.new ≡ put_all finds.old (spec.found_in_row input.now.doc.now position.now.around.now position.now.node row.now)) }
{
    match row.end {
        End::Element => {
            finds.put(find_of(row, position))?;
            Ok(())
        }
        End::Attribute => pick_attributes(input, row, position, finds, steps),
    }
}

fn pick_attributes<L: Ledger>(
    input: &WalkInput<'_, '_>,
    row: &FoundRow,
    position: &Position<'_>,
    finds: &mut Finds,
    steps: &mut Steps<L>,
) -> Result<(), AllocError>
    requires { position.now.node < length input.now.doc.now.nodes }
    ensures { OnOk result (finds.new ≡ put_all finds.old (spec.found_attributes input.now.doc.now position.now.around.now position.now.node row.now)) }
{
    chains_lead_on(input.doc);
    let mut at = input.doc.first_attribute(position.node, steps);
    'attributes: while let Some(m) = at {
        let attribute = Position {
            node: m,
            around: position.around,
        };
        pick_attribute(input, row, &attribute, finds, steps)?;
        at = input.doc.next_attribute(m, steps);
    }
    Ok(())
}

fn pick_attribute<L: Ledger>(
    input: &WalkInput<'_, '_>,
    row: &FoundRow,
    position: &Position<'_>,
    finds: &mut Finds,
    steps: &mut Steps<L>,
) -> Result<(), AllocError>
    requires { position.now.node < length input.now.doc.now.nodes }
    ensures { OnOk result (finds.new ≡ put_all finds.old (spec.found_attribute input.now.doc.now position.now.around.now row.now position.now.node)) }
{
    if !has_name(input.doc, position.node, row.attribute) {
        return Ok(());
    }
    if is_blank_at(input.alloc, input.doc, position.node, steps)? {
        return Ok(());
    }
    finds.put(find_of(row, position))?;
    Ok(())
}

fn find_of(row: &FoundRow, position: &Position<'_>) -> Find
    ensures { result ≡ spec.find_of position.now.around.now row.now position.now.node }
{
    Find {
        wanted: row.wanted,
        picked: Picked {
            node: position.node,
            row: row.number,
            outer: carrier_of(row.outer, position.around),
            inner: carrier_of(row.inner, position.around),
        },
    }
}

fn carrier_of(group: Option<Group>, around: &[Carried]) -> Option<NodeId>
    ensures { result ≡ spec.carrier_of around.now group }
{
    match group {
        Some(group) => carrier(group, around),
        None => None,
    }
}

/// The outermost of the elements that carries the group.
fn carrier(group: Group, around: &[Carried]) -> Option<NodeId>
    ensures { result ≡ spec.carried group around.now }
{
    'around: for carried in around {
        if is_same_or_none(Some(carried.group), Some(group)) {
            return Some(carried.element);
        }
    }
    None
}
