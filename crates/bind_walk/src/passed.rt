//! The elements that a table passes over: by names alone, guards aside.

ghost use Rattle.std.specs.Prelude.{◌≡◌, ◌++◌, ◌-◌, ◌<◌, ◌≤◌, ◌&&◌, All, List, length, get_or, slice_get, Some, OnOk, IfOk};
ghost use Rattle.node_arena.specs.Document.{node_at};
ghost use Rattle.node_arena.specs.Moves.{tree_nodes};
ghost use Rattle.bind_table.specs.Lines.{plan_of};
ghost use Rattle.bind_meaning.specs.Elements.{is_element_kind};
ghost use Rattle.bind_meaning.specs.Faults.{passed_nodes};
ghost use Rattle.bind_walk.specs.Lines.{lined};
ghost use Rattle.bind_walk.specs.Passing as spec;

use crate::chains_lead_on;
use crate::lines::FoundLine;
use crate::names::is_number;
use bind_meaning::is_element;
use bind_rows::Row;
use bind_table::laws::same_steps_are_equal;
use inv_base::{Kind, Steps};
use node_arena::{Doc, NodeId, insides_are_intervals, moves_lead_on, names_are_found_by_number};
use std::alloc::{AllocError, Global};
use std::sync::ledger::Ledger;

/// Things of a list: those from one place on, before another.
#[derive(Clone, Copy)]
pub(crate) struct Span {
    pub(crate) from: usize,
    pub(crate) to: usize,
}

/// A node, and where the spans begin to which its name leads.
#[derive(Clone, Copy)]
pub(crate) struct Opened {
    pub(crate) node: NodeId,
    pub(crate) from: usize,
}

/// The spans to which the names of the node around lead, and those to which a node's own name leads from these.
#[derive(Clone, Copy)]
pub(crate) struct Arrived {
    pub(crate) around: Span,
    pub(crate) inside: Span,
}

/// Where the names of a node and of those around it lead: the insides of the lines that have them.
pub(crate) struct Reached {
    /// Lines that stand beside one another, with what is inside them; those of a node behind those of the one around it.
    pub(crate) spans: Vec<Span>,
    /// The node behind those around it, from the outermost on.
    pub(crate) way: Vec<Opened>,
}

impl Drop for Reached {
    fn drop(self) {
        let Reached { spans, way } = self;
        drop(spans);
        drop(way);
    }
}

/// The elements whose names lead no further along any row, right inside one whose names do, in document order.
pub(crate) fn passed_of<L: Ledger>(
    alloc: Global,
    doc: &Doc<'_>,
    rows: &[Row],
    lines: &[FoundLine],
    steps: &mut Steps<L>,
) -> Result<Vec<NodeId>, AllocError>
    requires { lines.now ≡ lined doc.now (plan_of rows.now) }
    ensures passed { IfOk result (λ passed. passed.items ≡ passed_nodes (tree_nodes doc.now) rows.now) }
    ensures within { IfOk result (λ passed. All (λ m. m < length doc.now.nodes) passed.items) }
{
    names_lead_through(doc);
    let mut n = doc.document();
    let mut reached = beginning(alloc, n, rows, lines)?;
    let mut passed = Vec::new(alloc);
    'nodes: while let Some(m) = doc.next_node(n, steps) {
        let arrived = reach(doc, lines, &mut reached, m, steps)?;
        note(m, is_left_at(doc.kind(m), arrived), &mut passed)?;
        n = m;
    }
    drop(reached);
    Ok(passed)
}

/// Puts a node behind the others, if it is one of them.
pub(crate) fn note(m: NodeId, is_one: bool, noted: &mut Vec<NodeId>) -> Result<(), AllocError>
    ensures { OnOk result (noted.new.items ≡ noted.old.items ++ spec.one_if is_one m) }
{
    if is_one {
        noted.push(m)?;
    }
    Ok(())
}

/// All lines, for the document's own node; none where the table has no row.
pub(crate) fn beginning(
    alloc: Global,
    document: NodeId,
    rows: &[Row],
    lines: &[FoundLine],
) -> Result<Reached, AllocError>
    ensures { IfOk result (λ reached. spec.Begins document rows.now lines.now reached.spans.items reached.way.items) }
{
    let mut spans = Vec::new(alloc);
    if !rows.is_empty() {
        spans.push(Span {
            from: 0,
            to: lines.len(),
        })?;
    }
    let mut way = Vec::new(alloc);
    way.push(Opened {
        node: document,
        from: 0,
    })?;
    Ok(Reached { spans, way })
}

/// Names lead through a document as they do through the lines of a table. It has no code.
pub(crate) fn names_lead_through(doc: &Doc<'_>)
    ensures { spec.LeadsThrough doc.now }
{
    same_steps_are_equal();
    doc.is_of_a_tree();
    chains_lead_on(doc);
    names_are_found_by_number();
    moves_lead_on();
    insides_are_intervals();
}

/// Goes on to the next node, and answers where its names lead.
pub(crate) fn reach<L: Ledger>(
    doc: &Doc<'_>,
    lines: &[FoundLine],
    reached: &mut Reached,
    m: NodeId,
    steps: &mut Steps<L>,
) -> Result<Arrived, AllocError>
    requires within { m < length doc.now.nodes }
    requires behind { 0 < m }
    requires reached { spec.IsSomeBefore doc.now lines.now reached.old.spans.items reached.old.way.items m }
    ensures { IfOk result (λ arrived. (roots : List spec.Inside) → spec.IsBefore doc.now lines.now roots reached.old.spans.items reached.old.way.items m
        → spec.IsReached doc.now lines.now roots reached.new.spans.items reached.new.way.items m arrived) }
{
    names_lead_through(doc);
    match doc.parent(m, steps) {
        Some(p) => {
            let around = come_out(doc, lines, reached, p);
            let inside = reach_inside(doc, lines, &mut reached.spans, around, m)?;
            reached.way.push(Opened {
                node: m,
                from: inside.from,
            })?;
            Ok(Arrived { around, inside })
        }
        None => unreachable!(),
    }
}

/// Comes out of a node to one around it, or stays at it, and answers the spans to which its name leads. What lies between is forgotten.
fn come_out(doc: &Doc<'_>, lines: &[FoundLine], reached: &mut Reached, p: NodeId) -> Span
    requires { spec.IsSomeNear doc.now lines.now reached.old.spans.items reached.old.way.items p }
    ensures { (roots : List spec.Inside) → spec.IsNear doc.now lines.now roots reached.old.spans.items reached.old.way.items p
        → spec.StandsAt doc.now lines.now roots reached.new.spans.items reached.new.way.items p result }
{
    names_lead_through(doc);
    'way: while let Some(last) = innermost(reached.way.as_slice()) {
        if last.node == p {
            return Span {
                from: last.from,
                to: reached.spans.len(),
            };
        }
        reached.way.pop();
        reached.spans.truncate(last.from);
    }
    unreachable!()
}

fn innermost(way: &[Opened]) -> Option<Opened>
    ensures { result ≡ slice_get way.now (length way.now - 1) }
{
    way.last().copied()
}

fn span_at(spans: &[Span], at: usize) -> Span
    requires { at < length spans.now }
    ensures { result ≡ get_or spans.now at spec.no_part }
{
    spans[at]
}

/// Whether a node is an element to which names don't lead, right inside one to which they do.
fn is_left_at(kind: Kind, arrived: Arrived) -> bool
    ensures { result ≡ (is_element_kind kind && spec.is_left arrived.around arrived.inside) }
{
    is_element(kind) && is_some(arrived.around) && !is_some(arrived.inside)
}

/// Whether a span has anything.
pub(crate) fn is_some(span: Span) -> bool
    ensures { result ≡ spec.some_of span }
{
    span.from < span.to
}

/// Puts the insides of the lines of a part of these spans that have a node's name behind the others, and answers where they are.
fn reach_inside(
    doc: &Doc<'_>,
    lines: &[FoundLine],
    spans: &mut Vec<Span>,
    around: Span,
    m: NodeId,
) -> Result<Span, AllocError>
    requires within { m < length doc.now.nodes }
    requires part { around.to ≤ length spans.old.items }
    requires spans { spec.AreSpans doc.now lines.now spans.old.items }
    ensures place { IfOk result (λ inside. (inside.from ≡ length spans.old.items) × (inside.to ≡ length spans.new.items)) }
    ensures spans { OnOk result (spec.LeadsInside doc.now lines.now around m spans.old.items spans.new.items) }
{
    let from = spans.len();
    add_insides(doc, lines, spans, around, m)?;
    Ok(Span {
        from,
        to: spans.len(),
    })
}

/// Puts the insides of the lines of a part of these spans that have a node's name behind the others.
fn add_insides(
    doc: &Doc<'_>,
    lines: &[FoundLine],
    spans: &mut Vec<Span>,
    around: Span,
    m: NodeId,
) -> Result<(), AllocError>
    requires within { m < length doc.now.nodes }
    requires part { around.to ≤ length spans.old.items }
    requires spans { spec.AreSpans doc.now lines.now spans.old.items }
    ensures { OnOk result (spec.LeadsInside doc.now lines.now around m spans.old.items spans.new.items) }
{
    names_lead_through(doc);
    match doc.name(m) {
        Some(name) => add_part(doc, lines, spans, around, m, name.number()),
        None => Ok(()),
    }
}

/// The same where the node's name has this number.
fn add_part(
    doc: &Doc<'_>,
    lines: &[FoundLine],
    spans: &mut Vec<Span>,
    around: Span,
    m: NodeId,
    name: u32,
) -> Result<(), AllocError>
    requires within { m < length doc.now.nodes }
    requires named { (node_at doc.now.nodes m).name ≡ Some name }
    requires part { around.to ≤ length spans.old.items }
    requires spans { spec.AreSpans doc.now lines.now spans.old.items }
    ensures { OnOk result (spec.LeadsInside doc.now lines.now around m spans.old.items spans.new.items) }
{
    let mut at = around.from;
    'spans: while at < around.to {
        let span = span_at(spans.as_slice(), at);
        add_named(doc, lines, span.from, span.to, m, name, spans)?;
        at = at + 1;
    }
    Ok(())
}

/// Puts the insides of the lines from one place to another that have a node's name, which has this number, behind the others.
// The places are two arguments and no span: that a number fits its type is known of an argument, and not of a struct's field.
fn add_named(
    doc: &Doc<'_>,
    lines: &[FoundLine],
    from: usize,
    to: usize,
    m: NodeId,
    name: u32,
    inside: &mut Vec<Span>,
) -> Result<(), AllocError>
    requires within { m < length doc.now.nodes }
    requires named { (node_at doc.now.nodes m).name ≡ Some name }
    requires span { spec.IsSomeSpan doc.now lines.now from to }
    ensures { OnOk result (spec.AddsNamed doc.now lines.now from to m inside.old.items inside.new.items) }
{
    names_lead_through(doc);
    let mut at = from;
    'lines: while at < to {
        let line = &lines[at];
        let behind = at + (1 + line.size);
        if is_number(line.name, name) {
            inside.push(Span {
                from: at + 1,
                to: behind,
            })?;
        }
        at = behind;
    }
    Ok(())
}
