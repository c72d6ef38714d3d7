//! What of a document's elements and attributes a table doesn't read, and which elements stand too late for it.

ghost use Rattle.std.specs.Prelude.{◌≡◌, ◌∷◌, ◌++◌, ◌<◌, ◌≤◌, [], All, None, false, not, chars, length, take, drop, get_or, option_copied, slice_get, IfOk, OnOk};
ghost use Rattle.inv_terms.specs.Values as values;
ghost use Rattle.node_arena.specs.Document.{node_at};
ghost use Rattle.node_arena.specs.Moves.{tree_nodes};
ghost use Rattle.bind_table.specs.Lines.{plan_of};
ghost use Rattle.bind_meaning.specs.Elements.{is_element_kind};
ghost use Rattle.bind_meaning.specs.Losses.{lesser, misplaced_nodes, unread_nodes};
ghost use Rattle.bind_meaning.specs.Said.{said_nodes};
ghost use Rattle.bind_walk.specs.Lines.{lined};
ghost use Rattle.bind_walk.specs.Passing.{gate, one_if, place_before, some_of};
ghost use Rattle.bind_walk.specs.Losing as spec;

use crate::chains_lead_on;
use crate::lines::FoundLine;
use crate::passed::{Arrived, Span, beginning, is_some, names_lead_through, note, reach};
use crate::picks::lines_of;
use bind_meaning::is_element;
use bind_rows::Row;
use bind_table::Binding;
use inv_base::{Kind, Steps, is_same_text};
use inv_terms::is_blank;
use node_arena::{Doc, NodeId};
use std::alloc::{AllocError, Global};
use std::sync::ledger::Ledger;

/// What of the table's elements and their attributes is unread, and which elements stand too late, each in document order.
pub struct Losses {
    /// Elements of the table and attributes of these that have a text of their own and aren't said.
    pub unread: Vec<NodeId>,
    /// Elements behind one beside them that the table has later.
    pub misplaced: Vec<NodeId>,
}

impl Drop for Losses {
    fn drop(self) {
        let Losses { unread, misplaced } = self;
        drop(unread);
        drop(misplaced);
    }
}

/// What a table leaves unread and what is misplaced, where it is known of each node whether it is said. It takes one pass over the nodes.
pub fn losses_of<L: Ledger>(
    alloc: Global,
    doc: &Doc<'_>,
    table: &Binding,
    said: &[bool],
    steps: &mut Steps<L>,
) -> Result<Losses, AllocError>
    requires said { said.now ≡ said_nodes (tree_nodes doc.now) table.now }
    ensures unread { IfOk result (λ losses. losses.unread.items ≡ unread_nodes (tree_nodes doc.now) table.now) }
    ensures misplaced { IfOk result (λ losses. losses.misplaced.items ≡ misplaced_nodes (tree_nodes doc.now) table.now) }
    ensures unread_within { IfOk result (λ losses. All (λ n. n < length doc.now.nodes) losses.unread.items) }
    ensures misplaced_within { IfOk result (λ losses. All (λ n. n < length doc.now.nodes) losses.misplaced.items) }
{
    let lines = lines_of(alloc, doc, table)?;
    let losses = losses_by(alloc, doc, table.rows(), &lines, said, steps);
    drop(lines);
    losses
}

/// The same, by the table's lines.
fn losses_by<L: Ledger>(
    alloc: Global,
    doc: &Doc<'_>,
    rows: &[Row],
    lines: &[FoundLine],
    said: &[bool],
    steps: &mut Steps<L>,
) -> Result<Losses, AllocError>
    requires lines { lines.now ≡ lined doc.now (plan_of rows.now) }
    requires said { said.now ≡ said_nodes (tree_nodes doc.now) rows.now }
    ensures unread { IfOk result (λ losses. losses.unread.items ≡ unread_nodes (tree_nodes doc.now) rows.now) }
    ensures misplaced { IfOk result (λ losses. losses.misplaced.items ≡ misplaced_nodes (tree_nodes doc.now) rows.now) }
    ensures unread_within { IfOk result (λ losses. All (λ n. n < length doc.now.nodes) losses.unread.items) }
    ensures misplaced_within { IfOk result (λ losses. All (λ n. n < length doc.now.nodes) losses.misplaced.items) }
{
    names_lead_through(doc);
    let mut n = doc.document();
    let mut reached = beginning(alloc, n, rows, lines)?;
    let mut highest = first_height(alloc)?;
    let unread = Vec::new(alloc);
    let misplaced = Vec::new(alloc);
    let mut losses = Losses { unread, misplaced };
    'nodes: while let Some(m) = doc.next_node(n, steps) {
        let arrived = reach(doc, lines, &mut reached, m, steps)?;
        let place = place_at(doc, lines, reached.spans.as_slice(), arrived.inside.from, m);
        let above = reached.way.len().saturating_sub(2);
        let is_lost = is_unread(doc, is_said(said, m), arrived, m, steps);
        come_to(m, is_lost, place, above, &mut highest, &mut losses)?;
        n = m;
    }
    drop(reached);
    drop(highest);
    Ok(losses)
}

/// Comes to a node that so many are around but for the nearest: notes its place among its siblings, and itself where it is unread or
/// misplaced.
fn come_to(
    m: NodeId,
    is_lost: bool,
    place: Option<u32>,
    above: usize,
    highest: &mut Vec<Option<u32>>,
    losses: &mut Losses,
) -> Result<(), AllocError>
    requires { above < length highest.old.items }
    ensures unread { OnOk result (losses.new.unread.items ≡ losses.old.unread.items ++ one_if is_lost m) }
    ensures misplaced { OnOk result (losses.new.misplaced.items
        ≡ losses.old.misplaced.items ++ one_if (spec.is_late place (get_or highest.old.items above None)) m) }
    ensures heights { OnOk result (highest.new.items
        ≡ (take above highest.old.items ++ spec.greater (get_or highest.old.items above None) place ∷ []) ++ None ∷ []) }
{
    let is_late = climb(highest, above, place)?;
    note(m, is_lost, &mut losses.unread)?;
    note(m, is_late, &mut losses.misplaced)?;
    Ok(())
}

/// The greatest places among the children of the document's own node, of which none was seen.
fn first_height(alloc: Global) -> Result<Vec<Option<u32>>, AllocError>
    ensures { IfOk result (λ highest. highest.items ≡ None ∷ []) }
{
    let mut highest = Vec::new(alloc);
    highest.push(None)?;
    Ok(highest)
}

/// The least place of the lines to which an element's name leads, which stand before the spans from this one on.
fn place_at(
    doc: &Doc<'_>,
    lines: &[FoundLine],
    spans: &[Span],
    from: usize,
    m: NodeId,
) -> Option<u32>
    requires within { m < length doc.now.nodes }
    requires part { from ≤ length spans.now }
    ensures { result ≡ gate (is_element_kind (node_at doc.now.nodes m).kind) (spec.least_before lines.now (drop from spans.now)) }
{
    if is_element(doc.kind(m)) {
        let (_, own) = spans.split_at(from);
        least_before(lines, own)
    } else {
        None
    }
}

fn least_before(lines: &[FoundLine], spans: &[Span]) -> Option<u32>
    ensures { result ≡ spec.least_before lines.now spans.now }
{
    let mut least = None;
    let mut left = spans;
    'spans: while let Some((span, behind)) = left.split_first() {
        least = lesser(least, place_of(lines, span.from));
        left = behind;
    }
    least
}

/// The place of the line right before this one.
fn place_of(lines: &[FoundLine], from: usize) -> Option<u32>
    ensures { result ≡ place_before lines.now from }
{
    if 0 < from {
        match line_at(lines, from - 1) {
            Some(line) => line.place,
            None => None,
        }
    } else {
        None
    }
}

fn line_at(lines: &[FoundLine], at: usize) -> Option<&FoundLine>
    ensures { option_copied result ≡ slice_get lines.now at }
{
    lines.get(at)
}

fn lesser(a: Option<u32>, b: Option<u32>) -> Option<u32>
    ensures { result ≡ lesser a b }
{
    match a {
        None => b,
        Some(x) => match b {
            None => a,
            Some(y) => { if y < x { b } else { a } }
        },
    }
}

fn greater(a: Option<u32>, b: Option<u32>) -> Option<u32>
    ensures { result ≡ spec.greater a b }
{
    match a {
        None => b,
        Some(x) => match b {
            None => a,
            Some(y) => { if x < y { b } else { a } }
        },
    }
}

/// Whether a place is less than the greatest before it.
fn is_late(place: Option<u32>, top: Option<u32>) -> bool
    ensures { result ≡ spec.is_late place top }
{
    match place {
        None => false,
        Some(place) => match top {
            None => false,
            Some(top) => place < top,
        },
    }
}

/// Comes to a child of the node that so many nodes are around: notes its place there, and answers whether a greater one was there.
/// What was noted of nodes that were left is forgotten.
fn climb(
    highest: &mut Vec<Option<u32>>,
    above: usize,
    place: Option<u32>,
) -> Result<bool, AllocError>
    requires { above < length highest.old.items }
    ensures late { IfOk result (λ is_late. is_late ≡ spec.is_late place (get_or highest.old.items above None)) }
    ensures noted { OnOk result (highest.new.items
        ≡ (take above highest.old.items ++ spec.greater (get_or highest.old.items above None) place ∷ []) ++ None ∷ []) }
{
    let top = height_at(highest.as_slice(), above);
    highest.truncate(above);
    highest.push(greater(top, place))?;
    highest.push(None)?;
    Ok(is_late(place, top))
}

fn height_at(heights: &[Option<u32>], at: usize) -> Option<u32>
    requires { at < length heights.now }
    ensures { result ≡ get_or heights.now at None }
{
    heights[at]
}

fn is_said(said: &[bool], m: NodeId) -> bool
    requires { m < length said.now }
    ensures { result ≡ get_or said.now m false }
{
    said[m.number() as usize]
}

/// Whether an element or attribute that isn't said has a text of its own, where names lead to the element.
fn is_unread<L: Ledger>(
    doc: &Doc<'_>,
    is_said: bool,
    arrived: Arrived,
    m: NodeId,
    steps: &mut Steps<L>,
) -> bool
    requires { m < length doc.now.nodes }
    ensures { result ≡ spec.unread_by doc.now (some_of arrived.around) (some_of arrived.inside) is_said m }
{
    match doc.kind(m) {
        Kind::Element => is_some(arrived.inside) && !is_said && has_full_text(doc, m, steps),
        Kind::Attribute => is_some(arrived.around) && !is_said && is_full_value(doc, m),
        Kind::Document | Kind::Text => false,
    }
}

/// Whether a text right inside a node isn't blank.
fn has_full_text<L: Ledger>(doc: &Doc<'_>, n: NodeId, steps: &mut Steps<L>) -> bool
    requires { n < length doc.now.nodes }
    ensures { result ≡ spec.has_full_text doc.now n }
{
    chains_lead_on(doc);
    let mut at = doc.first_child(n, steps);
    'children: while let Some(m) = at {
        if is_full_text(doc, m) {
            return true;
        }
        at = doc.next_sibling(m, steps);
    }
    false
}

fn is_full_text(doc: &Doc<'_>, n: NodeId) -> bool
    requires { n < length doc.now.nodes }
    ensures { result ≡ spec.is_full_text doc.now n }
{
    match doc.kind(n) {
        Kind::Text => is_full(doc, n),
        Kind::Document | Kind::Element | Kind::Attribute => false,
    }
}

fn is_full(doc: &Doc<'_>, n: NodeId) -> bool
    requires { n < length doc.now.nodes }
    ensures { result ≡ not (values.is_blank (node_at doc.now.nodes n).text) }
{
    !is_blank(doc.text(n))
}

/// Whether an attribute has a value, and doesn't speak of the schema.
fn is_full_value(doc: &Doc<'_>, n: NodeId) -> bool
    requires { n < length doc.now.nodes }
    ensures { result ≡ spec.is_full_value doc.now n }
{
    is_full(doc, n) && !is_of_schema(doc, n)
}

fn is_of_schema(doc: &Doc<'_>, n: NodeId) -> bool
    requires { n < length doc.now.nodes }
    ensures { result ≡ spec.speaks_of_schema doc.now.names (node_at doc.now.nodes n).name }
{
    match doc.name(n) {
        Some(name) => is_schema(doc.names().uri(name)),
        None => false,
    }
}

/// Whether it is the namespace of XML Schema instances.
fn is_schema(uri: &str) -> bool
    ensures { result ≡ spec.is_schema (chars uri.now) }
{
    is_same_text(uri, "http://www.w3.org/2001/XMLSchema-instance")
}
