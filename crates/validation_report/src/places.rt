//! Where all stands that is told: the place of each one's node, and the order of findings.
ghost use Rattle.std.specs.Prelude.{◌≡◌, ◌++◌, ◌∷◌, [], ◌+◌, ◌<◌, ℕ, List, length, map, IfOk, OnOk};
ghost use Rattle.std.specs.List.{All};
ghost use Rattle.line_places.specs.Places.{AreLinesOf, place_in};
ghost use Rattle.node_arena.specs.Document.{node_at};
ghost use Rattle.node_arena.specs.Moves.{tree_nodes};
ghost use Rattle.node_locations.specs.Locations.{AreOrdinals};
ghost use Rattle.bind_meaning.specs.declared.fault.BindFault.{BindFault};
ghost use Rattle.schematron_findings.specs.declared.finding.Line.{Line};
ghost use Rattle.validation_report.specs.Held.{fault_spots, spots_of, spots_from, node_behind, spots_at, located_at, unread_of, ordered};

use crate::texts::location_of;
use crate::values::value_of;
use bind_meaning::BindFault;
use inv_base::Txt;
use line_places::{LinePlace, LineStarts};
use node_arena::{Doc, NodeId};
use node_locations::Ordinals;
use schematron_findings::Line;
use std::alloc::{AllocError, Global};

/// Of a finding its node with the place of that, and the number of its line among those of its report.
#[derive(Clone, Copy)]
pub struct Spot {
    pub node: NodeId,
    pub line: usize,
    pub place: LinePlace,
}

/// An element that is told by itself: where it stands in the document, and in the file.
pub struct Located {
    pub location: Txt,
    pub place: LinePlace,
}

impl Drop for Located {
    fn drop(self) {
        let Located { location, place: _ } = self;
        drop(location);
    }
}

/// An unread node, and what is shown of its own text, not quoted yet.
pub struct Unread {
    /// Where it stands.
    pub element: Located,
    pub value: Txt,
}

impl Drop for Unread {
    fn drop(self) {
        let Unread { element, value } = self;
        drop(element);
        drop(value);
    }
}

/// Where stands what is told.
pub struct Spots {
    pub faults: Vec<Spot>,
    /// The elements that were passed over.
    pub passed: Vec<Located>,
    pub unread: Vec<Unread>,
    pub misplaced: Vec<Located>,
    /// What rules find, in document order.
    pub findings: Vec<Spot>,
}

impl Drop for Spots {
    fn drop(self) {
        let Spots {
            faults,
            passed,
            unread,
            misplaced,
            findings,
        } = self;
        drop(faults);
        drop(passed);
        drop(unread);
        drop(misplaced);
        drop(findings);
    }
}

/// A document, the ordinals of its nodes, and the starts of the lines of its file: what places are told by.
#[derive(Clone, Copy)]
pub(crate) struct ReportInput<'s, 'a> {
    pub(crate) doc: &'s Doc<'a>,
    pub(crate) ordinals: &'s Ordinals,
    pub(crate) lines: &'s LineStarts,
}

/// The place of a node in the file.
fn place_at(doc: &Doc<'_>, lines: &LineStarts, n: NodeId) -> LinePlace
    requires { n < length doc.now.nodes }
    ensures { (content : List ℕ) → AreLinesOf lines.now content → result ≡ place_in content (node_at doc.now.nodes n).place }
{
    lines.place(doc.place(n).byte)
}

/// The place of a node that lines tell as judged. Those of a document's findings are its nodes; any other stands where the
/// document does.
fn place_judged(input: &ReportInput<'_, '_>, n: NodeId) -> LinePlace
    requires { AreOrdinals input.now.doc.now input.now.ordinals.now }
    ensures { (content : List ℕ) → AreLinesOf input.now.lines.now content → result ≡ place_in content (node_at input.now.doc.now.nodes n).place }
{
    if (n.number() as usize) < input.ordinals.len() {
        place_at(input.doc, input.lines, n)
    } else {
        input.lines.place(0)
    }
}

/// The spots of the faults, whose lines begin behind two others.
pub(crate) fn push_fault_spots(
    doc: &Doc<'_>,
    lines: &LineStarts,
    faults: &[BindFault],
    spots: &mut Vec<Spot>,
) -> Result<(), AllocError>
    requires within { All (λ (fault : BindFault). fault.node < length doc.now.nodes) faults.now }
    ensures { OnOk result ((content : List ℕ) → AreLinesOf lines.now content
        → spots.new.items ≡ spots.old.items ++ fault_spots doc.now content 2 faults.now) }
{
    'faults: for (k, fault) in faults.iter().enumerate() {
        let place = place_at(doc, lines, fault.node);
        spots.push(Spot {
            node: fault.node,
            line: k + 2,
            place,
        })?;
    }
    Ok(())
}

/// The spots of the findings, in document order.
pub(crate) fn push_ordered(
    input: &ReportInput<'_, '_>,
    found: &[Line<'_>],
    spots: &mut Vec<Spot>,
) -> Result<(), AllocError>
    requires ordinals { AreOrdinals input.now.doc.now input.now.ordinals.now }
    requires first { spots.old.items ≡ [] }
    ensures { OnOk result ((content : List ℕ) → AreLinesOf input.now.lines.now content
        → spots.new.items ≡ ordered (spots_of input.now.doc.now content found.now)) }
{
    push_spots(input, found, spots)?;
    sort_by_node(spots)
}

/// Puts spots in document order of their nodes; those of one node stay in their order.
fn sort_by_node(spots: &mut Vec<Spot>) -> Result<(), AllocError>
    ensures { OnOk result (spots.new.items ≡ ordered spots.old.items) }
{
    spots.sort_by_key(|spot| spot.node.number())
}

/// The spots of the findings, in the order of their lines.
fn push_spots(
    input: &ReportInput<'_, '_>,
    found: &[Line<'_>],
    spots: &mut Vec<Spot>,
) -> Result<(), AllocError>
    requires { AreOrdinals input.now.doc.now input.now.ordinals.now }
    ensures { OnOk result ((content : List ℕ) → AreLinesOf input.now.lines.now content
        → spots.new.items ≡ spots.old.items ++ spots_of input.now.doc.now content found.now) }
{
    let mut node = input.doc.document();
    'lines: for (k, line) in found.iter().enumerate() {
        node = node_behind(node, line);
        push_spot(input, line, node, k, spots)?;
    }
    Ok(())
}

/// The node that is judged behind a line, where this one was judged before.
fn node_behind(node: NodeId, line: &Line<'_>) -> NodeId
    ensures { result ≡ node_behind node line.now }
{
    match line {
        Line::Fired {
            node: judged,
            rule: _,
            context: _,
        } => *judged,
        Line::Pattern { id: _ } | Line::Found(_) => node,
    }
}

/// The spot of a line that tells a finding.
fn push_spot(
    input: &ReportInput<'_, '_>,
    line: &Line<'_>,
    node: NodeId,
    number: usize,
    spots: &mut Vec<Spot>,
) -> Result<(), AllocError>
    requires { AreOrdinals input.now.doc.now input.now.ordinals.now }
    ensures { OnOk result ((content : List ℕ) → AreLinesOf input.now.lines.now content
        → spots.new.items ≡ spots.old.items ++ spots_at input.now.doc.now content number node line.now) }
{
    match line {
        Line::Found(_) => {
            let place = place_judged(input, node);
            spots.push(Spot {
                node,
                line: number,
                place,
            })?;
            Ok(())
        }
        Line::Pattern { id: _ }
        | Line::Fired {
            node: _,
            rule: _,
            context: _,
        } => Ok(()),
    }
}

/// Where these elements stand.
pub(crate) fn push_located(
    alloc: Global,
    input: &ReportInput<'_, '_>,
    nodes: &[NodeId],
    located: &mut Vec<Located>,
) -> Result<(), AllocError>
    requires within { All (λ (n : ℕ). n < length input.now.doc.now.nodes) nodes.now }
    requires ordinals { AreOrdinals input.now.doc.now input.now.ordinals.now }
    ensures { OnOk result ((content : List ℕ) → AreLinesOf input.now.lines.now content
        → located.new.items ≡ located.old.items ++ map (located_at input.now.doc.now content) nodes.now) }
{
    'nodes: for n in nodes {
        let location = location_of(alloc, input.doc, input.ordinals, *n)?;
        let place = place_at(input.doc, input.lines, *n);
        located.push(Located { location, place })?;
    }
    Ok(())
}

/// Where these unread nodes stand, and what is shown of them.
pub(crate) fn push_unread(
    alloc: Global,
    input: &ReportInput<'_, '_>,
    nodes: &[NodeId],
    unread: &mut Vec<Unread>,
) -> Result<(), AllocError>
    requires within { All (λ (n : ℕ). n < length input.now.doc.now.nodes) nodes.now }
    requires ordinals { AreOrdinals input.now.doc.now input.now.ordinals.now }
    ensures { OnOk result ((content : List ℕ) → AreLinesOf input.now.lines.now content
        → unread.new.items ≡ unread.old.items ++ map (unread_of input.now.doc.now content) nodes.now) }
{
    'nodes: for n in nodes {
        let one = unread_at(alloc, input, *n)?;
        unread.push(one)?;
    }
    Ok(())
}

/// Where an unread node stands, and what is shown of it.
fn unread_at(alloc: Global, input: &ReportInput<'_, '_>, n: NodeId) -> Result<Unread, AllocError>
    requires within { n < length input.now.doc.now.nodes }
    requires ordinals { AreOrdinals input.now.doc.now input.now.ordinals.now }
    ensures { IfOk result (λ one. (content : List ℕ) → AreLinesOf input.now.lines.now content → one ≡ unread_of input.now.doc.now content n) }
{
    let location = location_of(alloc, input.doc, input.ordinals, n)?;
    let place = place_at(input.doc, input.lines, n);
    match value_of(alloc, input.doc, n) {
        Ok(value) => Ok(Unread {
            element: Located { location, place },
            value,
        }),
        Err(fault) => {
            drop(location);
            Err(fault)
        }
    }
}
