//! What the reading finds as lines of a report.
ghost use Rattle.std.specs.Prelude.{◌≡◌, ◌++◌, ◌∷◌, [], ◌<◌, ℕ, length, map, codes, Some, IfOk, OnOk};
ghost use Rattle.std.specs.List.{All};
ghost use Rattle.node_locations.specs.Locations.{AreOrdinals};
ghost use Rattle.bind_meaning.specs.declared.fault.BindFault.{BindFault};
ghost use Rattle.schematron_findings.specs.declared.finding.Line.TheVariants as line;
ghost use Rattle.validation_report.specs.Told.{fault_finding, fault_line, label, misplaced_finding, misplaced_line, reading_lines, title};
ghost use Rattle.validation_report.specs.Held.{AreWithin};

use crate::texts::{kind_of, label_of, local_name_of, location_of, plain_text, title_of};
use bind_meaning::BindFault;
use inv_base::{Str, Txt};
use inv_terms::Name;
use node_arena::{Doc, NodeId};
use node_locations::Ordinals;
use schematron_findings::{Finding, FindingKind, Findings, Level, Line};
use std::alloc::{AllocError, Global};

/// What the reading of a document as an invoice finds, each in document order: its faults, the elements that were passed over,
/// the nodes whose own text no invoice keeps that is read from it, and the elements that a schema wouldn't have where they
/// stand.
#[derive(Clone, Copy)]
pub struct ReadingFindings<'t> {
    /// The faults of reading.
    pub faults: &'t [BindFault],
    /// The elements that were passed over, with all that is inside them.
    pub passed: &'t [NodeId],
    /// The elements and attributes of the table that aren't read.
    pub unread: &'t [NodeId],
    /// The elements that stand behind one that the table has later.
    pub misplaced: &'t [NodeId],
}

/// The reading as a pattern of its own: a rule that judges the document, and what it finds, the faults and behind them the
/// misplaced elements.
pub(crate) fn reading_of<'r>(
    alloc: Global,
    doc: &Doc<'_>,
    ordinals: &Ordinals,
    reading: &ReadingFindings<'_>,
) -> Result<Findings<'r>, AllocError>
    requires within { AreWithin doc.now reading.now }
    requires ordinals { AreOrdinals doc.now ordinals.now }
    ensures { IfOk result (λ found. found ≡ reading_lines doc.now reading.now.faults.now reading.now.misplaced.now) }
{
    let mut found = Findings::new(alloc);
    match push_reading(alloc, doc, ordinals, reading, &mut found) {
        Ok(()) => Ok(found),
        Err(fault) => {
            drop(found);
            Err(fault)
        }
    }
}

/// Adds the lines of the reading.
fn push_reading(
    alloc: Global,
    doc: &Doc<'_>,
    ordinals: &Ordinals,
    reading: &ReadingFindings<'_>,
    found: &mut Findings<'_>,
) -> Result<(), AllocError>
    requires within { AreWithin doc.now reading.now }
    requires ordinals { AreOrdinals doc.now ordinals.now }
    ensures { OnOk result (found.new ≡ found.old ++ reading_lines doc.now reading.now.faults.now reading.now.misplaced.now) }
{
    push_judged(doc.document(), found)?;
    push_faults(alloc, doc, ordinals, reading.faults, found)?;
    push_misplaced(alloc, doc, ordinals, reading.misplaced, found)
}

/// Adds the line of the pattern, and that of the document, which its rule judges.
fn push_judged(document: NodeId, found: &mut Findings<'_>) -> Result<(), AllocError>
    ensures { OnOk result (found.new ≡ found.old ++ line.Pattern (Some (codes "reading")) ∷ line.Fired document 0 (codes "/") ∷ []) }
{
    found.push(Line::Pattern {
        id: Some(plain_text("reading")),
    })?;
    found.push(Line::Fired {
        node: document,
        rule: 0,
        context: plain_text("/"),
    })
}

/// Adds the lines of the faults.
fn push_faults(
    alloc: Global,
    doc: &Doc<'_>,
    ordinals: &Ordinals,
    faults: &[BindFault],
    found: &mut Findings<'_>,
) -> Result<(), AllocError>
    requires within { All (λ (fault : BindFault). fault.node < length doc.now.nodes) faults.now }
    requires ordinals { AreOrdinals doc.now ordinals.now }
    ensures { OnOk result (found.new ≡ found.old ++ map (fault_line doc.now) faults.now) }
{
    'faults: for fault in faults {
        let finding = finding_of(alloc, doc, ordinals, *fault)?;
        found.push(Line::Found(finding))?;
    }
    Ok(())
}

/// A fault as a finding at its node.
fn finding_of<'r>(
    alloc: Global,
    doc: &Doc<'_>,
    ordinals: &Ordinals,
    fault: BindFault,
) -> Result<Finding<'r>, AllocError>
    requires within { fault.node < length doc.now.nodes }
    requires ordinals { AreOrdinals doc.now ordinals.now }
    ensures { IfOk result (λ finding. finding ≡ fault_finding doc.now fault) }
{
    let location = location_of(alloc, doc, ordinals, fault.node)?;
    match message_and_id(alloc, fault.name) {
        Ok((message, id)) => Ok(Finding {
            outcome: FindingKind::Failed,
            level: Level::Fatal,
            test: kind_of(fault.kind),
            location,
            message,
            id,
            flag: Some(plain_text("fatal")),
            role: None,
        }),
        Err(error) => {
            drop(location);
            Err(error)
        }
    }
}

/// The name of what a fault names, and its number.
fn message_and_id<'r>(alloc: Global, name: Name) -> Result<(Txt, Option<Str<'r>>), AllocError>
    ensures message { IfOk result (λ both. both.0 ≡ title name) }
    ensures id { IfOk result (λ both. both.1 ≡ label name) }
{
    let message = title_of(alloc, name)?;
    match label_of(alloc, name) {
        Ok(id) => Ok((message, id)),
        Err(error) => {
            drop(message);
            Err(error)
        }
    }
}

/// Adds the lines of the misplaced elements.
fn push_misplaced(
    alloc: Global,
    doc: &Doc<'_>,
    ordinals: &Ordinals,
    misplaced: &[NodeId],
    found: &mut Findings<'_>,
) -> Result<(), AllocError>
    requires within { All (λ (n : ℕ). n < length doc.now.nodes) misplaced.now }
    requires ordinals { AreOrdinals doc.now ordinals.now }
    ensures { OnOk result (found.new ≡ found.old ++ map (misplaced_line doc.now) misplaced.now) }
{
    'misplaced: for n in misplaced {
        let finding = misplaced_at(alloc, doc, ordinals, *n)?;
        found.push(Line::Found(finding))?;
    }
    Ok(())
}

/// A misplaced element as a finding at it.
fn misplaced_at<'r>(
    alloc: Global,
    doc: &Doc<'_>,
    ordinals: &Ordinals,
    n: NodeId,
) -> Result<Finding<'r>, AllocError>
    requires within { n < length doc.now.nodes }
    requires ordinals { AreOrdinals doc.now ordinals.now }
    ensures { IfOk result (λ finding. finding ≡ misplaced_finding doc.now n) }
{
    let location = location_of(alloc, doc, ordinals, n)?;
    match local_name_of(alloc, doc, n) {
        Ok(message) => Ok(Finding {
            outcome: FindingKind::Failed,
            level: Level::Fatal,
            test: plain_text("Misplaced"),
            location,
            message,
            id: None,
            flag: Some(plain_text("fatal")),
            role: None,
        }),
        Err(error) => {
            drop(location);
            Err(error)
        }
    }
}
