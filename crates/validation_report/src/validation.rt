//! A report, made whole before its first byte is written.
ghost use Rattle.std.specs.Prelude.{◌≡◌, ◌<◌, ◌∷◌, [], ℕ, List, length, get_or, IfOk, OnOk};
ghost use Rattle.std.specs.List.{All};
ghost use Rattle.inv_base.specs.Printing.{Printed, Prints};
ghost use Rattle.inv_base.specs.Writing.{Writes};
ghost use Rattle.line_places.specs.Places.{AreLinesOf};
ghost use Rattle.node_locations.specs.Locations.{AreOrdinals};
ghost use Rattle.bind_meaning.specs.declared.fault.BindFault.{BindFault};
ghost use Rattle.svrl_report.specs.Plain.{tally_of};
ghost use Rattle.validation_report.specs.Told.{reading_lines};
ghost use Rattle.validation_report.specs.Held.{AreNone, ArePlaced, AreWithin, held, held_contents, held_plain, reading_in, rules_in, validation_of};
ghost use Rattle.validation_report.specs.Validating.{report_of, counts_against};

use crate::places::{
    ReportInput, Spots, push_fault_spots, push_located, push_ordered, push_unread,
};
use crate::printing::{
    FaultWord, OutcomeWord, print_all_counts, print_all_located, print_all_unread, print_spots,
};
use crate::reading::{ReadingFindings, reading_of};
use inv_base::{Printer, Sink};
use line_places::LineStarts;
use node_arena::Doc;
use node_locations::Ordinals;
use schematron_findings::{Findings, Line};
use std::alloc::{AllocError, Global};
use std::marker::Model;
use svrl_report::{Tally, write_svrl};
use xml_write::WriteFault;

/// The report of a validation: all that takes memory is made, and nothing is written yet. Texts of the rules are lent from
/// them. Contracts see what it tells.
pub struct Validation<'r> {
    // What the reading finds, and behind it what rules find.
    found: Vec<Findings<'r>>,
    spots: Spots,
}

impl Drop for Validation<'_> {
    fn drop(self) {
        let Validation { found, spots } = self;
        drop(found);
        drop(spots);
    }
}

impl<'r> Model for Validation<'r> {
    ghost use Rattle.validation_report.specs.Validating.{Report};
    ghost use Rattle.validation_report.specs.Held.{held};

    ghost Value = { Report };

    ghost view = { λ v. held v.found.items v.spots };
}

impl<'r> Validation<'r> {
    /// The report on a document whose bytes gave these starts of lines, with what its reading finds, and what rules find in
    /// it.
    pub fn new<'t>(
        alloc: Global,
        doc: &Doc<'_>,
        lines: &LineStarts,
        reading: &ReadingFindings<'t>,
        findings: Findings<'r>,
    ) -> Result<Validation<'r>, AllocError>
        requires faults { All (λ (fault : BindFault). fault.node < length doc.now.nodes) reading.now.faults.now }
        requires passed { All (λ (n : ℕ). n < length doc.now.nodes) reading.now.passed.now }
        requires unread { All (λ (n : ℕ). n < length doc.now.nodes) reading.now.unread.now }
        requires misplaced { All (λ (n : ℕ). n < length doc.now.nodes) reading.now.misplaced.now }
        ensures { IfOk result (λ report. (content : List ℕ) → AreLinesOf lines.now content
            → report ≡ report_of (record {
              content = content;
              document = doc.now;
              faults = reading.now.faults.now;
              passed = reading.now.passed.now;
              unread = reading.now.unread.now;
              misplaced = reading.now.misplaced.now;
              lines = findings.entry;
            })) }
    {
        match prepared(alloc, doc, lines, reading, findings.lines()) {
            Ok(ready) => ready.with(alloc, findings),
            Err(fault) => {
                drop(findings);
                Err(fault)
            }
        }
    }

    /// Whether there is a fault or a misplaced element, or a fatal assertion failed, or one is in error.
    pub fn has_findings(&self) -> bool
        ensures { result ≡ self.now.findings }
    {
        counts_against(&self.found, &self.spots)
    }

    /// All that it tells, for who writes it in another form.
    pub fn parts(&self) -> Parts<'_, 'r>
        ensures { held_contents result.reading.now result.rules.now result.spots.now ≡ self.now.contents }
    {
        Parts {
            reading: reading_in(&self.found),
            rules: rules_in(&self.found),
            spots: &self.spots,
        }
    }

    /// Writes the report for a person. Behind a fault the sink has taken a front of it.
    pub fn write_plain<K: Sink>(&self, out: &mut K) -> Result<(), WriteFault>
        ensures { Writes result self.now.plain (K.view out.old) (K.view out.new) }
    {
        write_report(&self.found, &self.spots, out)
    }

    /// Writes the report in the Schematron Validation Report Language. Behind a fault the sink has taken a front of it.
    pub fn write_svrl<K: Sink>(&self, out: &mut K) -> Result<(), WriteFault>
        ensures { Writes result self.now.svrl (K.view out.old) (K.view out.new) }
    {
        write_svrl(&self.found, out)
    }
}

/// What a validation tells, as it is kept: lines that tell the findings, and where all stands.
#[derive(Clone, Copy)]
pub struct Parts<'v, 'r> {
    /// What the reading finds; the spots of the faults say which of these lines.
    pub reading: &'v [Line<'r>],
    /// What rules find; the spots of the findings say which of these lines.
    pub rules: &'v [Line<'r>],
    pub spots: &'v Spots,
}

/// What a report is made of, but for what rules find.
struct Ready<'r> {
    reading: Findings<'r>,
    spots: Spots,
}

impl Drop for Ready<'_> {
    fn drop(self) {
        let Ready { reading, spots } = self;
        drop(reading);
        drop(spots);
    }
}

impl<'r> Ready<'r> {
    /// With what rules find.
    fn with(self, alloc: Global, findings: Findings<'r>) -> Result<Validation<'r>, AllocError>
        ensures { IfOk result (λ report. report ≡ held (self.entry.reading ∷ findings.entry ∷ []) self.entry.spots) }
    {
        let Ready { reading, spots } = self;
        match both(alloc, reading, findings) {
            Ok(found) => Ok(Validation { found, spots }),
            Err(fault) => {
                drop(spots);
                Err(fault)
            }
        }
    }
}

/// What the reading finds, and behind it what rules find.
fn both<'r>(
    alloc: Global,
    reading: Findings<'r>,
    rules: Findings<'r>,
) -> Result<Vec<Findings<'r>>, AllocError>
    ensures { IfOk result (λ found. found.items ≡ reading.entry ∷ rules.entry ∷ []) }
{
    let mut found = Vec::new(alloc);
    found.push(reading)?;
    found.push(rules)?;
    Ok(found)
}

/// All but what rules find.
fn prepared<'r>(
    alloc: Global,
    doc: &Doc<'_>,
    lines: &LineStarts,
    reading: &ReadingFindings<'_>,
    found: &[Line<'_>],
) -> Result<Ready<'r>, AllocError>
    requires { AreWithin doc.now reading.now }
    ensures reading { IfOk result (λ ready. ready.reading ≡ reading_lines doc.now reading.now.faults.now reading.now.misplaced.now) }
    ensures placed { IfOk result (λ ready. (content : List ℕ) → AreLinesOf lines.now content
        → ArePlaced (validation_of content doc.now reading.now found.now) ready.spots) }
{
    let ordinals = Ordinals::new(alloc, doc)?;
    let input = ReportInput {
        doc,
        ordinals: &ordinals,
        lines,
    };
    let ready = prepared_by(alloc, &input, reading, found);
    drop(ordinals);
    ready
}

/// The same by the ordinals of the document's nodes.
fn prepared_by<'r>(
    alloc: Global,
    input: &ReportInput<'_, '_>,
    reading: &ReadingFindings<'_>,
    found: &[Line<'_>],
) -> Result<Ready<'r>, AllocError>
    requires within { AreWithin input.now.doc.now reading.now }
    requires ordinals { AreOrdinals input.now.doc.now input.now.ordinals.now }
    ensures reading { IfOk result (λ ready. ready.reading ≡ reading_lines input.now.doc.now reading.now.faults.now reading.now.misplaced.now) }
    ensures placed { IfOk result (λ ready. (content : List ℕ) → AreLinesOf input.now.lines.now content
        → ArePlaced (validation_of content input.now.doc.now reading.now found.now) ready.spots) }
{
    let lines = reading_of(alloc, input.doc, input.ordinals, reading)?;
    match spots_of(alloc, input, reading, found) {
        Ok(spots) => Ok(Ready {
            reading: lines,
            spots,
        }),
        Err(fault) => {
            drop(lines);
            Err(fault)
        }
    }
}

/// Where stands what is told.
fn spots_of(
    alloc: Global,
    input: &ReportInput<'_, '_>,
    reading: &ReadingFindings<'_>,
    found: &[Line<'_>],
) -> Result<Spots, AllocError>
    requires within { AreWithin input.now.doc.now reading.now }
    requires ordinals { AreOrdinals input.now.doc.now input.now.ordinals.now }
    ensures { IfOk result (λ spots. (content : List ℕ) → AreLinesOf input.now.lines.now content
        → ArePlaced (validation_of content input.now.doc.now reading.now found.now) spots) }
{
    let mut spots = Spots {
        faults: Vec::new(alloc),
        passed: Vec::new(alloc),
        unread: Vec::new(alloc),
        misplaced: Vec::new(alloc),
        findings: Vec::new(alloc),
    };
    match push_spots(alloc, input, reading, found, &mut spots) {
        Ok(()) => Ok(spots),
        Err(fault) => {
            drop(spots);
            Err(fault)
        }
    }
}

/// Keeps where all stands that is told.
fn push_spots(
    alloc: Global,
    input: &ReportInput<'_, '_>,
    reading: &ReadingFindings<'_>,
    found: &[Line<'_>],
    spots: &mut Spots,
) -> Result<(), AllocError>
    requires within { AreWithin input.now.doc.now reading.now }
    requires ordinals { AreOrdinals input.now.doc.now input.now.ordinals.now }
    requires none { AreNone spots.old }
    ensures { OnOk result ((content : List ℕ) → AreLinesOf input.now.lines.now content
        → ArePlaced (validation_of content input.now.doc.now reading.now found.now) spots.new) }
{
    push_fault_spots(input.doc, input.lines, reading.faults, &mut spots.faults)?;
    push_located(alloc, input, reading.passed, &mut spots.passed)?;
    push_unread(alloc, input, reading.unread, &mut spots.unread)?;
    push_located(alloc, input, reading.misplaced, &mut spots.misplaced)?;
    push_ordered(input, found, &mut spots.findings)
}

/// Whether the reading or the rules found something that counts against the document.
fn counts_against(found: &[Findings<'_>], spots: &Spots) -> bool
    ensures { result ≡ counts_against (length spots.now.faults.items) (length spots.now.misplaced.items) (tally_of (rules_in found.now)) }
{
    let tally = Tally::of(rules_in(found));
    !spots.faults.is_empty() || !spots.misplaced.is_empty() || tally.failed > 0 || tally.errors > 0
}

/// Writes the report for a person.
fn write_report<K: Sink>(
    found: &[Findings<'_>],
    spots: &Spots,
    out: &mut K,
) -> Result<(), WriteFault>
    ensures { Writes result (held_plain (reading_in found.now) (rules_in found.now) spots.now) (K.view out.old) (K.view out.new) }
{
    if print_report(found, spots, out) {
        return Err(WriteFault);
    }
    Ok(())
}

/// Prints the report; answers whether a write failed.
fn print_report<K: Sink>(found: &[Findings<'_>], spots: &Spots, out: &mut K) -> bool
    ensures { Printed result (held_plain (reading_in found.now) (rules_in found.now) spots.now) (K.view out.old) (K.view out.new) }
{
    let mut printer = Printer::new();
    print_held(reading_in(found), rules_in(found), spots, &mut printer, out);
    printer.failed
}

/// What the reading finds.
fn reading_in<'f, 'r>(found: &'f [Findings<'r>]) -> &'f [Line<'r>]
    ensures { result.now ≡ reading_in found.now }
{
    lines_at(found, 0)
}

/// What rules find.
fn rules_in<'f, 'r>(found: &'f [Findings<'r>]) -> &'f [Line<'r>]
    ensures { result.now ≡ rules_in found.now }
{
    lines_at(found, 1)
}

/// The lines of the k-th of these; none where there is none.
fn lines_at<'f, 'r>(found: &'f [Findings<'r>], k: usize) -> &'f [Line<'r>]
    ensures { result.now ≡ get_or found.now k [] }
{
    if k < found.len() {
        found[k].lines()
    } else {
        &[]
    }
}

/// Prints what is told of these lines.
fn print_held<K: Sink>(
    reading: &[Line<'_>],
    rules: &[Line<'_>],
    spots: &Spots,
    printer: &mut Printer,
    out: &mut K,
)
    ensures { Prints (held_plain reading.now rules.now spots.now) printer.old.failed printer.new.failed (K.view out.old) (K.view out.new) }
{
    print_spots::<FaultWord, K>(reading, &spots.faults, printer, out);
    print_all_located(b"passed over", &spots.passed, printer, out);
    print_all_unread(&spots.unread, printer, out);
    print_all_located(b"misplaced", &spots.misplaced, printer, out);
    print_spots::<OutcomeWord, K>(rules, &spots.findings, printer, out);
    print_all_counts(spots, rules, printer, out);
}
