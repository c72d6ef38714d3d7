//! The job that validates an invoice.
ghost use Rattle.std.specs.Prelude.{◌≡◌, ◌<◌, ℕ, List, length};
ghost use Rattle.inv_base.specs.Outside.{ShelfView, SinkView};
ghost use Rattle.bind_run.specs.Extensions.{AreGood};
ghost use Rattle.bind_run.specs.Reading.{AreTablesFor, IsWithin, found_report};
ghost use Rattle.held_rules.specs.Texts.{seen_ready, IsReady};
ghost use Rattle.line_places.specs.Places.{AreLinesOf};
ghost use Rattle.inv_base.specs.Writing.{Writes};
ghost use Rattle.job_protocol.specs.Runs.{Runs};
ghost use Rattle.invoice_jobs.specs.Sources.{profile_of, sources_of};
ghost use Rattle.job_protocol.specs.Protocol.{ends, told_protocol};
ghost use Rattle.job_protocol.specs.declared.formats.ReportFormat.TheVariants as ReportFormat;
ghost use Rattle.validation_jobs.specs.Validation.{status_by, text_in, told_by, reported, text_asked, validated, judged_next, document_next, found_next};
ghost use Rattle.validation_jobs.specs.Validation.{validate_protocol};

use crate::built_in::{built_in_rules, load_given, tell_not_built_in};
use bind_run::{ReadingReport, faults_of_document};
use bumpalo::Bump;
use held_rules::Ready;
use inv_base::{Shelf, Sink, Steps};
use invoice_jobs::{ReadingProfile, Sources, refuse_invoice};
use job_protocol::{Placed, ReportFormat, Status, load_placed};
use std::alloc::Global;
use std::marker::Brand;
use std::sync::ledger::{Blank, Ledger};
use validation_json::print_validation;
use validation_report::{ReadingFindings, Validation};
use xml_write::WriteFault;

/// What is asked of an invoice.
#[derive(Clone, Copy)]
struct Asked<'w> {
    /// How the report is to be written.
    format: ReportFormat,
    /// The files beside the document.
    sources: Sources<'w>,
    /// The document.
    file: &'w str,
}

/// Reports all that is wrong with an invoice. All refusals are settled, and all is found, before the first byte of the report.
pub fn validate<'w, S: Shelf, O: Sink, E: Sink>(
    alloc: Global,
    format: ReportFormat,
    sources: &Sources<'w>,
    file: &'w str,
    shelf: &mut S,
    out: &mut O,
    err: &mut E,
) -> Status
    ensures { Runs (validate_protocol format (sources_of sources.now) file.now)
        (record { shelf = S.view shelf.old; out = O.view out.old; err = E.view err.old })
        (record { shelf = S.view shelf.new; out = O.view out.new; err = E.view err.new }) result }
{
    let asked = Asked {
        format,
        sources: *sources,
        file,
    };
    validate_by::<Brand, S, O, E>(alloc, &asked, Blank::new(1), shelf, out, err)
}

/// The same by steps that nobody asks for.
fn validate_by<L: Ledger, S: Shelf, O: Sink, E: Sink>(
    alloc: Global,
    asked: &Asked<'_>,
    ledger: Blank,
    shelf: &mut S,
    out: &mut O,
    err: &mut E,
) -> Status
    requires name { ledger.name ≡ L.name }
    requires parts { ledger.parts ≡ L.parts }
    requires some { 0 < ledger.parts }
    ensures { Runs (validate_protocol asked.now.format (sources_of asked.now.sources) asked.now.file.now)
        (record { shelf = S.view shelf.old; out = O.view out.old; err = E.view err.old })
        (record { shelf = S.view shelf.new; out = O.view out.new; err = E.view err.new }) result }
{
    let mut steps = Steps::<L>::new(ledger);
    match load_given(alloc, &asked.sources, shelf, err) {
        Ok(reading_profile) => {
            let status = validate_file(alloc, asked, &reading_profile, shelf, out, err, &mut steps);
            drop(reading_profile);
            status
        }
        Err(status) => status,
    }
}

/// The same of a file, by what it is validated by.
fn validate_file<L: Ledger, S: Shelf, O: Sink, E: Sink>(
    alloc: Global,
    asked: &Asked<'_>,
    reading_profile: &ReadingProfile,
    shelf: &mut S,
    out: &mut O,
    err: &mut E,
    steps: &mut Steps<L>,
) -> Status
    requires tables { AreTablesFor reading_profile.now.extension reading_profile.now.tables }
    requires good { AreGood reading_profile.now.extension }
    ensures { Runs (told_protocol asked.now.file.now (found_next (text_asked asked.now) asked.now.file.now (profile_of reading_profile.now)))
        (record { shelf = S.view shelf.old; out = O.view out.old; err = E.view err.old })
        (record { shelf = S.view shelf.new; out = O.view out.new; err = E.view err.new }) result }
{
    let bump = Bump::new(alloc);
    match load_placed(alloc, &bump, shelf, asked.file, err) {
        Ok(placed) => {
            let status = validate_document(alloc, asked, reading_profile, &placed, out, err, steps);
            drop(placed);
            status
        }
        Err(status) => status,
    }
}

/// The same of a document that is loaded.
fn validate_document<L: Ledger, O: Sink, E: Sink>(
    alloc: Global,
    asked: &Asked<'_>,
    reading_profile: &ReadingProfile,
    placed: &Placed<'_>,
    out: &mut O,
    err: &mut E,
    steps: &mut Steps<L>,
) -> Status
    requires tables { AreTablesFor reading_profile.now.extension reading_profile.now.tables }
    requires good { AreGood reading_profile.now.extension }
    ensures { (content : List ℕ) → AreLinesOf placed.now.lines content
        → (shelf : ShelfView) → Runs (document_next (text_asked asked.now) asked.now.file.now (profile_of reading_profile.now) content placed.now.doc)
        (record { shelf = shelf; out = O.view out.old; err = E.view err.old })
        (record { shelf = shelf; out = O.view out.new; err = E.view err.new }) result }
{
    match faults_of_document(
        alloc,
        &placed.doc,
        &reading_profile.tables,
        &reading_profile.lists,
    ) {
        Ok(reading_report) => {
            let status = judge_document(alloc, asked, placed, &reading_report, out, err, steps);
            drop(reading_report);
            status
        }
        Err(fault) => refuse_invoice(&placed.doc, asked.file, &fault, err),
    }
}

/// The same once it is known what is wrong with the document as an invoice.
fn judge_document<L: Ledger, O: Sink, E: Sink>(
    alloc: Global,
    asked: &Asked<'_>,
    placed: &Placed<'_>,
    reading_report: &ReadingReport,
    out: &mut O,
    err: &mut E,
    steps: &mut Steps<L>,
) -> Status
    requires within { IsWithin (length placed.now.doc.nodes) reading_report.now }
    ensures { (content : List ℕ) → AreLinesOf placed.now.lines content
        → (shelf : ShelfView) → Runs (judged_next (text_asked asked.now) content placed.now.doc (found_report reading_report.now))
        (record { shelf = shelf; out = O.view out.old; err = E.view err.old })
        (record { shelf = shelf; out = O.view out.new; err = E.view err.new }) result }
{
    match built_in_rules(alloc, reading_report.document_type) {
        Ok(Some(ready)) => {
            let status = report(alloc, asked, placed, reading_report, &ready, out, steps);
            drop(ready);
            status
        }
        Ok(None) => {
            tell_not_built_in(err);
            Status::RulesRefused
        }
        Err(_) => Status::Memory,
    }
}

/// What the rules find besides, and the report of all. All is found before the first byte is written.
fn report<L: Ledger, O: Sink>(
    alloc: Global,
    asked: &Asked<'_>,
    placed: &Placed<'_>,
    reading_report: &ReadingReport,
    ready: &Ready,
    out: &mut O,
    steps: &mut Steps<L>,
) -> Status
    requires within { IsWithin (length placed.now.doc.nodes) reading_report.now }
    requires ready { IsReady ready.now }
    ensures { (content : List ℕ) → AreLinesOf placed.now.lines content
        → (shelf : ShelfView) (err : SinkView) → Runs (ends (reported (text_asked asked.now) (validated content placed.now.doc (found_report reading_report.now)
        (seen_ready ready.now))))
        (record { shelf = shelf; out = O.view out.old; err = err })
        (record { shelf = shelf; out = O.view out.new; err = err }) result }
{
    let Placed { doc, lines } = placed;
    doc.is_of_a_tree();
    let found = match ready.find(alloc, doc, steps) {
        Ok(found) => found,
        Err(_) => return Status::Memory,
    };
    let reading = ReadingFindings {
        faults: reading_report.faults.as_slice(),
        passed: reading_report.passed_over.as_slice(),
        unread: reading_report.losses.unread.as_slice(),
        misplaced: reading_report.losses.misplaced.as_slice(),
    };
    let made = Validation::new(alloc, doc, lines, &reading, found);
    match made {
        Ok(validation) => {
            let status = write_report(asked, &validation, out);
            drop(validation);
            status
        }
        Err(_) => Status::Memory,
    }
}

/// Writes a report; it takes no memory.
fn write_report<O: Sink>(asked: &Asked<'_>, validation: &Validation<'_>, out: &mut O) -> Status
    ensures { (shelf : ShelfView) (err : SinkView) → Runs (ends (told_by (text_asked asked.now) validation.now))
        (record { shelf = shelf; out = O.view out.old; err = err })
        (record { shelf = shelf; out = O.view out.new; err = err }) result }
{
    match write_text(asked, validation, out) {
        Ok(()) => status_of(validation),
        Err(_) => Status::WriteFault,
    }
}

/// Writes the report as it is asked for.
fn write_text<O: Sink>(
    asked: &Asked<'_>,
    validation: &Validation<'_>,
    out: &mut O,
) -> Result<(), WriteFault>
    ensures { Writes result (text_asked asked.now validation.now) (O.view out.old) (O.view out.new) }
{
    match asked.format {
        ReportFormat::Plain => validation.write_plain(out),
        ReportFormat::Svrl => validation.write_svrl(out),
        ReportFormat::Json => write_json(asked.file, validation, out),
    }
}

/// Writes the report as JSON.
fn write_json<O: Sink>(
    file: &str,
    validation: &Validation<'_>,
    out: &mut O,
) -> Result<(), WriteFault>
    ensures { Writes result (text_in ReportFormat.Json file.now validation.now) (O.view out.old) (O.view out.new) }
{
    if print_validation(file, validation, out) {
        return Err(WriteFault);
    }
    Ok(())
}

/// The status of a report that was written.
fn status_of(validation: &Validation<'_>) -> Status
    ensures { result ≡ status_by validation.now.findings }
{
    if validation.has_findings() {
        Status::Findings
    } else {
        Status::Done
    }
}
