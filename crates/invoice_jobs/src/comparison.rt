//! The job that compares the totals of an invoice with what its other values make of them.
ghost use Rattle.std.specs.Prelude.{◌≡◌};
ghost use Rattle.inv_base.specs.Outside.{ShelfView, SinkView};
ghost use Rattle.inv_base.specs.Writing.{Writes};
ghost use Rattle.inv_totals.specs.Totals as totals;
ghost use Rattle.job_protocol.specs.Runs.{Runs};
ghost use Rattle.invoice_jobs.specs.Sources.{sources_of};
ghost use Rattle.invoice_jobs.specs.declared.formats.AnswerFormat.TheVariants as AnswerFormat;
ghost use Rattle.invoice_jobs.specs.Totals.{status_by, totalled, totals_protocol, totals_text};

use crate::formats::AnswerFormat;
use crate::invoices::load;
use crate::sources::Sources;
use inv_base::{Shelf, Sink};
use inv_terms::Invoice;
use inv_totals::{Differences, differences, write_differences};
use job_protocol::Status;
use std::alloc::Global;
use totals_json::print_totals;
use xml_write::WriteFault;

/// Lists each total of an invoice that isn't what its other values make of it, and how many they are.
pub fn totals<S: Shelf, O: Sink, E: Sink>(
    alloc: Global,
    format: AnswerFormat,
    sources: &Sources<'_>,
    file: &str,
    shelf: &mut S,
    out: &mut O,
    err: &mut E,
) -> Status
    ensures { Runs (totals_protocol format (sources_of sources.now) file.now)
        (record { shelf = S.view shelf.old; out = O.view out.old; err = E.view err.old })
        (record { shelf = S.view shelf.new; out = O.view out.new; err = E.view err.new }) result }
{
    match load(alloc, sources, file, shelf, err) {
        Ok(loaded) => write_totals(alloc, format, file, &loaded.read.invoice, out),
        Err(status) => status,
    }
}

/// Writes the differences of an invoice; nothing is written before all are found.
fn write_totals<O: Sink>(
    alloc: Global,
    format: AnswerFormat,
    file: &str,
    i: &Invoice,
    out: &mut O,
) -> Status
    ensures { (shelf : ShelfView) (err : SinkView) → Runs (totalled format file.now (totals.differences i.now))
        (record { shelf = shelf; out = O.view out.old; err = err })
        (record { shelf = shelf; out = O.view out.new; err = err }) result }
{
    match differences(alloc, i) {
        Ok(found) => write_found(format, file, &found, out),
        Err(_) => Status::Memory,
    }
}

/// Writes differences; it takes no memory.
fn write_found<O: Sink>(
    format: AnswerFormat,
    file: &str,
    found: &Differences,
    out: &mut O,
) -> Status
    ensures { (shelf : ShelfView) (err : SinkView) → Runs (totalled format file.now found.now)
        (record { shelf = shelf; out = O.view out.old; err = err })
        (record { shelf = shelf; out = O.view out.new; err = err }) result }
{
    match write_in(format, file, found, out) {
        Ok(()) => status_of(found),
        Err(_) => Status::WriteFault,
    }
}

/// Writes differences in a format.
fn write_in<O: Sink>(
    format: AnswerFormat,
    file: &str,
    found: &Differences,
    out: &mut O,
) -> Result<(), WriteFault>
    ensures { Writes result (totals_text format file.now found.now) (O.view out.old) (O.view out.new) }
{
    match format {
        AnswerFormat::Lines => write_differences(found, out),
        AnswerFormat::Json => write_json(file, found, out),
    }
}

/// Writes differences as JSON.
fn write_json<O: Sink>(file: &str, found: &Differences, out: &mut O) -> Result<(), WriteFault>
    ensures { Writes result (totals_text AnswerFormat.Json file.now found.now) (O.view out.old) (O.view out.new) }
{
    if print_totals(file, found, out) {
        return Err(WriteFault);
    }
    Ok(())
}

/// The status where they were written.
fn status_of(found: &Differences) -> Status
    ensures { result ≡ status_by (totals.is_nothing found.now) }
{
    if found.is_empty() {
        Status::Done
    } else {
        Status::Findings
    }
}
