//! The job that writes an invoice as a page that people read.
ghost use Rattle.inv_base.specs.Outside.{ShelfView, SinkView};
ghost use Rattle.job_protocol.specs.Runs.{Runs};
ghost use Rattle.invoice_jobs.specs.Invoices.{read_of};
ghost use Rattle.invoice_jobs.specs.Pages.{page_answer, view_protocol};
ghost use Rattle.invoice_jobs.specs.Sources.{sources_of};

use crate::invoices::load;
use crate::sources::Sources;
use bind_run::ReadInvoice;
use inv_base::{Shelf, Sink};
use invoice_page::print_page;
use job_protocol::Status;
use std::alloc::Global;

/// Writes an invoice as a page of HTML 5.
pub fn view<S: Shelf, O: Sink, E: Sink>(
    alloc: Global,
    sources: &Sources<'_>,
    file: &str,
    shelf: &mut S,
    out: &mut O,
    err: &mut E,
) -> Status
    ensures { Runs (view_protocol (sources_of sources.now) file.now)
        (record { shelf = S.view shelf.old; out = O.view out.old; err = E.view err.old })
        (record { shelf = S.view shelf.new; out = O.view out.new; err = E.view err.new }) result }
{
    match load(alloc, sources, file, shelf, err) {
        Ok(loaded) => write_page(alloc, &loaded.read, out),
        Err(status) => status,
    }
}

/// Writes the page; the memory for it is taken before the first byte is written.
fn write_page<O: Sink>(alloc: Global, read: &ReadInvoice, out: &mut O) -> Status
    ensures { (shelf : ShelfView) (err : SinkView) → Runs (page_answer (read_of read.now))
        (record { shelf = shelf; out = O.view out.old; err = err })
        (record { shelf = shelf; out = O.view out.new; err = err }) result }
{
    match print_page(alloc, &read.invoice, read.passed_over, out) {
        Ok(true) => Status::WriteFault,
        Ok(false) => Status::Done,
        Err(_) => Status::Memory,
    }
}
