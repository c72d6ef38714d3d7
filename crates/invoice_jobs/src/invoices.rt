//! Jobs that read an invoice.
ghost use Rattle.std.specs.Prelude.{◌≡◌, ◌≢◌, ◌<◌, length, IfOk, IfErr};
ghost use Rattle.bind_meaning.specs.declared.fault.BindKind.TheVariants as kinds;
ghost use Rattle.inv_base.specs.Outside.{ShelfView};
ghost use Rattle.bind_run.specs.Extensions.{AreGood, rows_for};
ghost use Rattle.bind_run.specs.Reading.{AreTablesFor};
ghost use Rattle.extension_laws.specs.Texts.{target_rows};
ghost use Rattle.job_protocol.specs.Runs.{Runs, Continues, Fails};
ghost use Rattle.invoice_jobs.specs.Sources.{profile_of, sources_of};
ghost use Rattle.invoice_jobs.specs.Invoices.{read_of, given_of, IsInvoiceRefusal, invoice_protocol, read_protocol, show_protocol, converted, convert_protocol};
ghost use Rattle.invoice_jobs.specs.Invoices.{extracted, extract_protocol, listing_in};
ghost use Rattle.invoice_jobs.specs.Invoices.{convert_whole_protocol, whole_invoice_protocol, whole_protocol};
ghost use Rattle.inv_base.specs.Printing.{Printed};

use crate::formats::AnswerFormat;
use crate::refusals::{tell_attach_fault, tell_condition, tell_invoice_fault, tell_loss};
use crate::sources::{NO_SOURCES, ReadingProfile, Sources, load_profile};
use bind_run::{
    BindFault, BindKind, ReadInvoice, Syntax, WholeRead, carries, read_document,
    read_document_whole, target, write,
};
use bind_table::Binding;
use bumpalo::Bump;
use extension_laws::extended_tables_are_laid;
use inv_base::{Shelf, Sink};
use inv_listing::print_listing;
use inv_terms::{AttachFault, attachment};
use invoice_json::print_json;
use job_protocol::{Status, load_document};
use node_arena::Doc;
use std::alloc::Global;

/// The invoice of a file, or the status with which the job ends.
fn load_invoice<S: Shelf, E: Sink>(
    alloc: Global,
    reading_profile: &ReadingProfile,
    file: &str,
    shelf: &mut S,
    err: &mut E,
) -> Result<ReadInvoice, Status>
    requires tables { AreTablesFor reading_profile.now.extension reading_profile.now.tables }
    requires good { AreGood reading_profile.now.extension }
    ensures goes_on { IfOk result (λ read. Continues (invoice_protocol file.now (profile_of reading_profile.now)) (read_of read)
        (S.view shelf.old) (S.view shelf.new) (E.view err.old) (E.view err.new)) }
    ensures fails { IfErr result (λ status. Fails (invoice_protocol file.now (profile_of reading_profile.now)) status
        (S.view shelf.old) (S.view shelf.new) (E.view err.old) (E.view err.new)) }
{
    let bump = Bump::new(alloc);
    let doc = match load_document(alloc, &bump, shelf, file, err) {
        Ok(doc) => doc,
        Err(status) => return Err(status),
    };
    match read_document(alloc, &doc, &reading_profile.tables, &reading_profile.lists) {
        Ok(read) => Ok(read),
        Err(fault) => Err(refuse_invoice(&doc, file, &fault, err)),
    }
}

/// The status with which a job ends whose document isn't an invoice; its line is told.
pub fn refuse_invoice<E: Sink>(doc: &Doc<'_>, file: &str, fault: &BindFault, err: &mut E) -> Status
    requires { fault.now.kind ≢ kinds.Memory → fault.now.node < length doc.now.nodes }
    ensures { IsInvoiceRefusal doc.now file.now fault.now result (E.view err.old) (E.view err.new) }
{
    match fault.kind {
        BindKind::Memory => Status::Memory,
        _ => {
            tell_invoice_fault(doc, file, fault, err);
            Status::DocumentRefused
        }
    }
}

/// What a job works on: what an invoice is read and written by, and the invoice.
pub(crate) struct Loaded {
    pub(crate) reading_profile: ReadingProfile,
    pub(crate) read: ReadInvoice,
}

impl Drop for Loaded {
    fn drop(self) {
        let Loaded {
            reading_profile,
            read,
        } = self;
        drop(reading_profile);
        drop(read);
    }
}

/// The invoice of a file, by what the files beside it give; or the status with which the job ends. These are read, and the terms of a
/// user judged, before the document is opened.
pub(crate) fn load<S: Shelf, E: Sink>(
    alloc: Global,
    sources: &Sources<'_>,
    file: &str,
    shelf: &mut S,
    err: &mut E,
) -> Result<Loaded, Status>
    ensures tables { IfOk result (λ loaded. AreTablesFor loaded.reading_profile.extension loaded.reading_profile.tables) }
    ensures good { IfOk result (λ loaded. AreGood loaded.reading_profile.extension) }
    ensures goes_on { IfOk result (λ loaded. Continues (read_protocol (sources_of sources.now) file.now) (given_of loaded)
        (S.view shelf.old) (S.view shelf.new) (E.view err.old) (E.view err.new)) }
    ensures fails { IfErr result (λ status. Fails (read_protocol (sources_of sources.now) file.now) status
        (S.view shelf.old) (S.view shelf.new) (E.view err.old) (E.view err.new)) }
{
    let reading_profile = match load_profile(alloc, sources, shelf, err) {
        Ok(reading_profile) => reading_profile,
        Err(status) => return Err(status),
    };
    match load_invoice(alloc, &reading_profile, file, shelf, err) {
        Ok(read) => Ok(Loaded {
            reading_profile,
            read,
        }),
        Err(status) => {
            drop(reading_profile);
            Err(status)
        }
    }
}

/// The invoice of a file of which nothing is lost, or the status with which the job ends.
fn load_whole_invoice<S: Shelf, E: Sink>(
    alloc: Global,
    reading_profile: &ReadingProfile,
    file: &str,
    shelf: &mut S,
    err: &mut E,
) -> Result<ReadInvoice, Status>
    requires tables { AreTablesFor reading_profile.now.extension reading_profile.now.tables }
    requires good { AreGood reading_profile.now.extension }
    ensures goes_on { IfOk result (λ read. Continues (whole_invoice_protocol file.now (profile_of reading_profile.now)) (read_of read)
        (S.view shelf.old) (S.view shelf.new) (E.view err.old) (E.view err.new)) }
    ensures fails { IfErr result (λ status. Fails (whole_invoice_protocol file.now (profile_of reading_profile.now)) status
        (S.view shelf.old) (S.view shelf.new) (E.view err.old) (E.view err.new)) }
{
    let bump = Bump::new(alloc);
    let doc = match load_document(alloc, &bump, shelf, file, err) {
        Ok(doc) => doc,
        Err(status) => return Err(status),
    };
    match read_document_whole(alloc, &doc, &reading_profile.tables, &reading_profile.lists) {
        Ok(WholeRead { read, lost }) => match lost {
            None => Ok(read),
            Some(n) => {
                drop(read);
                tell_loss(&doc, n, err);
                Err(Status::Unable)
            }
        },
        Err(fault) => Err(refuse_invoice(&doc, file, &fault, err)),
    }
}

/// The same as `load`, where nothing of the document is lost.
fn load_whole<S: Shelf, E: Sink>(
    alloc: Global,
    sources: &Sources<'_>,
    file: &str,
    shelf: &mut S,
    err: &mut E,
) -> Result<Loaded, Status>
    ensures tables { IfOk result (λ loaded. AreTablesFor loaded.reading_profile.extension loaded.reading_profile.tables) }
    ensures good { IfOk result (λ loaded. AreGood loaded.reading_profile.extension) }
    ensures goes_on { IfOk result (λ loaded. Continues (whole_protocol (sources_of sources.now) file.now) (given_of loaded)
        (S.view shelf.old) (S.view shelf.new) (E.view err.old) (E.view err.new)) }
    ensures fails { IfErr result (λ status. Fails (whole_protocol (sources_of sources.now) file.now) status
        (S.view shelf.old) (S.view shelf.new) (E.view err.old) (E.view err.new)) }
{
    let reading_profile = match load_profile(alloc, sources, shelf, err) {
        Ok(reading_profile) => reading_profile,
        Err(status) => return Err(status),
    };
    match load_whole_invoice(alloc, &reading_profile, file, shelf, err) {
        Ok(read) => Ok(Loaded {
            reading_profile,
            read,
        }),
        Err(status) => {
            drop(reading_profile);
            Err(status)
        }
    }
}

/// Lists the terms of an invoice.
pub fn show<S: Shelf, O: Sink, E: Sink>(
    alloc: Global,
    format: AnswerFormat,
    sources: &Sources<'_>,
    file: &str,
    shelf: &mut S,
    out: &mut O,
    err: &mut E,
) -> Status
    ensures { Runs (show_protocol format (sources_of sources.now) file.now)
        (record { shelf = S.view shelf.old; out = O.view out.old; err = E.view err.old })
        (record { shelf = S.view shelf.new; out = O.view out.new; err = E.view err.new }) result }
{
    let loaded = match load(alloc, sources, file, shelf, err) {
        Ok(loaded) => loaded,
        Err(status) => return status,
    };
    if print_in(format, &loaded.read, out) {
        Status::WriteFault
    } else {
        Status::Done
    }
}

/// Prints the terms of an invoice in a format; answers whether a write failed.
fn print_in<O: Sink>(format: AnswerFormat, read: &ReadInvoice, out: &mut O) -> bool
    ensures { Printed result (listing_in format read.now.invoice read.now.passed_over) (O.view out.old) (O.view out.new) }
{
    match format {
        AnswerFormat::Lines => print_listing(&read.invoice, read.passed_over, out),
        AnswerFormat::Json => print_json(&read.invoice, read.passed_over, out),
    }
}

/// Writes an invoice in a syntax.
pub fn convert<S: Shelf, O: Sink, E: Sink>(
    alloc: Global,
    syntax: Syntax,
    sources: &Sources<'_>,
    file: &str,
    shelf: &mut S,
    out: &mut O,
    err: &mut E,
) -> Status
    ensures { Runs (convert_protocol syntax (sources_of sources.now) file.now)
        (record { shelf = S.view shelf.old; out = O.view out.old; err = E.view err.old })
        (record { shelf = S.view shelf.new; out = O.view out.new; err = E.view err.new }) result }
{
    match load(alloc, sources, file, shelf, err) {
        Ok(loaded) => write_converted(alloc, &loaded, syntax, out, err),
        Err(status) => status,
    }
}

/// Writes an invoice in a syntax, where nothing of its document is lost; else the first that is lost is told, and nothing is written.
pub fn convert_whole<S: Shelf, O: Sink, E: Sink>(
    alloc: Global,
    syntax: Syntax,
    sources: &Sources<'_>,
    file: &str,
    shelf: &mut S,
    out: &mut O,
    err: &mut E,
) -> Status
    ensures { Runs (convert_whole_protocol syntax (sources_of sources.now) file.now)
        (record { shelf = S.view shelf.old; out = O.view out.old; err = E.view err.old })
        (record { shelf = S.view shelf.new; out = O.view out.new; err = E.view err.new }) result }
{
    match load_whole(alloc, sources, file, shelf, err) {
        Ok(loaded) => write_converted(alloc, &loaded, syntax, out, err),
        Err(status) => status,
    }
}

/// Writes an invoice in a syntax, by the table for it.
fn write_converted<O: Sink, E: Sink>(
    alloc: Global,
    loaded: &Loaded,
    syntax: Syntax,
    out: &mut O,
    err: &mut E,
) -> Status
    requires tables { AreTablesFor loaded.now.reading_profile.extension loaded.now.reading_profile.tables }
    requires good { AreGood loaded.now.reading_profile.extension }
    ensures { (shelf : ShelfView) → Runs (converted syntax (given_of loaded.now))
        (record { shelf = shelf; out = O.view out.old; err = E.view err.old })
        (record { shelf = shelf; out = O.view out.new; err = E.view err.new }) result }
{
    let document_type = target(&loaded.read.invoice, syntax);
    match loaded.reading_profile.tables.table(alloc, document_type) {
        Ok(table) => {
            let status = write_by(loaded, syntax, table.as_ref(), out, err);
            drop(table);
            status
        }
        Err(_) => Status::Memory,
    }
}

/// Writes an invoice by the table of a syntax, if it is carried there; nothing is written before that is known.
fn write_by<O: Sink, E: Sink>(
    loaded: &Loaded,
    syntax: Syntax,
    table: &Binding,
    out: &mut O,
    err: &mut E,
) -> Status
    requires table { table.now ≡ target_rows (rows_for loaded.now.reading_profile.extension) syntax loaded.now.read.invoice }
    requires good { AreGood loaded.now.reading_profile.extension }
    ensures { (shelf : ShelfView) → Runs (converted syntax (given_of loaded.now))
        (record { shelf = shelf; out = O.view out.old; err = E.view err.old })
        (record { shelf = shelf; out = O.view out.new; err = E.view err.new }) result }
{
    extended_tables_are_laid();
    let invoice = &loaded.read.invoice;
    match carries(invoice, table) {
        Ok(()) => {}
        Err(fault) => {
            tell_condition(&fault, err);
            return Status::Unable;
        }
    }
    match write(invoice, table, out) {
        Ok(()) => Status::Done,
        Err(_) => Status::WriteFault,
    }
}

/// Extracts an attached document.
pub fn extract<S: Shelf, O: Sink, E: Sink>(
    alloc: Global,
    number: u32,
    file: &str,
    shelf: &mut S,
    out: &mut O,
    err: &mut E,
) -> Status
    ensures { Runs (extract_protocol number file.now)
        (record { shelf = S.view shelf.old; out = O.view out.old; err = E.view err.old })
        (record { shelf = S.view shelf.new; out = O.view out.new; err = E.view err.new }) result }
{
    match load(alloc, &NO_SOURCES, file, shelf, err) {
        Ok(loaded) => write_attachment(alloc, &loaded.read, number, out, err),
        Err(status) => status,
    }
}

/// Writes the bytes of an attached document.
fn write_attachment<O: Sink, E: Sink>(
    alloc: Global,
    read: &ReadInvoice,
    number: u32,
    out: &mut O,
    err: &mut E,
) -> Status
    ensures { (shelf : ShelfView) → Runs (extracted number (read_of read.now))
        (record { shelf = shelf; out = O.view out.old; err = E.view err.old })
        (record { shelf = shelf; out = O.view out.new; err = E.view err.new }) result }
{
    match attachment(alloc, &read.invoice, number, out) {
        Ok(()) => Status::Done,
        Err(AttachFault::WriteFault) => Status::WriteFault,
        Err(AttachFault::Memory) => Status::Memory,
        Err(AttachFault::NoSuch) => {
            tell_attach_fault(number, AttachFault::NoSuch, err);
            Status::Unable
        }
        Err(AttachFault::NotBase64) => {
            tell_attach_fault(number, AttachFault::NotBase64, err);
            Status::Unable
        }
    }
}
