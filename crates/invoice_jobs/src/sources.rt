//! The files beside the document of a job on an invoice, and what they give: code lists, and extension terms. Where
//! one can't be had, its line is told and the status answered.
ghost use Rattle.std.specs.Prelude.{◌≡◌, [], IfOk, IfErr, option_map};
ghost use Rattle.bind_run.specs.Extensions.{judged, rows_for, AreGood};
ghost use Rattle.bind_run.specs.Reading.{AreTablesFor};
ghost use Rattle.job_protocol.specs.declared.status.Status.TheVariants as statuses;
ghost use Rattle.job_protocol.specs.Outside.{TakesOrFails};
ghost use Rattle.job_protocol.specs.Runs.{Continues, Fails};
ghost use Rattle.job_protocol.specs.Views.{text_of};
ghost use Rattle.invoice_jobs.specs.Sources.{listed_protocol, extended_protocol, terms_protocol, profile_protocol, profile_of, sources_of, extension_line};
ghost use Rattle.invoice_jobs.specs.Sources.{IsExtensionRefusal, IsRowRefusal, IsRefusedBy};

use crate::refusals::{tell_bad_row, tell_extension_fault};
use bind_run::{ExtendFault, Tables};
use code_lists::CodeLists;
use extension_files::{ExtFault, Extension};
use inv_base::{Shelf, Sink};
use job_protocol::{Status, take_file, take_lists};
use std::alloc::Global;

/// The files beside the document, as far as they are named.
#[derive(Clone, Copy)]
pub struct Sources<'w> {
    /// The file of code lists.
    pub codes_file: Option<&'w str>,
    /// The file of extension terms.
    pub extension_file: Option<&'w str>,
}

/// No file beside the document.
pub const NO_SOURCES: Sources<'static> = Sources {
    codes_file: None,
    extension_file: None,
};

/// What an invoice is read and written by: the code lists, the extension terms, and the three tables with them.
pub struct ReadingProfile {
    pub lists: CodeLists,
    pub extension: Extension,
    pub tables: Tables,
}

impl Drop for ReadingProfile {
    fn drop(self) {
        let ReadingProfile {
            lists,
            extension,
            tables,
        } = self;
        drop(lists);
        drop(extension);
        drop(tables);
    }
}

/// The extension terms, and the three tables with them.
pub struct Extended {
    pub extension: Extension,
    pub tables: Tables,
}

/// The code lists of a file, or the built-in ones where none is named; or the status with which the job ends.
fn load_lists<S: Shelf, E: Sink>(
    alloc: Global,
    codes_file: Option<&str>,
    shelf: &mut S,
    err: &mut E,
) -> Result<CodeLists, Status>
    ensures goes_on { IfOk result (λ lists. Continues (listed_protocol (option_map text_of codes_file.entry)) lists
        (S.view shelf.old) (S.view shelf.new) (E.view err.old) (E.view err.new)) }
    ensures fails { IfErr result (λ status. Fails (listed_protocol (option_map text_of codes_file.entry)) status
        (S.view shelf.old) (S.view shelf.new) (E.view err.old) (E.view err.new)) }
{
    match codes_file {
        Some(file) => take_lists(alloc, shelf, file, err),
        None => match CodeLists::built_in(alloc) {
            Ok(lists) => Ok(lists),
            Err(_) => Err(Status::Memory),
        },
    }
}

/// The three tables as they are.
fn without_terms(alloc: Global) -> Extended
    ensures tables { AreTablesFor result.extension result.tables }
    ensures good { AreGood result.extension }
    ensures none { result.extension ≡ [] }
{
    Extended {
        extension: Extension::none(alloc),
        tables: Tables::built_in(),
    }
}

/// The three tables with the terms of a file; or the status with which the job ends.
fn load_terms<S: Shelf, E: Sink>(
    alloc: Global,
    file: &str,
    shelf: &mut S,
    err: &mut E,
) -> Result<Extended, Status>
    ensures tables { IfOk result (λ extended. AreTablesFor extended.extension extended.tables) }
    ensures good { IfOk result (λ extended. AreGood extended.extension) }
    ensures goes_on { IfOk result (λ extended. Continues (terms_protocol file.now) extended.extension
        (S.view shelf.old) (S.view shelf.new) (E.view err.old) (E.view err.new)) }
    ensures fails { IfErr result (λ status. Fails (terms_protocol file.now) status
        (S.view shelf.old) (S.view shelf.new) (E.view err.old) (E.view err.new)) }
{
    let bytes = match take_file(alloc, shelf, file, err) {
        Ok(bytes) => bytes,
        Err(status) => return Err(status),
    };
    let found = Extension::from_toml(alloc, bytes.as_slice());
    drop(bytes);
    match found {
        Ok(extension) => extend_tables(alloc, extension, file, err),
        Err(fault) => {
            let status = refuse_extension(file, &fault, err);
            drop(fault);
            Err(status)
        }
    }
}

/// The three tables with these terms, if all are well formed with them; or the status of the refusal, whose line is told.
fn extend_tables<E: Sink>(
    alloc: Global,
    extension: Extension,
    file: &str,
    err: &mut E,
) -> Result<Extended, Status>
    ensures same { IfOk result (λ extended. (extended.extension ≡ extension) × (E.view err.new ≡ E.view err.old)) }
    ensures tables { IfOk result (λ extended. AreTablesFor extended.extension extended.tables) }
    ensures good { IfOk result (λ extended. AreGood extended.extension) }
    ensures refused { IfErr result (λ status. IsRefusedBy (judged (rows_for extension)) file.now status (E.view err.old) (E.view err.new)) }
{
    match Tables::extended(alloc, &extension) {
        Ok(tables) => Ok(Extended { extension, tables }),
        Err(fault) => {
            drop(extension);
            Err(refuse_tables(file, fault, err))
        }
    }
}

/// The status of a file that gives no terms; its line is told.
fn refuse_extension<E: Sink>(file: &str, fault: &ExtFault, err: &mut E) -> Status
    ensures { IsExtensionRefusal fault.now file.now result (E.view err.old) (E.view err.new) }
{
    match fault {
        ExtFault::Memory => Status::Memory,
        ExtFault::NotToml => refuse_terms(file, fault, err),
        ExtFault::NotAnExtension(_) => refuse_terms(file, fault, err),
        ExtFault::BadTerm(_) => refuse_terms(file, fault, err),
    }
}

/// The status of a fault that is told.
fn refuse_terms<E: Sink>(file: &str, fault: &ExtFault, err: &mut E) -> Status
    ensures { (result ≡ statuses.RulesRefused) × TakesOrFails (extension_line file.now fault.now) (E.view err.old) (E.view err.new) }
{
    tell_extension_fault(file, fault, err);
    Status::RulesRefused
}

/// The status of terms with which a table isn't well formed; its line is told.
fn refuse_tables<E: Sink>(file: &str, fault: ExtendFault, err: &mut E) -> Status
    ensures { IsRowRefusal fault file.now result (E.view err.old) (E.view err.new) }
{
    match fault {
        ExtendFault::Memory => Status::Memory,
        ExtendFault::BadRow(bad) => {
            tell_bad_row(file, &bad, err);
            Status::RulesRefused
        }
    }
}

/// The three tables with the terms of a file, or as they are where none is named; or the status with which the job ends.
pub fn load_extended<S: Shelf, E: Sink>(
    alloc: Global,
    extension_file: Option<&str>,
    shelf: &mut S,
    err: &mut E,
) -> Result<Extended, Status>
    ensures tables { IfOk result (λ extended. AreTablesFor extended.extension extended.tables) }
    ensures good { IfOk result (λ extended. AreGood extended.extension) }
    ensures goes_on { IfOk result (λ extended. Continues (extended_protocol (option_map text_of extension_file.entry)) extended.extension
        (S.view shelf.old) (S.view shelf.new) (E.view err.old) (E.view err.new)) }
    ensures fails { IfErr result (λ status. Fails (extended_protocol (option_map text_of extension_file.entry)) status
        (S.view shelf.old) (S.view shelf.new) (E.view err.old) (E.view err.new)) }
{
    match extension_file {
        Some(file) => load_terms(alloc, file, shelf, err),
        None => Ok(without_terms(alloc)),
    }
}

/// What an invoice is read and written by, of the files that are named; or the status with which the job ends.
pub(crate) fn load_profile<S: Shelf, E: Sink>(
    alloc: Global,
    sources: &Sources<'_>,
    shelf: &mut S,
    err: &mut E,
) -> Result<ReadingProfile, Status>
    ensures tables { IfOk result (λ reading_profile. AreTablesFor reading_profile.extension reading_profile.tables) }
    ensures good { IfOk result (λ reading_profile. AreGood reading_profile.extension) }
    ensures goes_on { IfOk result (λ reading_profile. Continues (profile_protocol (sources_of sources.now)) (profile_of reading_profile)
        (S.view shelf.old) (S.view shelf.new) (E.view err.old) (E.view err.new)) }
    ensures fails { IfErr result (λ status. Fails (profile_protocol (sources_of sources.now)) status
        (S.view shelf.old) (S.view shelf.new) (E.view err.old) (E.view err.new)) }
{
    let lists = match load_lists(alloc, sources.codes_file, shelf, err) {
        Ok(lists) => lists,
        Err(status) => return Err(status),
    };
    match load_extended(alloc, sources.extension_file, shelf, err) {
        Ok(Extended { extension, tables }) => Ok(ReadingProfile {
            lists,
            extension,
            tables,
        }),
        Err(status) => {
            drop(lists);
            Err(status)
        }
    }
}
