//! What the program has built in: the rules of EN 16931 for the tables, and code lists.
ghost use Rattle.std.specs.Prelude.{◌≡◌, IfOk, IfErr, option_map};
ghost use Rattle.held_rules.specs.Texts.{seen_ready, AreReady};
ghost use Rattle.job_protocol.specs.Runs.{Continues, Fails};
ghost use Rattle.job_protocol.specs.Outside.{TakesOrFails};
ghost use Rattle.job_protocol.specs.Views.{text_of};
ghost use Rattle.job_protocol.specs.declared.status.Status.TheVariants as statuses;
ghost use Rattle.invoice_jobs.specs.Sources.{profile_of, sources_of};
ghost use Rattle.bind_run.specs.Extensions.{AreGood};
ghost use Rattle.bind_run.specs.Reading.{AreTablesFor};
ghost use Rattle.validation_jobs.specs.Validation as spec;

use bind_run::DocumentType;
use code_lists::{CodeLists, ListFault};
use held_rules::{Ready, ready_rules};
use inv_base::{Printer, Shelf, Sink};
use invoice_jobs::{Extended, ReadingProfile, Sources, load_extended};
use job_protocol::{Status, take_lists};
use rule_texts::{cii_rules, code_lists_text, ubl_rules};
use std::alloc::{AllocError, Global};

/// The rule file for the documents of a table.
fn rules_text(table: DocumentType) -> &'static str
    ensures { result.now ≡ spec.rules_text table }
{
    match table {
        DocumentType::Invoice | DocumentType::CreditNote => ubl_rules(),
        DocumentType::Cii => cii_rules(),
    }
}

/// The rules for the documents of a table, with what is active by default.
pub(crate) fn built_in_rules(
    alloc: Global,
    table: DocumentType,
) -> Result<Option<Ready>, AllocError>
    ensures rules { IfOk result (λ ready. option_map seen_ready ready ≡ spec.built_in_rules table) }
    ensures ready { IfOk result (λ ready. AreReady ready) }
{
    ready_rules(alloc, rules_text(table).as_bytes())
}

/// Tells that what is built in can't be had.
pub(crate) fn tell_not_built_in<E: Sink>(err: &mut E)
    ensures { TakesOrFails spec.not_built_in.err (E.view err.old) (E.view err.new) }
{
    let mut printer = Printer::new();
    printer.put(err, b"einv: the built-in rules are refused\n");
}

/// The code lists that are built in, or the status with which the job ends.
fn built_in_lists<E: Sink>(alloc: Global, err: &mut E) -> Result<CodeLists, Status>
    ensures lists { IfOk result (λ lists. spec.IsListed lists (E.view err.old) (E.view err.new)) }
    ensures refused { IfErr result (λ status. spec.IsUnlisted status (E.view err.old) (E.view err.new)) }
{
    match CodeLists::from_toml(alloc, code_lists_text().as_bytes()) {
        Ok(lists) => Ok(lists),
        Err(fault) => {
            let status = refuse_built_in(&fault, err);
            drop(fault);
            Err(status)
        }
    }
}

/// The status where the built-in code lists are refused, which is told; want of memory has no line.
fn refuse_built_in<E: Sink>(fault: &ListFault, err: &mut E) -> Status
    ensures { spec.IsListRefusal fault.now result (E.view err.old) (E.view err.new) }
{
    match fault {
        ListFault::Memory => Status::Memory,
        ListFault::NotToml => refuse_told(err),
        ListFault::NotALists(_) => refuse_told(err),
        ListFault::BadCode(_) => refuse_told(err),
    }
}

/// The status of a refusal of what is built in, which is told.
fn refuse_told<E: Sink>(err: &mut E) -> Status
    ensures { (result ≡ statuses.RulesRefused) × TakesOrFails spec.not_built_in.err (E.view err.old) (E.view err.new) }
{
    tell_not_built_in(err);
    Status::RulesRefused
}

/// The code lists of a file, or the built-in ones where none is named; or the status with which the job ends.
fn load_lists<S: Shelf, E: Sink>(
    alloc: Global,
    codes_file: Option<&str>,
    shelf: &mut S,
    err: &mut E,
) -> Result<CodeLists, Status>
    ensures goes_on { IfOk result (λ lists. Continues (spec.listed_protocol (option_map text_of codes_file.entry)) lists
        (S.view shelf.old) (S.view shelf.new) (E.view err.old) (E.view err.new)) }
    ensures fails { IfErr result (λ status. Fails (spec.listed_protocol (option_map text_of codes_file.entry)) status
        (S.view shelf.old) (S.view shelf.new) (E.view err.old) (E.view err.new)) }
{
    match codes_file {
        Some(file) => take_lists(alloc, shelf, file, err),
        None => built_in_lists(alloc, err),
    }
}

/// What a document is validated by: the code lists, and the tables with the extension terms; or the status with which the job
/// ends.
pub(crate) fn load_given<S: Shelf, E: Sink>(
    alloc: Global,
    sources: &Sources<'_>,
    shelf: &mut S,
    err: &mut E,
) -> Result<ReadingProfile, Status>
    ensures tables { IfOk result (λ reading_profile. AreTablesFor reading_profile.extension reading_profile.tables) }
    ensures good { IfOk result (λ reading_profile. AreGood reading_profile.extension) }
    ensures goes_on { IfOk result (λ reading_profile. Continues (spec.given_protocol (sources_of sources.now)) (profile_of reading_profile)
        (S.view shelf.old) (S.view shelf.new) (E.view err.old) (E.view err.new)) }
    ensures fails { IfErr result (λ status. Fails (spec.given_protocol (sources_of sources.now)) status
        (S.view shelf.old) (S.view shelf.new) (E.view err.old) (E.view err.new)) }
{
    let lists = match load_lists(alloc, sources.codes_file, shelf, err) {
        Ok(lists) => lists,
        Err(status) => return Err(status),
    };
    match load_extended(alloc, sources.extension_file, shelf, err) {
        Ok(Extended { extension, tables }) => Ok(ReadingProfile {
            lists,
            extension,
            tables,
        }),
        Err(status) => {
            drop(lists);
            Err(status)
        }
    }
}
