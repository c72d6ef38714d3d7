//! The files of a job that are taken whole: files of code lists, and others as large. Where one can't be had, its line is
//! told and the status answered.
ghost use Rattle.std.specs.Prelude.{◌≡◌, option_map, IfOk, IfErr, OnOk, Ok};
ghost use Rattle.inv_base.specs.Counts.{next_count};
ghost use Rattle.inv_base.specs.Files.{bytes_under};
ghost use Rattle.inv_base.specs.Outside.{SinkView};
ghost use Rattle.code_lists.specs.CodeFiles.{Lists};
ghost use Rattle.xml_document.specs.Whole.{IsReadWhole};
ghost use Rattle.job_protocol.specs.Protocol.{Protocol, list_limit, taken_protocol, lists_protocol};
ghost use Rattle.job_protocol.specs.Lines.{list_line};
ghost use Rattle.job_protocol.specs.Outside.{HasRead, TakesOrFails};
ghost use Rattle.job_protocol.specs.declared.status.Status.TheVariants as statuses;
ghost use Rattle.job_protocol.specs.Runs.{Runs, Continues, Fails, AreListed, IsListRefusal};

use crate::status::Status;
use crate::telling::{tell_list_fault, tell_read_fault, tell_too_long};
use code_lists::{CodeLists, ListFault};
use inv_base::{Shelf, Sink};
use std::alloc::Global;
use xml_document::{WholeFault, read_whole};

/// How many bytes a file of code lists may have.
const LIST_LIMIT: usize = 4_194_304;

/// The bytes of the file of that name, as large as a file of code lists may be, or the status with which the job ends.
pub fn take_file<S: Shelf, E: Sink>(
    alloc: Global,
    shelf: &mut S,
    name: &str,
    err: &mut E,
) -> Result<Vec<u8>, Status>
    ensures taken { IfOk result (λ bytes. IsReadWhole list_limit (option_map (bytes_under name.now) (S.view shelf.old).held) bytes.items) }
    ensures opens { (S.view shelf.new).opens ≡ next_count (S.view shelf.old).opens }
    ensures read { OnOk result (HasRead 1 (S.view shelf.old) (S.view shelf.new)) }
    ensures quiet { OnOk result (E.view err.new ≡ E.view err.old) }
    ensures goes_on { IfOk result (λ bytes. Continues (taken_protocol name.now) bytes.items
        (S.view shelf.old) (S.view shelf.new) (E.view err.old) (E.view err.new)) }
    ensures fails { IfErr result (λ status. Fails (taken_protocol name.now) status
        (S.view shelf.old) (S.view shelf.new) (E.view err.old) (E.view err.new)) }
{
    match read_whole(alloc, shelf, name, LIST_LIMIT) {
        Ok(bytes) => Ok(bytes),
        Err(WholeFault::Read) => {
            tell_read_fault(name, err);
            Err(Status::ReadFault)
        }
        Err(WholeFault::TooLong) => {
            tell_too_long(name, err);
            Err(Status::RulesRefused)
        }
        Err(WholeFault::Memory) => Err(Status::Memory),
    }
}

/// The code lists of the file of that name, or the status with which the job ends.
pub fn take_lists<S: Shelf, E: Sink>(
    alloc: Global,
    shelf: &mut S,
    name: &str,
    err: &mut E,
) -> Result<CodeLists, Status>
    ensures listed { IfOk result (λ lists. AreListed (S.view shelf.old).held name.now lists) }
    ensures opens { (S.view shelf.new).opens ≡ next_count (S.view shelf.old).opens }
    ensures read { OnOk result (HasRead 1 (S.view shelf.old) (S.view shelf.new)) }
    ensures quiet { OnOk result (E.view err.new ≡ E.view err.old) }
    ensures failed { IfErr result (λ status. (next : Lists → Protocol) (out : SinkView) → Runs (lists_protocol name.now next)
        (record { shelf = S.view shelf.old; out = out; err = E.view err.old })
        (record { shelf = S.view shelf.new; out = out; err = E.view err.new }) status) }
{
    let bytes = match take_file(alloc, shelf, name, err) {
        Ok(bytes) => bytes,
        Err(status) => return Err(status),
    };
    let found = CodeLists::from_toml(alloc, bytes.as_slice());
    drop(bytes);
    match found {
        Ok(lists) => Ok(lists),
        Err(fault) => {
            let status = refuse_lists(name, &fault, err);
            drop(fault);
            Err(status)
        }
    }
}

/// The status with which a job ends whose file of code lists is refused; its line is told.
fn refuse_lists<E: Sink>(name: &str, fault: &ListFault, err: &mut E) -> Status
    ensures { IsListRefusal fault.now name.now result (E.view err.old) (E.view err.new) }
{
    match fault {
        ListFault::Memory => Status::Memory,
        ListFault::NotToml => tell_refusal(name, fault, err),
        ListFault::NotALists(_) => tell_refusal(name, fault, err),
        ListFault::BadCode(_) => tell_refusal(name, fault, err),
    }
}

/// The status of a fault that is told.
fn tell_refusal<E: Sink>(name: &str, fault: &ListFault, err: &mut E) -> Status
    ensures { (result ≡ statuses.RulesRefused) × TakesOrFails (list_line name.now fault.now) (E.view err.old) (E.view err.new) }
{
    tell_list_fault(name, fault, err);
    Status::RulesRefused
}
