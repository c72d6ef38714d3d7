//! A rule file of a job with the parts that it takes of other files. Where it can't be had, its line is told and the
//! status answered.
ghost use Rattle.std.specs.Prelude.{◌≡◌, IfOk, IfErr};
ghost use Rattle.job_protocol.specs.Libraries.{library_protocol, is_unread, IsRefusedFile, IsLoadRefusal};
ghost use Rattle.job_protocol.specs.Runs.{Continues, Fails};

use crate::status::Status;
use crate::telling::{tell_load_fault, tell_read_fault};
use bumpalo::Bump;
use inv_base::{Place, Shelf, Sink};
use rule_library::{Library, LoadFault, LoadKind, load};
use std::alloc::Global;

/// The rule file of that name with the parts that it takes of other files, or the status with which the job ends.
pub fn load_library<'a, S: Shelf, E: Sink>(
    alloc: Global,
    bump: &'a Bump,
    shelf: &mut S,
    name: &str,
    err: &mut E,
) -> Result<Library<'a>, Status>
    ensures goes_on { IfOk result (λ library. Continues (library_protocol name.now) library
        (S.view shelf.old) (S.view shelf.new) (E.view err.old) (E.view err.new)) }
    ensures fails { IfErr result (λ status. Fails (library_protocol name.now) status
        (S.view shelf.old) (S.view shelf.new) (E.view err.old) (E.view err.new)) }
{
    match load(alloc, bump, shelf, name) {
        Ok(library) => Ok(library),
        Err(fault) => {
            let status = refuse_library(&fault, err);
            drop(fault);
            Err(status)
        }
    }
}

/// The status with which a job ends whose rule file can't be had with its parts; its line is told.
fn refuse_library<E: Sink>(fault: &LoadFault, err: &mut E) -> Status
    ensures { IsLoadRefusal fault.now.file fault.now result (E.view err.old) (E.view err.new) }
{
    match &fault.file {
        None => Status::Memory,
        Some(file) => refuse_file(file.as_str(), fault.kind, fault.place, err),
    }
}

/// The status of a fault of a file; its line is told.
fn refuse_file<E: Sink>(file: &str, kind: LoadKind, place: Place, err: &mut E) -> Status
    ensures { IsRefusedFile (is_unread kind) (record { kind = kind; file = file.now; place = place.byte }) result (E.view err.old) (E.view err.new) }
{
    if is_unread(kind) {
        tell_read_fault(file, err);
        return Status::ReadFault;
    }
    tell_load_fault(file, kind, place, err);
    Status::RulesRefused
}

fn is_unread(kind: LoadKind) -> bool
    ensures { result ≡ is_unread kind }
{
    match kind {
        LoadKind::Read => true,
        _ => false,
    }
}
