//! The documents of a job. Where one can't be had, its line is told and the status answered.
ghost use Rattle.std.specs.Prelude.{◌≡◌, ℕ, List, option_map, IfOk, IfErr, OnOk};
ghost use Rattle.inv_base.specs.Counts.{next_count};
ghost use Rattle.inv_base.specs.Files.{bytes_under};
ghost use Rattle.inv_base.specs.Outside.{SinkView};
ghost use Rattle.xml_profile.specs.Profile as profile;
ghost use Rattle.xml_document.specs.Loading.{IsLoaded};
ghost use Rattle.job_protocol.specs.Protocol.{Protocol, document_limits, document_protocol, told_protocol};
ghost use Rattle.job_protocol.specs.Documents.{IsPlaced, IsDocumentRefusal};
ghost use Rattle.job_protocol.specs.Outside.{HasRead};
ghost use Rattle.job_protocol.specs.Runs.{Runs};

use crate::status::Status;
use crate::telling::{tell_document_fault, tell_read_fault};
use bumpalo::Bump;
use inv_base::{Shelf, Sink};
use line_places::LineStarts;
use node_arena::Doc;
use std::alloc::Global;
use xml_document::{LoadFault, load, load_giving};
use xml_state::DOCUMENT_LIMITS;

/// A document, and where the lines of its file start.
pub struct Placed<'a> {
    /// The document.
    pub doc: Doc<'a>,
    /// The lines of its file.
    pub lines: LineStarts,
}

impl Drop for Placed<'_> {
    fn drop(self) {
        let Placed { doc, lines } = self;
        drop(doc);
        drop(lines);
    }
}

/// The file of that name as a document under the limits of documents, or the status with which the job ends.
pub fn load_document<'a, S: Shelf, E: Sink>(
    alloc: Global,
    bump: &'a Bump,
    shelf: &mut S,
    name: &str,
    err: &mut E,
) -> Result<Doc<'a>, Status>
    ensures loaded { IfOk result (λ doc. IsLoaded document_limits (option_map (bytes_under name.now) (S.view shelf.old).held) doc) }
    ensures opens { (S.view shelf.new).opens ≡ next_count (S.view shelf.old).opens }
    ensures read { OnOk result (HasRead 1 (S.view shelf.old) (S.view shelf.new)) }
    ensures quiet { OnOk result (E.view err.new ≡ E.view err.old) }
    ensures failed { IfErr result (λ status. (next : profile.Document → Protocol) (out : SinkView) → Runs (document_protocol name.now next)
        (record { shelf = S.view shelf.old; out = out; err = E.view err.old })
        (record { shelf = S.view shelf.new; out = out; err = E.view err.new }) status) }
{
    match load(alloc, bump, shelf, name, DOCUMENT_LIMITS) {
        Ok(doc) => Ok(doc),
        Err(fault) => Err(refuse_document(name, fault, err)),
    }
}

/// The same, with the lines of the file, by which places in it can be told.
pub fn load_placed<'a, S: Shelf, E: Sink>(
    alloc: Global,
    bump: &'a Bump,
    shelf: &mut S,
    name: &str,
    err: &mut E,
) -> Result<Placed<'a>, Status>
    ensures loaded { IfOk result (λ placed. IsPlaced (option_map (bytes_under name.now) (S.view shelf.old).held) placed.doc placed.lines) }
    ensures opens { (S.view shelf.new).opens ≡ next_count (S.view shelf.old).opens }
    ensures read { OnOk result (HasRead 1 (S.view shelf.old) (S.view shelf.new)) }
    ensures quiet { OnOk result (E.view err.new ≡ E.view err.old) }
    ensures failed { IfErr result (λ status. (next : List ℕ → profile.Document → Protocol) (out : SinkView) → Runs (told_protocol name.now next)
        (record { shelf = S.view shelf.old; out = out; err = E.view err.old })
        (record { shelf = S.view shelf.new; out = out; err = E.view err.new }) status) }
{
    let mut lines = LineStarts::new(alloc);
    match load_giving(alloc, bump, shelf, name, DOCUMENT_LIMITS, &mut lines) {
        Ok(loaded) => Ok(Placed {
            doc: loaded.doc,
            lines,
        }),
        Err(fault) => {
            drop(lines);
            Err(refuse_document(name, fault, err))
        }
    }
}

/// The status with which a job ends whose document can't be had; its line is told.
fn refuse_document<E: Sink>(name: &str, fault: LoadFault, err: &mut E) -> Status
    ensures { IsDocumentRefusal fault name.now result (E.view err.old) (E.view err.new) }
{
    match fault {
        LoadFault::Read => {
            tell_read_fault(name, err);
            Status::ReadFault
        }
        LoadFault::Refused(fault) => {
            tell_document_fault(name, &fault, err);
            Status::DocumentRefused
        }
        LoadFault::Memory => Status::Memory,
    }
}
