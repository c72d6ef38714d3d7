//! The job that writes the outline of a document.
ghost use Rattle.std.specs.Prelude.{◌≡◌};
ghost use Rattle.inv_base.specs.Counts.{next_count};
ghost use Rattle.job_protocol.specs.Runs.{Runs};
ghost use Rattle.document_jobs.specs.Outline.{outline_protocol};

use crate::printing::print_outline;
use bumpalo::Bump;
use inv_base::{Shelf, Sink};
use job_protocol::{Status, load_document};
use std::alloc::Global;

/// Writes the outline of a document.
pub fn outline<S: Shelf, O: Sink, E: Sink>(
    alloc: Global,
    file: &str,
    shelf: &mut S,
    out: &mut O,
    err: &mut E,
) -> Status
    ensures runs { Runs (outline_protocol file.now)
        (record { shelf = S.view shelf.old; out = O.view out.old; err = E.view err.old })
        (record { shelf = S.view shelf.new; out = O.view out.new; err = E.view err.new }) result }
    ensures opens { (S.view shelf.new).opens ≡ next_count (S.view shelf.old).opens }
{
    let bump = Bump::new(alloc);
    let doc = match load_document(alloc, &bump, shelf, file, err) {
        Ok(doc) => doc,
        Err(status) => return status,
    };
    if print_outline(&doc, out) {
        Status::WriteFault
    } else {
        Status::Done
    }
}
