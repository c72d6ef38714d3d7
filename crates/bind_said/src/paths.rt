//! The path of a row with its names as a document has them.

ghost use Rattle.std.specs.Prelude.{◌≡◌, is_some, map, IfOk};
ghost use Rattle.std.specs.List.{list_all};
ghost use Rattle.bind_said.specs.Saying as spec;

use bind_rows::{Many, Step};
use bind_walk::{FoundGuard, element_number, find_guards};
use node_arena::Doc;
use std::alloc::{AllocError, Global};

/// An element on the path of a row, with its names as the document has them.
pub(crate) struct FoundStep {
    pub(crate) name: Option<u32>,
    pub(crate) guards: Many<FoundGuard>,
}

impl Drop for FoundStep {
    fn drop(self) {
        let FoundStep { name: _, guards } = self;
        drop(guards);
    }
}

pub(crate) fn find_steps(
    alloc: Global,
    doc: &Doc<'_>,
    path: &[Step],
) -> Result<Vec<FoundStep>, AllocError>
    ensures { IfOk result (λ found. found.items ≡ map (spec.found_step doc.now) path.now) }
{
    let mut found = Vec::new(alloc);
    'path: for step in path {
        found.push(find_step(alloc, doc, step)?)?;
    }
    Ok(found)
}

fn find_step(alloc: Global, doc: &Doc<'_>, step: &Step) -> Result<FoundStep, AllocError>
    ensures { IfOk result (λ found. found ≡ spec.found_step doc.now step.now) }
{
    Ok(FoundStep {
        name: element_number(alloc, doc, &step.name)?,
        guards: find_guards(alloc, doc, step.guards.as_slice())?,
    })
}

/// Whether the document has the names of all elements on the path.
pub(crate) fn are_named(path: &[FoundStep]) -> bool
    ensures { result ≡ list_all spec.is_named path.now }
{
    'path: for step in path {
        if !is_named(step) {
            return false;
        }
    }
    true
}

fn is_named(step: &FoundStep) -> bool
    ensures { result ≡ spec.is_named step.now }
{
    step.name.is_some()
}
