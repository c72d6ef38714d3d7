//! Loading a rule file with its parts.
ghost use Rattle.std.specs.Prelude.{◌≡◌, ℕ, ◌≤◌, map, length, IfOk, IfErr, OnOk};
ghost use Rattle.rule_library.specs.Faults.{Fails};
ghost use Rattle.rule_library.specs.Library.{Loads, named, held_of};
ghost use Rattle.rule_library.specs.Reading.{IsReadAt};
ghost use Rattle.rule_library.specs.Turns.{state_of, rest_of, Stands, Begins};
ghost use Rattle.rule_library.specs.Walk as spec;
ghost use Rattle.rule_library.specs.Whole.{AreDocuments, TellsDocument};

use crate::faults::{LoadFault, want_of_memory};
use crate::files::{File, Named, read_file};
use crate::joining::Joined;
use crate::library::Library;
use crate::walk::{Frame, Walk, go_over};
use bumpalo::Bump;
use inv_base::Shelf;
use node_arena::events_build_the_nodes_of_their_tree;
use std::alloc::{AllocError, Global};
use xml_laws::read_tells_its_tree;

/// The rule file of that name with the parts that it takes of other files, its texts placed in the arena. A file is
/// opened when an element first asks for it, in document order, depth first.
pub fn load<'a, S: Shelf>(
    alloc: Global,
    bump: &'a Bump,
    shelf: &mut S,
    name: &str,
) -> Result<Library<'a>, LoadFault>
    ensures loaded { IfOk result (λ library. Loads (spec.library name.now) library (S.view shelf.old) (S.view shelf.new)) }
    ensures fails { IfErr result (λ fault. Fails (spec.library name.now) fault (S.view shelf.old) (S.view shelf.new)) }
{
    // A law, which has no code.
    files_are_documents();
    let file = match read_file(alloc, bump, shelf, name, 0) {
        Ok(file) => file,
        Err(fault) => return Err(fault),
    };
    let mut walk = match begin(alloc, bump, file) {
        Ok(walk) => walk,
        Err(_) => return Err(want_of_memory()),
    };
    match go_over(alloc, bump, shelf, &mut walk) {
        Ok(()) => match finished(alloc, walk) {
            Ok(library) => Ok(library),
            Err(_) => Err(want_of_memory()),
        },
        Err(fault) => {
            drop(walk);
            Err(fault)
        }
    }
}

/// A walk at the first node of a file.
fn begin<'a>(alloc: Global, bump: &'a Bump, file: File<'a>) -> Result<Walk<'a>, AllocError>
    ensures begins { IfOk result (λ walk. Begins file.entry walk) }
    ensures stands { IfOk result (λ walk. Stands walk) }
{
    let joined = match Joined::new(alloc, bump) {
        Ok(joined) => joined,
        Err(error) => {
            drop(file);
            return Err(error);
        }
    };
    let length = file.length();
    let at = file.doc().document();
    let mut walk = Walk {
        files: Vec::new(alloc),
        length,
        top: Frame {
            file: 0,
            bare: false,
            base: 1,
            at: Some(at),
        },
        outer: Vec::new(alloc),
        joined,
        parts: 0,
    };
    match walk.files.push(file) {
        Ok(()) => Ok(walk),
        Err(failed) => {
            drop(failed);
            drop(walk);
            Err(AllocError)
        }
    }
}

/// Each file that is read is a document of a tree: laws of the crates below, which have no code, in one.
fn files_are_documents()
    ensures { AreDocuments }
{
    read_tells_its_tree();
    events_build_the_nodes_of_their_tree();
}

/// What was joined.
fn finished<'a>(alloc: Global, walk: Walk<'a>) -> Result<Library<'a>, AllocError>
    requires stands { Stands walk }
    requires whole { TellsDocument walk.joined }
    ensures { IfOk result (λ library. library ≡ held_of (state_of walk.entry)) }
{
    let (files, joined) = walk.into_parts();
    let doc = match joined.finish() {
        Ok(doc) => doc,
        Err(error) => {
            drop(files);
            return Err(error);
        }
    };
    match names_of(alloc, files) {
        Ok(names) => Ok(Library::of(doc, names)),
        Err(error) => {
            drop(doc);
            Err(error)
        }
    }
}

/// The files without their documents.
fn names_of(alloc: Global, files: Vec<File<'_>>) -> Result<Vec<Named>, AllocError>
    ensures { IfOk result (λ names. names.items ≡ map named files.entry.items) }
{
    let mut names = Vec::new(alloc);
    'files: for file in files {
        names.push(file.into_named())?;
    }
    Ok(names)
}
