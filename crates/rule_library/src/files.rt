//! Files that were read.
ghost use Rattle.std.specs.Prelude.{◌≡◌, ℕ, ◌+◌, ◌<◌, length, option_map, bytes_eq, IfOk, IfErr};
ghost use Rattle.std.specs.Option.{ForSome};
ghost use Rattle.xml_profile.specs.Profile as profile;
ghost use Rattle.rule_library.specs.Faults.{Fails, want_of_memory};
ghost use Rattle.rule_library.specs.Readings.{Readings, reads, file_at};
ghost use Rattle.rule_library.specs.Walk.{file_of};
ghost use Rattle.rule_library.specs.Library.{named};
ghost use Rattle.rule_library.specs.Reading.{IsReadAt};

use crate::faults::{LoadFault, fault_of_file, want_of_memory};
use bumpalo::Bump;
use inv_base::Shelf;
use node_arena::Doc;
use std::alloc::Global;
use std::marker::Model;
use xml_document::load_sized;
use xml_state::RULE_LIMITS;

/// A file by its name, with how many bytes it has.
pub(crate) struct Named {
    name: String,
    bytes: u64,
}

impl Drop for Named {
    fn drop(self) {
        let Named { name, bytes: _ } = self;
        drop(name);
    }
}

impl Model for Named {
    ghost use Rattle.std.specs.Prelude.{string_bytes};
    ghost use Rattle.rule_library.specs.Library.{Named};

    ghost Value = { Named };

    ghost view = { λ n. record { name = string_bytes n.name; length = n.bytes } };
}

impl Named {
    pub(crate) fn name(&self) -> &str
        ensures { result.now ≡ self.now.name }
    {
        self.name.as_str()
    }

    pub(crate) fn length(&self) -> u64
        ensures { result ≡ self.now.length }
    {
        self.bytes
    }
}

/// A file that was read.
pub(crate) struct File<'a> {
    name: String,
    bytes: u64,
    // How many bytes the files have that were read before it.
    start: u64,
    doc: Doc<'a>,
}

impl Drop for File<'_> {
    fn drop(self) {
        let File {
            name,
            bytes: _,
            start: _,
            doc,
        } = self;
        drop(name);
        drop(doc);
    }
}

impl<'a> Model for File<'a> {
    ghost use Rattle.std.specs.Prelude.{string_bytes};
    ghost use Rattle.rule_library.specs.Readings.{File};

    ghost Value = { File };

    ghost view = { λ f. record { name = string_bytes f.name; length = f.bytes; start = f.start; document = f.doc } };
}

impl<'a> File<'a> {
    pub(crate) fn name(&self) -> &str
        ensures { result.now ≡ self.now.name }
    {
        self.name.as_str()
    }

    pub(crate) fn length(&self) -> u64
        ensures { result ≡ self.now.length }
    {
        self.bytes
    }

    pub(crate) fn start(&self) -> u64
        ensures { result ≡ self.now.start }
    {
        self.start
    }

    /// The file without its document.
    pub(crate) fn into_named(self) -> Named
        ensures { result ≡ named self.entry }
    {
        let File {
            name,
            bytes,
            start: _,
            doc,
        } = self;
        drop(doc);
        Named { name, bytes }
    }

    pub(crate) fn doc(&self) -> &Doc<'a>
        ensures { result.now ≡ self.now.document }
    {
        &self.doc
    }
}

/// The file of that name, behind so many bytes of others.
pub(crate) fn read_file<'a, S: Shelf>(
    alloc: Global,
    bump: &'a Bump,
    shelf: &mut S,
    name: &str,
    start: u64,
) -> Result<File<'a>, LoadFault>
    ensures read { IfOk result (λ file. IsReadAt name.now start file (S.view shelf.old) (S.view shelf.new)) }
    ensures fails { IfErr result (λ fault. (next : ℕ → profile.Document → Readings) → Fails (reads name.now next) fault (S.view shelf.old) (S.view shelf.new)) }
{
    let copied = match String::from_str(alloc, name) {
        Ok(copied) => copied,
        Err(_) => return Err(want_of_memory()),
    };
    match load_sized(alloc, bump, shelf, name, RULE_LIMITS) {
        Ok(loaded) => Ok(File {
            name: copied,
            bytes: loaded.length,
            start,
            doc: loaded.doc,
        }),
        Err(fault) => {
            drop(copied);
            Err(fault_of_file(alloc, name, fault))
        }
    }
}

/// The file of that number.
pub(crate) fn file_in<'f, 'a>(files: &'f [File<'a>], k: usize) -> &'f File<'a>
    requires { k < length files.now }
    ensures { result.now ≡ file_at k files.now }
{
    &files[k]
}

/// Whether a file has that name.
pub(crate) fn has_name(file: &File<'_>, name: &str) -> bool
    ensures { result ≡ bytes_eq file.now.name name.now }
{
    file.name() == name
}

/// The first file of that name.
pub(crate) fn find(files: &[File<'_>], name: &str) -> Option<usize>
    ensures file { option_map (λ k. file_at k files.now) result ≡ file_of name.now files.now }
    ensures within { ForSome result (λ k. k < length files.now) }
{
    'files: for (k, file) in files.iter().enumerate() {
        if has_name(file, name) {
            return Some(k);
        }
    }
    None
}
