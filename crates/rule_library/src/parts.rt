//! Parts: the files that elements ask for.
ghost use Rattle.std.specs.Prelude.{◌≡◌, ℕ, ◌+◌, ◌<◌, [], length, drop, option_map, nat_le, IfOk, IfErr, OnOk};
ghost use Rattle.std.specs.Option.{ForSome};
ghost use Rattle.xml_events.specs.Events.{name_at};
ghost use Rattle.node_arena.specs.Document.{node_at};
ghost use Rattle.rule_library.specs.Faults.{Fails};
ghost use Rattle.rule_library.specs.Leads.{Reaches};
ghost use Rattle.rule_library.specs.Readings.{file_at};
ghost use Rattle.rule_library.specs.Turns as spec;
ghost use Rattle.rule_library.specs.Turns.{from, rest_of, Stands, StandsAt};
ghost use Rattle.rule_library.specs.Walk as walks;

use crate::faults::{LoadFault, LoadKind, want_of_memory};
use crate::files::{File, file_in, find, has_name, read_file};
use crate::moves::{last_of, next_of, parent_name};
use crate::walk::{Frame, Walk, fault_in, top_doc, top_file};
use bumpalo::Bump;
use inv_base::{Shelf, is_same_text};
use node_arena::{Doc, NodeId, insides_are_intervals};
use std::alloc::{AllocError, Global};
use xml_events::{NameId, NameTable};

/// How many files there may be.
const FILES: usize = 64;

/// How many parts are put in at most: parts that put nothing in could double with each file.
const PARTS: u32 = 4_000_000;

/// A part that an element asks for.
#[derive(Clone, Copy)]
pub(crate) struct Wanted<'n> {
    /// The element.
    pub(crate) node: NodeId,
    /// Whether only what is in the part's root is wanted.
    pub(crate) bare: bool,
    /// The name of the part's file.
    pub(crate) name: &'n str,
}

/// Whether a file of that name is being put in.
fn is_open(walk: &Walk<'_>, name: &str) -> bool
    requires { Stands walk.now }
    ensures { result ≡ walks.is_in name.now (spec.top_of walk.now).way.stack }
{
    has_name(top_file(walk), name) | is_around(walk.files.as_slice(), walk.outer.as_slice(), name)
}

/// Whether one of the frames is of a file of that name.
fn is_around(files: &[File<'_>], frames: &[Frame], name: &str) -> bool
    requires { spec.AreOpen files.now frames.now }
    ensures { result ≡ walks.is_in name.now (spec.stack_of (spec.all_opened files.now [] frames.now)) }
{
    let mut found = false;
    'frames: for frame in frames {
        found = has_name(file_in(files, frame.file), name) | found;
    }
    found
}

/// Whether two names of two documents are the same.
fn are_same(a: &NameTable, n: Option<NameId>, b: &NameTable, m: Option<NameId>) -> bool
    requires first { ForSome n (λ id. id < length a.now) }
    requires second { ForSome m (λ id. id < length b.now) }
    ensures { result ≡ walks.same_names (option_map (name_at a.now) n) (option_map (name_at b.now) m) }
{
    match n {
        None => false,
        Some(n) => match m {
            None => false,
            Some(m) => { is_same_text(a.uri(n), b.uri(m)) && is_same_text(a.local(n), b.local(m)) }
        },
    }
}

/// Whether the root of a part isn't of the parent's name, where only what is in it is wanted.
fn is_unfit(walk: &Walk<'_>, n: NodeId, bare: bool, k: usize) -> bool
    requires at { StandsAt walk.now n }
    requires within { k < length walk.now.files.items }
    ensures { result ≡ walks.is_unfit (spec.asking (spec.top_of walk.now) n bare) (file_at k walk.now.files.items) }
{
    if !bare {
        return false;
    }
    let doc = top_doc(walk);
    !has_root(file_in(walk.files.as_slice(), k).doc(), doc, n)
}

/// Whether the root of a part is of the name of a node's parent.
fn has_root(part: &Doc<'_>, doc: &Doc<'_>, n: NodeId) -> bool
    requires { n < length doc.now.nodes }
    ensures { result ≡ walks.same_names (walks.element_name part.now 1) (walks.parent_name doc.now (node_at doc.now.nodes n)) }
{
    are_same(
        part.names(),
        part.name(part.root()),
        doc.names(),
        parent_name(doc, n),
    )
}

/// A file of that name, read now, behind the others.
fn read_part<'a, S: Shelf>(
    alloc: Global,
    bump: &'a Bump,
    shelf: &mut S,
    walk: &mut Walk<'a>,
    wanted: &Wanted<'_>,
) -> Result<usize, LoadFault>
    requires at { StandsAt walk.old wanted.now.node }
    ensures found { let w = wanted.now in IfOk result (λ k. Reaches (spec.new_rest walk.old w.node w.bare w.name.now) (spec.found_rest walk.new w.node w.bare k)
        (S.view shelf.old) (S.view shelf.new)) }
    ensures at { IfOk result (λ k. StandsAt walk.new wanted.now.node) }
    ensures within { IfOk result (λ k. k < length walk.new.files.items) }
    ensures fails { let w = wanted.now in IfErr result (λ fault. Fails (spec.new_rest walk.old w.node w.bare w.name.now) fault (S.view shelf.old)
        (S.view shelf.new)) }
{
    if has_many(walk) {
        return Err(fault_in(alloc, walk, wanted.node, LoadKind::TooManyFiles));
    }
    let file = match read_file(alloc, bump, shelf, wanted.name, walk.length) {
        Ok(file) => file,
        Err(fault) => return Err(fault),
    };
    match keep(walk, file) {
        Ok(k) => Ok(k),
        Err(_) => Err(want_of_memory()),
    }
}

/// Keeps a file behind the others.
fn keep<'a>(walk: &mut Walk<'a>, file: File<'a>) -> Result<usize, AllocError>
    requires stands { Stands walk.old }
    requires few { length walk.old.files.items < 64 }
    ensures kept { IfOk result (λ k. spec.Keeps k file.entry walk.old walk.new) }
    ensures stands { OnOk result (Stands walk.new) }
{
    let k = walk.files.as_slice().len();
    match walk.length.checked_add(file.length()) {
        Some(length) => {
            walk.files.push(file)?;
            walk.length = length;
            Ok(k)
        }
        None => {
            drop(file);
            Err(AllocError)
        }
    }
}

/// The file of that name, read now if it wasn't before.
fn find_part<'a, S: Shelf>(
    alloc: Global,
    bump: &'a Bump,
    shelf: &mut S,
    walk: &mut Walk<'a>,
    wanted: &Wanted<'_>,
) -> Result<usize, LoadFault>
    requires at { StandsAt walk.old wanted.now.node }
    ensures found { let w = wanted.now in IfOk result
        (λ k. Reaches (spec.other_rest walk.old w.node w.bare w.name.now) (spec.found_rest walk.new w.node w.bare k) (S.view shelf.old) (S.view shelf.new)) }
    ensures at { IfOk result (λ k. StandsAt walk.new wanted.now.node) }
    ensures within { IfOk result (λ k. k < length walk.new.files.items) }
    ensures fails { let w = wanted.now in IfErr result (λ fault. Fails (spec.other_rest walk.old w.node w.bare w.name.now) fault (S.view shelf.old)
        (S.view shelf.new)) }
{
    match find(walk.files.as_slice(), wanted.name) {
        Some(k) => Ok(k),
        None => read_part(alloc, bump, shelf, walk, wanted),
    }
}

/// The node behind all that is inside one.
fn behind(doc: &Doc<'_>, n: NodeId) -> Option<NodeId>
    requires { n < length doc.now.nodes }
    ensures rest { spec.IsBehind doc.now n (from result doc.now.nodes) }
    ensures within { ForSome result (λ m. m < length doc.now.nodes) }
{
    // Laws, which have no code.
    doc.is_of_a_tree();
    insides_are_intervals();
    next_of(doc, last_of(doc, n))
}

/// Whether so many files are inside one another that no other can be.
fn is_full(walk: &Walk<'_>) -> bool
    ensures { result ≡ nat_le 64 (length walk.now.outer.items + 1) }
{
    FILES <= walk.outer.as_slice().len() + 1
}

/// Whether there are so many files that there may be no other.
fn has_many(walk: &Walk<'_>) -> bool
    ensures { result ≡ nat_le 64 (length walk.now.files.items) }
{
    FILES <= walk.files.as_slice().len()
}

/// Goes over a file in the place of a node.
fn enter(walk: &mut Walk<'_>, n: NodeId, bare: bool, k: usize) -> Result<(), AllocError>
    requires at { StandsAt walk.old n }
    requires within { k < length walk.old.files.items }
    ensures goes { OnOk result (rest_of walk.new ≡ spec.fit_rest walk.old n bare k) }
    ensures stands { OnOk result (Stands walk.new) }
{
    if PARTS <= walk.parts {
        return Err(AllocError);
    }
    walk.parts += 1;
    let at = behind(top_doc(walk), n);
    if is_full(walk) {
        walk.top.at = at;
        return Ok(());
    }
    descend(walk, at, bare, k)
}

/// Goes over a file, and then on from that node.
fn descend(walk: &mut Walk<'_>, at: Option<NodeId>, bare: bool, k: usize) -> Result<(), AllocError>
    requires { k < length walk.old.files.items }
    ensures { OnOk result (spec.Descends at bare k walk.old walk.new) }
{
    let start = file_in(walk.files.as_slice(), k).doc().document();
    let base = walk.joined.count_open();
    let around = Frame { at, ..walk.top };
    walk.outer.push(around)?;
    walk.top = Frame {
        file: k,
        bare,
        base,
        at: Some(start),
    };
    Ok(())
}

/// Puts the part of that name in, in the place of a node.
pub(crate) fn put_part<'a, S: Shelf>(
    alloc: Global,
    bump: &'a Bump,
    shelf: &mut S,
    walk: &mut Walk<'a>,
    wanted: &Wanted<'_>,
) -> Result<(), LoadFault>
    requires at { StandsAt walk.old wanted.now.node }
    ensures goes { let w = wanted.now in IfOk result (λ _. Reaches (spec.part_rest walk.old w.node w.bare w.name.now) (rest_of walk.new) (S.view shelf.old)
        (S.view shelf.new)) }
    ensures stands { OnOk result (Stands walk.new) }
    ensures fails { let w = wanted.now in IfErr result (λ fault. Fails (spec.part_rest walk.old w.node w.bare w.name.now) fault (S.view shelf.old)
        (S.view shelf.new)) }
{
    if is_open(walk, wanted.name) {
        return Err(fault_in(alloc, walk, wanted.node, LoadKind::IncludeCycle));
    }
    let k = match find_part(alloc, bump, shelf, walk, wanted) {
        Ok(k) => k,
        Err(fault) => return Err(fault),
    };
    if is_unfit(walk, wanted.node, wanted.bare, k) {
        return Err(fault_in(alloc, walk, wanted.node, LoadKind::NotSame));
    }
    match enter(walk, wanted.node, wanted.bare, k) {
        Ok(()) => Ok(()),
        Err(_) => Err(want_of_memory()),
    }
}
