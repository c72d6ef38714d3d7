//! The walk over a rule file and the parts that it takes.
ghost use Rattle.std.specs.Prelude.{◌≡◌, ℕ, ◌+◌, ◌-◌, ◌<◌, ◌∷◌, length, drop, chars, option_map, Some, Ok, IfOk, IfErr, OnOk};
ghost use Rattle.std.specs.Option.{ForSome};
ghost use Rattle.xml_events.specs.Events.{name_at};
ghost use Rattle.node_arena.specs.Document.{node_at};
ghost use Rattle.rule_library.specs.Faults.{Fails, TellsOf, want_of_memory};
ghost use Rattle.rule_library.specs.Readings.{file_at, gives};
ghost use Rattle.rule_library.specs.Requests.{asked_by};
ghost use Rattle.rule_library.specs.Leads.{Reaches};
ghost use Rattle.rule_library.specs.Turns as spec;
ghost use Rattle.rule_library.specs.Turns.{state_of, rest_of, Stands, StandsAt, Refuses, Turns};
ghost use Rattle.rule_library.specs.Walk.{around, is_left_out};
ghost use Rattle.rule_library.specs.Asked.{stays};
ghost use Rattle.inv_base.specs.declared.tree.Kind.TheVariants as nodes_are;

use crate::asking::{Request, request_of};
use crate::faults::{LoadFault, LoadKind, fault_at, want_of_memory};
use crate::files::{File, file_in};
use crate::joining::Joined;
use crate::moves::{level_of, next_of};
use crate::parts::{Wanted, put_part};
use bumpalo::Bump;
use inv_base::{Kind, Place, Shelf};
use node_arena::{Doc, NodeId};
use std::alloc::{AllocError, Global};

/// A file that is gone over.
#[derive(Clone, Copy)]
pub(crate) struct Frame {
    /// Which one.
    pub(crate) file: usize,
    /// Whether its root is left out.
    pub(crate) bare: bool,
    /// How many nodes are open around it.
    pub(crate) base: usize,
    /// Where the walk stands in it, unless it is behind the last node.
    pub(crate) at: Option<NodeId>,
}

/// A walk over files inside one another.
pub(crate) struct Walk<'a> {
    /// The files that were read.
    pub(crate) files: Vec<File<'a>>,
    /// How many bytes they have together.
    pub(crate) length: u64,
    /// The file that is gone over.
    pub(crate) top: Frame,
    /// Those that it is being put in, the outermost first.
    pub(crate) outer: Vec<Frame>,
    /// What is joined so far.
    pub(crate) joined: Joined<'a>,
    /// How many parts were put in.
    pub(crate) parts: u32,
}

impl Drop for Walk<'_> {
    fn drop(self) {
        let Walk {
            files,
            length: _,
            top: _,
            outer,
            joined,
            parts: _,
        } = self;
        drop(files);
        drop(outer);
        drop(joined);
    }
}

impl<'a> Walk<'a> {
    /// The files, and what is joined.
    pub(crate) fn into_parts(self) -> (Vec<File<'a>>, Joined<'a>)
        ensures files { result.0.items ≡ self.entry.files.items }
        ensures joined { result.1 ≡ self.entry.joined }
    {
        let Walk {
            files,
            length: _,
            top: _,
            outer,
            joined,
            parts: _,
        } = self;
        drop(outer);
        (files, joined)
    }
}

/// What a turn leaves.
#[derive(Clone, Copy)]
pub(crate) enum Turn {
    /// The walk goes on.
    Goes,
    /// All is joined.
    Done,
}

/// The file that is gone over.
pub(crate) fn top_file<'w, 'a>(walk: &'w Walk<'a>) -> &'w File<'a>
    requires { walk.now.top.file < length walk.now.files.items }
    ensures { result.now ≡ file_at walk.now.top.file walk.now.files.items }
{
    file_in(walk.files.as_slice(), walk.top.file)
}

/// Its document.
pub(crate) fn top_doc<'w, 'a>(walk: &'w Walk<'a>) -> &'w Doc<'a>
    requires { walk.now.top.file < length walk.now.files.items }
    ensures { result.now ≡ (file_at walk.now.top.file walk.now.files.items).document }
{
    top_file(walk).doc()
}

/// A fault at a node of the file that is gone over.
pub(crate) fn fault_in(alloc: Global, walk: &Walk<'_>, n: NodeId, kind: LoadKind) -> LoadFault
    requires { StandsAt walk.now n }
    ensures { TellsOf result (spec.fault_at walk.now n kind) }
{
    fault_at(alloc, kind, top_file(walk).name(), top_doc(walk).place(n))
}

/// Closes what isn't around a node.
fn close(walk: &mut Walk<'_>, n: NodeId) -> Result<(), AllocError>
    requires { StandsAt walk.old n }
    ensures closed { OnOk result (spec.node_rest walk.new n ≡ rest_of walk.old) }
    ensures stands { OnOk result (StandsAt walk.new n) }
    ensures nodes { OnOk result (spec.node_in (spec.top_of walk.new) n ≡ spec.node_in (spec.top_of walk.old) n) }
{
    let level = level_of(top_doc(walk), n);
    let count = open_around(walk.top.base, walk.top.bare, level)?;
    walk.joined.close_to(count)
}

/// How many nodes are open around a node of that level.
fn open_around(base: usize, bare: bool, level: usize) -> Result<usize, AllocError>
    ensures { IfOk result (λ n. n ≡ base + (level - around bare)) }
{
    let out = if bare { 2 } else { 1 };
    match base.checked_add(level.saturating_sub(out)) {
        Some(n) => Ok(n),
        None => Err(AllocError),
    }
}

/// What a node of the file that is gone over is.
fn kind_in(walk: &Walk<'_>, n: NodeId) -> Kind
    requires { StandsAt walk.now n }
    ensures { result ≡ (spec.node_in (spec.top_of walk.now) n).kind }
{
    top_doc(walk).kind(n)
}

/// Where a node of the file that is gone over stands among all files.
fn place_in(walk: &Walk<'_>, n: NodeId) -> Result<Place, AllocError>
    requires { StandsAt walk.now n }
    ensures { IfOk result (λ place. place.byte ≡ (spec.node_in (spec.top_of walk.now) n).place + (spec.top_of walk.now).way.file.start) }
{
    match top_doc(walk)
        .place(n)
        .byte
        .checked_add(top_file(walk).start())
    {
        Some(byte) => Ok(Place { byte }),
        None => Err(AllocError),
    }
}

/// Goes on behind a node.
fn pass(walk: &mut Walk<'_>, n: NodeId)
    requires { StandsAt walk.old n }
    ensures passed { rest_of walk.new ≡ spec.passed walk.old n }
    ensures stands { Stands walk.new }
{
    let at = next_of(top_doc(walk), n);
    walk.top.at = at;
}

/// Whether the file that is gone over is a part.
fn is_part(walk: &Walk<'_>) -> bool
    ensures { result ≡ spec.is_part (spec.outer_of walk.now) }
{
    !walk.outer.as_slice().is_empty()
}

/// Goes on behind a node that was put in, unless it passes a limit.
fn settle(alloc: Global, walk: &mut Walk<'_>, n: NodeId) -> Result<(), LoadFault>
    requires { StandsAt walk.old n }
    ensures goes { OnOk result (rest_of walk.new ≡ spec.settled walk.old n) }
    ensures stands { OnOk result (Stands walk.new) }
    ensures fails { IfErr result (Refuses (spec.settled walk.old n)) }
{
    let is_part = is_part(walk);
    match walk.joined.passed_limit(is_part) {
        Some(kind) => Err(fault_in(alloc, walk, n, kind)),
        None => {
            pass(walk, n);
            Ok(())
        }
    }
}

/// Puts a text in.
fn put_text(alloc: Global, walk: &mut Walk<'_>, n: NodeId) -> Result<(), LoadFault>
    requires at { StandsAt walk.old n }
    requires text { (spec.node_in (spec.top_of walk.old) n).kind ≡ nodes_are.Text }
    ensures goes { OnOk result (rest_of walk.new ≡ spec.node_rest walk.old n) }
    ensures stands { OnOk result (Stands walk.new) }
    ensures fails { IfErr result (Refuses (spec.node_rest walk.old n)) }
{
    let place = match place_in(walk, n) {
        Ok(place) => place,
        Err(_) => return Err(want_of_memory()),
    };
    let text = top_doc(walk).text(n);
    match walk.joined.put_text(text, place) {
        Ok(()) => settle(alloc, walk, n),
        Err(_) => Err(want_of_memory()),
    }
}

/// Whether a node of the file that is gone over is a root that is left out.
fn is_left_out(walk: &Walk<'_>, n: NodeId) -> bool
    requires { StandsAt walk.now n }
    ensures { result ≡ is_left_out (spec.top_of walk.now).way (spec.node_in (spec.top_of walk.now) n) }
{
    walk.top.bare && level_of(top_doc(walk), n) == 1
}

/// Puts an element in that stays, with its attributes.
fn put_element(alloc: Global, walk: &mut Walk<'_>, n: NodeId) -> Result<(), LoadFault>
    requires { StandsAt walk.old n }
    ensures goes { OnOk result (rest_of walk.new ≡ spec.asked_rest walk.old n stays) }
    ensures stands { OnOk result (Stands walk.new) }
    ensures fails { IfErr result (Refuses (spec.asked_rest walk.old n stays)) }
{
    if is_left_out(walk, n) {
        pass(walk, n);
        return Ok(());
    }
    let place = match place_in(walk, n) {
        Ok(place) => place,
        Err(_) => return Err(want_of_memory()),
    };
    match walk.joined.put_element(
        file_in(walk.files.as_slice(), walk.top.file).doc(),
        n,
        place,
    ) {
        Ok(()) => settle(alloc, walk, n),
        Err(_) => Err(want_of_memory()),
    }
}

/// What an element of the file that is gone over asks for.
fn request_in<'a>(walk: &Walk<'a>, n: NodeId) -> Request<'a>
    requires at { StandsAt walk.now n }
    requires element { (spec.node_in (spec.top_of walk.now) n).kind ≡ nodes_are.Element }
    ensures { spec.asked_rest walk.now n (asked_by result) ≡ spec.node_rest walk.now n }
{
    request_of(top_doc(walk), n)
}

/// Puts an element in, or what it asks for.
fn put_asked<'a, S: Shelf>(
    alloc: Global,
    bump: &'a Bump,
    shelf: &mut S,
    walk: &mut Walk<'a>,
    n: NodeId,
) -> Result<(), LoadFault>
    requires at { StandsAt walk.old n }
    requires element { (spec.node_in (spec.top_of walk.old) n).kind ≡ nodes_are.Element }
    ensures goes { IfOk result (λ _. Reaches (spec.node_rest walk.old n) (rest_of walk.new) (S.view shelf.old) (S.view shelf.new)) }
    ensures stands { OnOk result (Stands walk.new) }
    ensures fails { IfErr result (λ fault. Fails (spec.node_rest walk.old n) fault (S.view shelf.old) (S.view shelf.new)) }
{
    match request_in(walk, n) {
        Request::Stays => put_element(alloc, walk, n),
        Request::Bad => Err(fault_in(alloc, walk, n, LoadKind::BadHref)),
        Request::RootOf(name) => {
            let wanted = Wanted {
                node: n,
                bare: false,
                name,
            };
            put_part(alloc, bump, shelf, walk, &wanted)
        }
        Request::InsideOf(name) => {
            let wanted = Wanted {
                node: n,
                bare: true,
                name,
            };
            put_part(alloc, bump, shelf, walk, &wanted)
        }
    }
}

/// Puts a node in, or what it asks for.
fn put_node<'a, S: Shelf>(
    alloc: Global,
    bump: &'a Bump,
    shelf: &mut S,
    walk: &mut Walk<'a>,
    n: NodeId,
) -> Result<(), LoadFault>
    requires { StandsAt walk.old n }
    ensures goes { IfOk result (λ _. Reaches (spec.node_rest walk.old n) (rest_of walk.new) (S.view shelf.old) (S.view shelf.new)) }
    ensures stands { OnOk result (Stands walk.new) }
    ensures fails { IfErr result (λ fault. Fails (spec.node_rest walk.old n) fault (S.view shelf.old) (S.view shelf.new)) }
{
    match kind_in(walk, n) {
        Kind::Document | Kind::Attribute => {
            pass(walk, n);
            Ok(())
        }
        Kind::Text => put_text(alloc, walk, n),
        Kind::Element => put_asked(alloc, bump, shelf, walk, n),
    }
}

/// Goes on behind the last node of a file: in the one that it was put in, if it was.
fn leave(walk: &mut Walk<'_>) -> Result<Turn, AllocError>
    requires stands { Stands walk.old }
    requires behind { walk.old.top.at ≡ None }
    ensures turns { IfOk result (λ turn. spec.TurnsTo turn (rest_of walk.old) walk.new) }
    ensures stands { OnOk result (Stands walk.new) }
{
    walk.joined.close_to(walk.top.base)?;
    match walk.outer.pop() {
        Some(frame) => {
            walk.top = frame;
            Ok(Turn::Goes)
        }
        None => Ok(Turn::Done),
    }
}

/// The same, as a turn of the walk.
fn end_file(walk: &mut Walk<'_>) -> Result<Turn, LoadFault>
    requires stands { Stands walk.old }
    requires behind { walk.old.top.at ≡ None }
    ensures turns { IfOk result (λ turn. spec.TurnsTo turn (rest_of walk.old) walk.new) }
    ensures stands { OnOk result (Stands walk.new) }
    ensures fails { IfErr result (Refuses (rest_of walk.old)) }
{
    match leave(walk) {
        Ok(turn) => Ok(turn),
        Err(_) => Err(want_of_memory()),
    }
}

/// Puts a node in, when what isn't around it is closed.
fn take_node<'a, S: Shelf>(
    alloc: Global,
    bump: &'a Bump,
    shelf: &mut S,
    walk: &mut Walk<'a>,
    n: NodeId,
) -> Result<Turn, LoadFault>
    requires { StandsAt walk.old n }
    ensures turns { IfOk result (λ turn. Turns turn (rest_of walk.old) walk.new (S.view shelf.old) (S.view shelf.new)) }
    ensures stands { OnOk result (Stands walk.new) }
    ensures fails { IfErr result (λ fault. Fails (rest_of walk.old) fault (S.view shelf.old) (S.view shelf.new)) }
{
    match close(walk, n) {
        Ok(()) => {}
        Err(_) => return Err(want_of_memory()),
    }
    match put_node(alloc, bump, shelf, walk, n) {
        Ok(()) => Ok(Turn::Goes),
        Err(fault) => Err(fault),
    }
}

/// One turn of the walk.
fn take_turn<'a, S: Shelf>(
    alloc: Global,
    bump: &'a Bump,
    shelf: &mut S,
    walk: &mut Walk<'a>,
) -> Result<Turn, LoadFault>
    requires { Stands walk.old }
    ensures turns { IfOk result (λ turn. Turns turn (rest_of walk.old) walk.new (S.view shelf.old) (S.view shelf.new)) }
    ensures stands { OnOk result (Stands walk.new) }
    ensures fails { IfErr result (λ fault. Fails (rest_of walk.old) fault (S.view shelf.old) (S.view shelf.new)) }
{
    match walk.top.at {
        None => end_file(walk),
        Some(n) => take_node(alloc, bump, shelf, walk, n),
    }
}

/// Goes over all that is to be put in.
pub(crate) fn go_over<'a, S: Shelf>(
    alloc: Global,
    bump: &'a Bump,
    shelf: &mut S,
    walk: &mut Walk<'a>,
) -> Result<(), LoadFault>
    requires { Stands walk.old }
    ensures done { IfOk result (λ _. Reaches (rest_of walk.old) (gives (Ok (state_of walk.new))) (S.view shelf.old) (S.view shelf.new)) }
    ensures stands { OnOk result (Stands walk.new) }
    ensures fails { IfErr result (λ fault. Fails (rest_of walk.old) fault (S.view shelf.old) (S.view shelf.new)) }
{
    'turns: for _ in 0..u64::MAX {
        match take_turn(alloc, bump, shelf, walk) {
            Ok(turn) => match turn {
                Turn::Goes => {}
                Turn::Done => return Ok(()),
            },
            Err(fault) => return Err(fault),
        }
    }
    Err(want_of_memory())
}
