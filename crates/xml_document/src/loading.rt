//! A file of a shelf as a document.
ghost use Rattle.std.specs.Prelude.{◌≡◌, ◌≢◌, ℕ, ◌+◌, ◌<◌, ◌^◌, List, [], length, option_map, Ok, Err, IfOk};
ghost use Rattle.inv_base.specs.Files.{bytes_under};
ghost use Rattle.node_arena.specs.Document.{built};
ghost use Rattle.node_arena.specs.Moves.{IsWhole, HasNodesOf};
ghost use Rattle.xml_profile.specs.Profile as profile;
ghost use Rattle.xml_profile.specs.Profile.{document, tree_of};
ghost use Rattle.xml_profile.specs.Readers.{HasRead};
ghost use Rattle.xml_state.specs.declared.limits.Limits.{Limits};
ghost use Rattle.xml_tokens.specs.declared.kind.XmlKind.TheVariants as kinds;
ghost use Rattle.xml_document.specs.Loading.{HasFed, IsBuilt, IsLoaded, IsLoadedOf, IsLoadedAndGiven, IsRefused, StopsInTime, ReadsFrom, ReadsOn};
ghost use Rattle.xml_document.specs.declared.loading.LoadFault.TheVariants as faults;

use bumpalo::Bump;
use inv_base::Shelf;
use line_places::{ByteReceiver, Unheeded};
use node_arena::{
    Builder, Doc, events_build_a_whole_document, events_build_the_nodes_of_their_tree,
};
use std::alloc::{AllocError, AllocFailed, Global};
use xml_events::Events;
use xml_laws::read_tells_its_tree;
use xml_profile::{Reader, settled_is_first, settled_stays};
use xml_state::{Limits, XmlFault};
use xml_tokens::XmlKind;

/// How many bytes are read at a time.
const PIECE: usize = 65_536;

/// Why a file can't be had as a document.
#[derive(Debug, Drop)]
pub enum LoadFault {
    /// The file couldn't be opened, or a read failed.
    Read,
    /// The file is no document under the limits, for this first fault.
    Refused(XmlFault),
    /// Memory ran out.
    Memory,
}

impl From<AllocError> for LoadFault {
    ghost from_gives = { λ _ fault. fault ≡ faults.Memory };

    fn from(_error: AllocError) -> LoadFault {
        LoadFault::Memory
    }
}

impl<T: Drop> From<AllocFailed<T>> for LoadFault {
    ghost from_gives = { λ _ fault. fault ≡ faults.Memory };

    fn from(_error: AllocFailed<T>) -> LoadFault {
        LoadFault::Memory
    }
}

/// A document, and how many bytes its file has.
#[derive(Drop)]
pub struct Loaded<'a> {
    /// The document.
    pub doc: Doc<'a>,
    /// The length of the file, in bytes.
    pub length: u64,
}

/// The file of that name as a document under these limits, its texts placed in the arena. The file is
/// opened once and read in pieces, up to the piece that settles its first fault.
pub fn load<'a, S: Shelf>(
    alloc: Global,
    bump: &'a Bump,
    shelf: &mut S,
    name: &str,
    limits: Limits,
) -> Result<Doc<'a>, LoadFault>
    ensures reads { ReadsFrom result faults.Read (S.view shelf.old) (S.view shelf.new) }
    ensures loaded { IfOk result (λ doc. IsLoaded limits (option_map (bytes_under name.now) (S.view shelf.old).held) doc) }
    ensures refused { (fault : _) → result ≡ Err (faults.Refused fault)
        → IsRefused limits (option_map (bytes_under name.now) (S.view shelf.old).held) fault }
    ensures stops { (fault : _) → result ≡ Err (faults.Refused fault)
        → StopsInTime limits (option_map (bytes_under name.now) (S.view shelf.old).held) (S.view shelf.new).left }
{
    match load_sized(alloc, bump, shelf, name, limits) {
        Ok(loaded) => Ok(loaded.doc),
        Err(fault) => Err(fault),
    }
}

/// The same, with the length of the file.
pub fn load_sized<'a, S: Shelf>(
    alloc: Global,
    bump: &'a Bump,
    shelf: &mut S,
    name: &str,
    limits: Limits,
) -> Result<Loaded<'a>, LoadFault>
    ensures reads { ReadsFrom result faults.Read (S.view shelf.old) (S.view shelf.new) }
    ensures loaded { IfOk result (λ loaded. IsLoadedOf limits (option_map (bytes_under name.now) (S.view shelf.old).held) loaded.length loaded.doc) }
    ensures refused { (fault : _) → result ≡ Err (faults.Refused fault)
        → IsRefused limits (option_map (bytes_under name.now) (S.view shelf.old).held) fault }
    ensures stops { (fault : _) → result ≡ Err (faults.Refused fault)
        → StopsInTime limits (option_map (bytes_under name.now) (S.view shelf.old).held) (S.view shelf.new).left }
{
    let mut unheeded = Unheeded;
    load_giving(alloc, bump, shelf, name, limits, &mut unheeded)
}

/// The same, and the bytes of the file are given to a receiver as they are read.
pub fn load_giving<'a, S: Shelf, B: ByteReceiver>(
    alloc: Global,
    bump: &'a Bump,
    shelf: &mut S,
    name: &str,
    limits: Limits,
    bytes: &mut B,
) -> Result<Loaded<'a>, LoadFault>
    ensures reads { ReadsFrom result faults.Read (S.view shelf.old) (S.view shelf.new) }
    ensures loaded { IfOk result (λ loaded. IsLoadedAndGiven limits (option_map (bytes_under name.now) (S.view shelf.old).held) loaded.length loaded.doc
        (B.taken bytes.old) (B.taken bytes.new)) }
    ensures refused { (fault : _) → result ≡ Err (faults.Refused fault)
        → IsRefused limits (option_map (bytes_under name.now) (S.view shelf.old).held) fault }
    ensures stops { (fault : _) → result ≡ Err (faults.Refused fault)
        → StopsInTime limits (option_map (bytes_under name.now) (S.view shelf.old).held) (S.view shelf.new).left }
{
    match shelf.open(name) {
        Ok(()) => {}
        Err(_) => return Err(LoadFault::Read),
    }
    let mut piece = vec![in alloc; 0u8; PIECE]?;
    read_open(alloc, bump, &mut piece, shelf, limits, bytes)
}

/// The document that is left of the open input, read by pieces of some length.
fn read_open<'a, S: Shelf, B: ByteReceiver>(
    alloc: Global,
    bump: &'a Bump,
    piece: &mut [u8],
    shelf: &mut S,
    limits: Limits,
    bytes: &mut B,
) -> Result<Loaded<'a>, LoadFault>
    requires some { 0 < length piece.old }
    requires few { length piece.old < 65537 }
    ensures reads { ReadsOn result faults.Read (S.view shelf.old) (S.view shelf.new) }
    ensures loaded { IfOk result (λ loaded. IsLoadedAndGiven limits (S.view shelf.old).left loaded.length loaded.doc (B.taken bytes.old) (B.taken bytes.new)) }
    ensures refused { (fault : _) → result ≡ Err (faults.Refused fault) → IsRefused limits (S.view shelf.old).left fault }
    ensures stops { (fault : _) → result ≡ Err (faults.Refused fault) → StopsInTime limits (S.view shelf.old).left (S.view shelf.new).left }
{
    // Laws, which have no code.
    read_builds_its_tree();
    settled_stays();
    let mut reader = Reader::new(alloc, limits)?;
    let mut builder = Builder::new(alloc, bump)?;
    let length = match feed_all(&mut reader, &mut builder, piece, shelf, bytes) {
        Ok(length) => length,
        Err(fault) => {
            drop(builder);
            return Err(fault);
        }
    };
    match reader.finish(&mut builder) {
        Ok(names) => {
            let doc = builder.finish(names)?;
            Ok(Loaded { doc, length })
        }
        Err(fault) => {
            drop(builder);
            Err(fault_of_reader(fault))
        }
    }
}

/// Gives the reader what is left of the open input, by pieces of some length, up to the first fault that is settled:
/// then the rest of the input isn't read. The receiver of bytes is given them too. The answer is how many there were.
fn feed_all<S: Shelf, E: Events, B: ByteReceiver>(
    reader: &mut Reader,
    events: &mut E,
    piece: &mut [u8],
    shelf: &mut S,
    bytes: &mut B,
) -> Result<u64, LoadFault>
    requires some { 0 < length piece.old }
    requires few { length piece.old < 65537 }
    requires unread { HasRead reader.old [] }
    ensures reads { ReadsOn result faults.Read (S.view shelf.old) (S.view shelf.new) }
    ensures fed { IfOk result (λ count. HasFed count (S.view shelf.old).left (S.view shelf.new).left reader.new (E.taken events.old) (E.taken events.new)
        (B.taken bytes.old) (B.taken bytes.new)) }
    ensures refused { (fault : _) → result ≡ Err (faults.Refused fault) → IsRefused reader.old.limits (S.view shelf.old).left fault }
    ensures stops { (fault : _) → result ≡ Err (faults.Refused fault) → StopsInTime reader.old.limits (S.view shelf.old).left (S.view shelf.new).left }
    ensures limits { reader.new.limits ≡ reader.old.limits }
{
    // Laws, which have no code: what stands behind a settled fault can't change it.
    settled_is_first();
    settled_stays();
    let mut length = 0;
    'pieces: loop {
        let count = match shelf.read(piece) {
            Ok(count) => count,
            Err(_) => return Err(LoadFault::Read),
        };
        if count == 0 {
            return Ok(length);
        }
        let (front, _) = piece.split_at(count);
        match reader.feed(front, events) {
            Ok(()) => {}
            Err(fault) => return Err(fault_of_reader(fault)),
        }
        bytes.take(front)?;
        length = counted(length, count)?;
    }
}

/// So many bytes more. No number wraps: a file of 2^64 bytes is longer than any memory.
fn counted(length: u64, count: usize) -> Result<u64, AllocError>
    ensures { IfOk result (λ all. all ≡ length + count) }
{
    match length.checked_add(count as u64) {
        Some(all) => Ok(all),
        None => Err(AllocError),
    }
}

/// A reader's fault as one of loading.
fn fault_of_reader(fault: XmlFault) -> LoadFault
    ensures refused { (told : _) → result ≡ faults.Refused told → (told ≡ fault) × (fault ≢ XmlFault.WANT_OF_MEMORY) }
    ensures memory { result ≡ faults.Memory → fault.kind ≡ kinds.Memory }
    ensures read { result ≢ faults.Read }
{
    match fault.kind {
        XmlKind::Memory => LoadFault::Memory,
        _ => LoadFault::Refused(fault),
    }
}

/// What is read builds a whole document, of its tree: laws of the crates below, which have no code, in one.
fn read_builds_its_tree()
    ensures { (limits : Limits) (bytes : List ℕ) (found : profile.Document) → limits.nodes < 2 ^ 32 → document limits bytes ≡ Ok found
        → IsBuilt found (built found.events) }
{
    read_tells_its_tree();
    events_build_the_nodes_of_their_tree();
    events_build_a_whole_document();
}
