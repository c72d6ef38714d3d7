//! A file of a shelf as its bytes.
ghost use Rattle.std.specs.Prelude.{◌≡◌, ◌<◌, ◌≤◌, length, option_map, vec_len, Err, IfOk};
ghost use Rattle.inv_base.specs.Files.{bytes_under};
ghost use Rattle.inv_base.specs.Outside.{WhereTold};
ghost use Rattle.xml_document.specs.Loading.{ReadsFrom, ReadsOn};
ghost use Rattle.xml_document.specs.Whole.{IsReadWhole, IsTooLong};
ghost use Rattle.xml_document.specs.declared.whole.WholeFault.TheVariants as faults;

use inv_base::Shelf;
use std::alloc::{AllocError, AllocFailed, Global};

/// How many bytes are read at a time.
const PIECE: usize = 65_536;

/// Why the bytes of a file can't be had.
#[derive(Debug, Drop)]
pub enum WholeFault {
    /// The file couldn't be opened, or a read failed.
    Read,
    /// The file has more bytes than the limit.
    TooLong,
    /// Memory ran out.
    Memory,
}

impl From<AllocError> for WholeFault {
    ghost from_gives = { λ _ fault. fault ≡ faults.Memory };

    fn from(_error: AllocError) -> WholeFault {
        WholeFault::Memory
    }
}

impl<T: Drop> From<AllocFailed<T>> for WholeFault {
    ghost from_gives = { λ _ fault. fault ≡ faults.Memory };

    fn from(_error: AllocFailed<T>) -> WholeFault {
        WholeFault::Memory
    }
}

/// All bytes of the file of that name, as of a list of codes, which is parsed as one text. The file is
/// opened once, and a piece at most is read behind the limit.
pub fn read_whole<S: Shelf>(
    alloc: Global,
    shelf: &mut S,
    name: &str,
    limit: usize,
) -> Result<Vec<u8>, WholeFault>
    ensures reads { ReadsFrom result faults.Read (S.view shelf.old) (S.view shelf.new) }
    ensures bytes { IfOk result (λ bytes. IsReadWhole limit (option_map (bytes_under name.now) (S.view shelf.old).held) bytes.items) }
    ensures too_long { result ≡ Err faults.TooLong → IsTooLong limit (option_map (bytes_under name.now) (S.view shelf.old).held) (S.view shelf.new).left }
{
    match shelf.open(name) {
        Ok(()) => {}
        Err(_) => return Err(WholeFault::Read),
    }
    let mut piece = vec![in alloc; 0u8; PIECE]?;
    read_open(alloc, &mut piece, shelf, limit)
}

/// The bytes that are left of the open input.
fn read_open<S: Shelf>(
    alloc: Global,
    piece: &mut [u8],
    shelf: &mut S,
    limit: usize,
) -> Result<Vec<u8>, WholeFault>
    requires some { 0 < length piece.old }
    requires few { length piece.old < 65537 }
    ensures reads { ReadsOn result faults.Read (S.view shelf.old) (S.view shelf.new) }
    ensures bytes { IfOk result (λ bytes. IsReadWhole limit (S.view shelf.old).left bytes.items) }
    ensures too_long { result ≡ Err faults.TooLong → IsTooLong limit (S.view shelf.old).left (S.view shelf.new).left }
{
    let mut bytes = Vec::new(alloc);
    'pieces: loop {
        let count = match shelf.read(piece) {
            Ok(count) => count,
            Err(_) => return Err(WholeFault::Read),
        };
        if count == 0 {
            return Ok(bytes);
        }
        if limit - bytes.len() < count {
            return Err(WholeFault::TooLong);
        }
        bytes.extend_from_slice(piece.split_at(count).0)?;
    }
}
