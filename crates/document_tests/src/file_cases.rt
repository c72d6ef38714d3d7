//! Files of a shelf, as documents and whole.

use crate::documents::LIMITS;
use bumpalo::Bump;
use inv_base::{MemShelf, Shelf};
use std::alloc::{AllocError, Global};
use std::test::Fail;
use test_rows::{Holds, expect_rows};
use xml_document::{LoadFault, WholeFault, load, read_whole};

/// A shelf that has the one file `file`, and fails at the call of that number.
fn shelf_with(alloc: Global, content: &str, failing: u64) -> Result<MemShelf, Fail> {
    let mut shelf = MemShelf::new(alloc);
    shelf.add("file", content.as_bytes())?;
    shelf.fail_at(failing)?;
    Ok(shelf)
}

/// What loading a file answers: how many names it has, or why there is no document.
fn loaded_in(
    alloc: Global,
    bump: &Bump,
    shelf: &mut MemShelf,
    name: &str,
) -> Result<String, AllocError> {
    match load(alloc, bump, shelf, name, LIMITS) {
        Ok(doc) => {
            let count = doc.names().len();
            drop(doc);
            format!(in alloc; "{count} names")
        }
        Err(LoadFault::Read) => String::from_str(alloc, "read fault"),
        Err(LoadFault::Refused(fault)) => {
            format!(in alloc; "{:?} at {}", fault.kind, fault.place.byte)
        }
        Err(LoadFault::Memory) => String::from_str(alloc, "memory"),
    }
}

fn loaded(alloc: Global, shelf: &mut MemShelf, name: &str) -> Result<String, AllocError> {
    let bump = Bump::new(alloc);
    let shown = loaded_in(alloc, &bump, shelf, name);
    drop(bump);
    shown
}

/// The cells of a row, and empty ones behind them.
fn cells(row: &str) -> [&str; 4] {
    let mut cells = [""; 4];
    let mut count = 0;
    for text in row.split('|') {
        if count < 4 {
            cells[count] = text;
            count += 1;
        }
    }
    cells
}

/// Whether loading a file in pieces of that size gives the answer of the row.
fn is_loaded(alloc: Global, piece: usize, row: &str) -> Result<bool, Fail> {
    let [content, failing, name, want] = cells(row);
    let failing = failing.parse::<u64>()?;
    let mut shelf = shelf_with(alloc, content, failing)?.with_piece(piece.max(1));
    let shown = loaded(alloc, &mut shelf, name);
    drop(shelf);
    Ok(shown?.as_str() == want)
}

/// The content of `file`, the number of the call that fails, the name that is asked for, and the answer.
const LOADED: &str = "\
<a><b/></a>|0|file|2 names
<a><b/></a>|0|other|read fault
<a><b/></a>|1|file|read fault
<a><b/></a>|2|file|read fault
<a><b/></a>|3|file|read fault
<a><b/></a>|4|file|2 names
<a><b></a>|0|file|Mismatched at 6
<a><b/>|0|file|Truncated at 7
|0|file|NoRoot at 0";

struct Loading;

impl Holds for Loading {
    fn holds(&self, alloc: Global, row: &'static str) -> Result<bool, Fail> {
        is_loaded(alloc, 65_536, row)
    }
}

#[test]
fn a_file_is_loaded_or_refused(rt: HostRuntime) -> Result<(), Fail> {
    expect_rows(rt.alloc(), &Loading, LOADED)
}

/// The rows in which no call fails, by pieces of that size.
#[derive(Drop)]
struct InPieces {
    piece: usize,
}

impl Holds for InPieces {
    fn holds(&self, alloc: Global, row: &'static str) -> Result<bool, Fail> {
        let [_, failing, _, _] = cells(row);
        if failing == "0" {
            is_loaded(alloc, self.piece, row)
        } else {
            Ok(true)
        }
    }
}

/// However a shelf cuts a file, its document is the same.
#[test]
fn a_file_is_loaded_in_pieces(rt: HostRuntime) -> Result<(), Fail> {
    expect_rows(rt.alloc(), &InPieces { piece: 1 }, LOADED)?;
    expect_rows(rt.alloc(), &InPieces { piece: 2 }, LOADED)?;
    expect_rows(rt.alloc(), &InPieces { piece: 3 }, LOADED)
}

/// The bytes of a piece, and the next bytes that are left behind a fault that the byte `>` at 6 shows.
const LEFT: &str = "\
1|r
2|es
3|sta
7|restart
8|estart
65536|";

/// Whether a file is refused, and those bytes are the next behind the fault.
fn is_left(alloc: Global, shelf: &mut MemShelf, want: &str) -> Result<bool, Fail> {
    let shown = loaded(alloc, shelf, "file")?;
    let mut left = [0u8; 9];
    let Ok(count) = shelf.read(&mut left) else {
        return Ok(false);
    };
    Ok((shown.as_str() == "Mismatched at 3") & (&left[..count] == want.as_bytes()))
}

struct Left;

impl Holds for Left {
    fn holds(&self, alloc: Global, row: &'static str) -> Result<bool, Fail> {
        let (piece, want) = row.split_once('|').ok_or("row")?;
        let piece = piece.parse::<usize>()?.max(1);
        let mut shelf = shelf_with(alloc, "<a></b>restart", 0)?.with_piece(piece);
        let holds = is_left(alloc, &mut shelf, want);
        drop(shelf);
        holds
    }
}

#[test]
fn nothing_is_read_behind_a_fault(rt: HostRuntime) -> Result<(), Fail> {
    expect_rows(rt.alloc(), &Left, LEFT)
}

/// What reading a file whole answers: its bytes, or why they can't be had.
fn whole(
    alloc: Global,
    shelf: &mut MemShelf,
    name: &str,
    limit: usize,
) -> Result<String, AllocError> {
    match read_whole(alloc, shelf, name, limit) {
        Ok(bytes) => format!(in alloc; "{:?}", bytes.as_slice()),
        Err(WholeFault::Read) => String::from_str(alloc, "read fault"),
        Err(WholeFault::TooLong) => String::from_str(alloc, "too long"),
        Err(WholeFault::Memory) => String::from_str(alloc, "memory"),
    }
}

/// The number of the call that fails, the name that is asked for, the limit, and the answer on a file of
/// the bytes 97, 98 and 99.
const WHOLE: &str = "\
0|file|3|[97, 98, 99]
0|file|4194304|[97, 98, 99]
0|file|2|too long
0|file|0|too long
0|other|3|read fault
1|file|3|read fault
2|file|3|read fault
3|file|3|read fault";

struct ReadWhole;

impl Holds for ReadWhole {
    fn holds(&self, alloc: Global, row: &'static str) -> Result<bool, Fail> {
        let [failing, name, limit, want] = cells(row);
        let failing = failing.parse::<u64>()?;
        let limit = limit.parse::<usize>()?;
        let mut shelf = shelf_with(alloc, "abc", failing)?;
        let shown = whole(alloc, &mut shelf, name, limit);
        drop(shelf);
        Ok(shown?.as_str() == want)
    }
}

#[test]
fn a_file_is_read_whole_within_its_limit(rt: HostRuntime) -> Result<(), Fail> {
    expect_rows(rt.alloc(), &ReadWhole, WHOLE)
}
