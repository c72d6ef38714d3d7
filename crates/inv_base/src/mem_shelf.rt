ghost use Rattle.std.specs.Prelude.{◌≡◌, ℕ, ◌<◌, ◌≤◌, [], ◌∷◌, ◌++◌, length, min, take, drop, false, true, Some, None, IfOk, OnOk, OnErr, MatchResult};
ghost use Rattle.std.specs.Prelude.{MatchOption};
ghost use Rattle.inv_base.specs.Outside.{Opens, Reads};
ghost use Rattle.inv_base.specs.Memory.{Kept, shelf_of, is_listed, cannot_open, behind_failed_open, behind_open, behind_failed_read, behind_read, within_piece};
ghost use Rattle.inv_base.specs.Files.{content_of, is_named};

use crate::copying::copy_front;
use crate::outside::{Failed, Shelf};
use std::alloc::{AllocError, Global};
use std::marker::Model;

#[derive(Drop)]
pub(crate) struct MemFile {
    pub(crate) name: String,
    pub(crate) bytes: Vec<u8>,
}

/// Which file is open, by its number, and how many of its bytes were read.
#[derive(Clone, Copy)]
pub(crate) struct Opened {
    pub(crate) file: usize,
    pub(crate) position: usize,
}

/// A shelf of files in memory, which fails at the calls that it is told to.
///
/// Its calls of `open` and `read` are counted together, from 1. It fails exactly at its listed calls and
/// at an `open` of a name that it hasn't. It counts its calls, faults and opens in numbers that stop at
/// the greatest `u64`, and every later call has that last number. A read gives all that is left and has room,
/// unless `with_piece` bounds it.
#[derive(Drop)]
pub struct MemShelf {
    alloc: Global,
    files: Vec<MemFile>,
    opened: Option<Opened>,
    piece: Option<usize>,
    failing: Vec<u64>,
    calls: u64,
    faults: u64,
    opens: u64,
}

impl Model for MemShelf {
    ghost use Rattle.std.specs.Prelude.{◌≤◌, ◌<◌, length};
    ghost use Rattle.inv_base.specs.Memory.{Kept};

    ghost Value = { Kept };

    ghost use Rattle.inv_base.specs.MemFiles.{newest_first, left_of, IsPlace, IsPiece};

    ghost view = { λ s. record {
      files = newest_first s.files.items;
      left = left_of s.files.items s.opened;
      piece = s.piece;
      failing = s.failing.items;
      calls =
          s.calls;
      faults = s.faults;
      opens = s.opens;
    } };

    ghost invariant = { λ s. IsPlace s.files.items s.opened × IsPiece s.piece };
}

impl MemShelf {
    /// A shelf that holds no file. Nothing is open.
    pub fn new(alloc: Global) -> MemShelf
        ensures { result ≡ record { files = []; left = []; piece = None; failing = []; calls = 0; faults = 0; opens = 0 } }
    {
        MemShelf {
            alloc,
            files: Vec::new(alloc),
            opened: None,
            piece: None,
            failing: Vec::new(alloc),
            calls: 0,
            faults: 0,
            opens: 0,
        }
    }

    /// The same shelf, whose reads give at most so many bytes each.
    pub fn with_piece(self, n: usize) -> MemShelf
        requires { 0 < n }
        ensures { result ≡ record self { piece = Some n } }
    {
        MemShelf {
            piece: Some(n),
            ..self
        }
    }

    /// Puts a file of that name and those bytes on the shelf, in place of one of the same name, and closes
    /// what was open.
    pub fn add(&mut self, name: &str, bytes: &[u8]) -> Result<(), AllocError>
        ensures ok { OnOk result (self.new ≡ record self.old { files = (name.now, bytes.now) ∷ self.old.files; left = [] }) }
        ensures err { OnErr result (self.new ≡ self.old) }
    {
        let file = MemFile {
            name: String::from_str(self.alloc, name)?,
            bytes: Vec::from_slice(self.alloc, bytes)?,
        };
        self.files.push(file)?;
        self.opened = None;
        Ok(())
    }

    /// Lets the call of that number fail, counted from 1 over `open` and `read`.
    pub fn fail_at(&mut self, call: u64) -> Result<(), AllocError>
        ensures ok { OnOk result (self.new ≡ record self.old { failing = self.old.failing ++ call ∷ [] }) }
        ensures err { OnErr result (self.new ≡ self.old) }
    {
        self.failing.push(call)?;
        Ok(())
    }
}

impl MemShelf {
    ghost use Rattle.inv_base.specs.MemFiles.{newest_first, bytes_at};

    /// The number of the last file of that name.
    pub(crate) fn find(files: &[MemFile], name: &str) -> Option<usize>
        ensures { MatchOption result (is_named name.now (newest_first files.now) ≡ false)
            (λ k. (k < length files.now) × (is_named name.now (newest_first files.now) ≡ true)
            × (content_of name.now (newest_first files.now) ≡ bytes_at k files.now)) }
    {
        let mut found = None;
        'files: for (k, file) in files.iter().enumerate() {
            if file.name.as_str() == name {
                found = Some(k);
            }
        }
        found
    }
}

impl MemShelf {
    ghost use Rattle.inv_base.specs.MemFiles.{left_of, IsPlace};

    /// The bytes left of the open file.
    pub(crate) fn left(files: &[MemFile], opened: Option<Opened>) -> &[u8]
        requires { IsPlace files.now opened }
        ensures { result.now ≡ left_of files.now opened }
    {
        match opened {
            None => &[],
            Some(opened) => {
                let bytes = files[opened.file].bytes.as_slice();
                bytes.split_at(opened.position).1
            }
        }
    }
}

/// The bytes at the front that a read gives at most.
fn within_piece(piece: Option<usize>, left: &[u8]) -> &[u8]
    ensures { result.now ≡ within_piece piece left.now }
{
    match piece {
        None => left,
        Some(piece) => left.split_at(piece.min(left.len())).0,
    }
}

/// Copies the bytes that a read gives to the front of the buffer, and answers how many.
fn give(piece: Option<usize>, left: &[u8], buf: &mut [u8]) -> usize
    ensures count { result ≡ min (length (within_piece piece left.now)) (length buf.old) }
    ensures copied { buf.new ≡ take result left.now ++ drop result buf.old }
{
    copy_front(within_piece(piece, left), buf)
}

impl Shelf for MemShelf {
    ghost view = { shelf_of };

    fn open(&mut self, name: &str) -> Result<(), Failed>
        ensures opens { Opens result name.now (shelf_of self.old) (shelf_of self.new) }
        ensures exact { MatchResult result
            (λ _. (cannot_open name.now self.old ≡ false) × (self.new ≡ behind_open name.now self.old))
            (λ _. (cannot_open name.now self.old ≡ true) × (self.new ≡ behind_failed_open self.old)) }
    {
        self.calls = self.calls.saturating_add(1);
        self.opens = self.opens.saturating_add(1);
        let listed = self.failing.contains(&self.calls);
        match MemShelf::find(&self.files, name) {
            Some(file) if !listed => {
                self.opened = Some(Opened { file, position: 0 });
                Ok(())
            }
            _ => {
                self.faults = self.faults.saturating_add(1);
                Err(Failed)
            }
        }
    }

    fn read(&mut self, buf: &mut [u8]) -> Result<usize, Failed>
        ensures reads { Reads result buf.new (shelf_of self.old) (shelf_of self.new) }
        ensures exact { MatchResult result
            (λ n. (is_listed self.old.failing self.old.calls ≡ false) × (n ≡ min (length (within_piece self.old.piece self.old.left)) (length buf.old))
            × (buf.new ≡ take n self.old.left ++ drop n buf.old) × (self.new ≡ behind_read n self.old))
            (λ _. (is_listed self.old.failing self.old.calls ≡ true) × (buf.new ≡ buf.old) × (self.new ≡ behind_failed_read self.old)) }
    {
        self.calls = self.calls.saturating_add(1);
        if self.failing.contains(&self.calls) {
            self.faults = self.faults.saturating_add(1);
            return Err(Failed);
        }
        let left = MemShelf::left(&self.files, self.opened);
        let count = give(self.piece, left, buf);
        if let Some(opened) = self.opened {
            self.opened = Some(Opened {
                file: opened.file,
                position: opened.position + count,
            });
        }
        Ok(count)
    }
}
