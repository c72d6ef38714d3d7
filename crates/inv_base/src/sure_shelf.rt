ghost use Rattle.std.specs.Prelude.{◌≡◌, ◌≤◌, ◌<◌, [], ◌∷◌, ◌++◌, length, min, take, drop, OnOk, OnErr, IsOk, IsOkAnd};
ghost use Rattle.inv_base.specs.Outside.{Opens, Reads};
ghost use Rattle.inv_base.specs.Sure.{SureFiles, sure_shelf_of, behind_sure_open, behind_sure_read};

use crate::copying::copy_front;
use crate::mem_shelf::{MemFile, MemShelf, Opened};
use crate::outside::{Failed, Shelf};
use std::alloc::{AllocError, Global};
use std::marker::Model;

/// A shelf of files in memory that never fails. Every name that wasn't added is an empty file.
///
/// It counts its opens in a number that stops at the greatest `u64`. A read gives all that is left and has room.
#[derive(Drop)]
pub struct SureShelf {
    alloc: Global,
    files: Vec<MemFile>,
    opened: Option<Opened>,
    opens: u64,
}

impl Model for SureShelf {
    ghost use Rattle.inv_base.specs.Sure.{SureFiles};

    ghost Value = { SureFiles };

    ghost use Rattle.inv_base.specs.MemFiles.{newest_first, left_of, IsPlace};

    ghost view = { λ s. record { files = newest_first s.files.items; left = left_of s.files.items s.opened; opens = s.opens } };

    ghost invariant = { λ s. IsPlace s.files.items s.opened };
}

impl SureShelf {
    /// A shelf that holds no file. Nothing is open.
    pub fn new(alloc: Global) -> SureShelf
        ensures { result ≡ record { files = []; left = []; opens = 0 } }
    {
        SureShelf {
            alloc,
            files: Vec::new(alloc),
            opened: None,
            opens: 0,
        }
    }

    /// Puts a file of that name and those bytes on the shelf, in place of one of the same name, and closes
    /// what was open.
    pub fn add(&mut self, name: &str, bytes: &[u8]) -> Result<(), AllocError>
        ensures ok { OnOk result (self.new ≡ record self.old { files = (name.now, bytes.now) ∷ self.old.files; left = [] }) }
        ensures err { OnErr result (self.new ≡ self.old) }
    {
        let file = MemFile {
            name: String::from_str(self.alloc, name)?,
            bytes: Vec::from_slice(self.alloc, bytes)?,
        };
        self.files.push(file)?;
        self.opened = None;
        Ok(())
    }
}

impl SureShelf {
    ghost use Rattle.inv_base.specs.Files.{content_of};
    ghost use Rattle.inv_base.specs.MemFiles.{newest_first, left_of, IsPlace};

    /// The start of the file of that name, none where there is no such file.
    #[tactic(auto, using(crate::proofs::FilesLemmas::absent_content))]
    fn start_of(files: &[MemFile], name: &str) -> Option<Opened>
        ensures place { IsPlace files.now result }
        ensures bytes { left_of files.now result ≡ content_of name.now (newest_first files.now) }
    {
        match MemShelf::find(files, name) {
            Some(file) => Some(Opened { file, position: 0 }),
            None => None,
        }
    }
}

impl Shelf for SureShelf {
    ghost view = { sure_shelf_of };

    fn open(&mut self, name: &str) -> Result<(), Failed>
        ensures opens { Opens result name.now (sure_shelf_of self.old) (sure_shelf_of self.new) }
        ensures sure { IsOk result }
        ensures exact { self.new ≡ behind_sure_open name.now self.old }
    {
        self.opens = self.opens.saturating_add(1);
        self.opened = SureShelf::start_of(&self.files, name);
        Ok(())
    }

    fn read(&mut self, buf: &mut [u8]) -> Result<usize, Failed>
        ensures reads { Reads result buf.new (sure_shelf_of self.old) (sure_shelf_of self.new) }
        ensures exact { IsOkAnd result (λ n. (n ≡ min (length self.old.left) (length buf.old))
            × (buf.new ≡ take n self.old.left ++ drop n buf.old) × (self.new ≡ behind_sure_read n self.old)) }
    {
        let count = copy_front(MemShelf::left(&self.files, self.opened), buf);
        if let Some(opened) = self.opened {
            self.opened = Some(Opened {
                file: opened.file,
                position: opened.position + count,
            });
        }
        Ok(count)
    }
}
