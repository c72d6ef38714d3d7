//! How much a file may make.
ghost use Rattle.std.specs.Prelude.{◌≡◌, ◌≤◌, chars, IfOk};

use inv_base::Txt;
use schematron_meaning::{MOST_BUILT_BYTES, MOST_THINGS};
use std::alloc::{AllocError, Global};

/// How much may still be made. So a small file whose rules put others many times can't take all memory: what passes a
/// limit counts as want of memory.
#[derive(Drop)]
pub(crate) struct Budget {
    things: usize,
    bytes: usize,
}

impl Budget {
    /// Nothing was made yet.
    pub(crate) fn new() -> Budget {
        Budget {
            things: MOST_THINGS,
            bytes: MOST_BUILT_BYTES,
        }
    }

    /// Counts a thing.
    pub(crate) fn take_thing(&mut self) -> Result<(), AllocError> {
        if self.things == 0 {
            return Err(AllocError);
        }
        self.things -= 1;
        Ok(())
    }

    /// How many bytes of texts may still be made.
    pub(crate) fn bytes(&self) -> usize {
        self.bytes
    }

    /// Counts the bytes of a text, whatever is made of it.
    pub(crate) fn take_text(&mut self, text: &str) -> Result<(), AllocError> {
        if text.len() > self.bytes {
            return Err(AllocError);
        }
        self.bytes -= text.len();
        Ok(())
    }

    /// A copy of a text, whose bytes are counted.
    pub(crate) fn copied(&mut self, alloc: Global, text: &str) -> Result<Txt, AllocError>
        ensures { IfOk result (λ copy. copy ≡ chars text.now) }
    {
        self.take_text(text)?;
        Txt::of(alloc, text)
    }
}
