ghost use Rattle.std.specs.Prelude.{◌≡◌, ◌+◌, OnOk, OnErr};

use std::alloc::AllocError;

/// How many turns a walk may still take, so that its caller bounds what many walks take together.
#[derive(Clone, Copy, PartialEq, Eq)]
pub struct Budget {
    pub left: u64,
}

impl Budget {
    /// Takes one. Where none is left this counts as want of memory.
    pub fn take(&mut self) -> Result<(), AllocError>
        ensures ok { OnOk result (self.new.left + 1 ≡ self.old.left) }
        ensures err { OnErr result (self.old.left ≡ 0) }
    {
        if self.left == 0 {
            return Err(AllocError);
        }
        self.left -= 1;
        Ok(())
    }
}
