ghost use Rattle.std.specs.Prelude.{List, ℕ, ◌++◌, OnOk};

use std::alloc::AllocError;

/// What is given the bytes of a file while it is read, piece by piece.
pub trait ByteReceiver {
    /// What holds of a receiver that was given exactly these bytes.
    ghost taken: { Self → List ℕ → Type 0 };

    /// The next bytes of the file. Want of memory is the only refusal; what was given isn't told then.
    fn take(&mut self, piece: &[u8]) -> Result<(), AllocError>
        ensures { OnOk result ((before : List ℕ) → taken self.old before → taken self.new (before ++ piece.now)) };
}

/// A receiver that keeps nothing.
#[derive(Clone, Copy, Drop)]
pub struct Unheeded;

impl ByteReceiver for Unheeded {
    ghost taken = { λ _ _. Unit {0} };

    fn take(&mut self, _piece: &[u8]) -> Result<(), AllocError> {
        Ok(())
    }
}
