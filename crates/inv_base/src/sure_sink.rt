ghost use Rattle.std.specs.Prelude.{◌≡◌, length, Ok};
ghost use Rattle.inv_base.specs.Outside.{Accepts};
ghost use Rattle.inv_base.specs.Sure.{taking_all};

use crate::outside::{Failed, Sink};

/// A sink that takes all bytes, keeps none, and never fails. It tells no content.
#[derive(Clone, Copy, PartialEq, Eq)]
pub struct SureSink;

impl SureSink {
    /// A sink that takes everything.
    pub fn new() -> SureSink
        ensures { ⟦<SureSink as Sink>⟧.view result ≡ taking_all }
    {
        SureSink
    }
}

impl Sink for SureSink {
    ghost view = { λ _. taking_all };

    fn write(&mut self, piece: &[u8]) -> Result<usize, Failed>
        ensures accepts { Accepts result piece.now taking_all taking_all }
        ensures all { result ≡ Ok (length piece.now) }
    {
        Ok(piece.len())
    }
}
