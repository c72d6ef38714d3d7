ghost use Rattle.inv_base.specs.Writing.{Writes};

use inv_base::{Sink, write_all};

/// A write failed. The sink's count of faults says so.
#[derive(Clone, Copy, Debug, PartialEq, Eq)]
pub struct WriteFault;

/// Writes the whole piece, or a front of it where the sink fails.
pub(crate) fn put_bytes<K: Sink>(out: &mut K, piece: &[u8]) -> Result<(), WriteFault>
    ensures { Writes result piece.now (K.view out.old) (K.view out.new) }
{
    write_all(out, piece).map_err(|_| WriteFault)
}

/// The same for a text.
pub(crate) fn put<K: Sink>(out: &mut K, text: &str) -> Result<(), WriteFault>
    ensures { Writes result text.now (K.view out.old) (K.view out.new) }
{
    put_bytes(out, text.as_bytes())
}
