ghost use Rattle.inv_base.specs.Writing.{Writes};

use crate::outside::{Failed, Sink};

/// Writes the whole piece, or a front of it where the sink fails.
pub fn write_all<K: Sink>(out: &mut K, piece: &[u8]) -> Result<(), Failed>
    ensures { Writes result piece.now (K.view out.old) (K.view out.new) }
{
    let mut rest = piece;
    'pieces: while !rest.is_empty() {
        match out.write(rest) {
            Ok(taken) => rest = rest.split_at(taken).1,
            Err(failed) => return Err(failed),
        }
    }
    Ok(())
}
