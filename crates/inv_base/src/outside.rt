ghost use Rattle.inv_base.specs.Outside.{ShelfView, SinkView, Opens, Reads, Accepts};

/// A call of a shelf or a sink failed. Its count of faults says so.
#[derive(Clone, Copy, Debug, PartialEq, Eq)]
pub struct Failed;

/// Where files are read from: one input is open at a time, and none at first.
///
/// A shelf may tell its content: the files by their names, whether every other name is absent or empty,
/// and the bytes left of the open input. It counts its faults, and its opens, failed or not, in numbers
/// that stop at the greatest `u64`.
pub trait Shelf {
    ghost view: { Self → ShelfView };

    /// Opens the file of that name and closes what was open. A failed `open` leaves what was open.
    fn open(&mut self, name: &str) -> Result<(), Failed>
        ensures { Opens result name.now (view self.old) (view self.new) };

    /// Puts the next bytes of the open input at the front of the buffer, and answers how many: 0 only at
    /// the end, or where the buffer is empty.
    fn read(&mut self, buf: &mut [u8]) -> Result<usize, Failed>
        ensures { Reads result buf.new (view self.old) (view self.new) };
}

/// Where bytes are written to. A sink may tell the bytes that it has taken, and it counts its faults in a
/// number that stops at the greatest `u64`.
pub trait Sink {
    ghost view: { Self → SinkView };

    /// Takes bytes from the front of the piece, and answers how many: at least one of a piece that isn't
    /// empty.
    fn write(&mut self, piece: &[u8]) -> Result<usize, Failed>
        ensures { Accepts result piece.now (view self.old) (view self.new) };
}

impl<K: Sink> Sink for &mut K {
    ghost view = { λ sink. K.view sink.now };

    fn write(&mut self, piece: &[u8]) -> Result<usize, Failed> {
        Sink::write(&mut **self, piece)
    }
}
