ghost use Rattle.std.specs.Prelude.{◌≡◌, ◌<◌, ◌≤◌, true, false, None, length, IfOk, OnOk, OnErr};
ghost use Rattle.std.specs.Io.KnownBytes.{ReadConsumes, WriteAppends};
ghost use Rattle.inv_base.specs.Outside.{ShelfView, SinkView, Opens, Reads, Accepts};
ghost use Rattle.invoice_cli.specs.Adapters.{shelf_of, IsOpen, input_left, source_left, is_standard, unused, TakesSource, TakesStandard, sink_of, output_of};

use inv_base::{Failed, Shelf, Sink};
use std::fs::{File, Files};
use std::io;
use std::io::{ErrorKind, Read, Write};

/// How often a call is tried that a signal interrupts.
const TRIES: u32 = 100;

/// The name that stands for standard input.
const STANDARD_INPUT: &str = "-";

/// Where the bytes of what is open come from.
#[derive(Drop)]
pub enum Input<F, I> {
    File(F),
    Standard(I),
}

impl<F: Read, I: Read> Input<F, I> {
    /// Reads some bytes.
    fn read(&mut self, buf: &mut [u8]) -> Result<usize, Failed>
        ensures bound { IfOk result (λ n. n ≤ length buf.new) }
        ensures bytes { ReadConsumes (source_left F.remaining I.remaining self.old) (source_left F.remaining I.remaining self.new) result buf.new }
    {
        match self {
            Input::File(file) => read_some(file, buf),
            Input::Standard(input) => read_some(input, buf),
        }
    }
}

/// The files of the system, by their paths, and standard input by the name `-`, once. It tells no content.
#[derive(Drop)]
pub struct FileShelf<R: Files, I: Read> {
    files: R,
    /// Standard input, until it is opened.
    unused: Option<I>,
    input: Option<Input<R::File, I>>,
    faults: u64,
    opens: u64,
}

impl<R: Files, I: Read + Drop> FileShelf<R, I> {
    /// A shelf with nothing open.
    pub fn new(files: R, standard: I) -> FileShelf<R, I>
        ensures { ⟦<FileShelf<R, I> as Shelf>⟧.view result ≡ record { held = None; left = None; faults = 0; opens = 0 } }
    {
        FileShelf {
            files,
            unused: Some(standard),
            input: None,
            faults: 0,
            opens: 0,
        }
    }

    /// The bytes of the file of that name; those of standard input can be had once.
    fn source(&mut self, name: &str) -> Result<Input<R::File, I>, Failed>
        ensures shelf { shelf_of self.new ≡ shelf_of self.old }
        ensures open { input_left R.File.remaining I.remaining self.new ≡ input_left R.File.remaining I.remaining self.old }
        ensures standard { is_standard name.now ≡ true → TakesSource (unused self.old) result (unused self.new) }
        ensures kept { is_standard name.now ≡ false → unused self.new ≡ unused self.old }
    {
        if name == STANDARD_INPUT {
            return match self.unused.take() {
                Some(standard) => Ok(Input::Standard(standard)),
                None => Err(Failed),
            };
        }
        match File::open(&self.files, name) {
            Ok(file) => Ok(Input::File(file)),
            Err(_) => Err(Failed),
        }
    }
}

impl<R: Files, I: Read + Drop> Shelf for FileShelf<R, I> {
    ghost view = { shelf_of };

    fn open(&mut self, name: &str) -> Result<(), Failed>
        ensures opens { Opens result name.now (shelf_of self.old) (shelf_of self.new) }
        ensures opened { OnOk result (IsOpen self.new) }
        ensures stays { OnErr result (input_left R.File.remaining I.remaining self.new ≡ input_left R.File.remaining I.remaining self.old) }
        ensures standard { is_standard name.now ≡ true
            → TakesStandard I.remaining (unused self.old) result (input_left R.File.remaining I.remaining self.new) (unused self.new) }
        ensures kept { is_standard name.now ≡ false → unused self.new ≡ unused self.old }
    {
        self.opens = self.opens.saturating_add(1);
        match self.source(name) {
            Ok(input) => {
                self.input = Some(input);
                Ok(())
            }
            Err(Failed) => {
                self.faults = self.faults.saturating_add(1);
                Err(Failed)
            }
        }
    }

    fn read(&mut self, buf: &mut [u8]) -> Result<usize, Failed>
        ensures reads { Reads result buf.new (shelf_of self.old) (shelf_of self.new) }
        ensures bytes { ReadConsumes (input_left R.File.remaining I.remaining self.old) (input_left R.File.remaining I.remaining self.new) result buf.new }
    {
        let got = match &mut self.input {
            None => Ok(0),
            Some(input) => input.read(buf),
        };
        if got.is_err() {
            self.faults = self.faults.saturating_add(1);
        }
        got
    }
}

/// Reads some bytes, and tries again where a signal interrupts.
fn read_some<I: Read>(input: &mut I, buf: &mut [u8]) -> Result<usize, Failed>
    ensures bound { IfOk result (λ n. n ≤ length buf.new) }
    ensures bytes { ReadConsumes (I.remaining input.old) (I.remaining input.new) result buf.new }
{
    'tries: for _ in 0..TRIES {
        match input.read(buf) {
            Ok(n) => return Ok(n),
            Err(error) if error.kind() == ErrorKind::Interrupted => {}
            Err(_) => return Err(Failed),
        }
    }
    Err(Failed)
}

/// An output of the system. It tells no content, and doesn't hold anything back.
#[derive(Drop)]
pub struct OutputSink<W: Write> {
    output: W,
    faults: u64,
}

impl<W: Write> OutputSink<W> {
    /// A sink in front of the output.
    pub fn new(output: W) -> OutputSink<W>
        ensures { ⟦<OutputSink<W> as Sink>⟧.view result ≡ record { told = None; faults = 0 } }
    {
        OutputSink { output, faults: 0 }
    }
}

impl<W: Write> Sink for OutputSink<W> {
    ghost view = { sink_of };

    fn write(&mut self, piece: &[u8]) -> Result<usize, Failed>
        ensures accepts { Accepts result piece.now (sink_of self.old) (sink_of self.new) }
        ensures bytes { WriteAppends (W.contents (output_of self.old)) (W.contents (output_of self.new)) result piece.now }
    {
        let taken = write_some(&mut self.output, piece);
        if taken.is_err() {
            self.faults = self.faults.saturating_add(1);
        }
        taken
    }
}

/// Writes some bytes, and tries again where a signal interrupts. An output that takes none of a piece that
/// isn't empty has failed.
fn write_some<W: Write>(output: &mut W, piece: &[u8]) -> Result<usize, Failed>
    ensures bound { IfOk result (λ n. n ≤ length piece.now) }
    ensures progress { IfOk result (λ n. 0 < length piece.now → 0 < n) }
    ensures bytes { WriteAppends (W.contents output.old) (W.contents output.new) result piece.now }
{
    'tries: for _ in 0..TRIES {
        match output.write(piece) {
            Ok(0) if !piece.is_empty() => return Err(Failed),
            Ok(n) => return Ok(n),
            Err(error) if error.kind() == ErrorKind::Interrupted => {}
            Err(_) => return Err(Failed),
        }
    }
    Err(Failed)
}
