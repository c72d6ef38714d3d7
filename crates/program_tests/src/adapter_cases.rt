//! Files of the system, and outputs that are interrupted, fail or take nothing.

use inv_base::{Failed, Shelf, Sink, write_all};
use invoice_cli::{FileShelf, OutputSink};
use std::io::{Error, ErrorKind, Write};
use std::test::Fail;
use std::{fs, io};
use test_rows::expect;

/// Whether a read gives so many bytes, and leaves a buffer of four dots so.
fn gives<S: Shelf>(shelf: &mut S, count: usize, left: &[u8]) -> bool {
    let mut buf = [b'.'; 4];
    let read = shelf.read(&mut buf) == Ok(count);
    read & (buf.as_slice() == left)
}

/// Whether the file is read, however often it is opened, and a file that is absent changes nothing.
fn reads_hello<S: Shelf>(shelf: &mut S, name: &str) -> bool {
    let held = [
        gives(shelf, 0, b"...."),
        shelf.open(name) == Ok(()),
        gives(shelf, 4, b"hell"),
        shelf.open("absent.txt") == Err(Failed),
        gives(shelf, 1, b"o..."),
        gives(shelf, 0, b"...."),
        shelf.open(name) == Ok(()),
        gives(shelf, 4, b"hell"),
    ];
    held == [true; 8]
}

#[test]
fn files_are_read(rt: HostRuntime) -> Result<(), Fail> {
    fs::write(&rt, "files_are_read.txt", b"hello".as_slice())?;
    let input = rt.stdin();
    let mut shelf = FileShelf::new(rt, input);
    expect(reads_hello(&mut shelf, "files_are_read.txt"), "hello")
}

/// A folder can be opened, and not read.
#[test]
fn folders_are_not_read(rt: HostRuntime) -> Result<(), Fail> {
    let input = rt.stdin();
    let mut shelf = FileShelf::new(rt, input);
    let opened = shelf.open(".") == Ok(());
    let failed = shelf.read(&mut [0; 4]) == Err(Failed);
    expect(opened & failed, "folder")
}

/// Whether standard input is had by the name `-`, once, and a file that is named so by its path.
fn reads_once<S: Shelf>(shelf: &mut S) -> bool {
    let held = [
        shelf.open("-") == Ok(()),
        gives(shelf, 4, b"stan"),
        gives(shelf, 1, b"d..."),
        gives(shelf, 0, b"...."),
        shelf.open("-") == Err(Failed),
        shelf.open("./-") == Ok(()),
        gives(shelf, 4, b"dash"),
        shelf.open("-") == Err(Failed),
    ];
    held == [true; 8]
}

#[test]
fn standard_input_is_read_once(rt: HostRuntime) -> Result<(), Fail> {
    fs::write(&rt, "./-", b"dash".as_slice())?;
    let mut shelf = FileShelf::new(rt, b"stand".as_slice());
    expect(reads_once(&mut shelf), "standard input")
}

/// An output that fails some times, and then takes at most so many bytes at a time.
#[derive(Drop)]
struct Failing {
    times: u32,
    kind: ErrorKind,
    most: usize,
}

impl Write for Failing {
    fn write(&mut self, buf: &[u8]) -> io::Result<usize> {
        if 0 < self.times {
            self.times -= 1;
            return Err(Error::from(self.kind));
        }
        Ok(buf.len().min(self.most))
    }

    fn flush(&mut self) -> io::Result<()> {
        Ok(())
    }
}

/// Whether an output that is interrupted some times, and then takes at most so many bytes, takes a piece of five bytes
/// so. Behind it one of none is taken, unless it is still interrupted.
fn takes(times: u32, most: usize, want: Result<usize, Failed>) -> bool {
    let kind = ErrorKind::Interrupted;
    let mut sink = OutputSink::new(Failing { times, kind, most });
    let taken = sink.write(b"piece") == want;
    taken & (sink.write(b"").is_ok() == (times < 1_000_000))
}

#[test]
fn interrupted_writes_are_tried_again(_: HostRuntime) -> Result<(), Fail> {
    let held = [
        takes(0, 3, Ok(3)),
        takes(1, 9, Ok(5)),
        takes(99, 2, Ok(2)),
        takes(1_000_000, 5, Err(Failed)),
        takes(0, 0, Err(Failed)),
        takes(7, 0, Err(Failed)),
    ];
    expect(held == [true; 6], "interrupted")
}

/// A write that fails otherwise isn't tried again.
#[test]
fn other_failures_are_told(_: HostRuntime) -> Result<(), Fail> {
    let mut sink = OutputSink::new(Failing {
        times: 1,
        kind: ErrorKind::BrokenPipe,
        most: 5,
    });
    expect(sink.write(b"x") == Err(Failed), "broken")
}

/// Whether two texts are taken.
fn takes_texts(bytes: &mut Vec<u8>) -> bool {
    let mut sink = OutputSink::new(bytes);
    let nothing = sink.write(b"") == Ok(0);
    let one = write_all(&mut sink, b"one ") == Ok(());
    let two = write_all(&mut sink, b"two") == Ok(());
    nothing & one & two
}

#[test]
fn outputs_take_what_is_written(rt: HostRuntime) -> Result<(), Fail> {
    let mut bytes = Vec::new(rt.alloc());
    let taken = takes_texts(&mut bytes);
    expect(
        taken & (bytes.as_slice() == b"one two".as_slice()),
        "one two",
    )
}
