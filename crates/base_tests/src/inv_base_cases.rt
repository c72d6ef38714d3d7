//! Files and outputs in memory, buffered output, printing, and the characters of XML.

use crate::texts::{halves, room_for};
use inv_base::{
    Buffered, Failed, Kind, Many, MemShelf, MemSink, Place, Printer, Shelf, Sink, Str, Txt,
    is_char, is_name_char, is_name_start, is_same_text, is_white_space, write_all,
};
use std::alloc::{AllocError, Global};
use std::test::Fail;
use test_rows::{Holds, expect, expect_rows};

/// Calls of a shelf whose 7th and 9th open or read fail, and what they answer.
const SHELF_CALLS: &str = "\
read 3>
open a>failed
add a=hello>ok
add b=>ok
open a>ok
read 2>he
open c>failed
read 1>l
open b>failed
read 1>l
read 9>failed
read 0>
read 9>o
read 9>
open b>ok
read 9>
open a>ok
read 1>h
add a=bytes>ok
read 1>
open a>ok
read 9>bytes
open >failed";

/// Whether a call of the shelf answers this: `ok`, the bytes that were read, or `failed`.
fn answers(shelf: &mut MemShelf, verb: &str, word: &str, want: &str) -> bool {
    match verb {
        "open" => shelf.open(word).is_ok() == (want == "ok"),
        "read" => reads(shelf, word.parse().unwrap_or(0), want),
        _ => {
            let (name, content) = halves(word, '=');
            shelf.add(name, content.as_bytes()).is_ok() == (want == "ok")
        }
    }
}

fn reads_into(shelf: &mut MemShelf, buf: &mut [u8], want: &str) -> bool {
    match shelf.read(buf) {
        Ok(count) => count == want.len() && buf.starts_with(want.as_bytes()),
        Err(Failed) => want == "failed",
    }
}

fn reads(shelf: &mut MemShelf, room: usize, want: &str) -> bool {
    let mut buf = [0; 9];
    reads_into(shelf, &mut buf[..room.min(9)], want)
}

fn expect_call(shelf: &mut MemShelf, row: &'static str) -> Result<(), Fail> {
    let (call, want) = halves(row, '>');
    let (verb, word) = halves(call, ' ');
    expect(answers(shelf, verb, word, want), row)
}

fn expect_calls(shelf: &mut MemShelf) -> Result<(), Fail> {
    shelf.fail_at(9)?;
    shelf.fail_at(7)?;
    for row in SHELF_CALLS.lines() {
        expect_call(shelf, row)?;
    }
    Ok(())
}

#[test]
fn files_in_memory_are_read(rt: HostRuntime) -> Result<(), Fail> {
    let mut shelf = MemShelf::new(rt.alloc());
    let held = expect_calls(&mut shelf);
    drop(shelf);
    held
}

/// What a shelf gives that reads at most so many bytes at a time, into a buffer of 4.
const READS: &str = "\
1>h e l l o .
2>he ll o .
3>hel lo .
4>hell o .
5>hell o .";

fn reads_pieces(shelf: &mut MemShelf, want: &str) -> bool {
    let mut same = true;
    for word in want.split(' ') {
        same &= reads(shelf, 4, word.trim_end_matches('.'));
    }
    same
}

fn gives_pieces(shelf: &mut MemShelf, want: &str) -> Result<bool, AllocError> {
    shelf.add("file", b"hello")?;
    Ok(shelf.open("file").is_ok() && reads_pieces(shelf, want))
}

struct ReadPieces;

impl Holds for ReadPieces {
    fn holds(&self, alloc: Global, row: &'static str) -> Result<bool, Fail> {
        let (piece, want) = halves(row, '>');
        let piece: usize = piece.parse().unwrap_or(0);
        let mut shelf = MemShelf::new(alloc).with_piece(piece.max(1));
        let given = gives_pieces(&mut shelf, want);
        drop(shelf);
        Ok(given?)
    }
}

#[test]
fn reads_come_in_pieces(rt: HostRuntime) -> Result<(), Fail> {
    expect_rows(rt.alloc(), &ReadPieces, READS)
}

/// Pieces written to a sink with room for 9 bytes whose 2nd write fails, and how many bytes of each are taken.
const PIECES: &str = "\
one>3
two>failed
two>3
>0
three>3
four>failed
>failed";

fn expect_piece(sink: &mut MemSink, row: &'static str) -> Result<(), Fail> {
    let (piece, want) = halves(row, '>');
    let taken = sink.write(piece.as_bytes()).ok();
    expect(taken == want.parse().ok(), row)
}

fn expect_pieces(sink: &mut MemSink) -> Result<(), Fail> {
    sink.fail_at(2)?;
    for row in PIECES.lines() {
        expect_piece(sink, row)?;
    }
    expect(sink.bytes() == b"onetwothr".as_slice(), "taken")
}

#[test]
fn a_sink_takes_what_it_has_room_for(rt: HostRuntime) -> Result<(), Fail> {
    let mut sink = MemSink::new(rt.alloc(), 9)?;
    let held = expect_pieces(&mut sink);
    drop(sink);
    held
}

/// A sink that takes at most so many bytes at a time, and keeps how many it was given each time.
struct Sipping {
    most: usize,
    given: Vec<usize>,
}

impl Drop for Sipping {
    fn drop(self) {
        let Sipping { most: _, given } = self;
        drop(given);
    }
}

impl Sink for Sipping {
    ghost use Rattle.std.specs.Prelude.{None};

    ghost view = { λ _. record { told = None; faults = 0 } };

    fn write(&mut self, piece: &[u8]) -> Result<usize, Failed> {
        let _ = self.given.push(piece.len());
        Ok(piece.len().min(self.most.max(1)))
    }
}

fn front(bytes: &[u8], length: usize) -> &[u8] {
    let length = length.min(bytes.len());
    &bytes[..length]
}

/// Whether a whole piece is written where it fits, and its front where it doesn't.
fn takes_front(alloc: Global, room: usize) -> Result<bool, AllocError> {
    let mut sink = MemSink::new(alloc, room)?;
    let written = write_all(&mut sink, b"piece").is_ok();
    let holds = written == (5 <= room) && sink.bytes() == front(b"piece", room);
    drop(sink);
    Ok(holds)
}

#[test]
fn a_whole_piece_is_written(rt: HostRuntime) -> Result<(), Fail> {
    for room in 0..8 {
        expect(takes_front(rt.alloc(), room)?, "front")?;
    }
    Ok(())
}

fn sipping_sink(alloc: Global, most: usize) -> Sipping {
    Sipping {
        most,
        given: Vec::new(alloc),
    }
}

fn sips(mut sink: &mut Sipping) -> bool {
    let written = write_all(&mut sink, b"piece").is_ok();
    written & (sink.given.as_slice() == [5, 3, 1].as_slice())
}

#[test]
fn a_whole_piece_is_written_in_sips(rt: HostRuntime) -> Result<(), Fail> {
    let mut sink = sipping_sink(rt.alloc(), 2);
    let held = sips(&mut sink);
    drop(sink);
    expect(held, "sips")
}

/// Whether a piece of each of these lengths is taken.
fn holds_back(buffered: &mut Buffered<Sipping>, bytes: &[u8]) -> bool {
    let mut taken = true;
    for length in [3, 0, 5, 70_000, 65_535, 1, 1] {
        taken &= buffered.write(front(bytes, length)) == Ok(length);
    }
    taken
}

/// Whether all pieces are held back, handed on at the end, and given to the sink in these lengths.
fn hands_on(mut buffered: Buffered<Sipping>, bytes: &[u8]) -> bool {
    let held = holds_back(&mut buffered, bytes);
    let (sink, handed) = buffered.finish();
    let given = sink.given.as_slice() == [8, 70_000, 65_536, 1].as_slice();
    drop(sink);
    held & handed.is_ok() & given
}

fn hands_large_on(alloc: Global, large: &[u8]) -> Result<bool, AllocError> {
    let buffered = Buffered::new(alloc, sipping_sink(alloc, 100_000))?;
    Ok(hands_on(buffered, large))
}

/// Small pieces go on together. A piece of the room's size isn't held back, and goes on behind what was.
#[test]
fn small_pieces_are_held_back(rt: HostRuntime) -> Result<(), Fail> {
    let large = vec![in rt.alloc(); b'x'; 70_000]?;
    let held = hands_large_on(rt.alloc(), &large);
    drop(large);
    expect(held?, "held, handed on, given")
}

/// Whether a piece is held back, a fault is answered at the end, and the sink took the front.
fn tells_at_the_end(mut buffered: Buffered<MemSink>) -> bool {
    let held = write_all(&mut buffered, b"held").is_ok();
    let (sink, handed) = buffered.finish();
    let taken = sink.bytes() == b"hel".as_slice();
    drop(sink);
    held & handed.is_err() & taken
}

#[test]
fn a_fault_at_the_end_of_a_buffer_is_answered(rt: HostRuntime) -> Result<(), Fail> {
    let sink = MemSink::new(rt.alloc(), 3)?;
    let buffered = Buffered::new(rt.alloc(), sink)?;
    expect(tells_at_the_end(buffered), "held, fault, taken")
}

/// What a buffer whose sink fails once answers to three pieces and to its end, and whether the sink took what follows.
fn answers_behind(mut buffered: Buffered<MemSink>, large: &[u8]) -> [bool; 5] {
    let first = buffered.write(b"held").is_ok();
    let second = buffered.write(large).is_ok();
    let third = buffered.write(large).is_ok();
    let (sink, handed) = buffered.finish();
    let taken = sink.bytes().len() == 70_004 && sink.bytes().starts_with(b"heldx");
    drop(sink);
    [first, second, third, handed.is_ok(), taken]
}

fn failing_once(alloc: Global) -> Result<MemSink, AllocError> {
    let mut sink = MemSink::new(alloc, 100_000)?;
    match sink.fail_at(1) {
        Ok(()) => Ok(sink),
        Err(error) => {
            drop(sink);
            Err(error)
        }
    }
}

fn is_answered_behind(alloc: Global, large: &[u8]) -> Result<bool, AllocError> {
    let buffered = Buffered::new(alloc, failing_once(alloc)?)?;
    Ok(answers_behind(buffered, large) == [true, false, true, true, true])
}

#[test]
fn a_fault_behind_a_buffer_is_answered(rt: HostRuntime) -> Result<(), Fail> {
    let large = vec![in rt.alloc(); b'x'; 70_000]?;
    let answered = is_answered_behind(rt.alloc(), &large);
    drop(large);
    expect(answered?, "answers")
}

/// Prints some pieces and a quoted text, and answers whether a write failed.
fn print<K: Sink>(out: &mut K) -> bool {
    let mut printer = Printer::new();
    printer.put(out, b"a ");
    printer.put_quoted(out, "\\\"\n\r\t'/ ü€😀");
    printer.put(out, b"");
    printer.put(out, b"\n");
    printer.failed
}

const PRINTED: &str = "a \"\\\\\\\"\\n\\r\\t'/ ü€😀\"\n";

/// Whether what fits is printed, and a failure is told where not all does.
fn prints_front(alloc: Global, room: usize) -> Result<bool, AllocError> {
    let mut sink = MemSink::new(alloc, room)?;
    let failed = print(&mut sink);
    let holds = failed == (room < PRINTED.len()) && sink.bytes() == room_for(PRINTED, room);
    drop(sink);
    Ok(holds)
}

#[test]
fn pieces_and_quoted_texts_are_printed(rt: HostRuntime) -> Result<(), Fail> {
    for room in 0..40 {
        expect(prints_front(rt.alloc(), room)?, "printed")?;
    }
    Ok(())
}

fn prints_no_more(sink: &mut MemSink) -> Result<bool, AllocError> {
    sink.fail_at(2)?;
    Ok(print(sink) && sink.bytes() == b"a ".as_slice())
}

/// Nothing is printed behind a failure, even where the sink would take it.
#[test]
fn nothing_is_printed_behind_a_failure(rt: HostRuntime) -> Result<(), Fail> {
    let mut sink = MemSink::new(rt.alloc(), 40)?;
    let held = prints_no_more(&mut sink);
    drop(sink);
    expect(held?, "failed, printed")
}

/// The productions of XML 1.0, fifth edition, by code points: Char, S, and NameStartChar and NameChar without the
/// colon.
const CLASSES: &str = "\
Char 9-A D-D 20-D7FF E000-FFFD 10000-10FFFF
S 9-A D-D 20-20
NameStartChar 41-5A 5F-5F 61-7A C0-D6 D8-F6 F8-2FF 370-37D 37F-1FFF 200C-200D 2070-218F 2C00-2FEF 3001-D7FF F900-FDCF FDF0-FFFD 10000-EFFFF
NameChar 2D-2E 30-39 41-5A 5F-5F 61-7A B7-B7 C0-D6 D8-F6 F8-37D 37F-1FFF 200C-200D 203F-2040 2070-218F 2C00-2FEF 3001-D7FF F900-FDCF FDF0-FFFD 10000-EFFFF";

fn is_of(class: &str, c: char) -> bool {
    match class {
        "Char" => is_char(c),
        "S" => is_white_space(c),
        "NameStartChar" => is_name_start(c),
        _ => is_name_char(c),
    }
}

/// How many characters of the range are of the class.
fn count_of(class: &str, low: u32, high: u32) -> u32 {
    let mut count = 0u32;
    for code in low..high {
        if char::from_u32(code).is_some_and(|c| is_of(class, c)) {
            count = count.saturating_add(1);
        }
    }
    count
}

/// Whether the characters of the class from there to the end of the range are those of the range, and how far it is.
fn has_range(class: &str, passed: u32, range: &str) -> (bool, u32) {
    let (low, high) = halves(range, '-');
    let low = u32::from_str_radix(low, 16).unwrap_or(0);
    let behind = u32::from_str_radix(high, 16).unwrap_or(0).saturating_add(1);
    let none = count_of(class, passed, low) == 0;
    let all = count_of(class, low, behind) == behind.saturating_sub(low);
    (none & all, behind)
}

/// Whether these are the ranges of the class, in order.
fn has_ranges(class: &str, ranges: &str) -> bool {
    let mut passed = 0;
    let mut held = true;
    for range in ranges.split(' ') {
        let (is_range, behind) = has_range(class, passed, range);
        held &= is_range;
        passed = behind;
    }
    held & (count_of(class, passed, 0x110000) == 0)
}

struct Classes;

impl Holds for Classes {
    fn holds(&self, _: Global, row: &'static str) -> Result<bool, Fail> {
        let (class, ranges) = halves(row, ' ');
        Ok(has_ranges(class, ranges))
    }
}

#[test]
fn characters_are_those_of_the_productions(rt: HostRuntime) -> Result<(), Fail> {
    expect_rows(rt.alloc(), &Classes, CLASSES)
}

#[test]
fn places_and_kinds_are_compared() -> Result<(), Fail> {
    let place = Place { byte: 3 };
    let later = Place { byte: 20 };
    let places = [place == place, place == later, place < later];
    expect(places == [true, false, true], "places")?;
    let kinds = [Kind::Element == Kind::Attribute, Kind::Text == Kind::Text];
    expect(kinds == [false, true], "kinds")
}

fn is_made_again(made: &Txt, text: &str) -> Result<bool, AllocError> {
    let again = made.try_clone()?;
    let same = again.as_str() == text;
    drop(again);
    Ok(same)
}

fn is_made_of(alloc: Global, characters: &[char], text: &str) -> Result<bool, AllocError> {
    let made = Txt::from_characters(alloc, characters)?;
    let same = made.as_str() == text;
    let again = is_made_again(&made, text);
    drop(made);
    Ok(same & again?)
}

fn is_given(alloc: Global, text: &str) -> Result<bool, AllocError> {
    let given = Txt::of(alloc, text)?;
    let same = given.as_str() == text;
    drop(given);
    Ok(same)
}

fn texts_kept(alloc: Global) -> Result<[bool; 4], AllocError> {
    let characters = ['e', 'é', '€', '😀'];
    Ok([
        is_made_of(alloc, &characters, "eé€😀")?,
        is_made_of(alloc, &[], "")?,
        is_given(alloc, "eé€😀")?,
        is_given(alloc, "")?,
    ])
}

/// A text keeps its characters, and so does a second one.
#[test]
fn texts_are_kept(rt: HostRuntime) -> Result<(), Fail> {
    let kept = texts_kept(rt.alloc())?;
    expect(kept == [true; 4], "texts")
}

fn is_lent(alloc: Global) -> Result<bool, AllocError> {
    let mut string = Str::lent("");
    for text in ["", "ä", "", "bc"] {
        string = string.followed_by(alloc, text)?;
    }
    Ok(is_same_text(string.as_str(), "äbc"))
}

fn is_own(alloc: Global) -> Result<bool, AllocError> {
    let own = Str::own(Txt::of(alloc, "äb")?).followed_by(alloc, "c")?;
    let same = is_same_text(own.as_str(), "äbc") && !is_same_text(own.as_str(), "äb");
    drop(own);
    Ok(same)
}

#[test]
fn texts_are_put_one_behind_another(rt: HostRuntime) -> Result<(), Fail> {
    expect(is_lent(rt.alloc())?, "lent")?;
    expect(is_own(rt.alloc())?, "own")
}

fn are_kept(items: &mut Many<u32>) -> Result<bool, AllocError> {
    for item in [7u32, 5, 7] {
        items.push(item)?;
    }
    Ok(items.len() == 3 && items.as_slice() == [7u32, 5, 7].as_slice())
}

#[test]
fn items_are_kept_in_order(rt: HostRuntime) -> Result<(), Fail> {
    let mut items = Many::new(rt.alloc());
    let kept = are_kept(&mut items);
    drop(items);
    expect(kept?, "items")
}
