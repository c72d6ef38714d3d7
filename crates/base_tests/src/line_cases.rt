//! The lines and columns of places in files, whatever the pieces that these are given in.

use crate::texts::halves;
use line_places::{ByteReceiver, LinePlace, LineStarts};
use std::alloc::{AllocError, Global};
use std::test::Fail;
use test_rows::{Holds, expect_rows};

/// Bytes, in pieces with `|` between them and `␊` and `␍` for LF and CR; where each of them stands, and then the end.
const PLACES: &str = "\
>1:1
|>1:1
a>1:1 1:2
ab>1:1 1:2 1:3
␊>1:1 2:1
␊␊>1:1 2:1 3:1
␊a>1:1 2:1 2:2
a␊>1:1 1:2 2:1
a␊b␊>1:1 1:2 2:1 2:2 3:1
a␍␊b>1:1 1:2 1:3 2:1 2:2
a␍b>1:1 1:2 1:3 1:4
a␍|␊b>1:1 1:2 1:3 2:1 2:2
a|␊|␊|b>1:1 1:2 2:1 3:1 3:2
|a||b|>1:1 1:2 1:3
a␊|b␊|c>1:1 1:2 2:1 2:2 3:1 3:2
é␊é>1:1 1:2 1:3 2:1 2:2 2:3
€|␊>1:1 1:2 1:3 1:4 2:1
abcdefghijklmno␊pq|r␊s>1:1 1:2 1:3 1:4 1:5 1:6 1:7 1:8 1:9 1:10 1:11 1:12 1:13 1:14 1:15 1:16 2:1 2:2 2:3 2:4 3:1 3:2
abcdefghijklmnop␊q|r>1:1 1:2 1:3 1:4 1:5 1:6 1:7 1:8 1:9 1:10 1:11 1:12 1:13 1:14 1:15 1:16 1:17 2:1 2:2 2:3";

/// Puts the bytes of a piece behind others.
fn push_spelled(bytes: &mut String, piece: &str) -> Result<(), AllocError> {
    for c in piece.chars() {
        bytes.push(match c {
            '␊' => '\n',
            '␍' => '\r',
            _ => c,
        })?;
    }
    Ok(())
}

fn take_piece(alloc: Global, lines: &mut LineStarts, piece: &str) -> Result<(), AllocError> {
    let mut bytes = String::new(alloc);
    push_spelled(&mut bytes, piece)?;
    lines.take(bytes.as_bytes())
}

fn take_pieces(alloc: Global, lines: &mut LineStarts, pieces: &str) -> Result<(), AllocError> {
    for piece in pieces.split('|') {
        take_piece(alloc, lines, piece)?;
    }
    Ok(())
}

/// A line and a column, with a colon between them.
fn place_of(text: &str) -> LinePlace {
    let (line, column) = halves(text, ':');
    LinePlace {
        line: line.parse().unwrap_or(0),
        column: column.parse().unwrap_or(0),
    }
}

/// Whether the places from the first on stand so, and those behind the last of these stand as it does.
fn stand(lines: &LineStarts, wanted: &str) -> bool {
    let mut held = true;
    let mut byte = 0u64;
    let mut last = place_of("");
    for text in wanted.split(' ') {
        last = place_of(text);
        held &= lines.place(byte) == last;
        byte = byte.saturating_add(1);
    }
    held & (lines.place(byte) == last) & (lines.place(u64::MAX) == last)
}

fn stand_in(
    alloc: Global,
    lines: &mut LineStarts,
    pieces: &str,
    wanted: &str,
) -> Result<bool, AllocError> {
    take_pieces(alloc, lines, pieces)?;
    Ok(stand(lines, wanted))
}

struct Places;

impl Holds for Places {
    fn holds(&self, alloc: Global, row: &'static str) -> Result<bool, Fail> {
        let (pieces, wanted) = halves(row, '>');
        let mut lines = LineStarts::new(alloc);
        let held = stand_in(alloc, &mut lines, pieces, wanted);
        drop(lines);
        Ok(held?)
    }
}

#[test]
fn places_have_lines_and_columns(rt: HostRuntime) -> Result<(), Fail> {
    expect_rows(rt.alloc(), &Places, PLACES)
}

/// How many letters each line has, and in pieces of how many bytes they are given.
const LINES: &str = "\
0 1
1 1
7 3
14 16
15 16
15 5
16 16
16 1000
17 16
31 32
33 64
99 7";

/// A line of so many letters.
fn push_line(text: &mut String, letters: u64) -> Result<(), AllocError> {
    for _ in 0..letters {
        text.push('x')?;
    }
    text.push('\n')
}

fn push_lines(text: &mut String, letters: u64, count: u64) -> Result<(), AllocError> {
    for _ in 0..count {
        push_line(text, letters)?;
    }
    Ok(())
}

fn take_by(lines: &mut LineStarts, bytes: &[u8], piece: usize) -> Result<(), AllocError> {
    for part in bytes.chunks(piece.max(1)) {
        lines.take(part)?;
    }
    Ok(())
}

/// Whether the place stands in a line of so many letters as long lines do.
fn stands_evenly(lines: &LineStarts, letters: u64, line: u64) -> bool {
    let size = letters.saturating_add(1);
    let first = size.saturating_mul(line);
    let last = first.saturating_add(letters);
    let line = line.saturating_add(1);
    let starts = lines.place(first) == LinePlace { line, column: 1 };
    let ends = lines.place(last) == LinePlace { line, column: size };
    starts & ends
}

fn stand_evenly(lines: &LineStarts, letters: u64, count: u64) -> bool {
    let mut held = true;
    for line in 0..count {
        held &= stands_evenly(lines, letters, line);
    }
    held
}

fn are_even(
    alloc: Global,
    lines: &mut LineStarts,
    letters: u64,
    piece: usize,
) -> Result<bool, AllocError> {
    let mut text = String::new(alloc);
    push_lines(&mut text, letters, 20)?;
    take_by(lines, text.as_bytes(), piece)?;
    Ok(stand_evenly(lines, letters, 20))
}

struct EvenLines;

impl Holds for EvenLines {
    fn holds(&self, alloc: Global, row: &'static str) -> Result<bool, Fail> {
        let (letters, piece) = halves(row, ' ');
        let mut lines = LineStarts::new(alloc);
        let letters = letters.parse().unwrap_or(0);
        let held = are_even(alloc, &mut lines, letters, piece.parse().unwrap_or(0));
        drop(lines);
        Ok(held?)
    }
}

#[test]
fn long_lines_are_found(rt: HostRuntime) -> Result<(), Fail> {
    expect_rows(rt.alloc(), &EvenLines, LINES)
}
