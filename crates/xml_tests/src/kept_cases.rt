//! How many bytes of a document a reader keeps between two pieces.

use crate::reader_cases::{AMPLE, Recorder, SIZES, new_recorder};
use crate::texts::{bytes_of, halves};
use std::alloc::{AllocError, Global};
use std::test::Fail;
use test_rows::{Holds, expect_rows};
use xml_profile::Reader;

/// Documents, with `%` and two hexadecimal digits for a byte, and how many bytes are kept behind each of their bytes: a
/// digit, or from 10 on a letter, and `!` where a fault is answered and nothing is kept.
const KEPT: &str = "\
<a><!--x--></a> => 120123000001230
<a><!--%C3%A9->-- => 1201230000000
<a><!- => 120123
<!--c--><a/> => 123000001230
<a/><!-- - --> => 12301230000000
<a><?p q?></a> => 12010000001230
<a><?xml-p?></a> => 1201000000001230
<a><?p %E2%82 => 120100000
<?p q?><a/> => 12000001230
<?xml-p?><a/> => 1234500001230
<a/><?p?> => 123010000
<?xml version='1.0'?><a/> => 123456789abcdefghijk01230
<?xml version= => 123456789abcde
%EF%BB%BF<?xm => 1201234
<a><![CDATA[x]]></a> => 120123456789abc01230
<a><![CDATA[x]] => 120123456789abc
<a b='c'>x]]y&lt;%C3%A9%0D%0A</a> => 1234567800120123010101230
<a><b c='< => 1201234567
<a><b c='> => 1201234567
<a>&#x2 => 1201234
<a></b>xyz => 120123!!!!
<a>&x;<b => 12012!!!
<a>]]><b => 12012!!!
<!DOCTYPE a> => 12345678!!!!
<a><!--x--y--><b => 1201230000000!!!
<a><?p:q?><b => 120100000!!!";

/// Whether so many bytes are kept, and a fault was answered or not, as the mark says.
fn is_marked(mark: u8, kept: usize, failed: bool) -> bool {
    match mark {
        b'!' => failed && kept == 0,
        b'0'..=b'9' => !failed && kept == usize::from(mark - b'0'),
        b'a'..=b'z' => !failed && kept == usize::from(mark - b'a') + 10,
        _ => false,
    }
}

fn is_last_marked(marks: &[u8], kept: usize, failed: bool) -> bool {
    match marks.last() {
        Some(mark) => is_marked(*mark, kept, failed),
        None => false,
    }
}

/// Whether behind each piece of so many bytes is kept what the marks say.
fn keeps(
    reader: &mut Reader,
    recorder: &mut Recorder,
    document: &[u8],
    marks: &[u8],
    size: usize,
) -> bool {
    let mut same = document.len() == marks.len();
    let mut rest = marks;
    for piece in document.chunks(size.max(1)) {
        let failed = reader.feed(piece, recorder).is_err();
        let (now, later) = rest.split_at(piece.len().min(rest.len()));
        same &= is_last_marked(now, reader.kept(), failed);
        rest = later;
    }
    same
}

fn keeps_as_marked(
    alloc: Global,
    document: &[u8],
    marks: &[u8],
    size: usize,
) -> Result<bool, AllocError> {
    let mut reader = Reader::new(alloc, AMPLE)?;
    let mut recorder = new_recorder(alloc);
    let kept = keeps(&mut reader, &mut recorder, document, marks, size);
    drop(recorder);
    drop(reader);
    Ok(kept)
}

fn keeps_in_pieces(alloc: Global, document: &[u8], marks: &[u8]) -> Result<bool, AllocError> {
    let mut kept = true;
    for size in SIZES {
        kept &= keeps_as_marked(alloc, document, marks, size)?;
    }
    Ok(kept)
}

struct Kept;

impl Holds for Kept {
    fn holds(&self, alloc: Global, row: &'static str) -> Result<bool, Fail> {
        let (written, marks) = halves(row);
        let document = bytes_of(alloc, written)?;
        Ok(keeps_in_pieces(alloc, &document, marks.as_bytes())?)
    }
}

/// The bytes of an unfinished token are kept, and none behind a finished one, inside a comment or an instruction, or
/// behind a fault.
#[test]
fn only_unfinished_tokens_are_kept(rt: HostRuntime) -> Result<(), Fail> {
    expect_rows(rt.alloc(), &Kept, KEPT)
}
