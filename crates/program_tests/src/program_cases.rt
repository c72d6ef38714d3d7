//! The program's words, and its outputs where they are full or fail.

use crate::cases::{
    Answer, Case, Written, answer_to, answers, answers_surely, case_of, failing_at, has_number,
    output_of, printing, telling, telling_fault, with_file,
};
use crate::failing_cases::fails_writes;
use crate::jobs::{REFUSALS, job_of};
use crate::texts::{columns, repeated};
use invoice_cli::Status;
use rule_texts::RULES_VERSION;
use std::alloc::{AllocError, Global};
use std::test::Fail;
use test_rows::{Holds, expect, expect_rows};

const FIRST: &[u8] = b"<a><b>x</b></a>";

const FIRST_OUTLINE: &str = "a\n  b\n    \"x\"\n";

/// Words that name no job, with commas between them, and the number of the first that is bad.
const BAD_WORDS: &str = "\
>1
,f>1
list,f>1
Outline,f>1
f,outline>1
--outline,f>1
-h>1
outline>2
outline,--help>2
outline,--,f>2
validate>2
validate,--rules,r,f>2
validate,--phase,#ALL,f>2
validate,--to,ubl,f>2
validate,--help>2
try>2
try,0>2
try,01>2
try,+1>2
try,1.0>2
try,10001>2
try,18446744073709551617>2
--help,f>2
--version,--help>2
outline,f,--help>3
validate,--svrl>3
validate,--codes>3
validate,f,--svrl>3
validate,--svrl,--svrl,f>3
try,1,2>3
try,10000,--svrl>3
outline,absent.xml,second.xml>3
validate,--svrl,--codes,c,--svrl,f>5";

struct BadWords;

impl Holds for BadWords {
    fn holds(&self, alloc: Global, row: &'static str) -> Result<bool, Fail> {
        let [words, number, ..] = columns(row, '>');
        let case = Case {
            between: ',',
            err: ["einv: bad word ", number, "\n"],
            ..case_of(words, FIRST)
        };
        Ok(answers(alloc, &case, Status::BadWords)?)
    }
}

#[test]
fn bad_words_are_told(rt: HostRuntime) -> Result<(), Fail> {
    expect_rows(rt.alloc(), &BadWords, BAD_WORDS)
}

/// Whether a page with such a front is printed.
fn is_page(alloc: Global, words: &str, front: &str) -> Result<bool, AllocError> {
    let page = output_of(alloc, &case_of(words, FIRST))?;
    let case = printing(case_of(words, FIRST), page.as_str());
    let is_whole = page.as_str().starts_with(front) && page.as_str().ends_with('\n');
    Ok(is_whole && answers(alloc, &case, Status::Done)?)
}

#[test]
fn help_and_version_are_printed(rt: HostRuntime) -> Result<(), Fail> {
    expect(is_page(rt.alloc(), "--help", "usage: einv ")?, "--help")?;
    expect(is_page(rt.alloc(), "--version", "einv 0.")?, "--version")
}

/// The first example is answered over files that never fail too, and so is a file that is empty there.
#[test]
fn files_that_never_fail_are_read(rt: HostRuntime) -> Result<(), Fail> {
    let first = printing(case_of("outline f", FIRST), FIRST_OUTLINE);
    expect(answers_surely(rt.alloc(), &first)?, "f")?;
    let empty = case_of("outline g", FIRST);
    expect(!answers_surely(rt.alloc(), &empty)?, "g")
}

/// Of each row the words, with commas between them, and the file that is absent, with a bar behind it.
const ABSENT: &str = "\
outline,absent.xml|absent.xml|
outline,-|-|
outline,||
outline,f |f |";

struct AbsentFiles;

impl Holds for AbsentFiles {
    fn holds(&self, alloc: Global, row: &'static str) -> Result<bool, Fail> {
        let [words, file, ..] = columns(row, '|');
        let case = Case {
            between: ',',
            ..telling_fault(case_of(words, FIRST), file)
        };
        Ok(answers(alloc, &case, Status::ReadFault)?)
    }
}

#[test]
fn absent_files_are_read_faults(rt: HostRuntime) -> Result<(), Fail> {
    expect_rows(rt.alloc(), &AbsentFiles, ABSENT)
}

fn fails_calls(alloc: Global, case: &Case<'_>, behind: u64) -> Result<bool, AllocError> {
    let mut held = true;
    for call in 1..behind {
        held &= answers(alloc, &failing_at(case, call), Status::ReadFault)?;
    }
    Ok(held)
}

/// The outline of a document of 70,000 bytes, which isn't read in one piece. The 1st call opens the file, the 2nd and
/// the 3rd read its pieces, and the 4th finds its end.
fn fails_long_reads(alloc: Global, inside: &str) -> Result<bool, AllocError> {
    let case = Case {
        room: 70_000,
        ..with_file(case_of("outline f", b""), "<a>", inside, "</a>")
    };
    let failed = fails_calls(alloc, &telling_fault(case, "f"), 5)?;
    let done = Case {
        failed_read: 5,
        out: ["a\n  \"", inside, "\"\n"],
        ..case
    };
    Ok(failed & answers(alloc, &done, Status::Done)?)
}

#[test]
fn failed_reads_are_told(rt: HostRuntime) -> Result<(), Fail> {
    let inside = repeated(rt.alloc(), "x", 69_993)?;
    let held = fails_long_reads(rt.alloc(), inside.as_str());
    drop(inside);
    expect(held?, "long reads")
}

/// The outline of the first document.
fn first_outline() -> Case<'static> {
    printing(case_of("outline f", FIRST), FIRST_OUTLINE)
}

#[test]
fn failed_writes_are_told(rt: HostRuntime) -> Result<(), Fail> {
    let held = fails_writes(rt.alloc(), &first_outline(), "0")?;
    expect(held, "outline f")
}

/// Whether an output that is full has a front of so many bytes.
fn has_front(alloc: Global, job: &Case<'_>, room: usize) -> Result<bool, AllocError> {
    let wanted = Answer {
        status: Status::WriteFault,
        out: Written::Front(room),
        err: Written::Whole,
    };
    Ok(answer_to(alloc, &Case { room, ..*job })? == wanted)
}

/// Whether the job is answered so where the output has room for less than its text of so many bytes, for all of it, and
/// for more.
fn fills_output(alloc: Global, job: &Case<'_>, length: usize) -> Result<bool, AllocError> {
    let mut held = true;
    for room in 0..length {
        held &= has_front(alloc, job, room)?;
    }
    for room in [length, length.saturating_add(1)] {
        held &= answers(alloc, &Case { room, ..*job }, Status::Done)?;
    }
    Ok(held)
}

#[test]
fn a_full_output_has_a_front(rt: HostRuntime) -> Result<(), Fail> {
    let version = Case {
        out: ["einv 0.1.0\n", RULES_VERSION, "\n"],
        ..case_of("--version", FIRST)
    };
    let length = RULES_VERSION.len().saturating_add(12);
    let filled = fills_output(rt.alloc(), &version, length)?;
    expect(filled, "--version")?;
    let length = FIRST_OUTLINE.len();
    let filled = fills_output(rt.alloc(), &first_outline(), length)?;
    expect(filled, "outline f")
}

/// Whether a refusal is answered so where the error output has so much room.
fn fills_room(alloc: Global, row: &str, room: usize) -> Result<bool, AllocError> {
    let [words, number, told, ..] = columns(row, '|');
    let case = Case {
        room,
        ..telling(job_of(words), told)
    };
    let answer = answer_to(alloc, &case)?;
    let wanted = if room < told.len().saturating_add(7) {
        Written::Front(room)
    } else {
        Written::Whole
    };
    let same = has_number(answer.status, number) && answer.out == Written::Whole;
    Ok(same && answer.err == wanted)
}

struct FullLines;

/// The error output has room for less than the line of a refusal, for all of it, and for more.
impl Holds for FullLines {
    fn holds(&self, alloc: Global, row: &'static str) -> Result<bool, Fail> {
        let [_, _, told, ..] = columns(row, '|');
        let mut held = true;
        for room in 0..told.len().saturating_add(9) {
            held &= fills_room(alloc, row, room)?;
        }
        Ok(held)
    }
}

#[test]
fn a_full_error_output_has_a_front(rt: HostRuntime) -> Result<(), Fail> {
    expect_rows(rt.alloc(), &FullLines, REFUSALS)
}
