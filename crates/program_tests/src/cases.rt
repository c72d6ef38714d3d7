//! A run of the program over files and outputs in memory, and its answer beside what is wanted.

use crate::files::FILES;
use inv_base::{MemShelf, MemSink, Shelf, Sink, SureShelf, SureSink};
use invoice_cli::{Status, run};
use std::alloc::{AllocError, Global};
use std::str::from_utf8;

/// A run of the program: its words, its files, what stands in its way, and what it is to write.
#[derive(Clone, Copy)]
pub(crate) struct Case<'a> {
    /// The words, in up to three texts. An empty text has none.
    pub(crate) words: [&'a str; 3],
    /// What stands between the words of a text.
    pub(crate) between: char,
    /// The file `f`, in up to three parts, beside the files that every case has.
    pub(crate) file: [&'a [u8]; 3],
    /// How many bytes a read gives at most.
    pub(crate) piece: usize,
    /// How many bytes each output has room for.
    pub(crate) room: usize,
    /// The number of the call of the shelf that fails, from 1; where it is 0, none does.
    pub(crate) failed_read: u64,
    /// The same of the writes of the output.
    pub(crate) failed_write: u64,
    /// The same of the writes of the error output.
    pub(crate) failed_line: u64,
    /// What is to be written to the output, in up to three parts.
    pub(crate) out: [&'a str; 3],
    /// What is to be written to the error output, in up to three parts.
    pub(crate) err: [&'a str; 3],
}

/// A case with nothing in its way: its words with white space between them, and the file `f`.
pub(crate) fn case_of<'a>(words: &'a str, file: &'a [u8]) -> Case<'a> {
    Case {
        words: [words, "", ""],
        between: ' ',
        file: [file, &[], &[]],
        piece: 1_000_000,
        room: 20_000,
        failed_read: 0,
        failed_write: 0,
        failed_line: 0,
        out: [""; 3],
        err: [""; 3],
    }
}

/// The case, in which a text is to be written to the output.
pub(crate) fn printing<'a>(case: Case<'a>, text: &'a str) -> Case<'a> {
    Case {
        out: [text, "", ""],
        ..case
    }
}

/// The case, in which such a line is to be written to the error output. Where nothing is told there is none.
pub(crate) fn telling<'a>(case: Case<'a>, told: &'a str) -> Case<'a> {
    if told.is_empty() {
        return case;
    }
    Case {
        err: ["einv: ", told, "\n"],
        ..case
    }
}

/// The case, in which it is told that a file isn't read.
pub(crate) fn telling_fault<'a>(case: Case<'a>, file: &'a str) -> Case<'a> {
    Case {
        err: ["einv: ", file, ": read fault\n"],
        ..case
    }
}

/// The case, in which the file `f` has such parts.
pub(crate) fn with_file<'a>(
    case: Case<'a>,
    front: &'a str,
    inside: &'a str,
    back: &'a str,
) -> Case<'a> {
    Case {
        file: [front.as_bytes(), inside.as_bytes(), back.as_bytes()],
        ..case
    }
}

/// The case, whose files are read in pieces of at most so many bytes.
pub(crate) fn in_pieces<'a>(case: &Case<'a>, piece: usize) -> Case<'a> {
    Case { piece, ..*case }
}

/// The case, in which the call of the shelf of this number fails.
pub(crate) fn failing_at<'a>(case: &Case<'a>, failed_read: u64) -> Case<'a> {
    Case {
        failed_read,
        ..*case
    }
}

/// What was written to an output beside what was to be written there.
#[derive(Clone, Copy, PartialEq, Eq)]
pub(crate) enum Written {
    Whole,
    /// So many bytes of it, which isn't all.
    Front(usize),
    /// All of it, and more.
    More,
    Other,
}

fn compare(bytes: &[u8], wanted: [&str; 3]) -> Written {
    let mut rest = bytes;
    let mut same = true;
    let mut whole = true;
    for text in wanted {
        let text = text.as_bytes();
        let (now, later) = rest.split_at(rest.len().min(text.len()));
        same &= text.starts_with(now);
        whole &= now.len() == text.len();
        rest = later;
    }
    match (same, whole) {
        (false, _) => Written::Other,
        (true, false) => Written::Front(bytes.len()),
        (true, true) if rest.is_empty() => Written::Whole,
        (true, true) => Written::More,
    }
}

/// What the program answered.
#[derive(Clone, Copy, PartialEq, Eq)]
pub(crate) struct Answer {
    pub(crate) status: Status,
    pub(crate) out: Written,
    pub(crate) err: Written,
}

/// Puts the words of a text behind others.
fn push_words(
    alloc: Global,
    words: &mut Vec<String>,
    text: &str,
    between: char,
) -> Result<(), AllocError> {
    for word in text.split(between) {
        words.push(String::from_str(alloc, word)?)?;
    }
    Ok(())
}

fn words_of(alloc: Global, case: &Case<'_>) -> Result<Vec<String>, AllocError> {
    let mut words = Vec::new(alloc);
    for text in case.words {
        if !text.is_empty() {
            push_words(alloc, &mut words, text, case.between)?;
        }
    }
    Ok(words)
}

/// Puts the files that every case has on the shelf.
fn add_files(shelf: &mut MemShelf) -> Result<(), AllocError> {
    for file in FILES.split('¶') {
        if let Some((name, content)) = file.split_once('\n') {
            shelf.add(name, content.as_bytes())?;
        }
    }
    Ok(())
}

fn joined(alloc: Global, parts: [&[u8]; 3]) -> Result<Vec<u8>, AllocError> {
    let mut whole = Vec::new(alloc);
    for part in parts {
        whole.extend_from_slice(part)?;
    }
    Ok(whole)
}

fn fill(alloc: Global, shelf: &mut MemShelf, case: &Case<'_>) -> Result<(), AllocError> {
    add_files(shelf)?;
    let file = joined(alloc, case.file)?;
    shelf.add("f", &file)?;
    shelf.fail_at(case.failed_read)
}

fn shelf_of(alloc: Global, case: &Case<'_>) -> Result<MemShelf, AllocError> {
    let mut shelf = MemShelf::new(alloc).with_piece(case.piece.max(1));
    match fill(alloc, &mut shelf, case) {
        Ok(()) => Ok(shelf),
        Err(error) => {
            drop(shelf);
            Err(error)
        }
    }
}

/// The output or the error output of a case, of whose writes this one fails.
fn sink_of(alloc: Global, room: usize, failing: u64) -> Result<MemSink, AllocError> {
    let mut sink = MemSink::new(alloc, room)?;
    match sink.fail_at(failing) {
        Ok(()) => Ok(sink),
        Err(error) => {
            drop(sink);
            Err(error)
        }
    }
}

/// Runs the program. It is the one place that does, since each costs minutes to prove.
fn run_over<S: Shelf, E: Sink>(
    alloc: Global,
    words: &[String],
    shelf: &mut S,
    out: &mut MemSink,
    err: &mut E,
) -> Status {
    run(alloc, words, shelf, out, err)
}

/// Runs the program over the files of a case.
fn run_words(
    alloc: Global,
    case: &Case<'_>,
    words: &[String],
    out: &mut MemSink,
    err: &mut MemSink,
) -> Result<Status, AllocError> {
    let mut shelf = shelf_of(alloc, case)?;
    let status = run_over(alloc, words, &mut shelf, out, err);
    drop(shelf);
    Ok(status)
}

fn run_case(
    alloc: Global,
    case: &Case<'_>,
    out: &mut MemSink,
    err: &mut MemSink,
) -> Result<Status, AllocError> {
    let words = words_of(alloc, case)?;
    let status = run_words(alloc, case, &words, out, err);
    drop(words);
    status
}

fn answer_in(
    alloc: Global,
    case: &Case<'_>,
    out: &mut MemSink,
    err: &mut MemSink,
) -> Result<Answer, AllocError> {
    let status = run_case(alloc, case, out, err)?;
    Ok(Answer {
        status,
        out: compare(out.bytes(), case.out),
        err: compare(err.bytes(), case.err),
    })
}

fn answer_into(alloc: Global, case: &Case<'_>, out: &mut MemSink) -> Result<Answer, AllocError> {
    let mut err = sink_of(alloc, case.room, case.failed_line)?;
    let answer = answer_in(alloc, case, out, &mut err);
    drop(err);
    answer
}

/// The program's answer to a case.
pub(crate) fn answer_to(alloc: Global, case: &Case<'_>) -> Result<Answer, AllocError> {
    let mut out = sink_of(alloc, case.room, case.failed_write)?;
    let answer = answer_into(alloc, case, &mut out);
    drop(out);
    answer
}

fn output_in(alloc: Global, case: &Case<'_>, out: &mut MemSink) -> Result<String, AllocError> {
    answer_into(alloc, case, out)?;
    String::from_str(alloc, from_utf8(out.bytes()).unwrap_or("no text"))
}

/// What the program writes to its output.
pub(crate) fn output_of(alloc: Global, case: &Case<'_>) -> Result<String, AllocError> {
    let mut out = sink_of(alloc, case.room, case.failed_write)?;
    let text = output_in(alloc, case, &mut out);
    drop(out);
    text
}

/// Whether the answer has this status, and what is wanted is written and nothing else.
pub(crate) fn answers(alloc: Global, case: &Case<'_>, status: Status) -> Result<bool, AllocError> {
    let wanted = Answer {
        status,
        out: Written::Whole,
        err: Written::Whole,
    };
    Ok(answer_to(alloc, case)? == wanted)
}

/// The same, where a row has the number of the status.
pub(crate) fn answers_number(
    alloc: Global,
    case: &Case<'_>,
    number: &str,
) -> Result<bool, AllocError> {
    let answer = answer_to(alloc, case)?;
    let whole = answer.out == Written::Whole && answer.err == Written::Whole;
    Ok(whole && has_number(answer.status, number))
}

/// Whether this is the number of the status.
pub(crate) fn has_number(status: Status, number: &str) -> bool {
    number.parse() == Ok(status as u8)
}

/// Runs the program over files that never fail, of which `f` alone has content.
fn run_surely(
    alloc: Global,
    case: &Case<'_>,
    words: &[String],
    out: &mut MemSink,
) -> Result<Status, AllocError> {
    let file = joined(alloc, case.file)?;
    let mut shelf = SureShelf::new(alloc);
    let added = shelf.add("f", &file);
    drop(file);
    let status = run_over(alloc, words, &mut shelf, out, &mut SureSink::new());
    drop(shelf);
    match added {
        Ok(()) => Ok(status),
        Err(error) => Err(error),
    }
}

fn writes_surely(alloc: Global, case: &Case<'_>, out: &mut MemSink) -> Result<bool, AllocError> {
    let words = words_of(alloc, case)?;
    let status = run_surely(alloc, case, &words, out);
    drop(words);
    Ok(status? == Status::Done && compare(out.bytes(), case.out) == Written::Whole)
}

/// Whether the job is done and what is wanted is written, over files that never fail and with an error output that takes
/// everything.
pub(crate) fn answers_surely(alloc: Global, case: &Case<'_>) -> Result<bool, AllocError> {
    let mut out = MemSink::new(alloc, case.room)?;
    let held = writes_surely(alloc, case, &mut out);
    drop(out);
    held
}
