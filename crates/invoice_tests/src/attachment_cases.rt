use crate::building::{context_of, push_text};
use crate::texts::{halves, spelled};
use inv_base::MemSink;
use inv_terms::{AttachFault, Invoice, attachment};
use std::alloc::{AllocError, Global};
use std::test::Fail;
use term_table::Group;
use test_rows::{Holds, expect, expect_rows};

/// Attached documents, one a line, with `~` for a space.
const DOCUMENTS: &str = "\
SGk=
~S\tG\r~k~=~
SGk
SGl=
SGk==
S
SGk-
AP8=";

/// The number of a document, the room of the output, the answer, and the bytes that were written, as numbers.
const ANSWERS: &str = "\
0 9 none
1 9 ok 72 105
2 9 ok 72 105
3 9 text
4 9 text
5 9 text
6 9 text
7 9 text
8 9 ok 0 255
9 9 none
1 1 fault 72
3 0 text
4294967295 0 none";

fn push_document(
    alloc: Global,
    invoice: &mut Invoice,
    index: u32,
    line: &'static str,
) -> Result<(), Fail> {
    let text = spelled(alloc, line)?;
    let context = context_of(Group::SupportingDocument, index, 0);
    let pushed = push_text(alloc, invoice, 138, context, text.as_str())?;
    expect(pushed == "ok", line)
}

fn push_documents(alloc: Global, invoice: &mut Invoice) -> Result<(), Fail> {
    let mut index = 0u32;
    for line in DOCUMENTS.lines() {
        index = index.saturating_add(1);
        push_document(alloc, invoice, index, line)?;
    }
    Ok(())
}

/// What `attachment` answers, in a word.
fn word_of(answer: Result<(), AttachFault>) -> &'static str {
    match answer {
        Ok(()) => "ok",
        Err(AttachFault::NoSuch) => "none",
        Err(AttachFault::NotBase64) => "text",
        Err(AttachFault::WriteFault) => "fault",
        Err(AttachFault::Memory) => "memory",
    }
}

/// Whether exactly these bytes were written.
fn are_written(bytes: &[u8], wanted: &str) -> bool {
    let mut count = 0usize;
    for word in wanted.split_whitespace() {
        if bytes.get(count).copied() != word.parse().ok() {
            return false;
        }
        count = count.saturating_add(1);
    }
    bytes.len() == count
}

/// Whether the answer is that, and these bytes are written into so much room.
fn is_answered(
    alloc: Global,
    invoice: &Invoice,
    k: u32,
    room: usize,
    want: &str,
) -> Result<bool, AllocError> {
    let (answer, bytes) = halves(want, ' ');
    let mut out = MemSink::new(alloc, room)?;
    let answered = word_of(attachment(alloc, invoice, k, &mut out)) == answer;
    let written = are_written(out.bytes(), bytes);
    drop(out);
    Ok(answered & written)
}

#[derive(Clone, Copy)]
struct Answers<'a> {
    invoice: &'a Invoice,
}

impl Holds for Answers<'_> {
    fn holds(&self, alloc: Global, row: &'static str) -> Result<bool, Fail> {
        let (k, rest) = halves(row, ' ');
        let (room, want) = halves(rest, ' ');
        let k = k.parse().unwrap_or(0);
        let room = room.parse().unwrap_or(0);
        Ok(is_answered(alloc, self.invoice, k, room, want)?)
    }
}

fn expect_answers(alloc: Global, invoice: &mut Invoice) -> Result<(), Fail> {
    push_documents(alloc, invoice)?;
    let answers = Answers { invoice };
    expect_rows(alloc, &answers, ANSWERS)
}

#[test]
fn attached_documents_are_written(rt: HostRuntime) -> Result<(), Fail> {
    let mut invoice = Invoice::new(rt.alloc())?;
    let held = expect_answers(rt.alloc(), &mut invoice);
    drop(invoice);
    held
}
