//! Every job where a call of the shelf, of the output or of the error output fails.

use crate::cases::{
    Answer, Case, Written, answer_to, answers, case_of, failing_at, has_number, output_of,
    printing, telling, telling_fault,
};
use crate::invoice_cases::INVOICE;
use crate::jobs::{JOBS, REFUSALS, job_of};
use crate::texts::columns;
use invoice_cli::Status;
use std::alloc::{AllocError, Global};
use std::test::Fail;
use test_rows::{Holds, expect, expect_rows};

/// A file is opened, its bytes are read in one piece, and its end is found.
const CALLS: u64 = 3;

/// No job here writes as often as this.
const MANY: u64 = 10_000;

/// Whether it is told in turn that each call on a file fails. `before` calls come before it.
fn fails_file(alloc: Global, job: &Case<'_>, before: u64) -> Result<bool, AllocError> {
    let mut held = true;
    for call in 1..CALLS + 1 {
        let case = failing_at(job, before.saturating_add(call));
        held &= answers(alloc, &case, Status::ReadFault)?;
    }
    Ok(held)
}

/// Whether it is told in turn that each call on the job's files fails.
pub(crate) fn fails_reads<'a>(
    alloc: Global,
    job: Case<'a>,
    files: &'a str,
) -> Result<bool, AllocError> {
    let mut before = 0u64;
    let mut held = true;
    for file in files.split_whitespace() {
        held &= fails_file(alloc, &telling_fault(job, file), before)?;
        before = before.saturating_add(CALLS);
    }
    Ok(held)
}

struct FailingReads;

impl Holds for FailingReads {
    fn holds(&self, alloc: Global, row: &'static str) -> Result<bool, Fail> {
        let [words, _, files, ..] = columns(row, '|');
        Ok(fails_reads(alloc, job_of(words), files)?)
    }
}

#[test]
fn each_call_of_the_shelf_may_fail(rt: HostRuntime) -> Result<(), Fail> {
    expect_rows(rt.alloc(), &FailingReads, JOBS)
}

/// Whether a write failed where the one of this number fails. Then the output has a front; else the job is done.
/// Nothing is told where it is otherwise.
pub(crate) fn fail_write(
    alloc: Global,
    job: &Case<'_>,
    number: &str,
    failed_write: u64,
) -> Result<Option<bool>, AllocError> {
    let case = Case {
        failed_write,
        ..*job
    };
    let answer = answer_to(alloc, &case)?;
    let failed = answer.status == Status::WriteFault;
    let holds = match answer.out {
        Written::Front(_) => failed,
        Written::Whole => has_number(answer.status, number),
        _ => false,
    };
    Ok((holds && answer.err == Written::Whole).then_some(failed))
}

/// Whether each write that fails in turn is told, from the first on until one is never made.
pub(crate) fn fails_writes(
    alloc: Global,
    job: &Case<'_>,
    number: &str,
) -> Result<bool, AllocError> {
    for call in 1..MANY {
        match fail_write(alloc, job, number, call)? {
            Some(true) => {}
            Some(false) => return Ok(1 < call),
            None => return Ok(false),
        }
    }
    Ok(false)
}

struct FailingWrites;

impl Holds for FailingWrites {
    fn holds(&self, alloc: Global, row: &'static str) -> Result<bool, Fail> {
        let [words, number, ..] = columns(row, '|');
        let out = output_of(alloc, &job_of(words))?;
        let case = printing(job_of(words), out.as_str());
        Ok(fails_writes(alloc, &case, number)?)
    }
}

#[test]
fn each_write_may_fail(rt: HostRuntime) -> Result<(), Fail> {
    expect_rows(rt.alloc(), &FailingWrites, JOBS)
}

/// Whether a front of the line is written where this write of the error output fails.
fn has_front(line: Written, call: u64) -> bool {
    let nothing = line == Written::Front(0);
    let front = matches!(line, Written::Front(_));
    let whole = line == Written::Whole;
    nothing == (call == 1) && (whole || front && call < MANY)
}

/// Whether a refusal is answered so where this write of the error output fails.
fn fails_line(alloc: Global, row: &str, failed_line: u64) -> Result<bool, AllocError> {
    let [words, number, told, ..] = columns(row, '|');
    let case = Case {
        failed_line,
        ..telling(job_of(words), told)
    };
    let answer = answer_to(alloc, &case)?;
    let same = has_number(answer.status, number) && answer.out == Written::Whole;
    Ok(same && has_front(answer.err, failed_line))
}

struct FailingLines;

impl Holds for FailingLines {
    fn holds(&self, alloc: Global, row: &'static str) -> Result<bool, Fail> {
        let mut held = true;
        for call in [1, 2, 3, 4, 5, 6, 7, 8, MANY] {
            held &= fails_line(alloc, row, call)?;
        }
        Ok(held)
    }
}

#[test]
fn each_write_of_a_refusal_may_fail(rt: HostRuntime) -> Result<(), Fail> {
    expect_rows(rt.alloc(), &FailingLines, REFUSALS)
}

/// Whether a front of an invoice is refused in its place.
fn refuses_front(alloc: Global, front: &[u8]) -> Result<bool, AllocError> {
    let wanted = Answer {
        status: Status::DocumentRefused,
        out: Written::Whole,
        err: Written::More,
    };
    let case = Case {
        err: ["einv: f: ", "", ""],
        ..case_of("show f", front)
    };
    Ok(answer_to(alloc, &case)? == wanted)
}

fn refuses_fronts(alloc: Global, invoice: &[u8]) -> Result<bool, AllocError> {
    for count in 0..invoice.len() {
        if !refuses_front(alloc, &invoice[..count])? {
            return Ok(false);
        }
    }
    Ok(true)
}

#[test]
fn each_front_of_an_invoice_is_refused(rt: HostRuntime) -> Result<(), Fail> {
    expect(refuses_fronts(rt.alloc(), INVOICE.as_bytes())?, "front")
}
