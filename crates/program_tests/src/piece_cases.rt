//! However a shelf cuts its files, every job and every refusal is answered alike.

use crate::cases::{Case, answers_number, in_pieces, output_of, printing, telling};
use crate::jobs::{JOBS, REFUSALS, job_of};
use crate::texts::columns;
use std::alloc::{AllocError, Global};
use std::test::Fail;
use test_rows::{Holds, expect_rows};

/// Whether the case is answered so over files that are read whole, and in pieces of so many bytes.
fn answers_in_pieces(alloc: Global, case: &Case<'_>, number: &str) -> Result<bool, AllocError> {
    let mut held = true;
    for piece in [1_000_000, 1, 2, 3] {
        held &= answers_number(alloc, &in_pieces(case, piece), number)?;
    }
    Ok(held)
}

struct Jobs;

impl Holds for Jobs {
    fn holds(&self, alloc: Global, row: &'static str) -> Result<bool, Fail> {
        let [words, number, ..] = columns(row, '|');
        let out = output_of(alloc, &job_of(words))?;
        let case = printing(job_of(words), out.as_str());
        Ok(!out.is_empty() && answers_in_pieces(alloc, &case, number)?)
    }
}

#[test]
fn jobs_are_done_in_pieces(rt: HostRuntime) -> Result<(), Fail> {
    expect_rows(rt.alloc(), &Jobs, JOBS)
}

struct Refusals;

impl Holds for Refusals {
    fn holds(&self, alloc: Global, row: &'static str) -> Result<bool, Fail> {
        let [words, number, told, ..] = columns(row, '|');
        Ok(answers_in_pieces(alloc, &telling(job_of(words), told), number)?)
    }
}

#[test]
fn refusals_are_told_in_pieces(rt: HostRuntime) -> Result<(), Fail> {
    expect_rows(rt.alloc(), &Refusals, REFUSALS)
}
