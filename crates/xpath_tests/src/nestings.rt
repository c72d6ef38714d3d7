//! Long texts: a core between openings and closings.

use crate::made::{Made, made_of};
use std::alloc::{AllocError, Global};
use std::test::Fail;
use test_rows::{Shown, expect_shown};

/// A core behind so many openings and ahead of so many closings.
#[derive(Clone, Copy)]
pub(crate) struct Nesting<'a> {
    pub(crate) openings: u32,
    pub(crate) open: &'a str,
    pub(crate) core: &'a str,
    pub(crate) close: &'a str,
    pub(crate) closings: u32,
}

/// The columns of a row, and empty ones behind them.
pub(crate) fn columns(row: &str) -> [&str; 5] {
    let mut columns = [""; 5];
    let mut count = 0;
    for text in row.split('|') {
        if count < 5 {
            columns[count] = text;
            count += 1;
        }
    }
    columns
}

fn nesting_of(written: &str) -> Result<Nesting<'_>, Fail> {
    let [openings, open, core, close, closings] = columns(written);
    Ok(Nesting {
        openings: openings.parse()?,
        open,
        core,
        close,
        closings: closings.parse()?,
    })
}

fn push_times(text: &mut String, piece: &str, times: u32) -> Result<(), AllocError> {
    for _ in 0..times {
        text.push_str(piece)?;
    }
    Ok(())
}

pub(crate) fn push_nesting(text: &mut String, nesting: &Nesting<'_>) -> Result<(), AllocError> {
    push_times(text, nesting.open, nesting.openings)?;
    text.push_str(nesting.core)?;
    push_times(text, nesting.close, nesting.closings)
}

/// What is made of a long text, or its refusal.
fn made_of_long(alloc: Global, made: Made, nesting: &Nesting<'_>) -> Result<String, AllocError> {
    let mut text = String::new(alloc);
    push_nesting(&mut text, nesting)?;
    made_of(alloc, made, text.as_str())
}

/// Whether that is made of a long text.
pub(crate) fn is_made_of(
    alloc: Global,
    made: Made,
    nesting: &Nesting<'_>,
    wanted: &str,
) -> Result<bool, AllocError> {
    Ok(made_of_long(alloc, made, nesting)?.as_str() == wanted)
}

/// What is made of long texts. A row says how many openings there are, the opening, the core, the closing, and how many
/// closings there are.
#[derive(Drop)]
struct MadeOfLong {
    made: Made,
}

impl Shown for MadeOfLong {
    fn shown(&self, alloc: Global, given: &'static str) -> Result<String, Fail> {
        Ok(made_of_long(alloc, self.made, &nesting_of(given)?)?)
    }
}

/// Fails with the first row whose long text isn't answered as its arrow says.
pub(crate) fn expect_nestings(alloc: Global, made: Made, rows: &'static str) -> Result<(), Fail> {
    expect_shown(alloc, &MadeOfLong { made }, " → ", rows)
}
