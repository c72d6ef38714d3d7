//! Rows of a test: what is given, an arrow, and what is wanted. Each table of a test goes through here, so that its loop, the
//! cutting of a row and the failure that names the row are proved once.
#![tactic(auto)]

use std::alloc::Global;
use std::test::Fail;

/// Whether a row of a table holds.
pub trait Holds {
    fn holds(&self, alloc: Global, row: &'static str) -> Result<bool, Fail>;
}

/// What is shown of what a row gives.
pub trait Shown {
    fn shown(&self, alloc: Global, given: &'static str) -> Result<String, Fail>;
}

/// Fails with the row, or the word, where it doesn't hold.
pub fn expect(holds: bool, row: &'static str) -> Result<(), Fail> {
    holds.then_some(()).ok_or(row)?;
    Ok(())
}

fn expect_row<H: Holds>(alloc: Global, test: &H, row: &'static str) -> Result<(), Fail> {
    expect(test.holds(alloc, row)?, row)
}

/// Fails with the first row that doesn't hold, or with `no rows` where the table is empty.
pub fn expect_rows<H: Holds>(alloc: Global, test: &H, rows: &'static str) -> Result<(), Fail> {
    expect(!rows.is_empty(), "no rows")?;
    for row in rows.lines() {
        expect_row(alloc, test, row)?;
    }
    Ok(())
}

fn is_shown<S: Shown>(
    alloc: Global,
    test: &S,
    given: &'static str,
    wanted: &str,
) -> Result<bool, Fail> {
    Ok(test.shown(alloc, given)?.as_str() == wanted)
}

fn expect_shown_row<S: Shown>(
    alloc: Global,
    test: &S,
    arrow: &str,
    row: &'static str,
) -> Result<(), Fail> {
    let (given, wanted) = row.split_once(arrow).ok_or(row)?;
    expect(is_shown(alloc, test, given, wanted)?, row)
}

/// Fails with the first row of which something else is shown than stands behind the first arrow, or with `no rows` where the
/// table is empty.
pub fn expect_shown<S: Shown>(
    alloc: Global,
    test: &S,
    arrow: &str,
    rows: &'static str,
) -> Result<(), Fail> {
    expect(!rows.is_empty(), "no rows")?;
    for row in rows.lines() {
        expect_shown_row(alloc, test, arrow, row)?;
    }
    Ok(())
}
