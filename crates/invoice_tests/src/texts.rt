//! Texts of tables.

use std::alloc::{AllocError, Global};

/// What stands before a mark and what stands behind it, which is nothing where there is no mark.
pub(crate) fn halves(row: &str, mark: char) -> (&str, &str) {
    row.split_once(mark).unwrap_or((row, ""))
}

/// The words of a row as numbers, and 0 for what is no number and behind them.
pub(crate) fn numbers(row: &str) -> [u32; 5] {
    let mut numbers = [0; 5];
    let mut count = 0;
    for word in row.split(' ') {
        if count < 5 {
            numbers[count] = word.parse().unwrap_or(0);
            count += 1;
        }
    }
    numbers
}

/// What a text of a row stands for: `~` for a space and `^` for a form feed.
pub(crate) fn spelled(alloc: Global, row: &str) -> Result<String, AllocError> {
    let mut text = String::new(alloc);
    for c in row.chars() {
        text.push(match c {
            '~' => ' ',
            '^' => '\u{C}',
            c => c,
        })?;
    }
    Ok(text)
}
