//! The texts of tables.

use std::alloc::{AllocError, Global};

/// The columns of a row, and empty ones behind them.
pub(crate) fn columns(row: &str, between: char) -> [&str; 5] {
    let mut columns = [""; 5];
    let mut count = 0;
    for text in row.split(between) {
        if count < 5 {
            columns[count] = text;
            count += 1;
        }
    }
    columns
}

/// What a text of a row stands for: `␊`, `␍` and `␉` for LF, CR and TAB, `␣` for U+FEFF, the byte order mark, and `␀`
/// for U+FFFE, which is no character of XML.
pub(crate) fn spelled(alloc: Global, row: &str) -> Result<String, AllocError> {
    let mut text = String::new(alloc);
    for c in row.chars() {
        text.push(match c {
            '␊' => '\n',
            '␍' => '\r',
            '␉' => '\t',
            '␣' => '\u{FEFF}',
            '␀' => '\u{FFFE}',
            _ => c,
        })?;
    }
    Ok(text)
}

/// Puts a piece behind a text, with a number for `#`.
fn push_piece(text: &mut String, piece: &str, number: u32) -> Result<(), AllocError> {
    match piece.split_once('#') {
        None => text.push_str(piece),
        Some((before, behind)) => write!(text, "{before}{number}{behind}"),
    }
}

/// A piece so many times, with the number of its time for `#`.
pub(crate) fn repeated(alloc: Global, piece: &str, times: u32) -> Result<String, AllocError> {
    let mut text = String::new(alloc);
    for time in 0..times {
        push_piece(&mut text, piece, time)?;
    }
    Ok(text)
}
