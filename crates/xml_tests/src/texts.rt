//! Texts of tables.

use std::alloc::{AllocError, Global};

/// What stands before an arrow and what stands behind it.
pub(crate) fn halves(row: &str) -> (&str, &str) {
    row.split_once(" => ").unwrap_or((row, ""))
}

/// Puts the bytes of a part behind others. Each part but the first begins with the two digits of a byte.
fn push_part(bytes: &mut Vec<u8>, is_first: bool, part: &str) -> Result<(), AllocError> {
    if is_first {
        return bytes.extend_from_slice(part.as_bytes());
    }
    let digits = part.get(..2).unwrap_or("");
    bytes.push(u8::from_str_radix(digits, 16).unwrap_or(0))?;
    bytes.extend_from_slice(part.get(2..).unwrap_or("").as_bytes())
}

/// The bytes that are written: `%` and two hexadecimal digits are one.
pub(crate) fn bytes_of(alloc: Global, written: &str) -> Result<Vec<u8>, AllocError> {
    let mut bytes = Vec::new(alloc);
    let mut is_first = true;
    for part in written.split('%') {
        push_part(&mut bytes, is_first, part)?;
        is_first = false;
    }
    Ok(bytes)
}
