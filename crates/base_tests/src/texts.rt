//! Texts of tables.

/// What of a text fits in a room.
pub(crate) fn room_for(text: &str, room: usize) -> &[u8] {
    let bytes = text.as_bytes();
    let room = room.min(bytes.len());
    &bytes[..room]
}

/// What stands before a mark and what stands behind it, which is nothing where there is no mark.
pub(crate) fn halves(row: &str, mark: char) -> (&str, &str) {
    row.split_once(mark).unwrap_or((row, ""))
}

/// The columns of a row, and empty ones behind them.
pub(crate) fn columns(row: &str, between: char) -> [&str; 5] {
    let mut columns = [""; 5];
    let mut count = 0;
    for text in row.split(between) {
        if count < 5 {
            columns[count] = text;
            count += 1;
        }
    }
    columns
}
