/// A place in a file by its line and its column, both counted from 1; columns are counted in bytes.
#[derive(Clone, Copy, Debug, PartialEq, Eq)]
pub struct LinePlace {
    pub line: u64,
    pub column: u64,
}
