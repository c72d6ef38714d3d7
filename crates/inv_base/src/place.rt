/// A place in a file: a number of bytes from its start, a byte order mark included.
#[derive(Clone, Copy, Debug, PartialEq, Eq, Hash, PartialOrd, Ord)]
pub struct Place {
    pub byte: u64,
}
