use bind_rows::{Many, Step};

/// An element of a table, with the rows that end at it. The lines of a table stand in preorder: those of the elements
/// in it follow an element's line, and then those of the elements beside it.
pub struct Line {
    pub step: Step,
    /// The numbers of the rows that end at the element or at an attribute of it, from 0, rising.
    pub rows: Many<usize>,
    /// How many lines stand inside this one.
    pub size: usize,
}

impl Drop for Line {
    fn drop(self) {
        let Line {
            step,
            rows,
            size: _,
        } = self;
        drop(step);
        drop(rows);
    }
}
