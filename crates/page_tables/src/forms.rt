use term_table::{Group, Term};

/// Of which codes a meaning follows the value.
#[derive(Clone, Copy, PartialEq, Eq)]
pub enum Meanings {
    /// No meaning follows.
    None,
    /// VAT categories.
    Category,
    /// Means of payment.
    Means,
    /// Units of measure.
    Unit,
    /// Points at which VAT is due.
    Point,
}

/// A term, with the words before its value and what follows it.
pub type Part = (&'static str, Term, Meanings);

/// What an item of a layout becomes.
#[derive(Clone, Copy, PartialEq, Eq)]
pub enum Form {
    /// A row with its label.
    Row,
    /// A row whose label is the value of a term.
    RowOf(Term),
    /// A paragraph with its class, or with none where that is empty.
    Paragraph,
    /// A row for each term that a user's table adds.
    Added,
}

/// An item of a layout: the group in each of whose occurrences it stands, if any; its form, its label or class, and its parts.
pub type Item = (Option<Group>, Form, &'static str, &'static [Part]);

/// Whether a column has numbers, which stand at its right.
#[derive(Clone, Copy, PartialEq, Eq)]
pub enum Align {
    Texts,
    Numbers,
}

/// The column of a table, with its heading.
pub type Column = (Align, &'static str);

/// What a cell holds.
#[derive(Clone, Copy, PartialEq, Eq)]
pub enum Holds {
    Words,
    Parts,
    Layout,
}

/// A cell of a table's row: how its column is aligned, and its words, its parts or its layout, whichever it holds.
pub type Cell = (Align, Holds, &'static str, &'static [Part], &'static [Item]);

/// The row of a table for each occurrence of a group.
pub type Row = (Group, &'static [Cell]);

/// A section of the page: its class, or none where that is empty; its heading, or none; its layout.
pub type Section = (&'static str, &'static str, &'static [Item]);

/// A section with a table: its class, its heading, its columns and its rows.
pub type Table = (
    &'static str,
    &'static str,
    &'static [Column],
    &'static [Row],
);
