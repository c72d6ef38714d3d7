use json_reading::Span;
use term_table::{Context, Group, Term};

/// What is wrong with a member or an object.
#[derive(Clone, Copy, PartialEq, Eq)]
pub enum DataKind {
    /// The value of the text, or one in an array, is no object.
    NotAnObject,
    /// The object has no such term and no such array.
    UnknownMember,
    /// A member of the same name stands before in the object.
    DuplicateMember,
    /// The value of an array's name is neither an array nor `null`.
    NotAnArray,
    /// The value of a term is `true`, `false`, an object or an array.
    NotAText,
    /// A string or number is no value of the term's type.
    BadValue,
    /// A code isn't in its list.
    CodeNotListed,
    /// A mandatory term, or a group that has to stand at least once, isn't there.
    Missing,
}

/// What a fault names.
#[derive(Clone, Copy)]
pub enum DataName {
    Nothing,
    Term(Term),
    /// The array of a group.
    Array(Group),
    /// A name as it is spelled in the text.
    Spelled(Span),
}

/// A fault of a text's content.
#[derive(Clone, Copy)]
pub struct DataFault {
    pub kind: DataKind,
    /// The way to the object: arrays, and the positions in them from 1. That of BT-29 is the one of P-29S.
    pub place: Context,
    pub name: DataName,
    /// How many bytes stand before the place of the fault.
    pub at: u32,
}
