use term_table::{Group, ListingPlace, Term};

/// What a fault names: a business term, a group, or neither.
#[derive(Clone, Copy, PartialEq, Eq)]
pub enum Name {
    Term(Term),
    Group(Group),
    Nothing,
}

/// What is wrong with an invoice.
#[derive(Clone, Copy, PartialEq, Eq)]
pub enum TermFault {
    /// A mandatory term, or a group that has to stand at least once, isn't there.
    Missing(Name),
    /// The term's value is a code that isn't in the term's list.
    CodeNotListed(Term),
}

/// A lack with its place in listing order. The place of a group is that of its first row.
#[derive(Clone, Copy, PartialEq, Eq)]
pub struct ModelViolation {
    pub place: ListingPlace,
    pub fault: TermFault,
}
