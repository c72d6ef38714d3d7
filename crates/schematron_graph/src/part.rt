/// A thing of a rule's own, as a let or an assertion.
#[derive(Clone, Copy, PartialEq, Eq)]
pub struct Thing {
    /// Its number, which means nothing here.
    pub number: u32,
    /// It counts for the size of a rule.
    pub counts: bool,
}

/// What stands in the body of a rule.
#[derive(Clone, Copy, PartialEq, Eq)]
pub enum Part {
    /// A thing of its own.
    Own(Thing),
    /// The rule of that number puts its things here.
    Puts(usize),
}

/// A place in the bodies: a rule, and how many of its parts are before it.
#[derive(Clone, Copy, PartialEq, Eq)]
pub struct Spot {
    pub rule: usize,
    pub part: usize,
}
