use inv_base::Many;

/// What a class has: the characters from one to another, both included, the digits 0 to 9 or all others, TAB, LF, CR
/// and space or all others.
#[derive(Clone, Copy)]
pub enum Member {
    Range(char, char),
    Digit,
    NotDigit,
    Space,
    NotSpace,
}

/// The characters that some member has, or all that none has.
pub struct Class {
    pub negated: bool,
    pub members: Many<Member>,
}

impl Drop for Class {
    fn drop(self) {
        let Class { negated, members } = self;
        drop(members);
    }
}

/// How often what stands before may come.
#[derive(Clone, Copy)]
pub enum Repeat {
    /// `?`
    Question,
    /// `*`
    Star,
    /// `+`
    Plus,
    /// Braces: so many, and at most so many more, or any number.
    Counted(u16, Option<u16>),
}

/// A token of a pattern. The class of an item is the class itself or what stands for it.
#[derive(Drop)]
pub enum Token<C> {
    /// One character of a class.
    Item(C),
    Quantifier(Repeat),
    /// `(`
    Opens,
    /// `)`
    Closes,
    /// `|`
    Bar,
    /// `^`
    Begins,
    /// `$`
    Ends,
}
