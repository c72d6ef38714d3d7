/// A step of a pattern that is gone over.
#[derive(Clone, Copy)]
pub enum Step {
    /// A character of the class of the token at this place, or any character.
    One(Option<usize>),
    /// A choice begins.
    Save,
    /// The other side of the choice begins.
    Or,
    /// A choice ends.
    Join,
    /// What may come again begins; its end stands so many steps behind the next.
    Loop(usize),
    /// What may come again ends; whether it may be empty.
    End(bool),
}
