/// What a value is.
#[derive(Clone, Copy, Debug, PartialEq, Eq)]
pub enum ItemKind {
    Object,
    Array,
    Text,
    Number,
    True,
    False,
    Null,
}

/// What values stand inside.
#[derive(Clone, Copy)]
pub enum Container {
    /// An object, whose members are named.
    Object,
    /// An array, whose items are not.
    Array,
}

/// Where a name or a value is spelled: a string with its quotes, an object or array with its brackets.
#[derive(Clone, Copy)]
pub struct Span {
    /// How many bytes stand before it.
    pub at: u32,
    /// How many bytes stand before what is behind it.
    pub end: u32,
    /// Whether it is a string with an escape.
    pub escaped: bool,
}

/// A value. Those inside an object or array stand behind it, in the order of the text.
#[derive(Clone, Copy)]
pub struct Item {
    pub kind: ItemKind,
    /// The name, where it is a member of an object.
    pub name: Option<Span>,
    pub value: Span,
    /// How many items stand inside it, those inside one another counted each: so many have to be stepped over to come behind it.
    pub inside: usize,
}
