use crate::fault::JsonFault;
use crate::item::{Container, ItemKind, Span};

/// What a string is for.
#[derive(Clone, Copy)]
pub enum Role {
    Name,
    Value,
}

/// A character of UTF-8 whose first bytes are read.
#[derive(Clone, Copy)]
pub struct Tail {
    /// Where it begins.
    pub at: u32,
    /// How many bytes are still to come.
    pub left: u8,
    /// The least that the next byte may be.
    pub low: u8,
    /// The greatest that the next byte may be.
    pub high: u8,
}

/// What comes next in a string.
#[derive(Clone, Copy)]
pub enum Inside {
    /// A character, an escape or the quote at the end.
    Plain,
    /// What stands behind a backslash.
    Escape,
    /// So many digits behind `\u`.
    Hex(u8),
    /// The rest of a character.
    Tail(Tail),
}

/// A string whose end isn't read.
#[derive(Clone, Copy)]
pub struct TextMode {
    /// Where its first quote stands.
    pub start: u32,
    /// Whether a backslash was read in it.
    pub escaped: bool,
    pub role: Role,
    pub inside: Inside,
}

/// What was read last of a number.
#[derive(Clone, Copy)]
pub enum Form {
    Minus,
    /// A zero in front, behind which no other digit stands.
    Zero,
    Integer,
    Point,
    Fraction,
    Exponent,
    Sign,
    Power,
}

/// A number whose end isn't read.
#[derive(Clone, Copy)]
pub struct NumberMode {
    /// Where it begins.
    pub start: u32,
    pub form: Form,
}

/// As much of `true`, `false` or `null` as is read.
#[derive(Clone, Copy)]
pub enum Letters {
    T,
    Tr,
    Tru,
    F,
    Fa,
    Fal,
    Fals,
    N,
    Nu,
    Nul,
}

/// A word whose end isn't read.
#[derive(Clone, Copy)]
pub struct WordMode {
    /// Where it begins.
    pub start: u32,
    pub letters: Letters,
}

/// What comes next.
#[derive(Clone, Copy)]
pub enum Mode {
    /// The whole text.
    Start,
    /// The second byte of a byte order mark.
    SecondOfMark,
    /// The third byte of a byte order mark.
    ThirdOfMark,
    /// A value.
    Value,
    /// The first value of an array, or its end.
    FirstItem,
    /// The first name of an object, or its end.
    FirstMember,
    /// A name.
    Name,
    /// The colon behind a name.
    Colon,
    /// What stands behind a value.
    Behind,
    Text(TextMode),
    Number(NumberMode),
    Word(WordMode),
}

/// What a byte does.
#[derive(Clone, Copy)]
pub enum Turn {
    /// What comes next is this.
    Goes(Mode),
    /// It can't stand here.
    Stops(JsonFault),
    /// It ends a name.
    Names(Span),
    /// It ends a string or word that is a value.
    Tells(ItemKind, Span),
    /// It begins an object or array.
    Begins(Container),
    /// It ends the innermost object or array.
    Closes,
}
