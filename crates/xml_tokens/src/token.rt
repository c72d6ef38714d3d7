//! The tokens as the code has them: they lend the document's bytes, and hold a text of their own only where a value
//! says something else than it shows.
ghost use Rattle.std.specs.Prelude.{◌≡◌};

/// What a value says: the bytes as they stand, or another text, where it has references or white space that isn't a
/// space.
#[derive(Debug, Drop)]
pub enum Value<'b> {
    /// The value as it is written.
    Lent(&'b str),
    /// What it says, made anew.
    Own(String),
}

/// An attribute of a tag.
#[derive(Debug, Drop)]
pub struct Attribute<'b> {
    /// The name as written, its prefix and colon among it.
    pub name: &'b str,
    /// What the value says, its references resolved and its white space normalised (XML 1.0, section 3.3.3).
    pub value: Value<'b>,
}

/// A start tag or an empty-element tag.
#[derive(Debug, Drop)]
pub struct StartTag<'b> {
    /// The name as written, its prefix and colon among it.
    pub name: &'b str,
    /// In the order written, with the declarations of namespaces.
    pub attributes: Vec<Attribute<'b>>,
    /// Whether it is an empty-element tag.
    pub is_empty: bool,
}

/// What stands inside a CDATA section, as written: its line ends aren't LF yet.
#[derive(Clone, Copy, Debug)]
pub struct Section<'b> {
    /// The text between `<![CDATA[` and `]]>`.
    pub written: &'b str,
}

/// A token.
#[derive(Debug, Drop)]
pub enum Token<'b> {
    /// The byte order mark.
    Mark,
    /// The declaration, a comment or a processing instruction.
    Aside,
    /// A character, or LF for a line end.
    Character(char),
    /// A reference to a character.
    Reference(char),
    /// A CDATA section.
    Section(Section<'b>),
    /// A start tag or an empty-element tag.
    StartTag(StartTag<'b>),
    /// An end tag, by its name as written.
    EndTag(&'b str),
}
