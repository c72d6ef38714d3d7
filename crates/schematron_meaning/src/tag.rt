ghost use Rattle.schematron_meaning.specs.Words as spec;

use xpath_grammar::words::Worded;

/// An element of Schematron that may stand somewhere in a rule file, by its local name.
#[derive(Clone, Copy, PartialEq, Eq)]
pub enum Tag {
    Schema,
    Title,
    Paragraph,
    Namespace,
    Let,
    Phase,
    Pattern,
    Diagnostics,
    Properties,
    Active,
    Rule,
    Parameter,
    Assert,
    Report,
    Extends,
    ValueOf,
    NodeName,
    Emphasis,
    Span,
    Direction,
}

impl Worded for Tag {
    ghost spelling = { spec.tag_word };

    ghost is_ascii = { spec.chars-tag_word };

    /// The local name.
    fn word(self) -> &'static str {
        match self {
            Tag::Schema => "schema",
            Tag::Title => "title",
            Tag::Paragraph => "p",
            Tag::Namespace => "ns",
            Tag::Let => "let",
            Tag::Phase => "phase",
            Tag::Pattern => "pattern",
            Tag::Diagnostics => "diagnostics",
            Tag::Properties => "properties",
            Tag::Active => "active",
            Tag::Rule => "rule",
            Tag::Parameter => "param",
            Tag::Assert => "assert",
            Tag::Report => "report",
            Tag::Extends => "extends",
            Tag::ValueOf => "value-of",
            Tag::NodeName => "name",
            Tag::Emphasis => "emph",
            Tag::Span => "span",
            Tag::Direction => "dir",
        }
    }
}
