ghost use Rattle.schematron_meaning.specs.Words as spec;

use xpath_grammar::words::Worded;

/// An attribute of a rule file that counts. All are in no namespace.
#[derive(Clone, Copy, PartialEq, Eq)]
pub enum Attribute {
    /// `queryBinding`
    QueryBinding,
    /// `defaultPhase`
    DefaultPhase,
    /// `prefix`
    Prefix,
    /// `uri`
    Uri,
    /// `name`
    Name,
    /// `value`
    Value,
    /// `id`
    Id,
    /// `pattern`
    Pattern,
    /// `abstract`
    Abstract,
    /// `is-a`
    IsA,
    /// `context`
    Context,
    /// `rule`
    Rule,
    /// `test`
    Test,
    /// `flag`
    Flag,
    /// `role`
    Role,
    /// `select`
    Select,
}

impl Worded for Attribute {
    ghost spelling = { spec.attribute_word };

    ghost is_ascii = { spec.chars-attribute_word };

    /// The local name.
    fn word(self) -> &'static str {
        match self {
            Attribute::QueryBinding => "queryBinding",
            Attribute::DefaultPhase => "defaultPhase",
            Attribute::Prefix => "prefix",
            Attribute::Uri => "uri",
            Attribute::Name => "name",
            Attribute::Value => "value",
            Attribute::Id => "id",
            Attribute::Pattern => "pattern",
            Attribute::Abstract => "abstract",
            Attribute::IsA => "is-a",
            Attribute::Context => "context",
            Attribute::Rule => "rule",
            Attribute::Test => "test",
            Attribute::Flag => "flag",
            Attribute::Role => "role",
            Attribute::Select => "select",
        }
    }
}
