ghost use Rattle.std.specs.Prelude.{◌≡◌};
ghost use Rattle.schematron_meaning.specs.Lookup as lookup;

/// What a node of a rule file is, by its name, its attributes and what it stands in.
#[derive(Clone, Copy, PartialEq, Eq)]
pub enum Role {
    /// The document's own node.
    Outside,
    /// A root that is no `schema`.
    OtherRoot,
    /// The root, `schema`.
    Schema,
    /// `ns`
    Namespace,
    /// `let`
    Let,
    /// `phase`
    Phase,
    /// `active`
    Active,
    /// A `pattern` that stands for itself.
    Pattern,
    /// A `pattern` with `abstract` that is `true`.
    AbstractPattern,
    /// A `pattern` with `is-a`, which uses an abstract one.
    Use,
    /// `param`
    Parameter,
    /// A `rule` that stands for itself.
    Rule,
    /// A `rule` with `abstract` that is `true`.
    AbstractRule,
    /// `extends`
    Extends,
    /// `assert`
    Assert,
    /// `report`
    Report,
    /// `value-of`
    ValueOf,
    /// `name`
    NodeName,
    /// `emph`, `span` or `dir`, which give their texts.
    Wording,
    /// A text of a message.
    Characters,
    /// An element of Schematron where none of its name may stand.
    Misplaced,
    /// What doesn't count, with what is inside.
    Passed,
}

impl Role {
    /// Whether it is a `let`.
    pub fn is_let(self) -> bool
        ensures { result ≡ lookup.is_let self }
    {
        matches!(self, Role::Let)
    }

    /// Whether it is a `phase`.
    pub fn is_phase(self) -> bool
        ensures { result ≡ lookup.is_phase self }
    {
        matches!(self, Role::Phase)
    }

    /// Whether it is a pattern that stands for itself.
    pub fn is_own_pattern(self) -> bool
        ensures { result ≡ lookup.is_own_pattern self }
    {
        matches!(self, Role::Pattern)
    }

    /// Whether it is a rule that stands for itself.
    pub fn is_own_rule(self) -> bool
        ensures { result ≡ lookup.is_own_rule self }
    {
        matches!(self, Role::Rule)
    }

    /// Whether it is an abstract rule.
    pub fn is_abstract_rule(self) -> bool
        ensures { result ≡ lookup.is_abstract_rule self }
    {
        matches!(self, Role::AbstractRule)
    }

    /// Whether it is an `assert` or a `report`.
    pub fn is_assertion(self) -> bool
        ensures { result ≡ lookup.is_assertion self }
    {
        matches!(self, Role::Assert | Role::Report)
    }
}
