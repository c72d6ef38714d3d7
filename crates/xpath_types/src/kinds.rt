ghost use Rattle.std.specs.Prelude.{◌≡◌};
ghost use Rattle.xpath_types.specs.Kinds as spec;

/// Kinds of items: those that the items of a value may have.
#[derive(Clone, Copy)]
pub struct Kinds {
    pub node: bool,
    pub boolean: bool,
    pub number: bool,
    pub string: bool,
    /// A text of no type, as a node's is.
    pub untyped: bool,
    pub date: bool,
}

pub(crate) const NO_KINDS: Kinds = Kinds {
    node: false,
    boolean: false,
    number: false,
    string: false,
    untyped: false,
    date: false,
};

pub(crate) const ALL_KINDS: Kinds = Kinds {
    node: true,
    boolean: true,
    number: true,
    string: true,
    untyped: true,
    date: true,
};

pub(crate) const NODES: Kinds = Kinds {
    node: true,
    boolean: false,
    number: false,
    string: false,
    untyped: false,
    date: false,
};

pub(crate) const BOOLEANS: Kinds = Kinds {
    node: false,
    boolean: true,
    number: false,
    string: false,
    untyped: false,
    date: false,
};

pub(crate) const NUMBERS: Kinds = Kinds {
    node: false,
    boolean: false,
    number: true,
    string: false,
    untyped: false,
    date: false,
};

pub(crate) const STRINGS: Kinds = Kinds {
    node: false,
    boolean: false,
    number: false,
    string: true,
    untyped: false,
    date: false,
};

pub(crate) const DATES: Kinds = Kinds {
    node: false,
    boolean: false,
    number: false,
    string: false,
    untyped: false,
    date: true,
};

impl Kinds {
    /// The kinds of both.
    pub(crate) fn united(self, other: Kinds) -> Kinds
        ensures { result ≡ spec.united self other }
    {
        Kinds {
            node: self.node | other.node,
            boolean: self.boolean | other.boolean,
            number: self.number | other.number,
            string: self.string | other.string,
            untyped: self.untyped | other.untyped,
            date: self.date | other.date,
        }
    }

    /// The kinds of the items, each atomised.
    pub(crate) fn atomised(self) -> Kinds
        ensures { result ≡ spec.atomised self }
    {
        Kinds {
            node: false,
            boolean: self.boolean,
            number: self.number,
            string: self.string,
            untyped: self.node | self.untyped,
            date: self.date,
        }
    }

    /// The kinds of the least or the greatest of the items.
    pub(crate) fn extreme(self) -> Kinds
        ensures { result ≡ spec.extreme self }
    {
        Kinds {
            node: false,
            boolean: false,
            number: self.node | (self.untyped | self.number),
            string: self.string,
            untyped: false,
            date: self.date,
        }
    }

    /// Whether there is any kind.
    pub(crate) fn has_any(self) -> bool
        ensures { result ≡ spec.has_kinds self }
    {
        self.node | (self.boolean | (self.number | (self.string | (self.untyped | self.date))))
    }

    /// Whether nodes are the only kind.
    pub(crate) fn is_nodes_alone(self) -> bool
        ensures { result ≡ spec.is_nodes_alone self }
    {
        self.node & !(self.boolean | (self.number | (self.string | (self.untyped | self.date))))
    }

    /// Whether there are items, and none of them may be where nodes are wanted.
    pub(crate) fn has_no_node(self) -> bool
        ensures { result ≡ spec.has_no_node self }
    {
        self.has_any() & !self.node
    }

    /// Whether there are items, and none of them may be where numbers are wanted.
    pub(crate) fn has_no_number(self) -> bool
        ensures { result ≡ spec.has_no_number self }
    {
        self.has_any() & !(self.node | (self.untyped | self.number))
    }
}
