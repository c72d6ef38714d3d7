ghost use Rattle.std.specs.Prelude.{◌≡◌};
ghost use Rattle.xpath_grammar.specs.Grammar as grammar;
ghost use Rattle.xpath_grammar.specs.Words as spec;

use crate::words::Worded;
use xpath_tokens::token::Name;

/// Where a step goes from its node (XPath 2.0, section 3.2.1.1).
#[derive(Clone, Copy, Debug)]
pub enum Axis {
    Child,
    Descendant,
    DescendantOrSelf,
    /// `self`
    Itself,
    Attribute,
    Parent,
    Ancestor,
    AncestorOrSelf,
    FollowingSibling,
    PrecedingSibling,
    Following,
    Preceding,
}

impl Worded for Axis {
    ghost spelling = { grammar.axis_word };

    ghost is_ascii = { spec.chars-axis_word };

    /// How it is written before `::`.
    fn word(self) -> &'static str {
        match self {
            Axis::Child => "child",
            Axis::Descendant => "descendant",
            Axis::DescendantOrSelf => "descendant-or-self",
            Axis::Itself => "self",
            Axis::Attribute => "attribute",
            Axis::Parent => "parent",
            Axis::Ancestor => "ancestor",
            Axis::AncestorOrSelf => "ancestor-or-self",
            Axis::FollowingSibling => "following-sibling",
            Axis::PrecedingSibling => "preceding-sibling",
            Axis::Following => "following",
            Axis::Preceding => "preceding",
        }
    }
}

/// Each axis.
pub const AXES: [Axis; 12] = [
    Axis::Child,
    Axis::Descendant,
    Axis::DescendantOrSelf,
    Axis::Itself,
    Axis::Attribute,
    Axis::Parent,
    Axis::Ancestor,
    Axis::AncestorOrSelf,
    Axis::FollowingSibling,
    Axis::PrecedingSibling,
    Axis::Following,
    Axis::Preceding,
];

/// How a step says its axis.
#[derive(Clone, Copy)]
pub enum AxisForm {
    /// Not at all: `a`
    Unwritten,
    /// `@a`
    At,
    /// `child::a`
    Written(Axis),
}

/// A test of the kind of a node.
#[derive(Clone, Copy, Debug)]
pub enum KindTest {
    /// `node()`
    Node,
    /// `text()`
    Text,
    /// `element()`
    Element,
    /// `attribute()`
    Attribute,
    /// `document-node()`
    DocumentNode,
}

impl Worded for KindTest {
    ghost spelling = { grammar.kind_word };

    ghost is_ascii = { spec.chars-kind_word };

    /// How it is written before its parentheses.
    fn word(self) -> &'static str {
        match self {
            KindTest::Node => "node",
            KindTest::Text => "text",
            KindTest::Element => "element",
            KindTest::Attribute => "attribute",
            KindTest::DocumentNode => "document-node",
        }
    }
}

/// Each test of a kind.
pub const KIND_TESTS: [KindTest; 5] = [
    KindTest::Node,
    KindTest::Text,
    KindTest::Element,
    KindTest::Attribute,
    KindTest::DocumentNode,
];

/// What a step wants of the nodes on its axis (XPath 2.0, section 3.2.1.2).
#[derive(Drop)]
pub enum Test {
    /// `a`, `a:b`, `a:*`, `*:b`
    Name(Name),
    /// `*`
    Star,
    Kind(KindTest),
}
