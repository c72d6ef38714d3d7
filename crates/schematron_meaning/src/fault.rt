use crate::attribute::Attribute;
use node_arena::NodeId;
use thiserror::Error;
use xpath_tokens::token::SyntaxFault;
use xpath_types::TypeKind;

/// Why an expression of a rule file is refused.
#[derive(Clone, Copy)]
pub enum ExpressionFault {
    /// No expression is spelled so. This never says that memory ran out.
    Syntax(SyntaxFault),
    /// The first refusal of the spelled expression, with the number of the token that it stands at, from 0.
    Type { kind: TypeKind, token: u32 },
}

/// Why a rule file is refused. Of several faults at one element the first in this order counts.
#[derive(Clone, Copy)]
pub enum RuleKind {
    /// The root isn't Schematron's `schema`.
    NotSchematron,
    /// The language of queries isn't given, or is another than `xslt2` and `xpath2`.
    BadBinding,
    /// An element of Schematron where none of its name may stand, or a pattern that is abstract and uses another.
    BadElement,
    /// An attribute that has to be there isn't.
    MissingAttribute,
    /// A second element of one name.
    DuplicateId,
    /// No pattern of that name is there to be used or to be active.
    NoSuchPattern,
    /// No abstract rule of that name is there.
    NoSuchRule,
    /// A rule reaches itself through this `extends`.
    Cycle,
    /// An expression or a pattern that is refused.
    Expression(ExpressionFault),
    /// More patterns, rules or assertions than may be, with those that are put where others are used.
    TooMany,
    /// Memory ran out, or the file comes to more than it may. No file has this fault by itself.
    Memory,
}

/// A fault of a rule file: its kind, the element that it tells, and the attribute if it has one.
#[derive(Clone, Copy)]
pub struct Fault {
    pub kind: RuleKind,
    pub node: NodeId,
    pub attribute: Option<Attribute>,
}

/// Why there is no phase of a name.
#[derive(Clone, Copy, Debug, PartialEq, Eq, Error)]
pub enum PhaseFault {
    /// No phase has the name, or it leads to none.
    #[error("no such phase")]
    NoPhase,
    /// Memory ran out.
    #[error("out of memory")]
    Memory,
}
