ghost use Rattle.std.specs.Prelude.{◌≡◌};
ghost use Rattle.xpath_grammar.specs.Comparisons.{comparison_of};

use xpath_tokens::token::Operator;

/// What joins operands of one precedence (XPath 2.0, appendix A.1), from the loosest on.
#[derive(Clone, Copy)]
pub enum Production {
    /// `,`
    Sequence,
    /// `or`
    Or,
    /// `and`
    And,
    /// `=`, `eq` and the like, one at most
    Comparison,
    /// `to`, one at most
    Range,
    /// `+`, `-`
    Sum,
    /// `*`, `div`, `idiv`, `mod`
    Product,
    /// `|`, `union`
    Union,
    /// `intersect`, `except`
    Intersection,
    /// `/`, `//`
    Path,
}

/// The word before `as` and a type.
#[derive(Clone, Copy, Debug)]
pub enum CastWord {
    Cast,
    Castable,
}

/// The word that binds variables.
#[derive(Clone, Copy, Debug)]
pub enum Binder {
    For,
    /// `some`
    Some,
    Every,
}

/// A comparison: of any pair of items, or of two items.
#[derive(Clone, Copy)]
pub enum Op {
    /// `=`
    Equal,
    /// `!=`
    NotEqual,
    /// `<`
    Less,
    /// `<=`
    LessOrEqual,
    /// `>`
    Greater,
    /// `>=`
    GreaterOrEqual,
    Eq,
    Ne,
    Lt,
    Le,
    Gt,
    Ge,
}

/// The comparison that an operator is, where it is one.
pub fn comparison(operator: Operator) -> Option<Op>
    ensures { result ≡ comparison_of operator }
{
    match operator {
        Operator::Equal => Some(Op::Equal),
        Operator::NotEqual => Some(Op::NotEqual),
        Operator::Less => Some(Op::Less),
        Operator::LessOrEqual => Some(Op::LessOrEqual),
        Operator::Greater => Some(Op::Greater),
        Operator::GreaterOrEqual => Some(Op::GreaterOrEqual),
        Operator::Eq => Some(Op::Eq),
        Operator::Ne => Some(Op::Ne),
        Operator::Lt => Some(Op::Lt),
        Operator::Le => Some(Op::Le),
        Operator::Gt => Some(Op::Gt),
        Operator::Ge => Some(Op::Ge),
        _ => None,
    }
}
