use crate::many::Many;
use crate::operators::{Binder, CastWord, Production};
use crate::step::{AxisForm, Test};
use inv_base::Txt;
use xpath_tokens::token::{Name, Number, Operator};

/// An expression without parts.
#[derive(Drop)]
pub enum Leaf {
    Literal(Txt),
    Number(Number),
    /// `$x`
    Variable(Name),
    /// `.`
    Context,
    /// `..`
    Parent,
    /// `()`
    Empty,
    /// `/` alone
    Root,
    /// `f()`
    Called(Name),
    Step(AxisForm, Test),
}

/// What kind of expression stands over its parts.
#[derive(Drop)]
pub enum Form {
    /// Operands with operators of one production between them. A path may begin with its operator.
    Chain(Production),
    /// `for`, `some`, `every`: the expressions of the variables, then the one that they are for
    Bound(Binder),
    /// `if`: the condition, then the two branches
    Conditional,
    /// `cast as T` or `castable as T`, and whether `?` stands behind the type
    Cast(CastWord, Name, bool),
    /// `+` and `-` before an operand
    Signs,
    /// A step or a primary expression, and then its predicates
    Filter,
    Parentheses,
    /// A function with arguments
    Call,
}

/// What is written before a part of an expression.
#[derive(Drop)]
pub enum Label {
    /// Nothing
    First,
    /// An operator, `return`, `satisfies` or `else`
    Link(Operator),
    Comma,
    /// `for $x in` and its like; without a word `, $x in`
    Binding(Option<Binder>, Name),
    /// `if (`
    Condition,
    /// `) then`
    Then,
    Signed(Many<Operator>),
    /// `[`
    Predicate,
    /// `] [`
    Again,
    /// `(`
    Opened,
    /// `f (`
    Calling(Name),
}

/// An expression as it is written (XPath 2.0, appendix A.1, in a subset): what can be written differently is different.
#[derive(Drop)]
pub enum Expr {
    Leaf(Leaf),
    /// Each part behind what is written before it.
    Node(Form, Many<(Label, Expr)>),
}
