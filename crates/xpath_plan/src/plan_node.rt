//! What a plan is made of: a tree that owns its texts and holds no lifetime.

use inv_base::Txt;
use xpath_grammar::functions::Function;
use xpath_grammar::many::Many;
use xpath_grammar::operators::{Binder, CastWord};
use xpath_grammar::step::{Axis, KindTest};
use xpath_tokens::token::{Number, Operator};
use xsd_pattern::Regex;

/// What a step wants of the nodes on its axis (XPath 2.0, section 3.2.1.2).
#[derive(Drop)]
pub enum StepTest {
    /// The expanded name that has this number in the plan's table.
    Named(usize),
    /// Any name in the namespace.
    InNamespace(Txt),
    /// The local name in any namespace.
    WithLocal(Txt),
    /// Any name.
    AnyName,
    /// A kind of node.
    Kind(KindTest),
}

/// An expression without parts.
#[derive(Drop)]
pub enum Simple {
    Text(Txt),
    Number(Number),
    /// `()`
    Nothing,
    /// `.`
    Item,
    /// `/` alone
    Root,
    /// A bound variable, by how many others stand around it.
    Variable(usize),
    /// A variable that is declared outside, by its name as it is written.
    Outer(Txt),
    /// A step without predicates, `..` among them.
    Step(Axis, StepTest),
    /// A call without arguments.
    Called(Function),
}

/// What stands before a part.
#[derive(Clone, Copy)]
pub enum Separator {
    /// An operator; at the first part of a path, the one that it begins with.
    Operator(Operator),
    Comma,
    /// Nothing that tells.
    Other,
}

/// What is made of the parts.
#[derive(Drop)]
pub enum Operation {
    /// Operands with operators of one production between them, which are taken from the left. One that begins with an
    /// operator begins at the root.
    Chain,
    /// `for`, `some`, `every`: the expressions of the variables, one inside the other, then the one that they are for.
    Bound(Binder),
    /// `if`: the condition, then the two branches.
    Conditional,
    /// `cast as` or `castable as` the type of the function, and whether empty is allowed.
    Cast(CastWord, Function, bool),
    /// `+` and `-` before an operand, as they are written.
    Signs(Many<Operator>),
    /// A step and its predicates, which count in the order of the axis.
    FilteredStep,
    /// A step and its predicates, none of which tests a position: each has one value at an item, wherever that stands.
    FreeStep,
    /// Another expression and its predicates.
    Filtered,
    /// The part itself: parentheses.
    Only,
    /// The part itself, whose value is the same at all nodes of a document: the number of the slot that it may be kept in, and how many
    /// variables are bound around it.
    Once(usize, usize),
    /// A call with these arguments.
    Call(Function),
    /// A call of `matches` with two arguments, of which the second is a literal that is this pattern.
    /// Only the first is evaluated.
    Matches(Regex),
    /// Nothing, whatever the parts. No expression that is typed makes it.
    Nothing,
}

/// An expression of a plan.
#[derive(Drop)]
pub enum PlanNode {
    Simple(Simple),
    /// The parts in their order, each with what stands before it.
    Node(Operation, Many<(Separator, PlanNode)>),
}
