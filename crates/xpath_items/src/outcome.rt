use crate::item::Item;
use crate::seq::Seq;

/// An error of evaluation, by its code in XPath 2.0, appendix G, and Functions and Operators, appendix C.
#[derive(Clone, Copy, Debug, PartialEq, Eq)]
pub enum DynError {
    /// Division by zero.
    FOAR0001,
    /// A number out of range.
    FOAR0002,
    /// A text that doesn't have the form of the type that it is read as.
    FORG0001,
    /// A value that has no truth, or items that a function can't take together.
    FORG0006,
    /// A value of another kind, or of more items, than wanted.
    XPTY0004,
    /// The last step of a path gives nodes and other items.
    XPTY0018,
    /// A step that isn't the last gives an item that is no node.
    XPTY0019,
    /// An axis step, `/` or `//` at an item that is no node.
    XPTY0020,
}

/// What an expression evaluates to.
#[derive(Drop)]
pub enum Outcome<'a> {
    Value(Seq<'a>),
    Error(DynError),
}

/// What an expression is evaluated at (XPath 2.0, section 2.1.2).
#[derive(Drop)]
pub struct Focus<'a> {
    pub item: Item<'a>,
    /// The place of the item among those that are gone through, from 1 on.
    pub position: u64,
    /// How many they are.
    pub last: u64,
}
