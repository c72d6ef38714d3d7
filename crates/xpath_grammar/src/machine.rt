//! What a machine keeps that reads tokens one after another. The machine is a definition; what is made of the parts is left open.

use crate::expr::{Form, Label};
use crate::operators::{Binder, CastWord};
use crate::step::{AxisForm, KindTest};
use xpath_tokens::token::Name;

/// An expression that isn't complete: its form, the parts that it has, and what leads to the next one.
#[derive(Drop)]
pub enum Frame<L> {
    Open(Form, L, Label),
}

/// What was read behind the last frame.
#[derive(Drop)]
pub enum Mode<V, L> {
    /// Nothing: an operand must follow.
    Want,
    /// `/` where an operand stands
    Slash,
    /// `$`
    Dollar,
    /// A name where an operand stands
    Named(Name),
    /// `@` or `child::`
    OnAxis(AxisForm),
    /// A name behind that
    NamedOn(AxisForm, Name),
    /// `text (`, maybe behind an axis
    Kind(AxisForm, KindTest),
    /// An expression of the highest rank
    Have(V),
    /// One with predicates
    Filtered(L),
    /// An expression of the rank
    Whole(u32, V),
    /// `for`, `some`, `every`, or a comma behind the bindings so far
    Bind(Binder, Option<Binder>, L),
    /// `$` behind that
    BindDollar(Binder, Option<Binder>, L),
    /// A name behind that
    BindName(Binder, Option<Binder>, L, Name),
    /// `if`
    If,
    /// `if (..)`
    Decided(L),
    /// An expression and `cast` or `castable`
    Casting(CastWord, V),
    /// `as` behind that
    CastAs(CastWord, V),
    /// The name of a type behind that
    Typed(CastWord, V, Name),
}
