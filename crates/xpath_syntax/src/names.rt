//! What a name is by the token behind it: an axis, a test of a kind, or a function.

ghost use Rattle.std.specs.Prelude.{◌≡◌};
ghost use Rattle.xpath_grammar.specs.Grammar as grammar;

use xpath_grammar::step::{AXES, Axis, KIND_TESTS, KindTest};
use xpath_grammar::words::named;
use xpath_tokens::token::Name;

/// The axis that the name is before `::`.
pub fn axis_of(name: &Name) -> Option<Axis>
    ensures { result ≡ grammar.axis_of name.now }
{
    match name {
        Name::Plain(text) => named(&AXES, text.as_str()),
        _ => None,
    }
}

/// The kind of node that the name tests before `(`.
pub fn kind_of(name: &Name) -> Option<KindTest>
    ensures { result ≡ grammar.kind_of name.now }
{
    match name {
        Name::Plain(text) => named(&KIND_TESTS, text.as_str()),
        _ => None,
    }
}
