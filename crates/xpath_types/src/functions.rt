//! The functions that expressions may call, by their names.
ghost use Rattle.std.specs.Prelude.{◌≡◌, chars};
ghost use Rattle.xpath_types.specs.Functions as spec;
ghost use Rattle.xpath_types.specs.Judging.{called_kinds};

use crate::kinds::{ALL_KINDS, BOOLEANS, DATES, Kinds, NUMBERS, STRINGS};
use xpath_grammar::functions::{FUNCTIONS, Function, TYPES};
use xpath_grammar::words::named;
use xpath_tokens::texts::is_text;

/// The namespace of the functions.
pub(crate) const FUNCTIONS_URI: &str = "http://www.w3.org/2005/xpath-functions";

/// The namespace of the types and of their functions.
pub(crate) const TYPES_URI: &str = "http://www.w3.org/2001/XMLSchema";

/// What a name stands for as that of a function or a type.
#[derive(Clone, Copy)]
pub enum Resolved {
    /// Its prefix is bound to no namespace.
    Unbound,
    /// Its namespace has no such function or type.
    Unknown,
    /// The function, or the type's function.
    Known(Function),
}

/// The function of an expanded name.
pub(crate) fn function_in(uri: &str, local: &str) -> Option<Function>
    ensures { result ≡ spec.function_in (chars uri.now) (chars local.now) }
{
    if is_text(uri, FUNCTIONS_URI) {
        named(&FUNCTIONS, local)
    } else {
        type_in(uri, local)
    }
}

/// The function of the type of an expanded name.
pub(crate) fn type_in(uri: &str, local: &str) -> Option<Function>
    ensures { result ≡ spec.type_in (chars uri.now) (chars local.now) }
{
    if is_text(uri, TYPES_URI) {
        named(&TYPES, local)
    } else {
        None
    }
}

/// The kinds of a function's value, by those of its first argument.
fn value_kinds(function: Function, argument: Kinds) -> Kinds
    ensures { result ≡ spec.value_kinds function argument }
{
    match function {
        Function::Reverse => argument,
        Function::Data | Function::DistinctValues => argument.atomised(),
        Function::Min | Function::Max => argument.extreme(),
        Function::Position
        | Function::Last
        | Function::Count
        | Function::StringLength
        | Function::Abs
        | Function::Floor
        | Function::Ceiling
        | Function::Round
        | Function::Sum
        | Function::XsDecimal
        | Function::XsInteger => NUMBERS,
        Function::True
        | Function::False
        | Function::Not
        | Function::Boolean
        | Function::Exists
        | Function::Empty
        | Function::Contains
        | Function::StartsWith
        | Function::EndsWith
        | Function::Matches
        | Function::XsBoolean => BOOLEANS,
        Function::XsDate => DATES,
        _ => STRINGS,
    }
}

/// The kinds of the value of what a name stands for.
pub(crate) fn called_kinds(called: Resolved, argument: Kinds) -> Kinds
    ensures { result ≡ called_kinds called argument }
{
    match called {
        Resolved::Known(function) => value_kinds(function, argument),
        Resolved::Unbound | Resolved::Unknown => ALL_KINDS,
    }
}
