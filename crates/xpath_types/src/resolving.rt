//! What names stand for in a scope, and what is refused of them.
ghost use Rattle.std.specs.Prelude.{◌≡◌, [], not, chars, option_map};
ghost use Rattle.xpath_types.specs.Scopes.{namespace_of};
ghost use Rattle.xpath_types.specs.Functions as functions;
ghost use Rattle.xpath_types.specs.Refusals.{first_of};
ghost use Rattle.xpath_types.specs.Judging as spec;

use crate::fault::TypeKind;
use crate::functions::{FUNCTIONS_URI, Resolved, function_in, type_in};
use crate::names::{local, prefix};
use crate::refusals::{Refusal, refuse_unless};
use crate::scope::Scope;
use xpath_grammar::functions::{Function, takes};
use xpath_tokens::token::Name;

/// The namespace of a name, where a name without prefix is in the default one.
pub fn namespace<'a>(scope: &'a Scope, default: &'a str, name: &Name) -> Option<&'a str>
    ensures { option_map (λ uri. chars uri.now) result ≡ namespace_of scope.now (chars default.now) name.now }
{
    match prefix(name) {
        Some(prefix) => scope.uri(prefix),
        None => Some(default),
    }
}

fn known(function: Option<Function>) -> Resolved
    ensures { result ≡ functions.known function }
{
    match function {
        Some(function) => Resolved::Known(function),
        None => Resolved::Unknown,
    }
}

/// The function that a name calls. Without prefix it is in the namespace of functions.
pub fn function_called(scope: &Scope, name: &Name) -> Resolved
    ensures { result ≡ functions.function_called scope.now name.now }
{
    match namespace(scope, FUNCTIONS_URI, name) {
        Some(uri) => known(function_in(uri, local(name))),
        None => Resolved::Unbound,
    }
}

/// The function of the type of a name. Without prefix it is in no namespace.
pub fn type_named(scope: &Scope, name: &Name) -> Resolved
    ensures { result ≡ functions.type_named scope.now name.now }
{
    match namespace(scope, "", name) {
        Some(uri) => known(type_in(uri, local(name))),
        None => Resolved::Unbound,
    }
}

/// Refuses a prefix that isn't bound, and tells whether it did.
pub(crate) fn refuse_prefix(
    first: &mut Option<Refusal>,
    token: u32,
    scope: &Scope,
    name: &Name,
) -> bool
    ensures first { first.new ≡ first_of first.old (spec.standing_at token (spec.prefix_refusals scope.now name.now)) }
    ensures told { result ≡ not (spec.is_empty (spec.prefix_refusals scope.now name.now)) }
{
    match prefix(name) {
        Some(prefix) => refuse_unless(
            first,
            token,
            scope.uri(prefix).is_some(),
            TypeKind::UndeclaredPrefix,
        ),
        None => false,
    }
}

/// Refuses a call with so many arguments where its name or the arguments are wrong, and tells
/// whether it did.
pub(crate) fn refuse_call(
    first: &mut Option<Refusal>,
    token: u32,
    called: Resolved,
    count: usize,
) -> bool
    ensures first { first.new ≡ first_of first.old (spec.standing_at token (spec.call_refusals called count)) }
    ensures told { result ≡ not (spec.is_empty (spec.call_refusals called count)) }
{
    match called {
        Resolved::Unbound => refuse_unless(first, token, false, TypeKind::UndeclaredPrefix),
        Resolved::Unknown => refuse_unless(first, token, false, TypeKind::UnknownFunction),
        Resolved::Known(function) => {
            refuse_unless(first, token, takes(function, count), TypeKind::WrongArity)
        }
    }
}

/// Refuses the name of a type that is wrong, and tells whether it did.
pub(crate) fn refuse_type(first: &mut Option<Refusal>, token: u32, named: Resolved) -> bool
    ensures first { first.new ≡ first_of first.old (spec.standing_at token (spec.type_refusals named)) }
    ensures told { result ≡ not (spec.is_empty (spec.type_refusals named)) }
{
    match named {
        Resolved::Unbound => refuse_unless(first, token, false, TypeKind::UndeclaredPrefix),
        Resolved::Unknown => refuse_unless(first, token, false, TypeKind::UnknownType),
        Resolved::Known(_) => false,
    }
}
