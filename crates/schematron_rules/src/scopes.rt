//! What is declared around the expressions of a rule file.
ghost use Rattle.std.specs.Prelude.{◌≡◌, ◌&&◌, nat_eq, chars, fold, option_map, IfOk, OnOk};
ghost use Rattle.schematron_meaning.specs.Lookup.{is_let, is_namespace, of_role, inside};
ghost use Rattle.schematron_meaning.specs.Written as spec;
ghost use Rattle.schematron_entries.specs.Seen.{seen_entry, seen_entries};

use schematron_entries::Entry;
use schematron_meaning::{Attribute, Role};
use schematron_texts::{Parameters, replaced};
use std::alloc::{AllocError, Global};
use xpath_types::Scope;

/// The prefixes of a rule file, of which each counts in all of it, and of one name the first.
pub fn prefixes(alloc: Global, entries: &[Entry<'_>]) -> Result<Scope, AllocError>
    ensures { IfOk result (λ scope. scope ≡ spec.prefixes (seen_entries entries.now)) }
{
    let mut scope = Scope::new(alloc);
    'entries: for e in entries {
        if is_namespace(e.role) {
            declare_prefix(alloc, &mut scope, e)?;
        }
    }
    Ok(scope)
}

fn is_namespace(role: Role) -> bool
    ensures { result ≡ is_namespace role }
{
    matches!(role, Role::Namespace)
}

fn declare_prefix(alloc: Global, scope: &mut Scope, e: &Entry<'_>) -> Result<(), AllocError>
    ensures { OnOk result (scope.new ≡ spec.prefix_of_entry (seen_entry e.now) scope.old) }
{
    match e.attribute(Attribute::Prefix) {
        Some(prefix) => match e.attribute(Attribute::Uri) {
            Some(uri) => scope.prefix(alloc, prefix, uri),
            None => Ok(()),
        },
        None => Ok(()),
    }
}

/// Declares the variable of a let, with the parameters' values in its name.
pub fn declare_let(
    alloc: Global,
    scope: &mut Scope,
    params: &Parameters,
    e: &Entry<'_>,
) -> Result<(), AllocError>
    ensures { OnOk result (scope.new ≡ spec.with_let params.now scope.old (seen_entry e.now)) }
{
    match e.attribute(Attribute::Name) {
        Some(name) => {
            let name = replaced(alloc, params, name)?;
            scope.variable(alloc, name.as_str())
        }
        None => Ok(()),
    }
}

/// Declares the variables of all lets that are written in an element, in their order.
pub fn declare_lets(
    alloc: Global,
    scope: &mut Scope,
    params: &Parameters,
    entries: &[Entry<'_>],
    parent: u32,
) -> Result<(), AllocError>
    ensures { OnOk result (scope.new ≡ spec.with_lets params.now scope.old (inside is_let (seen_entries entries.now) parent)) }
{
    'entries: for e in entries {
        if is_let_of(e, parent) {
            declare_let(alloc, scope, params, e)?;
        }
    }
    Ok(())
}

fn is_let_of(e: &Entry<'_>, parent: u32) -> bool
    ensures { result ≡ (is_let e.now.role && nat_eq e.now.parent parent) }
{
    match e.role {
        Role::Let => e.parent == parent,
        _ => false,
    }
}
