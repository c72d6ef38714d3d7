//! Lets, each in the scope of those before it.
ghost use Rattle.std.specs.Prelude.{◌≡◌, [], IfOk, OnOk};
ghost use Rattle.schematron_meaning.specs.Lookup.{is_let, inside};
ghost use Rattle.schematron_meaning.specs.Rules as spec;
ghost use Rattle.schematron_meaning.specs.Written.{with_let, with_lets};
ghost use Rattle.schematron_entries.specs.Seen.{seen_entry};
ghost use Rattle.schematron_rules.specs.Seen.{seen_let, seen_lets};
ghost use Rattle.schematron_compile.specs.Lent.{lent_entries};

use crate::budget::Budget;
use crate::texts::{plan_at, text_or_empty};
use inv_base::Many;
use schematron_entries::Entry;
use schematron_expansion::{RuleFile, Sort};
use schematron_meaning::Attribute;
use schematron_rules::{Let, declare_let};
use schematron_texts::Parameters;
use std::alloc::{AllocError, Global};
use xpath_types::Scope;

/// A let in the scope of those before it.
fn let_of(
    alloc: Global,
    budget: &mut Budget,
    params: &Parameters,
    before: &Scope,
    e: &Entry<'_>,
) -> Result<Let, AllocError>
    ensures { IfOk result (λ found. seen_let found ≡ spec.let_of params.now before.now (seen_entry e.now)) }
{
    budget.take_thing()?;
    let name = text_or_empty(alloc, budget, params, Attribute::Name, e)?;
    match plan_at(alloc, budget, params, before, Attribute::Value, e) {
        Ok(plan) => Ok(Let { name, plan }),
        Err(error) => {
            drop(name);
            Err(error)
        }
    }
}

/// A let, whose name is declared for what follows.
fn declared_let(
    alloc: Global,
    budget: &mut Budget,
    params: &Parameters,
    scope: &mut Scope,
    e: &Entry<'_>,
) -> Result<Let, AllocError>
    ensures found { IfOk result (λ found. seen_let found ≡ spec.let_of params.now scope.old (seen_entry e.now)) }
    ensures scope { OnOk result (scope.new ≡ with_let params.now scope.old (seen_entry e.now)) }
{
    let found = let_of(alloc, budget, params, scope, e)?;
    declare_let(alloc, scope, params, e)?;
    Ok(found)
}

/// Lets, of which each declares its name for those behind it, and all for what follows.
pub(crate) fn lets_behind(
    alloc: Global,
    budget: &mut Budget,
    params: &Parameters,
    scope: &mut Scope,
    lets: Vec<&Entry<'_>>,
) -> Result<Many<Let>, AllocError>
    ensures lets { IfOk result (λ found. seen_lets found ≡ spec.lets_behind params.now scope.old (lent_entries lets.entry.items)) }
    ensures scope { OnOk result (scope.new ≡ with_lets params.now scope.old (lent_entries lets.entry.items)) }
{
    let mut found = Many::new(alloc);
    'lets: for e in lets {
        found.push(declared_let(alloc, budget, params, scope, e)?)?;
    }
    Ok(found)
}

/// The lets in an element, of which each declares its name for those behind it, and all for what follows.
pub(crate) fn lets_inside(
    alloc: Global,
    budget: &mut Budget,
    file: &RuleFile<'_, '_>,
    params: &Parameters,
    scope: &mut Scope,
    element: u32,
) -> Result<Many<Let>, AllocError>
    ensures lets { IfOk result (λ found. seen_lets found ≡ spec.lets_behind params.now scope.old (inside is_let file.now.entries element)) }
    ensures scope { OnOk result (scope.new ≡ with_lets params.now scope.old (inside is_let file.now.entries element)) }
{
    let lets = file.inside(alloc, Sort::Lets, element)?;
    lets_behind(alloc, budget, params, scope, lets)
}

/// The same where texts have no parameters.
pub(crate) fn plain_lets_inside(
    alloc: Global,
    budget: &mut Budget,
    file: &RuleFile<'_, '_>,
    scope: &mut Scope,
    element: u32,
) -> Result<Many<Let>, AllocError>
    ensures lets { IfOk result (λ found. seen_lets found ≡ spec.lets_behind [] scope.old (inside is_let file.now.entries element)) }
    ensures scope { OnOk result (scope.new ≡ with_lets [] scope.old (inside is_let file.now.entries element)) }
{
    let none = Parameters::new(alloc);
    let lets = lets_inside(alloc, budget, file, &none, scope, element);
    drop(none);
    lets
}

/// Declares lets for what follows.
pub(crate) fn declare_all(
    alloc: Global,
    params: &Parameters,
    scope: &mut Scope,
    lets: Vec<&Entry<'_>>,
) -> Result<(), AllocError>
    ensures { OnOk result (scope.new ≡ with_lets params.now scope.old (lent_entries lets.entry.items)) }
{
    'lets: for one in lets {
        declare_let(alloc, scope, params, one)?;
    }
    Ok(())
}
