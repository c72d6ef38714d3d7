//! Assertions of rules.
ghost use Rattle.std.specs.Prelude.{◌≡◌, false, map, option_map, chars, IfOk};
ghost use Rattle.schematron_meaning.specs.declared.attribute.Attribute.TheVariants as a;
ghost use Rattle.schematron_meaning.specs.Rules as spec;
ghost use Rattle.schematron_entries.specs.Seen.{seen_entry};
ghost use Rattle.schematron_findings.specs.Levels as levels;
ghost use Rattle.schematron_rules.specs.Seen.{seen_assertion, seen_part, seen_shown};
ghost use Rattle.schematron_compile.specs.Lent.{lent_entries};

use crate::budget::Budget;
use crate::messages::message_of;
use crate::texts::{shown, text_at};
use inv_base::{Many, Txt};
use schematron_entries::Entry;
use schematron_expansion::RuleFile;
use schematron_findings::{Level, level_of};
use schematron_meaning::{AssertionKind, Attribute, Role};
use schematron_rules::{Assertion, Part, Shown};
use schematron_texts::Parameters;
use std::alloc::{AllocError, Global};
use xpath_types::Scope;

fn kind_of(role: Role) -> AssertionKind
    ensures { result ≡ spec.kind_of role }
{
    match role {
        Role::Report => AssertionKind::Report,
        _ => AssertionKind::Assert,
    }
}

fn lent(text: &Option<Txt>) -> Option<&str>
    ensures { option_map (λ text. chars text.now) result ≡ text.now }
{
    match text {
        Some(text) => Some(text.as_str()),
        None => None,
    }
}

fn level(flag: &Option<Txt>, role: &Option<Txt>) -> Level
    ensures { result ≡ levels.level_of flag.now role.now }
{
    level_of(lent(flag), lent(role))
}

/// The flag and the role of an assertion, if they are there.
fn flag_and_role(
    alloc: Global,
    budget: &mut Budget,
    params: &Parameters,
    e: &Entry<'_>,
) -> Result<(Option<Txt>, Option<Txt>), AllocError>
    ensures flag { IfOk result (λ both. both.0 ≡ spec.text_at a.Flag params.now (seen_entry e.now)) }
    ensures role { IfOk result (λ both. both.1 ≡ spec.text_at a.Role params.now (seen_entry e.now)) }
{
    let flag = text_at(alloc, budget, params, Attribute::Flag, e)?;
    match text_at(alloc, budget, params, Attribute::Role, e) {
        Ok(role) => Ok((flag, role)),
        Err(error) => {
            drop(flag);
            Err(error)
        }
    }
}

/// What an assertion asks, and what it says where that fails.
fn test_and_message(
    alloc: Global,
    budget: &mut Budget,
    file: &RuleFile<'_, '_>,
    params: &Parameters,
    scope: &Scope,
    e: &Entry<'_>,
) -> Result<(Shown, Many<Part>), AllocError>
    ensures test { IfOk result (λ both. seen_shown both.0 ≡ spec.shown a.Test false params.now scope.now (seen_entry e.now)) }
    ensures message { IfOk result (λ both. map seen_part both.1 ≡ spec.message_of file.now.entries params.now scope.now (seen_entry e.now)) }
{
    let test = shown(alloc, budget, params, scope, false, Attribute::Test, e)?;
    match message_of(alloc, budget, file, params, scope, e) {
        Ok(message) => Ok((test, message)),
        Err(error) => {
            drop(test);
            Err(error)
        }
    }
}

/// An assertion in the scope of its rule, with all that it is told with.
fn assertion_of(
    alloc: Global,
    budget: &mut Budget,
    file: &RuleFile<'_, '_>,
    params: &Parameters,
    scope: &Scope,
    e: &Entry<'_>,
) -> Result<Assertion, AllocError>
    ensures { IfOk result (λ found. seen_assertion found ≡ spec.assertion_of file.now.entries params.now scope.now (seen_entry e.now)) }
{
    budget.take_thing()?;
    let id = text_at(alloc, budget, params, Attribute::Id, e)?;
    match test_and_message(alloc, budget, file, params, scope, e) {
        Ok((test, message)) => match flag_and_role(alloc, budget, params, e) {
            Ok((flag, role)) => Ok(Assertion {
                kind: kind_of(e.role),
                test,
                id,
                level: level(&flag, &role),
                flag,
                role,
                message,
            }),
            Err(error) => {
                drop(id);
                drop(test);
                drop(message);
                Err(error)
            }
        },
        Err(error) => {
            drop(id);
            Err(error)
        }
    }
}

/// Assertions in the scope of their rule.
pub(crate) fn assertions_of(
    alloc: Global,
    budget: &mut Budget,
    file: &RuleFile<'_, '_>,
    params: &Parameters,
    scope: &Scope,
    entries: Vec<&Entry<'_>>,
) -> Result<Many<Assertion>, AllocError>
    ensures { IfOk result (λ found. map seen_assertion found
        ≡ map (spec.assertion_of file.now.entries params.now scope.now) (lent_entries entries.entry.items)) }
{
    let mut found = Many::new(alloc);
    'entries: for e in entries {
        found.push(assertion_of(alloc, budget, file, params, scope, e)?)?;
    }
    Ok(found)
}
