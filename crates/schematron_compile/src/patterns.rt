//! Patterns that are judged.
ghost use Rattle.std.specs.Prelude.{◌≡◌, map, option_map, chars, IfOk, OnOk};
ghost use Rattle.schematron_meaning.specs.Lookup.{is_let, is_own_rule, inside};
ghost use Rattle.schematron_meaning.specs.Rules as spec;
ghost use Rattle.schematron_meaning.specs.Written.{pattern_scope};
ghost use Rattle.schematron_expansion.specs.Seen.{seen_instance};
ghost use Rattle.schematron_rules.specs.Seen.{seen_lets, seen_pattern, seen_rule};

use crate::budget::Budget;
use crate::lets::lets_inside;
use crate::rules::rules_of;
use inv_base::{Many, Txt};
use schematron_expansion::{Instance, RuleFile};
use schematron_meaning::Attribute;
use schematron_rules::{Expanded, Let, Rule};
use std::alloc::{AllocError, Global};
use xpath_types::Scope;

/// A copy of a text, if it is there.
pub(crate) fn copied(
    alloc: Global,
    budget: &mut Budget,
    text: Option<&str>,
) -> Result<Option<Txt>, AllocError>
    ensures { IfOk result (λ copy. copy ≡ option_map (λ text. chars text.now) text.entry) }
{
    match text {
        Some(text) => Ok(Some(budget.copied(alloc, text)?)),
        None => Ok(None),
    }
}

/// The lets of a pattern, declared for what follows, and its rules in the scope behind them.
fn lets_and_rules(
    alloc: Global,
    budget: &mut Budget,
    file: &RuleFile<'_, '_>,
    scope: &mut Scope,
    instance: &Instance<'_, '_>,
) -> Result<(Many<Let>, Many<Rule>), AllocError>
    ensures lets { IfOk result (λ both. seen_lets both.0 ≡ spec.lets_behind instance.now.params scope.old (inside is_let file.now.entries instance.now.body)) }
    ensures rules { IfOk result (λ both. map seen_rule both.1
        ≡ map (spec.rule_of file.now (seen_instance instance.now) (pattern_scope file.now.entries scope.old (seen_instance instance.now)))
        (inside is_own_rule file.now.entries instance.now.body)) }
    ensures scope { OnOk result (scope.new ≡ pattern_scope file.now.entries scope.old (seen_instance instance.now)) }
{
    let lets = lets_inside(alloc, budget, file, &instance.params, scope, instance.body)?;
    match rules_of(alloc, budget, file, instance, scope) {
        Ok(rules) => Ok((lets, rules)),
        Err(error) => {
            drop(lets);
            Err(error)
        }
    }
}

/// A pattern in the scope of all patterns, which is the same behind it.
fn pattern_of(
    alloc: Global,
    budget: &mut Budget,
    file: &RuleFile<'_, '_>,
    scope: &mut Scope,
    instance: &Instance<'_, '_>,
) -> Result<Expanded, AllocError>
    ensures pattern { IfOk result (λ pattern. seen_pattern pattern ≡ spec.pattern_of file.now scope.old (seen_instance instance.now)) }
    ensures scope { OnOk result (scope.new ≡ scope.old) }
{
    let id = copied(alloc, budget, instance.pattern.attribute(Attribute::Id))?;
    let count = scope.count();
    match lets_and_rules(alloc, budget, file, scope, instance) {
        Ok((lets, rules)) => {
            scope.truncate(count);
            Ok(Expanded { id, lets, rules })
        }
        Err(error) => {
            drop(id);
            Err(error)
        }
    }
}

/// All patterns in the scope that they share.
pub(crate) fn patterns_of(
    alloc: Global,
    budget: &mut Budget,
    file: &RuleFile<'_, '_>,
    scope: &mut Scope,
    instances: &[Instance<'_, '_>],
) -> Result<Many<Expanded>, AllocError>
    ensures { IfOk result (λ patterns. map seen_pattern patterns ≡ map (spec.pattern_of file.now scope.old) (map seen_instance instances.now)) }
{
    let mut patterns = Many::new(alloc);
    'patterns: for instance in instances {
        patterns.push(pattern_of(alloc, budget, file, scope, instance)?)?;
    }
    Ok(patterns)
}
