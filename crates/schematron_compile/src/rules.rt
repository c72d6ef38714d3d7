//! Rules with what they extend.
ghost use Rattle.std.specs.Prelude.{◌≡◌, map, IfOk, OnOk};
ghost use Rattle.schematron_meaning.specs.Expansion as expansion;
ghost use Rattle.schematron_meaning.specs.Lookup as lookup;
ghost use Rattle.schematron_meaning.specs.Rules as spec;
ghost use Rattle.schematron_meaning.specs.Written as written;
ghost use Rattle.schematron_entries.specs.Seen.{seen_entry};
ghost use Rattle.schematron_expansion.specs.Seen.{seen_instance};
ghost use Rattle.schematron_rules.specs.Seen.{seen_assertion, seen_lets, seen_rule};
ghost use Rattle.schematron_compile.specs.Lent.{lent_entries, lent_puts};

use crate::assertions::assertions_of;
use crate::budget::Budget;
use crate::lets::lets_behind;
use crate::picking::push_if;
use crate::texts::shown;
use inv_base::Many;
use schematron_entries::Entry;
use schematron_expansion::{Inclusion, Instance, RuleFile, Sort};
use schematron_meaning::{Attribute, MOST_THINGS_OF_A_RULE};
use schematron_rules::{Assertion, Let, Rule};
use schematron_texts::Parameters;
use std::alloc::{AllocError, Global};
use xpath_types::Scope;

/// The lets among what a rule has.
fn lets_among<'e, 'd>(
    alloc: Global,
    inclusions: &[Inclusion<'e, 'd>],
) -> Result<Vec<&'e Entry<'d>>, AllocError>
    ensures { IfOk result (λ lets. lent_entries lets.items ≡ written.lets_among (lent_puts inclusions.now)) }
{
    let mut lets = Vec::new(alloc);
    'inclusions: for inclusion in inclusions {
        push_if(&mut lets, inclusion.entry, inclusion.entry.role.is_let())?;
    }
    Ok(lets)
}

/// The assertions among what a rule has.
fn assertions_among<'e, 'd>(
    alloc: Global,
    inclusions: &[Inclusion<'e, 'd>],
) -> Result<Vec<&'e Entry<'d>>, AllocError>
    ensures { IfOk result (λ found. lent_entries found.items ≡ spec.assertions_among (lent_puts inclusions.now)) }
{
    let mut found = Vec::new(alloc);
    'inclusions: for inclusion in inclusions {
        push_if(
            &mut found,
            inclusion.entry,
            inclusion.entry.role.is_assertion(),
        )?;
    }
    Ok(found)
}

/// The lets among what a rule has, of which each is declared for what follows.
fn lets_of(
    alloc: Global,
    budget: &mut Budget,
    params: &Parameters,
    scope: &mut Scope,
    inclusions: &[Inclusion<'_, '_>],
) -> Result<Many<Let>, AllocError>
    ensures lets { IfOk result (λ lets. seen_lets lets ≡ spec.lets_behind params.now scope.old (written.lets_among (lent_puts inclusions.now))) }
    ensures scope { OnOk result (scope.new ≡ written.with_lets params.now scope.old (written.lets_among (lent_puts inclusions.now))) }
{
    let lets = lets_among(alloc, inclusions)?;
    lets_behind(alloc, budget, params, scope, lets)
}

/// The assertions among what a rule has.
fn asserted(
    alloc: Global,
    budget: &mut Budget,
    file: &RuleFile<'_, '_>,
    params: &Parameters,
    scope: &Scope,
    inclusions: &[Inclusion<'_, '_>],
) -> Result<Many<Assertion>, AllocError>
    ensures { IfOk result (λ found. map seen_assertion found
        ≡ map (spec.assertion_of file.now.entries params.now scope.now) (spec.assertions_among (lent_puts inclusions.now))) }
{
    let found = assertions_among(alloc, inclusions)?;
    assertions_of(alloc, budget, file, params, scope, found)
}

/// The lets of a rule, declared for what follows, and its assertions in the scope behind them.
fn lets_and_assertions(
    alloc: Global,
    budget: &mut Budget,
    file: &RuleFile<'_, '_>,
    params: &Parameters,
    scope: &mut Scope,
    inclusions: &[Inclusion<'_, '_>],
) -> Result<(Many<Let>, Many<Assertion>), AllocError>
    ensures lets { IfOk result (λ both. seen_lets both.0 ≡ spec.lets_behind params.now scope.old (written.lets_among (lent_puts inclusions.now))) }
    ensures assertions { IfOk result (λ both. map seen_assertion both.1
        ≡ map (spec.assertion_of file.now.entries params.now scope.new) (spec.assertions_among (lent_puts inclusions.now))) }
    ensures scope { OnOk result (scope.new ≡ written.with_lets params.now scope.old (written.lets_among (lent_puts inclusions.now))) }
{
    let lets = lets_of(alloc, budget, params, scope, inclusions)?;
    match asserted(alloc, budget, file, params, scope, inclusions) {
        Ok(assertions) => Ok((lets, assertions)),
        Err(error) => {
            drop(lets);
            Err(error)
        }
    }
}

/// A rule in the scope of its pattern, which is the same behind it: its own lets aren't there yet in its context.
fn rule_with(
    alloc: Global,
    budget: &mut Budget,
    file: &RuleFile<'_, '_>,
    instance: &Instance<'_, '_>,
    scope: &mut Scope,
    e: &Entry<'_>,
    inclusions: &[Inclusion<'_, '_>],
) -> Result<Rule, AllocError>
    requires { lent_puts inclusions.now ≡ expansion.inclusions file.now instance.now.stand (seen_entry e.now).number }
    ensures rule { IfOk result (λ rule. seen_rule rule ≡ spec.rule_of file.now (seen_instance instance.now) scope.old (seen_entry e.now)) }
    ensures scope { OnOk result (scope.new ≡ scope.old) }
{
    let params = &instance.params;
    let context = shown(alloc, budget, params, scope, true, Attribute::Context, e)?;
    let count = scope.count();
    match lets_and_assertions(alloc, budget, file, params, scope, inclusions) {
        Ok((lets, assertions)) => {
            scope.truncate(count);
            Ok(Rule {
                context,
                lets,
                assertions,
            })
        }
        Err(error) => {
            drop(context);
            Err(error)
        }
    }
}

/// The same with what it extends.
fn rule_of(
    alloc: Global,
    budget: &mut Budget,
    file: &RuleFile<'_, '_>,
    instance: &Instance<'_, '_>,
    scope: &mut Scope,
    e: &Entry<'_>,
) -> Result<Rule, AllocError>
    ensures rule { IfOk result (λ rule. seen_rule rule ≡ spec.rule_of file.now (seen_instance instance.now) scope.old (seen_entry e.now)) }
    ensures scope { OnOk result (scope.new ≡ scope.old) }
{
    budget.take_thing()?;
    let inclusions = file.inclusions(
        alloc,
        MOST_THINGS_OF_A_RULE,
        instance.stand,
        e.node.number(),
    )?;
    let rule = rule_with(alloc, budget, file, instance, scope, e, &inclusions);
    drop(inclusions);
    rule
}

/// The rules of a pattern in its scope, which is the same behind them.
pub(crate) fn rules_of(
    alloc: Global,
    budget: &mut Budget,
    file: &RuleFile<'_, '_>,
    instance: &Instance<'_, '_>,
    scope: &mut Scope,
) -> Result<Many<Rule>, AllocError>
    ensures rules { IfOk result (λ rules. map seen_rule rules
        ≡ map (spec.rule_of file.now (seen_instance instance.now) scope.old) (lookup.inside lookup.is_own_rule file.now.entries instance.now.body)) }
    ensures scope { OnOk result (scope.new ≡ scope.old) }
{
    let inside = file.inside(alloc, Sort::Rules, instance.body)?;
    let mut rules = Many::new(alloc);
    'rules: for e in inside {
        rules.push(rule_of(alloc, budget, file, instance, scope, e)?)?;
    }
    Ok(rules)
}
