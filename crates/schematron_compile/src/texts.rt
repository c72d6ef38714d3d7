//! Attributes with the parameters' values in them.
ghost use Rattle.std.specs.Prelude.{◌≡◌, false, chars, IfOk};
ghost use Rattle.schematron_texts.specs.Replacing.{replaced};
ghost use Rattle.schematron_meaning.specs.Rules as spec;
ghost use Rattle.schematron_entries.specs.Seen.{seen_entry};
ghost use Rattle.schematron_rules.specs.Seen.{seen_shown};
ghost use Rattle.xpath_plan.specs.Plans.{expression};

use crate::budget::Budget;
use inv_base::Txt;
use schematron_entries::Entry;
use schematron_meaning::Attribute;
use schematron_rules::{Shown, plan_of};
use schematron_texts::{Parameters, replaced_within};
use std::alloc::{AllocError, Global};
use xpath_plan::Plan;
use xpath_types::Scope;

/// A text with the parameters' values in it.
pub(crate) fn replaced(
    alloc: Global,
    budget: &mut Budget,
    params: &Parameters,
    text: &str,
) -> Result<Txt, AllocError>
    ensures { IfOk result (λ made. made ≡ replaced params.now (chars text.now)) }
{
    budget.take_text(text)?;
    match replaced_within(alloc, params, text, budget.bytes())? {
        Some(made) => budget.copied(alloc, made.as_str()),
        None => Err(AllocError),
    }
}

/// An attribute, if it is there.
pub(crate) fn text_at(
    alloc: Global,
    budget: &mut Budget,
    params: &Parameters,
    name: Attribute,
    e: &Entry<'_>,
) -> Result<Option<Txt>, AllocError>
    ensures { IfOk result (λ text. text ≡ spec.text_at name params.now (seen_entry e.now)) }
{
    match e.attribute(name) {
        Some(text) => Ok(Some(replaced(alloc, budget, params, text)?)),
        None => Ok(None),
    }
}

/// An attribute; one that isn't there is empty.
pub(crate) fn text_or_empty(
    alloc: Global,
    budget: &mut Budget,
    params: &Parameters,
    name: Attribute,
    e: &Entry<'_>,
) -> Result<Txt, AllocError>
    ensures { IfOk result (λ text. text ≡ spec.or_empty (spec.text_at name params.now (seen_entry e.now))) }
{
    match e.attribute(name) {
        Some(text) => replaced(alloc, budget, params, text),
        None => Txt::of(alloc, ""),
    }
}

/// The expression of an attribute, or the pattern where it is to be one, with its text.
pub(crate) fn shown(
    alloc: Global,
    budget: &mut Budget,
    params: &Parameters,
    scope: &Scope,
    is_pattern: bool,
    name: Attribute,
    e: &Entry<'_>,
) -> Result<Shown, AllocError>
    ensures { IfOk result (λ found. seen_shown found ≡ spec.shown name is_pattern params.now scope.now (seen_entry e.now)) }
{
    let text = text_or_empty(alloc, budget, params, name, e)?;
    match plan_of(alloc, is_pattern, text.as_str(), scope) {
        Ok(plan) => Ok(Shown { text, plan }),
        Err(error) => {
            drop(text);
            Err(error)
        }
    }
}

/// The expression of an attribute.
pub(crate) fn plan_at(
    alloc: Global,
    budget: &mut Budget,
    params: &Parameters,
    scope: &Scope,
    name: Attribute,
    e: &Entry<'_>,
) -> Result<Plan, AllocError>
    ensures { IfOk result (λ plan. expression plan ≡ (spec.shown name false params.now scope.now (seen_entry e.now)).expression) }
{
    let text = text_or_empty(alloc, budget, params, name, e)?;
    let plan = plan_of(alloc, false, text.as_str(), scope);
    drop(text);
    plan
}
