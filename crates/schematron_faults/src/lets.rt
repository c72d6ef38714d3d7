//! Lets, and the scopes that they make.
ghost use Rattle.std.specs.Prelude.{◌≡◌, [], chars, Some, OnOk};
ghost use Rattle.schematron_texts.specs.Replacing.{replaced};
ghost use Rattle.schematron_meaning.specs.Lookup.{is_let, inside};
ghost use Rattle.schematron_meaning.specs.Written as written;
ghost use Rattle.schematron_entries.specs.Seen.{seen_entry};
ghost use Rattle.schematron_faults.specs.Searching as spec;

use crate::judging::judge;
use crate::search::{Search, spend, spend_more};
use schematron_entries::Entry;
use schematron_expansion::{RuleFile, Sort};
use schematron_meaning::Attribute;
use schematron_texts::{Parameters, replaced_within};
use std::alloc::{AllocError, Global};
use xpath_tokens::MOST_BYTES;
use xpath_types::Scope;

/// Judges the value of a let in the scope of those before it, and declares it.
pub(crate) fn judge_let(
    alloc: Global,
    search: &mut Search,
    stand: Option<u32>,
    params: &Parameters,
    scope: &mut Scope,
    e: &Entry<'_>,
) -> Result<(), AllocError>
    ensures goes { OnOk result (spec.Goes search.old search.new (written.written_let stand params.now scope.old (seen_entry e.now))) }
    ensures scope { OnOk result (scope.new ≡ written.with_let params.now scope.old (seen_entry e.now)) }
{
    judge(alloc, search, Attribute::Value, stand, params, scope, e)?;
    declare(alloc, search, params, scope, e)
}

/// Declares the variable of a let. A name that is longer than an expression may be counts as want of memory.
pub(crate) fn declare(
    alloc: Global,
    search: &mut Search,
    params: &Parameters,
    scope: &mut Scope,
    e: &Entry<'_>,
) -> Result<(), AllocError>
    ensures goes { OnOk result (spec.Goes search.old search.new []) }
    ensures scope { OnOk result (scope.new ≡ written.with_let params.now scope.old (seen_entry e.now)) }
{
    match e.attribute(Attribute::Name) {
        Some(name) => declare_name(alloc, search, params, scope, name),
        None => Ok(()),
    }
}

fn declare_name(
    alloc: Global,
    search: &mut Search,
    params: &Parameters,
    scope: &mut Scope,
    name: &str,
) -> Result<(), AllocError>
    ensures goes { OnOk result (spec.Goes search.old search.new []) }
    ensures scope { OnOk result (scope.new ≡ written.declare scope.old (Some (replaced params.now (chars name.now)))) }
{
    spend(search, name.len() as u64)?;
    match replaced_within(alloc, params, name, MOST_BYTES)? {
        Some(made) => {
            spend_more(search, name.len() as u64, made.len() as u64)?;
            scope.variable(alloc, made.as_str())?;
            Ok(())
        }
        None => Err(AllocError),
    }
}

/// Declares the variables of the lets that stand in an element, in their order.
pub(crate) fn declare_lets(
    alloc: Global,
    search: &mut Search,
    file: &RuleFile<'_, '_>,
    params: &Parameters,
    scope: &mut Scope,
    number: u32,
) -> Result<(), AllocError>
    ensures goes { OnOk result (spec.Goes search.old search.new []) }
    ensures scope { OnOk result (scope.new ≡ written.with_lets params.now scope.old (inside is_let file.now.entries number)) }
{
    let lets = file.inside_within(alloc, &mut search.budget, Sort::Lets, number)?;
    'lets: for e in lets {
        declare(alloc, search, params, scope, e)?;
    }
    Ok(())
}

/// Judges the values of the lets that stand in an element in their order, each in the scope of those before it, and
/// declares them.
pub(crate) fn judge_lets(
    alloc: Global,
    search: &mut Search,
    file: &RuleFile<'_, '_>,
    scope: &mut Scope,
    number: u32,
) -> Result<(), AllocError>
    ensures goes { OnOk result (spec.Goes search.old search.new (written.written_lets scope.old (inside is_let file.now.entries number))) }
    ensures scope { OnOk result (scope.new ≡ written.with_lets [] scope.old (inside is_let file.now.entries number)) }
{
    let params = Parameters::new(alloc);
    let lets = file.inside(alloc, Sort::Lets, number)?;
    'lets: for e in lets {
        judge_let(alloc, search, None, &params, scope, e)?;
    }
    Ok(())
}
