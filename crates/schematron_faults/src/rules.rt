//! Rules with what they have and extend.
ghost use Rattle.std.specs.Prelude.{◌≡◌, true, [], map, OnOk};
ghost use Rattle.schematron_meaning.specs.declared.attribute.Attribute.TheVariants as name;
ghost use Rattle.schematron_meaning.specs.Lookup.{is_let, is_part, inside};
ghost use Rattle.schematron_meaning.specs.Written as written;
ghost use Rattle.schematron_entries.specs.Seen.{seen_entry};
ghost use Rattle.schematron_expansion.specs.Seen.{seen_put, seen_instance};
ghost use Rattle.schematron_faults.specs.Read.{IsRead, IsRule};
ghost use Rattle.schematron_faults.specs.Searching as spec;
ghost use Rattle.schematron_faults.specs.Things as things;

use crate::judging::judge;
use crate::lets::{declare, judge_let};
use crate::search::Search;
use schematron_entries::Entry;
use schematron_expansion::{Inclusion, Instance, RuleFile, Sort};
use schematron_meaning::Attribute;
use schematron_texts::Parameters;
use std::alloc::{AllocError, Global};
use xpath_types::Scope;
use xpath_types::laws::accepted_with_one_more;

/// Goes over a rule of a pattern. The scopes have what is declared in the pattern: in one each let of the rule is
/// declared behind its value, in the other all are first. Both are cut back then.
pub(crate) fn judge_rule(
    alloc: Global,
    search: &mut Search,
    file: &RuleFile<'_, '_>,
    instance: &Instance<'_, '_>,
    before: &mut Scope,
    all: &mut Scope,
    rule: &Entry<'_>,
) -> Result<(), AllocError>
    requires { before.old ≡ all.old }
    ensures goes { OnOk result (IsRead file.now → IsRule file.now.entries (seen_entry rule.now) →
        spec.Goes search.old search.new (written.written_rule file.now (seen_instance instance.now) all.old (seen_entry rule.now))) }
    ensures before { OnOk result (before.new ≡ before.old) }
    ensures all { OnOk result (all.new ≡ all.old) }
{
    accepted_with_one_more();
    let count = all.count();
    let number = rule.node.number();
    let inclusions = file.first_puts(alloc, &mut search.budget, instance.stand, number)?;
    declare_puts(alloc, search, &instance.params, all, inclusions.as_slice())?;
    judge_context(alloc, search, instance, before, rule)?;
    judge_puts(
        alloc,
        search,
        file,
        &instance.params,
        before,
        all,
        inclusions.as_slice(),
    )?;
    before.truncate(count);
    all.truncate(count);
    Ok(())
}

/// Judges the context of a rule.
fn judge_context(
    alloc: Global,
    search: &mut Search,
    instance: &Instance<'_, '_>,
    scope: &Scope,
    rule: &Entry<'_>,
) -> Result<(), AllocError>
    ensures { OnOk result (spec.Goes search.old search.new
        (written.written name.Context true instance.now.stand instance.now.params scope.now (seen_entry rule.now))) }
{
    let params = &instance.params;
    judge(
        alloc,
        search,
        Attribute::Context,
        instance.stand,
        params,
        scope,
        rule,
    )
}

/// Declares the lets among things of a rule.
fn declare_puts(
    alloc: Global,
    search: &mut Search,
    params: &Parameters,
    scope: &mut Scope,
    inclusions: &[Inclusion<'_, '_>],
) -> Result<(), AllocError>
    ensures goes { OnOk result (spec.Goes search.old search.new []) }
    ensures scope { OnOk result (scope.new ≡ written.with_lets params.now scope.old (written.lets_among (map seen_put inclusions.now))) }
{
    'inclusions: for inclusion in inclusions {
        declare_entry(alloc, search, params, scope, inclusion.entry)?;
    }
    Ok(())
}

/// Declares a let, if the element is one.
fn declare_entry(
    alloc: Global,
    search: &mut Search,
    params: &Parameters,
    scope: &mut Scope,
    e: &Entry<'_>,
) -> Result<(), AllocError>
    ensures goes { OnOk result (spec.Goes search.old search.new []) }
    ensures scope { OnOk result (scope.new ≡ things.with_entry params.now scope.old (seen_entry e.now)) }
{
    if e.role.is_let() {
        declare(alloc, search, params, scope, e)
    } else {
        Ok(())
    }
}

/// Goes over the things of a rule, in the scope that has all its lets and in the one that has those before each.
fn judge_puts(
    alloc: Global,
    search: &mut Search,
    file: &RuleFile<'_, '_>,
    params: &Parameters,
    before: &mut Scope,
    all: &Scope,
    inclusions: &[Inclusion<'_, '_>],
) -> Result<(), AllocError>
    ensures goes { OnOk result (spec.Goes search.old search.new (written.written_puts file.now.entries params.now all.now before.old (map seen_put
        inclusions.now))) }
    ensures before { OnOk result (before.new ≡ written.with_lets params.now before.old (written.lets_among (map seen_put inclusions.now))) }
{
    'inclusions: for inclusion in inclusions {
        judge_put(alloc, search, file, params, before, all, inclusion)?;
    }
    Ok(())
}

fn judge_put(
    alloc: Global,
    search: &mut Search,
    file: &RuleFile<'_, '_>,
    params: &Parameters,
    before: &mut Scope,
    all: &Scope,
    inclusion: &Inclusion<'_, '_>,
) -> Result<(), AllocError>
    ensures goes { OnOk result (spec.Goes search.old search.new (things.written_put file.now.entries params.now all.now before.old (seen_put inclusion.now))) }
    ensures before { OnOk result (before.new ≡ things.with_entry params.now before.old (seen_put inclusion.now).entry) }
{
    if inclusion.entry.role.is_let() {
        judge_let(
            alloc,
            search,
            inclusion.stand,
            params,
            before,
            inclusion.entry,
        )
    } else {
        judge_assertion(alloc, search, file, params, all, inclusion)
    }
}

/// Judges a test and what its message asks for.
fn judge_assertion(
    alloc: Global,
    search: &mut Search,
    file: &RuleFile<'_, '_>,
    params: &Parameters,
    all: &Scope,
    inclusion: &Inclusion<'_, '_>,
) -> Result<(), AllocError>
    ensures { OnOk result (spec.Goes search.old search.new (written.written_assertion file.now.entries params.now all.now (seen_put inclusion.now))) }
{
    judge(
        alloc,
        search,
        Attribute::Test,
        inclusion.stand,
        params,
        all,
        inclusion.entry,
    )?;
    judge_parts(
        alloc,
        search,
        file,
        inclusion.stand,
        params,
        all,
        inclusion.entry,
    )
}

fn judge_parts(
    alloc: Global,
    search: &mut Search,
    file: &RuleFile<'_, '_>,
    stand: Option<u32>,
    params: &Parameters,
    all: &Scope,
    e: &Entry<'_>,
) -> Result<(), AllocError>
    ensures { OnOk result (spec.Goes search.old search.new
        (things.written_parts stand params.now all.now (inside is_part file.now.entries (seen_entry e.now).number))) }
{
    let number = e.node.number();
    let parts = file.inside_within(alloc, &mut search.budget, Sort::MessageParts, number)?;
    'parts: for part in parts {
        judge(alloc, search, Attribute::Select, stand, params, all, part)?;
    }
    Ok(())
}
