//! Patterns that are judged, with what they have or use.
ghost use Rattle.std.specs.Prelude.{◌≡◌, [], false, map, IfOk, OnOk};
ghost use Rattle.std.specs.List.{list_any};
ghost use Rattle.schematron_meaning.specs.Lookup.{inside};
ghost use Rattle.schematron_meaning.specs.Written as written;
ghost use Rattle.schematron_entries.specs.Seen.{seen_entry};
ghost use Rattle.schematron_expansion.specs.Seen.{seen_instance};
ghost use Rattle.schematron_faults.specs.declared.search.Search.{Search as Searched};
ghost use Rattle.schematron_faults.specs.Again as again;
ghost use Rattle.schematron_faults.specs.Read.{IsRead, IsItem};
ghost use Rattle.schematron_faults.specs.Searching as spec;
ghost use Rattle.schematron_faults.specs.Staying.{blanks_of, AreTexts};
ghost use Rattle.schematron_faults.specs.Things as things;

use crate::lets::{declare_lets, judge_let};
use crate::phases::outer_scope;
use crate::rules::judge_rule;
use crate::search::{Search, wants_at};
use schematron_entries::Entry;
use schematron_expansion::{Instance, RuleFile, Sort};
use std::alloc::{AllocError, Global};
use xpath_types::Scope;

/// What is declared, while a pattern is gone over.
pub(crate) struct Scopes {
    /// Before a let of the pattern.
    pub pattern: Scope,
    /// Before a let of a rule.
    pub rule: Scope,
    /// In all of a rule.
    pub all: Scope,
}

impl Drop for Scopes {
    fn drop(self) {
        let Scopes { pattern, rule, all } = self;
        drop(pattern);
        drop(rule);
        drop(all);
    }
}

/// The scopes of a pattern before anything of it is declared.
fn scopes_of(alloc: Global, file: &RuleFile<'_, '_>) -> Result<Scopes, AllocError>
    ensures { IfOk result (λ scopes. spec.AreAll scopes (written.outer_scope file.now.entries)) }
{
    let pattern = outer_scope(alloc, file)?;
    match outer_scope(alloc, file) {
        Ok(rule) => match outer_scope(alloc, file) {
            Ok(all) => Ok(Scopes { pattern, rule, all }),
            Err(error) => {
                drop(pattern);
                drop(rule);
                Err(error)
            }
        },
        Err(error) => {
            drop(pattern);
            Err(error)
        }
    }
}

/// Goes over the patterns that are judged.
pub(crate) fn judge_patterns(
    alloc: Global,
    search: &mut Search,
    file: &RuleFile<'_, '_>,
) -> Result<(), AllocError>
    requires again { search.old.again ≡ false }
    requires texts { AreTexts (blanks_of file.now.entries) file.now.entries search.old.texts }
    ensures { OnOk result (IsRead file.now → spec.Goes search.old search.new (things.written_patterns file.now)) }
{
    let mut scopes = scopes_of(alloc, file)?;
    let instances = file.instances(alloc)?;
    'instances: for at in 0..instances.len() {
        let earlier = &instances[..at];
        judge_instance(alloc, search, file, &mut scopes, earlier, &instances[at])?;
    }
    Ok(())
}

/// Goes over a pattern behind those before it, unless nothing of it would be told.
fn judge_instance(
    alloc: Global,
    search: &mut Search,
    file: &RuleFile<'_, '_>,
    scopes: &mut Scopes,
    earlier: &[Instance<'_, '_>],
    instance: &Instance<'_, '_>,
) -> Result<(), AllocError>
    requires { spec.AreAll scopes.old (written.outer_scope file.now.entries) }
    ensures goes { OnOk result ((first : Searched) → IsRead file.now →
        spec.IsBehind file.now first search.old (map seen_instance earlier.now) (seen_instance instance.now)
        → spec.Goes search.old search.new (written.written_pattern file.now (written.outer_scope file.now.entries) (seen_instance instance.now))) }
    ensures scopes { OnOk result (spec.AreAll scopes.new (written.outer_scope file.now.entries)) }
{
    if !wants_at(search, instance.stand) {
        return Ok(());
    }
    // A fault here would still be told, so all that stands before is right: of another use what no parameter changes.
    let again = is_again(earlier, instance);
    search.again = search.texts.names_stay & again;
    judge_pattern(alloc, search, file, scopes, instance)?;
    search.again = false;
    Ok(())
}

/// Another pattern before it uses the same abstract one. There are at most as many as may be judged.
fn is_again(earlier: &[Instance<'_, '_>], instance: &Instance<'_, '_>) -> bool
    ensures { result ≡ again.is_again (map seen_instance earlier.now) (seen_instance instance.now) }
{
    match instance.stand {
        Some(at) => is_used(earlier, instance.body, at),
        None => false,
    }
}

/// One of these uses the abstract pattern of that number, and isn't behind that element.
fn is_used(earlier: &[Instance<'_, '_>], body: u32, at: u32) -> bool
    ensures { result ≡ list_any (again.is_use body at) (map seen_instance earlier.now) }
{
    'earlier: for one in earlier {
        if is_use(one, body, at) {
            return true;
        }
    }
    false
}

fn is_use(instance: &Instance<'_, '_>, body: u32, at: u32) -> bool
    ensures { result ≡ again.is_use body at (seen_instance instance.now) }
{
    instance.body == body && stands_up_to(instance.stand, at)
}

fn stands_up_to(stand: Option<u32>, at: u32) -> bool
    ensures { result ≡ again.stands_up_to at stand }
{
    match stand {
        Some(stand) => stand <= at,
        None => false,
    }
}

/// Goes over what a pattern has or uses.
fn judge_pattern(
    alloc: Global,
    search: &mut Search,
    file: &RuleFile<'_, '_>,
    scopes: &mut Scopes,
    instance: &Instance<'_, '_>,
) -> Result<(), AllocError>
    requires { spec.AreAll scopes.old (written.outer_scope file.now.entries) }
    ensures goes { OnOk result (IsRead file.now → spec.Goes search.old search.new
        (written.written_pattern file.now (written.outer_scope file.now.entries) (seen_instance instance.now))) }
    ensures scopes { OnOk result (spec.AreAll scopes.new (written.outer_scope file.now.entries)) }
{
    let count = scopes.pattern.count();
    declare_pattern(alloc, search, file, scopes, instance)?;
    judge_items(alloc, search, file, scopes, instance)?;
    scopes.pattern.truncate(count);
    scopes.rule.truncate(count);
    scopes.all.truncate(count);
    Ok(())
}

/// Declares all lets of a pattern in the scopes of its rules.
fn declare_pattern(
    alloc: Global,
    search: &mut Search,
    file: &RuleFile<'_, '_>,
    scopes: &mut Scopes,
    instance: &Instance<'_, '_>,
) -> Result<(), AllocError>
    requires { spec.AreAll scopes.old (written.outer_scope file.now.entries) }
    ensures goes { OnOk result (spec.Goes search.old search.new []) }
    ensures scopes { OnOk result (spec.AreFor file.now (seen_instance instance.now) scopes.new) }
{
    let params = &instance.params;
    declare_lets(alloc, search, file, params, &mut scopes.rule, instance.body)?;
    declare_lets(alloc, search, file, params, &mut scopes.all, instance.body)
}

/// Goes over the lets and rules of a pattern.
fn judge_items(
    alloc: Global,
    search: &mut Search,
    file: &RuleFile<'_, '_>,
    scopes: &mut Scopes,
    instance: &Instance<'_, '_>,
) -> Result<(), AllocError>
    requires { scopes.old.rule ≡ scopes.old.all }
    ensures goes { OnOk result (IsRead file.now → spec.Goes search.old search.new
        (written.written_items file.now (seen_instance instance.now) scopes.old.all scopes.old.pattern
        (inside written.is_let_or_rule file.now.entries instance.now.body))) }
    ensures pattern { OnOk result (scopes.new.pattern
        ≡ things.with_entries instance.now.params scopes.old.pattern (inside written.is_let_or_rule file.now.entries instance.now.body)) }
    ensures rule { OnOk result (scopes.new.rule ≡ scopes.old.rule) }
    ensures all { OnOk result (scopes.new.all ≡ scopes.old.all) }
{
    let sort = Sort::LetsAndRules;
    let items = file.inside_within(alloc, &mut search.budget, sort, instance.body)?;
    'items: for e in items {
        judge_item(alloc, search, file, scopes, instance, e)?;
    }
    Ok(())
}

/// Goes over a let or a rule of a pattern.
fn judge_item(
    alloc: Global,
    search: &mut Search,
    file: &RuleFile<'_, '_>,
    scopes: &mut Scopes,
    instance: &Instance<'_, '_>,
    e: &Entry<'_>,
) -> Result<(), AllocError>
    requires { scopes.old.rule ≡ scopes.old.all }
    ensures goes { OnOk result (IsRead file.now → IsItem file.now.entries (seen_entry e.now)
        → spec.Goes search.old search.new (things.written_item file.now (seen_instance instance.now) scopes.old.all scopes.old.pattern (seen_entry e.now))) }
    ensures pattern { OnOk result (scopes.new.pattern ≡ things.with_entry instance.now.params scopes.old.pattern (seen_entry e.now)) }
    ensures rule { OnOk result (scopes.new.rule ≡ scopes.old.rule) }
    ensures all { OnOk result (scopes.new.all ≡ scopes.old.all) }
{
    if e.role.is_let() {
        judge_let(
            alloc,
            search,
            instance.stand,
            &instance.params,
            &mut scopes.pattern,
            e,
        )
    } else {
        judge_rule(
            alloc,
            search,
            file,
            instance,
            &mut scopes.rule,
            &mut scopes.all,
            e,
        )
    }
}
