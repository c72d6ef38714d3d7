//! What counts at an element of a rule file.
ghost use Rattle.std.specs.Prelude.{◌≡◌, nat_eq};
ghost use Rattle.indexmap.specs.IndexMap.{get};
ghost use Rattle.schematron_meaning.specs.Lookup.{is_own_pattern, at_node};
ghost use Rattle.schematron_meaning.specs.Expansion.{pattern_used};
ghost use Rattle.schematron_meaning.specs.Counts as meaning;
ghost use Rattle.schematron_entries.specs.Seen.{seen_entry};
ghost use Rattle.schematron_expansion.specs.Counted.{is_counted};
ghost use Rattle.schematron_expansion.specs.Sizes.{assertions_at};
ghost use Rattle.schematron_faults.specs.Stopped as spec;

use crate::sizes::{Size, size_at};
use crate::sums::{Sums, no_sums};
use indexmap::IndexMap;
use schematron_entries::Entry;
use schematron_expansion::RuleFile;
use schematron_meaning::Role;

/// What counts at an entry, of which it is known how many assertions it puts and whether it stands in a rule that
/// counts, where it is known of each element what its rules come to.
pub(crate) fn sums_at<'e, 'd>(
    file: &RuleFile<'e, 'd>,
    sizes: &IndexMap<u32, Size>,
    e: &Entry<'d>,
    inclusions: u64,
    stands_in_one: bool,
) -> Sums
    requires sizes { spec.AreSizes (λ n. get nat_eq sizes.now n) file.now file.now.entries }
    requires inclusions { inclusions ≡ assertions_at file.now (seen_entry e.now) }
    requires counted { stands_in_one ≡ is_counted file.now.entries (seen_entry e.now) }
    ensures { spec.seen_sums result ≡ spec.stopped (meaning.tally_of file.now (seen_entry e.now)) }
{
    match e.role {
        Role::Pattern => one_pattern(0, 0),
        Role::Use => sums_used(file, sizes, e),
        Role::Rule => where_so(is_of_a_pattern(file, e.parent), 1, 0),
        Role::Assert | Role::Report | Role::Extends => where_so(stands_in_one, 0, inclusions),
        _ => no_sums(),
    }
}

/// A pattern with these.
fn one_pattern(rules: u64, assertions: u64) -> Sums
    ensures patterns { result.patterns ≡ 1 }
    ensures rules { result.rules ≡ rules }
    ensures assertions { result.assertions ≡ assertions }
{
    Sums {
        patterns: 1,
        rules,
        assertions,
    }
}

/// These, or nothing.
fn where_so(is_so: bool, rules: u64, assertions: u64) -> Sums
    ensures { spec.seen_sums result ≡ meaning.when is_so (record { patterns = 0; rules = rules; assertions = assertions }) }
{
    if is_so {
        Sums {
            patterns: 0,
            rules,
            assertions,
        }
    } else {
        no_sums()
    }
}

/// What counts at a pattern that uses another: itself, with the rules of that one.
fn sums_used<'e, 'd>(file: &RuleFile<'e, 'd>, sizes: &IndexMap<u32, Size>, e: &Entry<'d>) -> Sums
    requires { spec.AreSizes (λ n. get nat_eq sizes.now n) file.now file.now.entries }
    ensures { spec.seen_sums result ≡ spec.stopped (meaning.used_tally file.now (pattern_used file.now.entries (seen_entry e.now))) }
{
    match file.pattern_used(e) {
        Some(body) => {
            let size = size_at(sizes, body.node.number());
            one_pattern(size.rules, size.assertions)
        }
        None => one_pattern(0, 0),
    }
}

/// The pattern at the node stands for itself.
fn is_of_a_pattern(file: &RuleFile<'_, '_>, n: u32) -> bool
    ensures { result ≡ meaning.is_of_a_pattern file.now.entries (at_node file.now.entries n) }
{
    match file.at(n) {
        Some(e) => e.role.is_own_pattern(),
        None => false,
    }
}
