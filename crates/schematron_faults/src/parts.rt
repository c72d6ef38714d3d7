//! The entry that is a part of an abstract rule: the items of the rule are gone over, and those that put something
//! counted.
ghost use Rattle.std.specs.Prelude.{◌≡◌, option_map, option_copied, slice_get, filter};
ghost use Rattle.schematron_meaning.specs.Lookup.{is_abstract_rule};
ghost use Rattle.schematron_meaning.specs.Bodies.{abstract_rules};
ghost use Rattle.schematron_entries.specs.Seen.{seen_entry, seen_entries};
ghost use Rattle.schematron_faults.specs.Parts as spec;

use schematron_entries::Entry;
use schematron_expansion::RuleFile;
use schematron_graph::Spot;
use schematron_meaning::Role;

/// The entry that is a part of an abstract rule, if there is such a part.
pub(crate) fn part_of<'e, 'd>(file: &RuleFile<'e, 'd>, spot: Option<Spot>) -> Option<&'e Entry<'d>>
    ensures { option_map seen_entry (option_copied result) ≡ spec.part_of file.now spot }
{
    match spot {
        Some(spot) => part_at(file, spot),
        None => None,
    }
}

fn part_at<'e, 'd>(file: &RuleFile<'e, 'd>, spot: Spot) -> Option<&'e Entry<'d>>
    ensures { option_map seen_entry (option_copied result) ≡ spec.part_at file.now spot }
{
    match nth_rule(file.entries(), spot.rule) {
        Some(rule) => nth_part(file, rule.node.number(), spot.part),
        None => None,
    }
}

/// The abstract rule behind so many others.
fn nth_rule<'e, 'd>(entries: &'e [Entry<'d>], rule: usize) -> Option<&'e Entry<'d>>
    ensures { option_map seen_entry (option_copied result) ≡ slice_get (abstract_rules (seen_entries entries.now)) rule }
{
    let mut left = rule;
    'entries: for e in entries {
        match passed(e.role.is_abstract_rule(), left) {
            Some(others) => left = others,
            None => return Some(e),
        }
    }
    None
}

/// The entry behind so many others that puts a part in the rule of that number.
fn nth_part<'e, 'd>(file: &RuleFile<'e, 'd>, number: u32, part: usize) -> Option<&'e Entry<'d>>
    ensures { option_map seen_entry (option_copied result) ≡ slice_get (filter (spec.is_part file.now.rules number) file.now.entries) part }
{
    let entries = file.entries();
    let mut left = part;
    'entries: for e in entries {
        match passed(is_part(file, number, e), left) {
            Some(others) => left = others,
            None => return Some(e),
        }
    }
    None
}

/// How many are to be passed behind one, where it may count; none where it is the one itself.
fn passed(counts: bool, left: usize) -> Option<usize>
    ensures { result ≡ spec.passed counts left }
{
    if counts {
        left.checked_sub(1)
    } else {
        Some(left)
    }
}

/// Whether the entry puts a part in the rule of that number.
fn is_part<'d>(file: &RuleFile<'_, 'd>, number: u32, e: &Entry<'d>) -> bool
    ensures { result ≡ spec.is_part file.now.rules number (seen_entry e.now) }
{
    (e.parent == number) & is_putting(file, e)
}

fn is_putting<'d>(file: &RuleFile<'_, 'd>, e: &Entry<'d>) -> bool
    ensures { result ≡ spec.is_putting e.now.role file.now.rules (seen_entry e.now) }
{
    match e.role {
        Role::Let | Role::Assert | Role::Report => true,
        Role::Extends => file.rule_put(e).is_some(),
        _ => false,
    }
}
