//! Messages of assertions.
ghost use Rattle.std.specs.Prelude.{◌≡◌, map, IfOk};
ghost use Rattle.schematron_meaning.specs.Rules as spec;
ghost use Rattle.schematron_meaning.specs.Entries as meaning;
ghost use Rattle.schematron_entries.specs.Seen.{seen_entry};
ghost use Rattle.schematron_rules.specs.Seen.{seen_part};

use crate::budget::Budget;
use crate::texts::plan_at;
use inv_base::Many;
use schematron_entries::Entry;
use schematron_expansion::{RuleFile, Sort};
use schematron_meaning::{Attribute, Role};
use schematron_rules::Part;
use schematron_texts::Parameters;
use std::alloc::{AllocError, Global};
use xpath_types::Scope;

fn part_of(
    alloc: Global,
    budget: &mut Budget,
    params: &Parameters,
    scope: &Scope,
    e: &Entry<'_>,
) -> Result<Part, AllocError>
    ensures { IfOk result (λ part. seen_part part ≡ spec.part_by e.now.role params.now scope.now (seen_entry e.now)) }
{
    budget.take_thing()?;
    match e.role {
        Role::ValueOf => {
            let value = plan_at(alloc, budget, params, scope, Attribute::Select, e)?;
            Ok(Part::Values(value))
        }
        Role::NodeName => Ok(Part::Name),
        _ => Ok(Part::Words(budget.copied(alloc, e.text)?)),
    }
}

/// The message of an assertion: its texts as they stand, and what it asks for.
pub(crate) fn message_of(
    alloc: Global,
    budget: &mut Budget,
    file: &RuleFile<'_, '_>,
    params: &Parameters,
    scope: &Scope,
    e: &Entry<'_>,
) -> Result<Many<Part>, AllocError>
    ensures { IfOk result (λ parts. map seen_part parts ≡ spec.message_of file.now.entries params.now scope.now (seen_entry e.now)) }
{
    let inside = file.inside(alloc, Sort::MessageParts, e.node.number())?;
    let mut parts = Many::new(alloc);
    'parts: for part in inside {
        parts.push(part_of(alloc, budget, params, scope, part)?)?;
    }
    Ok(parts)
}
