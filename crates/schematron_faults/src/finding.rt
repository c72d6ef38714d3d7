//! The first cycle of a rule file.
ghost use Rattle.std.specs.Prelude.{◌≡◌, List, option_map, option_copied, IfOk};
ghost use Rattle.inv_base.specs.Tree.{Node};
ghost use Rattle.schematron_graph.specs.Back.{IsFirstBack};
ghost use Rattle.schematron_meaning.specs.Entries.{entries};
ghost use Rattle.schematron_meaning.specs.Expansion.{file_of};
ghost use Rattle.schematron_meaning.specs.Faults.{cycle};
ghost use Rattle.schematron_entries.specs.Order.{AreInOrder};
ghost use Rattle.schematron_entries.specs.Seen.{seen_entry};
ghost use Rattle.schematron_expansion.specs.Found.{first_by};
ghost use Rattle.schematron_faults.specs.Parts as spec;

use crate::parts::part_of;
use schematron_entries::{Entry, numbers_rise, rules_follow};
use schematron_expansion::{Found, RuleFile};
use schematron_graph::Spot;
use schematron_meaning::{Attribute, Fault, RuleKind};
use std::alloc::{AllocError, Global};

/// The first cycle of a file that was read of a document. Takes time in proportion to its entries.
pub fn first_cycle(alloc: Global, file: &RuleFile<'_, '_>) -> Result<Option<Found>, AllocError>
    ensures { IfOk result (λ found. (nodes : List Node) → AreInOrder nodes → file.now ≡ file_of (entries nodes)
        → found ≡ first_by (cycle file.now) file.now.entries) }
{
    let spot = file.graph().first_back(alloc)?;
    Ok(cycle_at(file, spot))
}

/// The cycle at the first part that leads back to its own rule.
fn cycle_at(file: &RuleFile<'_, '_>, spot: Option<Spot>) -> Option<Found>
    ensures { (nodes : List Node) → AreInOrder nodes → file.now ≡ file_of (entries nodes) → IsFirstBack file.now.bodies spot
        → result ≡ first_by (cycle file.now) file.now.entries }
{
    numbers_rise();
    rules_follow();
    cycle_of(part_of(file, spot))
}

/// The cycle that an `extends` shows.
fn cycle_of(e: Option<&Entry<'_>>) -> Option<Found>
    ensures { result ≡ option_map spec.cycle_found (option_map seen_entry (option_copied e.entry)) }
{
    match e {
        Some(e) => Some(Found {
            at: e.node.number(),
            fault: Fault {
                kind: RuleKind::Cycle,
                node: e.node,
                attribute: Some(Attribute::Rule),
            },
        }),
        None => None,
    }
}
