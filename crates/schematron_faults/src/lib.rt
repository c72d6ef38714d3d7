//! The first fault of a rule file: that of its elements and expressions, the first `extends` through which its own rule is
//! reached again, the first element at which there are too many patterns, rules or assertions.
#![tactic(auto)]

mod expressions;
mod finding;
mod judging;
mod laws;
mod lets;
mod parts;
mod passing;
mod patterns;
mod phases;
mod rules;
mod search;
mod sizes;
mod sums;
mod tallies;
mod texts;

ghost use Rattle.std.specs.Prelude.{◌≡◌, List, IfOk};
ghost use Rattle.inv_base.specs.Tree.{Node};
ghost use Rattle.schematron_meaning.specs.Entries.{entries};
ghost use Rattle.schematron_meaning.specs.Expansion.{file_of};
ghost use Rattle.schematron_meaning.specs.Faults.{first_fault};
ghost use Rattle.schematron_entries.specs.Order.{AreInOrder};
ghost use Rattle.schematron_faults.specs.Joining as spec;

use crate::expressions::first_expression;
pub use finding::first_cycle;
pub use laws::faults_tell_nodes;
pub use passing::first_too_many;
use schematron_entries::{first_declared, numbers_rise};
use schematron_expansion::{Found, RuleFile, sooner};
use schematron_meaning::Fault;
use std::alloc::{AllocError, Global};

/// The first fault of a file that was read of a document, if it has one.
///
/// Takes time in proportion to the entries and to the expressions, each wherever it is put; one that no parameter changes
/// is judged at the first use of its abstract pattern alone. The bytes of those that are judged are counted over the
/// whole file, with those of names of lets, and 16 for each thing that is gone over. More than `MOST_JUDGED_BYTES` of
/// schematron_meaning count as want of memory, and so do more than `MOST_TURNS` of walks over what stands in elements and
/// what `extends` puts, so that a small file can't cost minutes.
pub fn first_fault(alloc: Global, file: &RuleFile<'_, '_>) -> Result<Option<Fault>, AllocError>
    ensures { IfOk result (λ found. (nodes : List Node) → AreInOrder nodes → file.now ≡ file_of (entries nodes) → found ≡ first_fault nodes) }
{
    numbers_rise();
    let declared = first_declared(alloc, file.entries())?;
    let cycle = first_cycle(alloc, file)?;
    let passing = first_too_many(alloc, file)?;
    let last = place_of(&passing);
    let best = sooner(at_itself(declared), cycle);
    let found = first_expression(alloc, file, best, last)?;
    Ok(fault_of(sooner(found, passing)))
}

/// A fault at the element that it tells.
fn at_itself(fault: Option<Fault>) -> Option<Found>
    ensures { result ≡ spec.at_itself fault }
{
    match fault {
        Some(fault) => Some(Found {
            at: fault.node.number(),
            fault,
        }),
        None => None,
    }
}

/// Where a fault stands.
fn place_of(found: &Option<Found>) -> Option<u32>
    ensures { result ≡ spec.place_of found.now }
{
    match found {
        Some(found) => Some(found.at),
        None => None,
    }
}

fn fault_of(found: Option<Found>) -> Option<Fault>
    ensures { result ≡ spec.fault_of found }
{
    match found {
        Some(found) => Some(found.fault),
        None => None,
    }
}
