//! What an object lacks.
ghost use Rattle.std.specs.Prelude.{◌≡◌, ◌≤◌, [], map, length, drop, OnOk};
ghost use Rattle.inv_terms.specs.Lacking.{all_missing};
ghost use Rattle.invoice_data.specs.Told.{Told, both};
ghost use Rattle.invoice_data.specs.Members as spec;

use crate::faults::{DataFault, DataKind, DataName};
use crate::names::Room;
use crate::telling::Telling;
use crate::values::fault_at;
use inv_terms::{ModelViolation, Name, TermFault, all_missing};
use std::alloc::{AllocError, Global};

fn missing_name(fault: TermFault) -> DataName
    ensures { result ≡ spec.missing_name fault }
{
    match fault {
        TermFault::Missing(Name::Term(term)) => DataName::Term(term),
        TermFault::Missing(Name::Group(group)) => DataName::Array(group),
        TermFault::Missing(Name::Nothing) => DataName::Nothing,
        TermFault::CodeNotListed(term) => DataName::Term(term),
    }
}

fn lack_fault(room: Room, at: u32, violation: ModelViolation) -> DataFault
    ensures { result ≡ spec.lack_fault room at violation }
{
    fault_at(DataKind::Missing, room, missing_name(violation.fault), at)
}

#[tactic(auto, using(crate::proofs::ToldLemmas::fault_and_more))]
fn put_each(
    room: Room,
    at: u32,
    violations: &[ModelViolation],
    telling: &mut Telling,
) -> Result<(), AllocError>
    ensures { OnOk result (telling.new ≡ both telling.old (record { founds = []; faults = map (spec.lack_fault room at) violations.now })) }
{
    'violations: for violation in violations {
        telling.put_fault(lack_fault(room, at, *violation))?;
    }
    Ok(())
}

/// Puts what the object lacks of which that was found that stands behind the first so many.
#[tactic(auto, unfolding(crate::specs::Members::lacks_told))]
pub(crate) fn put_lacks(
    alloc: Global,
    room: Room,
    at: u32,
    count: usize,
    telling: &mut Telling,
) -> Result<(), AllocError>
    requires { count ≤ length telling.old.founds }
    ensures { OnOk result (telling.new ≡ both telling.old (spec.lacks_told room at (drop count telling.old.founds))) }
{
    match all_missing(alloc, telling.founds_behind(count), room.context) {
        Ok(violations) => {
            let put = put_each(room, at, violations.as_slice(), telling);
            drop(violations);
            put
        }
        Err(error) => Err(error),
    }
}
