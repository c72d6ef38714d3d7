//! The first fault that an element shows by itself and by names.
ghost use Rattle.std.specs.Prelude.{◌≡◌, IfOk, OnOk};
ghost use Rattle.schematron_meaning.specs.Showing.{first_declared};
ghost use Rattle.schematron_entries.specs.Seen.{seen_entry, seen_entries};
ghost use Rattle.schematron_entries.specs.Keys as spec;
ghost use Rattle.schematron_entries.specs.Firsts.{declared_by};

use crate::entry::Entry;
use crate::keys::KeySet;
use crate::naming::{claim_name, ids_of, unnamed};
use crate::showing::{fault_by_itself, first_or};
use schematron_meaning::Fault;
use std::alloc::{AllocError, Global};

/// The first fault of the entries that elements show by themselves and by names: an element in a wrong place, an
/// attribute that isn't there, a name that stands twice, or one that is nobody's. Takes time in proportion to the
/// entries.
pub fn first_declared(alloc: Global, entries: &[Entry<'_>]) -> Result<Option<Fault>, AllocError>
    ensures { IfOk result (λ found. found ≡ first_declared (seen_entries entries.now)) }
{
    let ids = ids_of(alloc, entries)?;
    let mut names = KeySet::new(alloc);
    'entries: for e in entries {
        let found = fault_at(e, &ids, &mut names)?;
        if found.is_some() {
            return Ok(found);
        }
    }
    Ok(None)
}

/// The first fault at an element, by the names of those before it.
fn fault_at<'d>(
    e: &Entry<'d>,
    ids: &KeySet<'d>,
    names: &mut KeySet<'d>,
) -> Result<Option<Fault>, AllocError>
    ensures fault { IfOk result (λ found. found ≡ declared_by ids.now names.old (seen_entry e.now)) }
    ensures keys { OnOk result (names.new ≡ spec.with_option names.old (spec.name_key (seen_entry e.now))) }
{
    let shared = claim_name(e, names)?;
    Ok(first_or(fault_by_itself(e), first_or(shared, unnamed(ids, e))))
}
