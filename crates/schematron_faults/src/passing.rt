//! The first element at which a number passes its limit.
ghost use Rattle.std.specs.Prelude.{◌≡◌, nat_eq, IfOk};
ghost use Rattle.indexmap.specs.IndexMap.{get};
ghost use Rattle.schematron_entries.specs.Seen.{seen_entry};
ghost use Rattle.schematron_expansion.specs.Counted.{counted_among};
ghost use Rattle.schematron_expansion.specs.Sizes.{assertions_among};
ghost use Rattle.schematron_faults.specs.Passing.{first_passing};
ghost use Rattle.schematron_faults.specs.Stopped as spec;

use crate::sizes::{Size, sizes_of};
use crate::sums::{added, no_sums, passes_any};
use crate::tallies::sums_at;
use indexmap::IndexMap;
use schematron_entries::Entry;
use schematron_expansion::{Found, RuleFile, assertions, assertions_inside, counted};
use schematron_meaning::{Fault, RuleKind};
use std::alloc::{AllocError, Global};

/// The first element at which there are more than 2,000 patterns, 10,000 rules or 20,000 assertions, with those that are
/// put where others are used. Nothing is built for it. Takes time in proportion to the entries.
pub fn first_too_many(alloc: Global, file: &RuleFile<'_, '_>) -> Result<Option<Found>, AllocError>
    ensures { IfOk result (λ found. found ≡ first_passing file.now) }
{
    file.is_of_its_entries();
    let inclusions = assertions(alloc, file.entries(), file.graph())?;
    match counted(alloc, file.entries()) {
        Ok(counted) => {
            let found = first_by(alloc, file, &inclusions, &counted);
            drop(inclusions);
            drop(counted);
            found
        }
        Err(error) => {
            drop(inclusions);
            Err(error)
        }
    }
}

/// The same where it is known of each entry how many assertions it puts and whether it stands in a rule that counts.
fn first_by(
    alloc: Global,
    file: &RuleFile<'_, '_>,
    inclusions: &[u64],
    counted: &[bool],
) -> Result<Option<Found>, AllocError>
    requires inclusions { inclusions.now ≡ assertions_among file.now file.now.entries }
    requires counted { counted.now ≡ counted_among file.now.entries file.now.entries }
    ensures { IfOk result (λ found. found ≡ first_passing file.now) }
{
    file.is_of_its_entries();
    let entries = file.entries();
    let inside = assertions_inside(alloc, entries, file.graph())?;
    let sizes = sizes_of(alloc, file, &inside)?;
    Ok(first_of(file, inclusions, counted, &sizes))
}

/// The same where it is known besides of each element what its rules come to.
fn first_of(
    file: &RuleFile<'_, '_>,
    inclusions: &[u64],
    counted: &[bool],
    sizes: &IndexMap<u32, Size>,
) -> Option<Found>
    requires inclusions { inclusions.now ≡ assertions_among file.now file.now.entries }
    requires counted { counted.now ≡ counted_among file.now.entries file.now.entries }
    requires sizes { spec.AreSizes (λ n. get nat_eq sizes.now n) file.now file.now.entries }
    ensures { result ≡ first_passing file.now }
{
    let entries = file.entries();
    let mut before = no_sums();
    'places: for at in 0..entries.len() {
        let e = &entries[at];
        let after = added(before, sums_at(file, sizes, e, inclusions[at], counted[at]));
        if passes_any(before, after) {
            return Some(too_many(e));
        }
        before = after;
    }
    None
}

/// The fault of an element at which there are too many.
fn too_many(e: &Entry<'_>) -> Found
    ensures { result ≡ spec.too_many_at (seen_entry e.now) }
{
    Found {
        at: e.node.number(),
        fault: Fault {
            kind: RuleKind::TooMany,
            node: e.node,
            attribute: None,
        },
    }
}
