//! Some of a list of entries.
ghost use Rattle.std.specs.Prelude.{◌≡◌, ◌++◌, ◌∷◌, [], cond, OnOk};
ghost use Rattle.schematron_entries.specs.Seen.{seen_entry};
ghost use Rattle.schematron_compile.specs.Lent.{lent_entries};

use schematron_entries::Entry;
use std::alloc::AllocError;

/// Puts an entry behind others if it is to be.
pub(crate) fn push_if<'e, 'd>(
    found: &mut Vec<&'e Entry<'d>>,
    e: &'e Entry<'d>,
    is_so: bool,
) -> Result<(), AllocError>
    ensures { OnOk result (lent_entries found.new.items ≡ lent_entries found.old.items ++ cond is_so (seen_entry e.now ∷ []) []) }
{
    if is_so { push(found, e) } else { Ok(()) }
}

fn push<'e, 'd>(found: &mut Vec<&'e Entry<'d>>, e: &'e Entry<'d>) -> Result<(), AllocError>
    ensures { OnOk result (lent_entries found.new.items ≡ lent_entries found.old.items ++ seen_entry e.now ∷ []) }
{
    found.push(e)?;
    Ok(())
}
