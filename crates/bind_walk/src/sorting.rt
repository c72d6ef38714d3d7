//! What was found, in document order.

ghost use Rattle.std.specs.Prelude.{IfOk};
ghost use Rattle.bind_walk.specs.Sorting as spec;

use bind_meaning::Picked;
use std::alloc::AllocError;

/// What was found for one reason, sorted in place by nodes and then by rows.
pub(crate) fn sorted(mut picks: Vec<Picked>) -> Result<Vec<Picked>, AllocError>
    ensures { IfOk result (λ sorted. spec.Sorts picks.items sorted.items) }
{
    picks.sort()?;
    Ok(picks)
}
