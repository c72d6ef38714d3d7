//! Whether each element of a table has a number of its own.
ghost use Rattle.std.specs.Prelude.{◌≡◌, IfOk};
ghost use Rattle.bind_table.specs.Laid.{are_distinct};
ghost use Rattle.laid_tables.specs.Lines.{line_numbers};

use bind_table::Line;
use std::alloc::{AllocError, Global};
use std::collections::BTreeSet;

/// Whether no two of the lines have elements of one number.
pub(crate) fn are_distinct(alloc: Global, lines: &[Line]) -> Result<bool, AllocError>
    ensures { IfOk result (λ distinct. distinct ≡ are_distinct (line_numbers lines.now)) }
{
    let mut seen: BTreeSet<u32> = BTreeSet::new(alloc);
    'lines: for line in lines {
        if !seen.insert(line.step.number)? {
            return Ok(false);
        }
    }
    Ok(true)
}
