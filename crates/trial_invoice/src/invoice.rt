ghost use Rattle.std.specs.Prelude.{◌≡◌, ◌≤◌, IfOk};
ghost use Rattle.trial_invoice.specs.Generated.{trial_entries};

use crate::amounts::sum_of_nets;
use crate::head::put_head;
use crate::lines::put_lines;
use inv_decimal::laws::printed_numbers_are_read;
use inv_terms::{Invoice, push_refuses_what_makes_no_invoice};
use std::alloc::{AllocError, Global};

/// How many lines a generated invoice may have.
pub const MOST_LINES: u32 = 10_000;

/// The generated invoice of so many lines.
pub fn trial_invoice(alloc: Global, lines: u32) -> Result<Invoice, AllocError>
    requires { lines ≤ MOST_LINES }
    ensures { IfOk result (λ invoice. invoice ≡ trial_entries lines) }
{
    printed_numbers_are_read();
    push_refuses_what_makes_no_invoice();
    let mut entries = Vec::new(alloc);
    put_head(alloc, sum_of_nets(lines), &mut entries)?;
    put_lines(alloc, lines, &mut entries)?;
    Ok(Invoice::from_entries(entries))
}
