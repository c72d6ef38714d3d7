ghost use Rattle.inv_base.specs.Printing.{Printed};
ghost use Rattle.item_listing.specs.Listing.{error_line};

use inv_base::{Printer, Sink};
use xpath_items::{DynError, code_of};

/// Writes the line of an error, and answers whether a write failed.
pub(crate) fn write_error<K: Sink>(error: DynError, out: &mut K) -> bool
    ensures { Printed result (error_line error) (K.view out.old) (K.view out.new) }
{
    let mut printer = Printer::new();
    printer.put(out, b"error ");
    printer.put(out, code_of(error).as_bytes());
    printer.put(out, b"\n");
    printer.failed
}
