ghost use Rattle.std.specs.Prelude.{◌≡◌, true};
ghost use Rattle.std.specs.List.{list_all};
ghost use Rattle.bind_table.specs.Laid.{is_writable};
ghost use Rattle.bind_write.specs.Sources.{has_plain_attribute};
ghost use Rattle.bind_write.specs.Documents as spec;

use crate::roots::{put_root, root_of};
use crate::source::whole;
use bind_table::Binding;
use inv_terms::{Counts, Invoice, invoices_are_in_listing_order};
use xml_write::{Gauge, Nowhere, gauged_calls_are_sizes};

/// How large the document of an invoice by a table is, which isn't written: its bytes, those of its longest tag, and its nodes. It takes
/// no memory.
pub fn measure(i: &Invoice, b: &Binding) -> Gauge
    requires laid { is_writable b.now ≡ true }
    requires notes { list_all has_plain_attribute b.now ≡ true }
    ensures { spec.HasSizes b.now i.now result }
{
    invoices_are_in_listing_order();
    gauged_calls_are_sizes();
    let entries = i.entries();
    let counts = Counts::among(entries);
    let source = whole(b.rows(), entries, &counts);
    match root_of(&source, b.lines()) {
        None => Gauge::new(),
        Some(root) => {
            let mut gauge = Gauge::new();
            match put_root(&mut gauge, &mut Nowhere, &root) {
                Ok(()) => gauge.close(),
                Err(_) => gauge,
            }
        }
    }
}
