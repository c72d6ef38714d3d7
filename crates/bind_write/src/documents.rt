ghost use Rattle.std.specs.Prelude.{◌≡◌, true, encode_utf8_all};
ghost use Rattle.std.specs.List.{list_all};
ghost use Rattle.inv_base.specs.Writing.{Writes};
ghost use Rattle.bind_table.specs.Laid.{is_writable};
ghost use Rattle.bind_write.specs.Sources.{has_plain_attribute};
ghost use Rattle.bind_write.specs.Documents as spec;

use crate::roots::{put_root, root_of};
use crate::source::whole;
use bind_table::Binding;
use inv_base::Sink;
use inv_terms::{Counts, Invoice, invoices_are_in_listing_order};
use xml_write::{Pen, WriteFault, calls_append_canonical_text};

/// Writes the document of an invoice by a table. Behind a fault the sink has taken a front of it.
pub fn write<K: Sink>(i: &Invoice, b: &Binding, out: &mut K) -> Result<(), WriteFault>
    requires laid { is_writable b.now ≡ true }
    requires notes { list_all has_plain_attribute b.now ≡ true }
    ensures { Writes result (encode_utf8_all (spec.document_text b.now i.now)) (K.view out.old) (K.view out.new) }
{
    invoices_are_in_listing_order();
    calls_append_canonical_text();
    let entries = i.entries();
    let counts = Counts::among(entries);
    let source = whole(b.rows(), entries, &counts);
    match root_of(&source, b.lines()) {
        None => Ok(()),
        Some(root) => {
            let mut pen = Pen::new();
            put_root(&mut pen, out, &root)?;
            pen.close(out)
        }
    }
}
