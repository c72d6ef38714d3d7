ghost use Rattle.std.specs.Prelude.{◌≡◌, flat_map};
ghost use Rattle.inv_base.specs.Printing.{Prints};
ghost use Rattle.inv_decimal.specs.WrittenNumber.{decimal_text};
ghost use Rattle.inv_totals.specs.Lines.{computed_text};
ghost use Rattle.invoice_page.specs.Page as spec;
ghost use Rattle.page_layouts.specs.Streaming.{Shows, head_lent};

use inv_base::{Printer, Sink};
use inv_decimal::{Dec, Overflow};
use inv_totals::Difference;
use itoa::Buffer;
use page_layouts::{Head, Pen, open};
use page_values::put_title;
use term_table::Slot;

/// Writes a row for each total that differs.
pub(crate) fn put_difference_rows<K: Sink>(
    head: &Head,
    differences: &[Difference],
    pen: &mut Pen,
    out: &mut K,
)
    ensures { Shows (head_lent head.now) (flat_map spec.difference_row differences.now) pen.old pen.new (K.view out.old) (K.view out.new) }
{
    'differences: for difference in differences {
        put_difference(head, difference, pen, out);
    }
}

fn put_difference<K: Sink>(head: &Head, difference: &Difference, pen: &mut Pen, out: &mut K)
    ensures { Shows (head_lent head.now) (spec.difference_row difference.now) pen.old pen.new (K.view out.old) (K.view out.new) }
{
    open(head, pen, out);
    put_difference_row(difference, &mut pen.printer, out);
}

fn put_difference_row<K: Sink>(difference: &Difference, printer: &mut Printer, out: &mut K)
    ensures { Prints (spec.difference_row difference.now) printer.old.failed printer.new.failed (K.view out.old) (K.view out.new) }
{
    printer.put(out, b"<dl><dt>");
    put_label(difference, printer, out);
    printer.put(out, b"</dt><dd>");
    put_computed(difference.computed, printer, out);
    printer.put(out, b"</dd></dl>\n");
}

fn put_label<K: Sink>(difference: &Difference, printer: &mut Printer, out: &mut K)
    ensures { Prints (spec.difference_label difference.now) printer.old.failed printer.new.failed (K.view out.old) (K.view out.new) }
{
    put_title(difference.term, printer, out);
    put_breakdown(difference.context.outer, printer, out);
}

fn put_breakdown<K: Sink>(slot: Option<Slot>, printer: &mut Printer, out: &mut K)
    ensures { Prints (spec.breakdown_text slot) printer.old.failed printer.new.failed (K.view out.old) (K.view out.new) }
{
    match slot {
        Some(slot) => {
            let mut digits = Buffer::new();
            printer.put(out, b", VAT breakdown ");
            printer.put(out, digits.format(slot.index).as_bytes());
        }
        None => {}
    }
}

fn put_computed<K: Sink>(computed: Result<Dec, Overflow>, printer: &mut Printer, out: &mut K)
    ensures { Prints (spec.computed_value computed) printer.old.failed printer.new.failed (K.view out.old) (K.view out.new) }
{
    printer.put(out, b"computed ");
    put_number(computed, printer, out);
}

fn put_number<K: Sink>(computed: Result<Dec, Overflow>, printer: &mut Printer, out: &mut K)
    ensures { Prints (computed_text computed) printer.old.failed printer.new.failed (K.view out.old) (K.view out.new) }
{
    match computed {
        Ok(number) => put_decimal(&number, printer, out),
        Err(_) => printer.put(out, b"out of range"),
    }
}

/// Writes a number in its shortest form.
fn put_decimal<K: Sink>(number: &Dec, printer: &mut Printer, out: &mut K)
    ensures { Prints (decimal_text number.now) printer.old.failed printer.new.failed (K.view out.old) (K.view out.new) }
{
    let mut buf = [0; 40];
    let len = number.print(&mut buf);
    printer.put(out, &buf[..len]);
}
