ghost use Rattle.std.specs.Prelude.{◌≡◌, ◌++◌, ◌∷◌, [], length};
ghost use Rattle.inv_base.specs.Printing.{Prints, Printed};
ghost use Rattle.inv_base.specs.Writing.{Writes};
ghost use Rattle.inv_decimal.specs.WrittenNumber.{decimal_text, scaled_text};
ghost use Rattle.inv_totals.specs.Lines as spec;

use crate::found::{Difference, Differences};
use crate::numbers::Number;
use inv_base::{Printer, Sink};
use inv_decimal::{Dec, Scaled};
use inv_listing::{print_context, print_term};
use itoa::Buffer;
use xml_write::WriteFault;

/// Writes the differences, a line each, and behind them how many they are. It takes no memory. Behind a fault the sink
/// has taken a front of the text.
pub fn write_differences<K: Sink>(d: &Differences, out: &mut K) -> Result<(), WriteFault>
    ensures { Writes result (spec.differences_text d.now) (K.view out.old) (K.view out.new) }
{
    if print_differences(d.as_slice(), out) {
        return Err(WriteFault);
    }
    Ok(())
}

/// Prints the differences and their count; answers whether a write failed.
fn print_differences<K: Sink>(differences: &[Difference], out: &mut K) -> bool
    ensures { Printed result (spec.differences_text differences.now) (K.view out.old) (K.view out.new) }
{
    let mut printer = Printer::new();
    'differences: for difference in differences {
        print_difference(difference, &mut printer, out);
    }
    print_count(differences.len(), &mut printer, out);
    printer.failed
}

fn print_difference<K: Sink>(difference: &Difference, printer: &mut Printer, out: &mut K)
    ensures { Prints (spec.line difference.now) printer.old.failed printer.new.failed (K.view out.old) (K.view out.new) }
{
    print_context(difference.context, printer, out);
    print_term(difference.term, printer, out);
    printer.put(out, b" stated ");
    print_stated(difference.stated, printer, out);
    printer.put(out, b" computed ");
    print_computed(difference.computed, printer, out);
    printer.put(out, b"\n");
}

fn print_stated<K: Sink>(stated: Option<Scaled>, printer: &mut Printer, out: &mut K)
    ensures { Prints (spec.stated_text stated) printer.old.failed printer.new.failed (K.view out.old) (K.view out.new) }
{
    match stated {
        Some(number) => print_scaled(&number, printer, out),
        None => printer.put(out, b"-"),
    }
}

fn print_computed<K: Sink>(computed: Number, printer: &mut Printer, out: &mut K)
    ensures { Prints (spec.computed_text computed) printer.old.failed printer.new.failed (K.view out.old) (K.view out.new) }
{
    match computed {
        Ok(number) => print_decimal(&number, printer, out),
        Err(_) => printer.put(out, b"out of range"),
    }
}

/// Prints a number with the digits that it was written with.
fn print_scaled<K: Sink>(number: &Scaled, printer: &mut Printer, out: &mut K)
    ensures { Prints (scaled_text number.now) printer.old.failed printer.new.failed (K.view out.old) (K.view out.new) }
{
    let mut buf = [0; 40];
    let len = number.print(&mut buf);
    printer.put(out, &buf[..len]);
}

/// Prints a number in its shortest form.
fn print_decimal<K: Sink>(number: &Dec, printer: &mut Printer, out: &mut K)
    ensures { Prints (decimal_text number.now) printer.old.failed printer.new.failed (K.view out.old) (K.view out.new) }
{
    let mut buf = [0; 40];
    let len = number.print(&mut buf);
    printer.put(out, &buf[..len]);
}

fn print_count<K: Sink>(count: usize, printer: &mut Printer, out: &mut K)
    ensures { Prints (spec.count_line count) printer.old.failed printer.new.failed (K.view out.old) (K.view out.new) }
{
    let mut digits = Buffer::new();
    printer.put(out, b"differ ");
    printer.put(out, digits.format(count).as_bytes());
    printer.put(out, b"\n");
}
