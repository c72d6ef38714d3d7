ghost use Rattle.std.specs.Prelude.{◌≡◌, ◌≤◌, [], ◌∷◌, ◌++◌, chars, encode_utf8_all};
ghost use Rattle.arrayvec.specs.ArrayVec.{array_vec_len};
ghost use Rattle.inv_base.specs.Printing.{Prints, Printed};
ghost use Rattle.inv_base.specs.Text.{quoted};
ghost use Rattle.inv_listing.specs.Composing.{BeginsWithContext};
ghost use Rattle.inv_listing.specs.Listing.{entry_line, passed_line, listing};

use crate::fronts::Front;
use inv_base::{Printer, Sink};
use inv_terms::{Entry, Invoice};
use itoa::Buffer;
use short_lines::is_plain;

/// Prints the entries of an invoice in listing order, a line each, and behind them how many elements of its document were passed over;
/// answers whether a write failed.
pub fn print_listing<K: Sink>(i: &Invoice, passed_over: u32, out: &mut K) -> bool
    ensures { Printed result (listing i.now passed_over) (K.view out.old) (K.view out.new) }
{
    let mut printer = Printer::new();
    let mut front = Front::new();
    'entries: for e in i.entries() {
        print_entry(e, &mut front, &mut printer, out);
    }
    print_passed(passed_over, &mut printer, out);
    printer.failed
}

/// Prints the line of an entry, which becomes the one that the front is of.
fn print_entry<K: Sink>(e: &Entry, front: &mut Front, printer: &mut Printer, out: &mut K)
    requires { BeginsWithContext front.old }
    ensures line { Prints (entry_line e.now) printer.old.failed printer.new.failed (K.view out.old) (K.view out.new) }
    ensures begins { BeginsWithContext front.new }
{
    let mut buf = [0; 40];
    front.turn_to(e);
    print_value(e.value.text(&mut buf), front, printer, out);
}

/// Prints the front of a line and the value behind it, in one piece where the value is short and stands for itself.
fn print_value<K: Sink>(value: &str, front: &mut Front, printer: &mut Printer, out: &mut K)
    requires begins { BeginsWithContext front.old }
    requires room { array_vec_len front.old.text ≤ 53 }
    ensures line { Prints (front.old.text.items ++ (encode_utf8_all (quoted (chars value.now)) ++ 0xA ∷ [])) printer.old.failed printer.new.failed
        (K.view out.old) (K.view out.new) }
    ensures begins { BeginsWithContext front.new }
{
    if is_plain(value) {
        front.end_by(value);
        printer.put(out, front.text.as_slice());
        return;
    }
    printer.put(out, front.text.as_slice());
    printer.put_quoted(out, value);
    printer.put(out, b"\n");
}

/// Prints how many elements were passed over.
fn print_passed<K: Sink>(passed_over: u32, printer: &mut Printer, out: &mut K)
    ensures { Prints (passed_line passed_over) printer.old.failed printer.new.failed (K.view out.old) (K.view out.new) }
{
    let mut digits = Buffer::new();
    printer.put(out, b"passed over ");
    printer.put(out, digits.format(passed_over).as_bytes());
    printer.put(out, b"\n");
}
