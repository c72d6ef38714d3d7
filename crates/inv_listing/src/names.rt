ghost use Rattle.std.specs.Prelude.{◌≡◌, ◌+◌, ◌≤◌};
ghost use Rattle.arrayvec.specs.ArrayVec.{array_vec_len};
ghost use Rattle.inv_base.specs.Printing.{Prints};
ghost use Rattle.short_lines.specs.Composing.{Composes};
ghost use Rattle.inv_listing.specs.Listing.{part_text, term_text, slot_text, inner_text, context_text, name_text};

use inv_base::{Printer, Sink};
use inv_terms::Name;
use itoa::Buffer;
use short_lines::{Short, put};
use term_table::{Context, Slot, Term};

/// Prints a term by its number in the standard, as `BT-1` or `BT-18-1`, or one that a table adds by its own, as `EXT-1`.
pub fn print_term<K: Sink>(term: Term, printer: &mut Printer, out: &mut K)
    ensures { Prints (term_text term) printer.old.failed printer.new.failed (K.view out.old) (K.view out.new) }
{
    let mut text = Short::new();
    put_term(&mut text, term);
    printer.put(out, text.as_slice());
}

/// Puts a term behind a short text, as `print_term` prints it: at most 12 bytes.
pub fn put_term(text: &mut Short, term: Term)
    requires { array_vec_len text.old + 12 ≤ 128 }
    ensures { Composes (term_text term) 12 text.old text.new }
{
    let mut digits = Buffer::new();
    if term.is_extension() {
        put(text, b"EXT-");
        put(text, digits.format(term.number - 1000).as_bytes());
        return;
    }
    put(text, b"BT-");
    put(text, digits.format(term.number).as_bytes());
    put_part(text, term.part);
}

/// Puts the part of a term, where it is one.
fn put_part(text: &mut Short, part: u8)
    requires { array_vec_len text.old + 4 ≤ 128 }
    ensures { Composes (part_text part) 4 text.old text.new }
{
    if part == 0 {
        return;
    }
    let mut digits = Buffer::new();
    put(text, b"-");
    put(text, digits.format(part).as_bytes());
}

/// Prints what a fault names, behind a space: a term or a group, or nothing.
pub fn print_name<K: Sink>(name: Name, printer: &mut Printer, out: &mut K)
    ensures { Prints (name_text name) printer.old.failed printer.new.failed (K.view out.old) (K.view out.new) }
{
    match name {
        Name::Term(term) => {
            printer.put(out, b" ");
            print_term(term, printer, out);
        }
        Name::Group(group) => {
            printer.put(out, b" ");
            printer.put(out, group.label().as_bytes());
        }
        Name::Nothing => {}
    }
}

/// Prints the occurrences in which an entry stands, the outer one first, each with its number, and a space behind them;
/// nothing at the root.
pub fn print_context<K: Sink>(context: Context, printer: &mut Printer, out: &mut K)
    ensures { Prints (context_text context) printer.old.failed printer.new.failed (K.view out.old) (K.view out.new) }
{
    let mut text = Short::new();
    put_context(&mut text, context);
    printer.put(out, text.as_slice());
}

/// Puts the occurrences in which an entry stands behind a short text.
pub(crate) fn put_context(text: &mut Short, context: Context)
    requires { array_vec_len text.old + 40 ≤ 128 }
    ensures { Composes (context_text context) 40 text.old text.new }
{
    match context.outer {
        None => {}
        Some(slot) => {
            put_slot(text, slot);
            put_inner(text, context.inner);
        }
    }
}

/// Puts what follows the outer occurrence.
fn put_inner(text: &mut Short, inner: Option<Slot>)
    requires { array_vec_len text.old + 21 ≤ 128 }
    ensures { Composes (inner_text inner) 21 text.old text.new }
{
    match inner {
        None => put(text, b" "),
        Some(slot) => {
            put(text, b"/");
            put_slot(text, slot);
            put(text, b" ");
        }
    }
}

/// Puts an occurrence of a group behind a short text, as `BG-25[1]`: at most 19 bytes.
pub fn put_slot(text: &mut Short, slot: Slot)
    requires { array_vec_len text.old + 19 ≤ 128 }
    ensures { Composes (slot_text slot) 19 text.old text.new }
{
    let mut digits = Buffer::new();
    put(text, slot.group.label().as_bytes());
    put(text, b"[");
    put(text, digits.format(slot.index).as_bytes());
    put(text, b"]");
}
