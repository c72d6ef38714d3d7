//! How a fault is told.
ghost use Rattle.std.specs.Prelude.{◌≡◌, decimal};
ghost use Rattle.inv_base.specs.Printing.{Prints};
ghost use Rattle.invoice_data.specs.FaultLines as spec;

use crate::faults::{DataFault, DataKind, DataName};
use inv_base::{Printer, Sink};
use inv_listing::print_term;
use invoice_json::array_name;
use itoa::Buffer;
use json_reading::JsonText;
use term_table::{Context, Slot};

#[tactic(auto, unfolding(crate::specs::FaultLines::kind_text))]
fn kind_text(kind: DataKind) -> &'static str
    ensures { result.now ≡ spec.kind_text kind }
{
    match kind {
        DataKind::NotAnObject => "NotAnObject",
        DataKind::UnknownMember => "UnknownMember",
        DataKind::DuplicateMember => "DuplicateMember",
        DataKind::NotAnArray => "NotAnArray",
        DataKind::NotAText => "NotAText",
        DataKind::BadValue => "BadValue",
        DataKind::CodeNotListed => "CodeNotListed",
        DataKind::Missing => "Missing",
    }
}

/// Prints a number.
fn print_number<K: Sink>(number: u32, printer: &mut Printer, out: &mut K)
    ensures { Prints (decimal number) printer.old.failed printer.new.failed (K.view out.old) (K.view out.new) }
{
    let mut digits = Buffer::new();
    printer.put(out, digits.format(number).as_bytes());
}

/// Prints an object of an array.
fn print_slot<K: Sink>(slot: Slot, printer: &mut Printer, out: &mut K)
    ensures { Prints (spec.slot_text slot) printer.old.failed printer.new.failed (K.view out.old) (K.view out.new) }
{
    printer.put(out, array_name(slot.group).as_bytes());
    printer.put(out, b"[");
    print_number(slot.index, printer, out);
    printer.put(out, b"]");
}

fn print_inner<K: Sink>(slot: Option<Slot>, printer: &mut Printer, out: &mut K)
    ensures { Prints (spec.inner_text slot) printer.old.failed printer.new.failed (K.view out.old) (K.view out.new) }
{
    match slot {
        None => {}
        Some(slot) => {
            printer.put(out, b"/");
            print_slot(slot, printer, out);
        }
    }
}

/// Prints the way to an object, behind a space.
fn print_place<K: Sink>(place: Context, printer: &mut Printer, out: &mut K)
    ensures { Prints (spec.place_text place) printer.old.failed printer.new.failed (K.view out.old) (K.view out.new) }
{
    match place.outer {
        None => {}
        Some(slot) => {
            printer.put(out, b" ");
            print_slot(slot, printer, out);
            print_inner(place.inner, printer, out);
        }
    }
}

/// Prints what a fault names, behind a space.
fn print_name<K: Sink>(text: &JsonText<'_>, name: DataName, printer: &mut Printer, out: &mut K)
    ensures { Prints (spec.name_text text.now.bytes.now name) printer.old.failed printer.new.failed (K.view out.old) (K.view out.new) }
{
    match name {
        DataName::Nothing => {}
        DataName::Term(term) => {
            printer.put(out, b" ");
            print_term(term, printer, out);
        }
        DataName::Array(group) => {
            printer.put(out, b" ");
            printer.put(out, array_name(group).as_bytes());
        }
        DataName::Spelled(span) => {
            printer.put(out, b" ");
            printer.put(out, text.spelling(span));
        }
    }
}

/// Prints a fault of a text: its kind, the way to its object, what it names, and its byte, as `BadValue BG-25[2] BT-129 at 415`. A
/// name that isn't known stands as it is spelled in the text.
#[tactic(auto, unfolding(crate::specs::FaultLines::fault_text))]
pub fn print_fault<K: Sink>(
    text: &JsonText<'_>,
    fault: DataFault,
    printer: &mut Printer,
    out: &mut K,
)
    ensures { Prints (spec.fault_text text.now.bytes.now fault) printer.old.failed printer.new.failed (K.view out.old) (K.view out.new) }
{
    printer.put(out, kind_text(fault.kind).as_bytes());
    print_place(fault.place, printer, out);
    print_name(text, fault.name, printer, out);
    printer.put(out, b" at ");
    print_number(fault.at, printer, out);
}
