//! The lines of invoices that are refused, or of which something can't be done.
ghost use Rattle.std.specs.Prelude.{◌≡◌, ◌<◌, length};
ghost use Rattle.inv_base.specs.Printing.{Prints};
ghost use Rattle.job_protocol.specs.Outside.{TakesOrFails};
ghost use Rattle.invoice_jobs.specs.Sources.{term_or_dash, extension_line, extension_fault_text, bad_row_line, table_kind_text};
ghost use Rattle.node_arena.specs.Moves.{tree_node, tree_nodes};
ghost use Rattle.invoice_jobs.specs.Invoices.{lost_line, node_name, name_prefix, invoice_line, condition_line, attachment_line, attach_fault_text};

use bind_run::{BadRow, BindFault, NotCarried};
use bind_table::TableKind;
use extension_files::ExtFault;
use inv_base::{Kind, Printer, Sink};
use inv_listing::{print_name, print_term};
use inv_terms::AttachFault;
use itoa::Buffer;
use node_arena::{Doc, NodeId};
use term_table::Term;

/// Tells why a document isn't an invoice, and where.
pub(crate) fn tell_invoice_fault<E: Sink>(doc: &Doc<'_>, file: &str, fault: &BindFault, err: &mut E)
    requires { fault.now.node < length doc.now.nodes }
    ensures { TakesOrFails (invoice_line file.now doc.now fault.now) (E.view err.old) (E.view err.new) }
{
    let mut digits = Buffer::new();
    let mut printer = Printer::new();
    printer.put(err, b"einv: ");
    printer.put(err, file.as_bytes());
    printer.put(err, b": ");
    printer.put(err, fault.kind.name().as_bytes());
    print_name(fault.name, &mut printer, err);
    printer.put(err, b" at ");
    printer.put(err, digits.format(doc.place(fault.node).byte).as_bytes());
    printer.put(err, b"\n");
}

/// Tells the condition on which an invoice can't be carried, with the term of its first entry, or `-`.
pub(crate) fn tell_condition<E: Sink>(fault: &NotCarried, err: &mut E)
    ensures { TakesOrFails (condition_line fault.now) (E.view err.old) (E.view err.new) }
{
    let mut digits = Buffer::new();
    let mut printer = Printer::new();
    printer.put(err, b"einv: condition ");
    printer.put(err, digits.format(fault.condition).as_bytes());
    printer.put(err, b" ");
    print_term_or_dash(fault.term, &mut printer, err);
    printer.put(err, b"\n");
}

/// Tells the first node of a document that isn't in its invoice, at the place of its element.
pub(crate) fn tell_loss<E: Sink>(doc: &Doc<'_>, n: NodeId, err: &mut E)
    requires { n < length doc.now.nodes }
    ensures { TakesOrFails (lost_line doc.now n) (E.view err.old) (E.view err.new) }
{
    let mut digits = Buffer::new();
    let mut printer = Printer::new();
    printer.put(err, b"einv: lost at ");
    printer.put(err, digits.format(doc.place(n).byte).as_bytes());
    printer.put(err, b" ");
    print_node_name(doc, n, &mut printer, err);
    printer.put(err, b"\n");
}

/// Prints the local name of an element, or that of an attribute behind `@`.
fn print_node_name<E: Sink>(doc: &Doc<'_>, n: NodeId, printer: &mut Printer, err: &mut E)
    requires { n < length doc.now.nodes }
    ensures { Prints (node_name (tree_node (tree_nodes doc.now) n)) printer.old.failed printer.new.failed (E.view err.old) (E.view err.new) }
{
    if let Some(name) = doc.name(n) {
        printer.put(err, name_prefix(doc.kind(n)).as_bytes());
        printer.put(err, doc.names().local(name).as_bytes());
    }
}

/// What stands in front of the name of such a node.
fn name_prefix(kind: Kind) -> &'static str
    ensures { result.now ≡ name_prefix kind }
{
    match kind {
        Kind::Attribute => "@",
        Kind::Document | Kind::Element | Kind::Text => "",
    }
}

fn print_term_or_dash<E: Sink>(term: Option<Term>, printer: &mut Printer, err: &mut E)
    ensures { Prints (term_or_dash term) printer.old.failed printer.new.failed (E.view err.old) (E.view err.new) }
{
    match term {
        None => printer.put(err, b"-"),
        Some(term) => print_term(term, printer, err),
    }
}

/// Tells why an attached document can't be extracted.
pub(crate) fn tell_attach_fault<E: Sink>(number: u32, fault: AttachFault, err: &mut E)
    ensures { TakesOrFails (attachment_line number fault) (E.view err.old) (E.view err.new) }
{
    let mut digits = Buffer::new();
    let mut printer = Printer::new();
    printer.put(err, b"einv: attachment ");
    printer.put(err, digits.format(number).as_bytes());
    printer.put(err, b": ");
    printer.put(err, attach_fault_name(&fault).as_bytes());
    printer.put(err, b"\n");
}

fn attach_fault_name(fault: &AttachFault) -> &'static str
    ensures { result.now ≡ attach_fault_text fault.now }
{
    match fault {
        AttachFault::NoSuch => "NoSuch",
        AttachFault::NotBase64 => "NotBase64",
        AttachFault::WriteFault => "WriteFault",
        AttachFault::Memory => "Memory",
    }
}

/// Tells why a file is none of extension terms.
pub(crate) fn tell_extension_fault<E: Sink>(file: &str, fault: &ExtFault, err: &mut E)
    ensures { TakesOrFails (extension_line file.now fault.now) (E.view err.old) (E.view err.new) }
{
    let mut printer = Printer::new();
    printer.put(err, b"einv: ");
    printer.put(err, file.as_bytes());
    printer.put(err, b": ");
    print_extension_fault(fault, &mut printer, err);
    printer.put(err, b"\n");
}

/// Prints a fault of extension terms, with the key or the place at which it stands.
fn print_extension_fault<E: Sink>(fault: &ExtFault, printer: &mut Printer, err: &mut E)
    ensures { Prints (extension_fault_text fault.now) printer.old.failed printer.new.failed (E.view err.old) (E.view err.new) }
{
    match fault {
        ExtFault::NotToml => printer.put(err, b"NotToml"),
        ExtFault::NotAnExtension(key) => {
            printer.put(err, b"NotAnExtension ");
            printer.put(err, key.as_str().as_bytes());
        }
        ExtFault::BadTerm(place) => {
            let mut digits = Buffer::new();
            printer.put(err, b"BadTerm ");
            printer.put(err, digits.format(*place).as_bytes());
        }
        ExtFault::Memory => printer.put(err, b"Memory"),
    }
}

/// Tells what is wrong with a table that the terms of a file extend, and at which term.
pub(crate) fn tell_bad_row<E: Sink>(file: &str, bad: &BadRow, err: &mut E)
    ensures { TakesOrFails (bad_row_line file.now bad.now) (E.view err.old) (E.view err.new) }
{
    let mut printer = Printer::new();
    printer.put(err, b"einv: ");
    printer.put(err, file.as_bytes());
    printer.put(err, b": ");
    printer.put(err, table_kind_name(bad.kind).as_bytes());
    print_term_or_dash(bad.term, &mut printer, err);
    printer.put(err, b"\n");
}

fn table_kind_name(kind: TableKind) -> &'static str
    ensures { result.now ≡ table_kind_text kind }
{
    match kind {
        TableKind::Ambiguous => "Ambiguous ",
        TableKind::UnknownTerm => "UnknownTerm ",
        TableKind::OutsideContext => "OutsideContext ",
    }
}
