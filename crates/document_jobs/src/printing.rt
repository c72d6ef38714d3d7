ghost use Rattle.std.specs.Prelude.{◌≡◌, ℕ, ◌<◌, ◌*◌, ◌-◌, length, option_map, encode_utf8_all, flat_map, replicate, chars};
ghost use Rattle.inv_base.specs.declared.tree.Kind.TheVariants as kinds;
ghost use Rattle.inv_base.specs.Printing.{Prints, Printed};
ghost use Rattle.node_arena.specs.Document.{node_at};
ghost use Rattle.node_arena.specs.Moves.{node_of, tree_nodes};
ghost use Rattle.std.specs.Option.{ForSome};
ghost use Rattle.xml_events.specs.Events.{name_at};
ghost use Rattle.document_jobs.specs.Outline.{node_line, line_as, optional_name_text, braced};
ghost use Rattle.xml_document.specs.Walking.{StandsIn};

use inv_base::{Kind, Printer, Sink, Steps};
use node_arena::Doc;
use short_lines::print_quoted_line;
use std::marker::Brand;
use std::sync::ledger::{Blank, Ledger};
use xml_document::Walk;
use xml_events::NameId;

/// How many spaces are printed at once: those of a hundred levels.
const INDENT: [u8; 200] = [b' '; 200];

/// Prints the outline of a document, a line for each element, attribute and text, and answers
/// whether a write failed.
pub(crate) fn print_outline<K: Sink>(doc: &Doc<'_>, out: &mut K) -> bool
    ensures { Printed result (encode_utf8_all (flat_map node_line (tree_nodes doc.now))) (K.view out.old) (K.view out.new) }
{
    print_walk::<Brand, K>(doc, Blank::new(1), out)
}

/// The same by a walk, whose steps nobody asks for.
fn print_walk<L: Ledger, K: Sink>(doc: &Doc<'_>, ledger: Blank, out: &mut K) -> bool
    requires name { ledger.name ≡ L.name }
    requires parts { ledger.parts ≡ L.parts }
    requires some { 0 < ledger.parts }
    ensures { Printed result (encode_utf8_all (flat_map node_line (tree_nodes doc.now))) (K.view out.old) (K.view out.new) }
{
    let mut steps = Steps::<L>::new(ledger);
    let mut printer = Printer::new();
    let mut at = Walk::begin(doc);
    'nodes: loop {
        print_node(doc, &at, &mut printer, out);
        match at.next(doc, &mut steps) {
            Some(next) => at = next,
            None => return printer.failed,
        }
    }
}

/// Prints the line of a node; the document itself has none.
fn print_node<K: Sink>(doc: &Doc<'_>, at: &Walk, printer: &mut Printer, out: &mut K)
    requires { StandsIn doc.now at.now }
    ensures { Prints (encode_utf8_all (node_line (node_of doc.now.names (node_at doc.now.nodes at.now.node)))) printer.old.failed printer.new.failed
        (K.view out.old) (K.view out.new) }
{
    match doc.kind(at.node) {
        Kind::Document => {}
        Kind::Element => print_element(doc, at, printer, out),
        Kind::Attribute => print_attribute(doc, at, printer, out),
        Kind::Text => print_text(doc, at, printer, out),
    }
}

fn print_element<K: Sink>(doc: &Doc<'_>, at: &Walk, printer: &mut Printer, out: &mut K)
    requires { StandsIn doc.now at.now }
    ensures { Prints (encode_utf8_all (line_as kinds.Element doc.now.names (node_at doc.now.nodes at.now.node))) printer.old.failed printer.new.failed
        (K.view out.old) (K.view out.new) }
{
    print_indent(at.level, printer, out);
    print_name(doc, doc.name(at.node), printer, out);
    printer.put(out, b"\n");
}

fn print_attribute<K: Sink>(doc: &Doc<'_>, at: &Walk, printer: &mut Printer, out: &mut K)
    requires { StandsIn doc.now at.now }
    ensures { Prints (encode_utf8_all (line_as kinds.Attribute doc.now.names (node_at doc.now.nodes at.now.node))) printer.old.failed printer.new.failed
        (K.view out.old) (K.view out.new) }
{
    print_indent(at.level, printer, out);
    printer.put(out, b"@");
    print_name(doc, doc.name(at.node), printer, out);
    printer.put(out, b"=");
    print_quoted_line(doc.text(at.node), printer, out);
}

fn print_text<K: Sink>(doc: &Doc<'_>, at: &Walk, printer: &mut Printer, out: &mut K)
    requires { StandsIn doc.now at.now }
    ensures { Prints (encode_utf8_all (line_as kinds.Text doc.now.names (node_at doc.now.nodes at.now.node))) printer.old.failed printer.new.failed
        (K.view out.old) (K.view out.new) }
{
    print_indent(at.level, printer, out);
    print_quoted_line(doc.text(at.node), printer, out);
}

/// Prints two spaces for each level below the root.
fn print_indent<K: Sink>(level: usize, printer: &mut Printer, out: &mut K)
    ensures { Prints (replicate (2 * (level - 1)) 0x20) printer.old.failed printer.new.failed (K.view out.old) (K.view out.new) }
{
    let mut rest = level.saturating_sub(1);
    'levels: while 0 < rest {
        let some = rest.min(INDENT.len() / 2);
        printer.put(out, INDENT.split_at(2 * some).0);
        rest -= some;
    }
}

/// Prints a name, its local part behind the namespace name in braces where it has one.
fn print_name<K: Sink>(doc: &Doc<'_>, name: Option<NameId>, printer: &mut Printer, out: &mut K)
    requires { ForSome name (λ number. number < length doc.now.names) }
    ensures { Prints (encode_utf8_all (optional_name_text (option_map (name_at doc.now.names) name))) printer.old.failed printer.new.failed (K.view out.old)
        (K.view out.new) }
{
    if let Some(id) = name {
        print_uri(doc.names().uri(id), printer, out);
        printer.put(out, doc.names().local(id).as_bytes());
    }
}

/// Prints a namespace name in braces, or nothing for none.
fn print_uri<K: Sink>(uri: &str, printer: &mut Printer, out: &mut K)
    ensures { Prints (encode_utf8_all (braced (chars uri.now))) printer.old.failed printer.new.failed (K.view out.old) (K.view out.new) }
{
    if uri.is_empty() {
        return;
    }
    printer.put(out, b"{");
    printer.put(out, uri.as_bytes());
    printer.put(out, b"}");
}
