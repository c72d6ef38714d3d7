//! The line of an item.
ghost use Rattle.std.specs.Prelude.{◌≡◌, ◌<◌, length, chars, string_bytes, encode_utf8_all, OnOk, OnErr, IfOk};
ghost use Rattle.inv_base.specs.Printing.{Prints};
ghost use Rattle.inv_base.specs.Text.{quoted};
ghost use Rattle.inv_decimal.specs.WrittenDay.{dashed_day_text};
ghost use Rattle.inv_decimal.specs.WrittenNumber.{decimal_text};
ghost use Rattle.node_arena.specs.Moves.{tree_nodes};
ghost use Rattle.node_locations.specs.Locations.{AreOrdinals, location};
ghost use Rattle.xpath_items.specs.declared.item.Item.TheVariants as items;
ghost use Rattle.xpath_meaning.specs.Items as spec;
ghost use Rattle.xpath_operators.specs.Nodes.{IsWithin};
ghost use Rattle.item_listing.specs.Listing.{line, placed_line, item_line};
ghost use Rattle.item_listing.specs.Printing.{HasOrdinals, IsTold, PrintsLine};

use inv_base::{Printer, Sink, Steps};
use inv_decimal::{Day, Dec};
use node_arena::{Doc, NodeId};
use node_locations::{Ordinals, push_location};
use std::alloc::{AllocError, Global};
use std::sync::ledger::Ledger;
use xpath_items::Item;

/// A document, and the ordinals of its nodes where a node is listed.
#[derive(Clone, Copy)]
pub(crate) struct ListingInput<'s, 'a> {
    pub(crate) alloc: Global,
    pub(crate) doc: &'s Doc<'a>,
    pub(crate) ordinals: &'s Option<Ordinals>,
}

/// Prints the line of an item. Where memory runs out, nothing of it was printed.
pub(crate) fn print_item<K: Sink, L: Ledger>(
    input: &ListingInput<'_, '_>,
    item: &Item<'_>,
    place: &mut String,
    printer: &mut Printer,
    out: &mut K,
    steps: &mut Steps<L>,
) -> Result<(), AllocError>
    requires within { IsWithin (length input.now.doc.now.nodes) item.now }
    requires ordinals { IsTold input.now.doc.now input.now.ordinals.now item.now }
    ensures { PrintsLine result (item_line (tree_nodes input.now.doc.now) item.now) printer.old printer.new (K.view out.old) (K.view out.new) }
{
    match item {
        Item::Node(n) => return print_node(input, *n, place, printer, out, steps),
        Item::Boolean(b) => print_boolean(*b, printer, out),
        Item::Number(number) => print_number(number, printer, out),
        Item::String(text) => print_quoted(text.as_str(), printer, out),
        Item::Untyped(text) => print_quoted(text.as_str(), printer, out),
        Item::Date(day) => print_day(day, printer, out),
    }
    Ok(())
}

/// Prints the line of a node: its location and its quoted string.
fn print_node<K: Sink, L: Ledger>(
    input: &ListingInput<'_, '_>,
    n: NodeId,
    place: &mut String,
    printer: &mut Printer,
    out: &mut K,
    steps: &mut Steps<L>,
) -> Result<(), AllocError>
    requires within { n < length input.now.doc.now.nodes }
    requires ordinals { HasOrdinals input.now.doc.now input.now.ordinals.now }
    ensures { PrintsLine result (item_line (tree_nodes input.now.doc.now) (items.Node n)) printer.old printer.new (K.view out.old) (K.view out.new) }
{
    locate(input.doc, input.ordinals, n, place)?;
    let string = input.doc.string(input.alloc, n, steps)?;
    print_placed(place.as_str(), string.as_str(), printer, out);
    Ok(())
}

fn print_placed<K: Sink>(place: &str, string: &str, printer: &mut Printer, out: &mut K)
    ensures { Prints (placed_line (chars place.now) (chars string.now)) printer.old.failed printer.new.failed (K.view out.old) (K.view out.new) }
{
    printer.put(out, place.as_bytes());
    printer.put(out, b" ");
    print_quoted(string, printer, out);
}

/// Makes a text the location of a node.
fn locate(
    doc: &Doc<'_>,
    ordinals: &Option<Ordinals>,
    n: NodeId,
    place: &mut String,
) -> Result<(), AllocError>
    requires within { n < length doc.now.nodes }
    requires ordinals { HasOrdinals doc.now ordinals.now }
    ensures { OnOk result (chars (string_bytes place.new) ≡ location (tree_nodes doc.now) n) }
{
    let Some(ordinals) = ordinals else {
        unreachable!()
    };
    place.clear();
    push_location(doc, ordinals, n, place)?;
    Ok(())
}

fn print_boolean<K: Sink>(b: bool, printer: &mut Printer, out: &mut K)
    ensures { Prints (line (spec.boolean_text b)) printer.old.failed printer.new.failed (K.view out.old) (K.view out.new) }
{
    if b {
        printer.put(out, b"true\n");
    } else {
        printer.put(out, b"false\n");
    }
}

fn print_number<K: Sink>(number: &Dec, printer: &mut Printer, out: &mut K)
    ensures { Prints (line (decimal_text number.now)) printer.old.failed printer.new.failed (K.view out.old) (K.view out.new) }
{
    let mut digits = [0u8; 40];
    let count = number.print(&mut digits);
    printer.put(out, digits.split_at(count).0);
    printer.put(out, b"\n");
}

fn print_day<K: Sink>(day: &Day, printer: &mut Printer, out: &mut K)
    ensures { Prints (line (dashed_day_text day.now)) printer.old.failed printer.new.failed (K.view out.old) (K.view out.new) }
{
    let mut digits = [0u8; 10];
    day.print_dashed(&mut digits);
    printer.put(out, &digits);
    printer.put(out, b"\n");
}

fn print_quoted<K: Sink>(text: &str, printer: &mut Printer, out: &mut K)
    ensures { Prints (line (encode_utf8_all (quoted (chars text.now)))) printer.old.failed printer.new.failed (K.view out.old) (K.view out.new) }
{
    printer.put_quoted(out, text);
    printer.put(out, b"\n");
}
