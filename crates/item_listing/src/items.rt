//! The lines of a value.
ghost use Rattle.std.specs.Prelude.{◌≡◌, ℕ, length, flat_map, true, IfOk, OnErr};
ghost use Rattle.std.specs.List.{list_any};
ghost use Rattle.inv_base.specs.Printing.{Printed};
ghost use Rattle.node_arena.specs.Moves.{tree_nodes};
ghost use Rattle.xpath_meaning.specs.Steps as meaning;
ghost use Rattle.xpath_meaning.specs.Values.{value};
ghost use Rattle.xpath_operators.specs.Nodes.{AreWithin};
ghost use Rattle.item_listing.specs.Listing.{item_line, listed, ValueWithin, WritesSome};
ghost use Rattle.item_listing.specs.Printing.{HasOrdinals};
ghost use Rattle.item_listing.specs.Printing as spec;

use crate::codes::write_error;
use crate::lines::{ListingInput, print_item};
use inv_base::{Printer, Sink, Steps};
use node_arena::Doc;
use node_locations::Ordinals;
use std::alloc::{AllocError, Global};
use std::sync::ledger::Ledger;
use xpath_items::{Item, Outcome};

/// Writes the lines of a value whose nodes are the document's, or the code of its error; answers whether a write failed.
///
/// Where memory runs out, the lines before are written, and no write has failed.
pub fn write_items<K: Sink, L: Ledger>(
    alloc: Global,
    doc: &Doc<'_>,
    outcome: &Outcome<'_>,
    out: &mut K,
    steps: &mut Steps<L>,
) -> Result<bool, AllocError>
    requires { ValueWithin (length doc.now.nodes) (value outcome.now) }
    ensures ok { IfOk result (λ failed. Printed failed (listed (tree_nodes doc.now) (value outcome.now)) (K.view out.old) (K.view out.new)) }
    ensures err { OnErr result (WritesSome (listed (tree_nodes doc.now) (value outcome.now)) (K.view out.old) (K.view out.new)) }
{
    match outcome {
        Outcome::Error(error) => Ok(write_error(*error, out)),
        Outcome::Value(items) => write_value(alloc, doc, items.as_slice(), out, steps),
    }
}

/// Writes the lines of items. The ordinals of the document's nodes are made once, where a node is among the items.
fn write_value<K: Sink, L: Ledger>(
    alloc: Global,
    doc: &Doc<'_>,
    items: &[Item<'_>],
    out: &mut K,
    steps: &mut Steps<L>,
) -> Result<bool, AllocError>
    requires { AreWithin (length doc.now.nodes) items.now }
    ensures ok { IfOk result (λ failed. Printed failed (flat_map (item_line (tree_nodes doc.now)) items.now) (K.view out.old) (K.view out.new)) }
    ensures err { OnErr result (WritesSome (flat_map (item_line (tree_nodes doc.now)) items.now) (K.view out.old) (K.view out.new)) }
{
    let ordinals = ordinals_for(alloc, doc, items)?;
    let input = ListingInput {
        alloc,
        doc,
        ordinals: &ordinals,
    };
    write_all_items(&input, items, out, steps)
}

/// The ordinals of a document's nodes, where a node is among the items.
fn ordinals_for(
    alloc: Global,
    doc: &Doc<'_>,
    items: &[Item<'_>],
) -> Result<Option<Ordinals>, AllocError>
    ensures { IfOk result (λ ordinals. list_any meaning.is_node items.now ≡ true → HasOrdinals doc.now ordinals) }
{
    if has_node(items) {
        Ok(Some(Ordinals::new(alloc, doc)?))
    } else {
        Ok(None)
    }
}

/// Whether a node is among the items.
fn has_node(items: &[Item<'_>]) -> bool
    ensures { result ≡ list_any meaning.is_node items.now }
{
    'items: for item in items {
        if is_node(item) {
            return true;
        }
    }
    false
}

fn is_node(item: &Item<'_>) -> bool
    ensures { result ≡ meaning.is_node item.now }
{
    match item {
        Item::Node(_) => true,
        _ => false,
    }
}

/// Writes the lines one after another.
fn write_all_items<K: Sink, L: Ledger>(
    input: &ListingInput<'_, '_>,
    items: &[Item<'_>],
    out: &mut K,
    steps: &mut Steps<L>,
) -> Result<bool, AllocError>
    requires within { AreWithin (length input.now.doc.now.nodes) items.now }
    requires ordinals { list_any meaning.is_node items.now ≡ true → HasOrdinals input.now.doc.now input.now.ordinals.now }
    ensures ok { IfOk result (λ failed. Printed failed (flat_map (item_line (tree_nodes input.now.doc.now)) items.now) (K.view out.old) (K.view out.new)) }
    ensures err { OnErr result (WritesSome (flat_map (item_line (tree_nodes input.now.doc.now)) items.now) (K.view out.old) (K.view out.new)) }
{
    let mut printer = Printer::new();
    let mut place = String::new(input.alloc);
    'items: for item in items {
        match print_item(input, item, &mut place, &mut printer, out, steps) {
            Ok(()) => {}
            Err(error) => return stopped(printer.failed, error),
        }
    }
    Ok(printer.failed)
}

/// What is answered where memory runs out behind a front of the lines: a write that failed before counts.
fn stopped(failed: bool, error: AllocError) -> Result<bool, AllocError>
    ensures { result ≡ spec.stopped failed error }
{
    if failed { Ok(true) } else { Err(error) }
}
