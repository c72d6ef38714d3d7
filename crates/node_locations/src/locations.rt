//! The location of a node, put behind a text.
ghost use Rattle.std.specs.Prelude.{◌≡◌, ◌∷◌, ◌<◌, length, chars, string_bytes};
ghost use Rattle.inv_base.specs.declared.tree.Kind.TheVariants as kinds;
ghost use Rattle.node_arena.specs.Document.{node_at};
ghost use Rattle.node_arena.specs.Moves.{tree_nodes, tree_node};
ghost use Rattle.node_locations.specs.Locations.{AreOrdinals, ordinal, step_of, step, path, location};
ghost use Rattle.node_locations.specs.Puts.{Puts};

use crate::ordinals::Ordinals;
use crate::texts::{push_bracketed, push_name_test, push_plain};
use inv_base::{Kind, Steps};
use node_arena::{Doc, NodeId, moves_lead_on};
use std::alloc::AllocError;
use std::marker::Brand;
use std::sync::ledger::{Blank, Ledger};

/// Puts the location of a node behind a text: a step for each element from the root down, and one for the node itself where
/// it is an attribute or a text. It climbs to the root by moves whose steps nobody counts.
///
/// Without memory a front of the location stands there.
pub fn push_location(
    doc: &Doc<'_>,
    ordinals: &Ordinals,
    n: NodeId,
    out: &mut String,
) -> Result<(), AllocError>
    requires within { n < length doc.now.nodes }
    requires ordinals { AreOrdinals doc.now ordinals.now }
    ensures { Puts result (location (tree_nodes doc.now) n) (chars (string_bytes out.old)) (chars (string_bytes out.new)) }
{
    match doc.kind(n) {
        Kind::Document => push_plain("/", out),
        Kind::Element | Kind::Attribute | Kind::Text => {
            push_path_by::<Brand>(doc, ordinals, n, out, Blank::new(1))
        }
    }
}

/// Puts the steps to a node behind a text, by moves that nobody counts.
fn push_path_by<L: Ledger>(
    doc: &Doc<'_>,
    ordinals: &Ordinals,
    n: NodeId,
    out: &mut String,
    ledger: Blank,
) -> Result<(), AllocError>
    requires name { ledger.name ≡ L.name }
    requires parts { ledger.parts ≡ L.parts }
    requires some { 0 < ledger.parts }
    requires within { n < length doc.now.nodes }
    requires ordinals { AreOrdinals doc.now ordinals.now }
    ensures { Puts result (path (tree_nodes doc.now) (n ∷ (tree_node (tree_nodes doc.now) n).above))
        (chars (string_bytes out.old)) (chars (string_bytes out.new)) }
{
    let mut steps = Steps::<L>::new(ledger);
    push_path(doc, ordinals, n, out, &mut steps)
}

/// Puts the steps to a node behind a text.
fn push_path<L: Ledger>(
    doc: &Doc<'_>,
    ordinals: &Ordinals,
    n: NodeId,
    out: &mut String,
    steps: &mut Steps<L>,
) -> Result<(), AllocError>
    requires within { n < length doc.now.nodes }
    requires ordinals { AreOrdinals doc.now ordinals.now }
    ensures { Puts result (path (tree_nodes doc.now) (n ∷ (tree_node (tree_nodes doc.now) n).above))
        (chars (string_bytes out.old)) (chars (string_bytes out.new)) }
{
    doc.is_of_a_tree();
    moves_lead_on();
    match doc.parent(n, steps) {
        Some(around) => {
            push_path(doc, ordinals, around, out, steps)?;
            push_step(doc, ordinals, n, out)
        }
        // Only the document is inside none, and it has no step.
        None => Ok(()),
    }
}

/// Puts the last step to a node behind a text.
fn push_step(
    doc: &Doc<'_>,
    ordinals: &Ordinals,
    n: NodeId,
    out: &mut String,
) -> Result<(), AllocError>
    requires within { n < length doc.now.nodes }
    requires ordinals { AreOrdinals doc.now ordinals.now }
    ensures { Puts result (step (tree_nodes doc.now) n) (chars (string_bytes out.old)) (chars (string_bytes out.new)) }
{
    match doc.kind(n) {
        Kind::Document => Ok(()),
        Kind::Element => push_element(doc, ordinals, n, out),
        Kind::Attribute => {
            push_plain("/@", out)?;
            push_name_test(doc, doc.name(n), out)
        }
        Kind::Text => {
            push_plain("/text()", out)?;
            push_bracketed(ordinals.get(n), out)
        }
    }
}

fn push_element(
    doc: &Doc<'_>,
    ordinals: &Ordinals,
    n: NodeId,
    out: &mut String,
) -> Result<(), AllocError>
    requires within { n < length doc.now.nodes }
    requires ordinals { AreOrdinals doc.now ordinals.now }
    requires kind { (node_at doc.now.nodes n).kind ≡ kinds.Element }
    ensures { Puts result (step_of kinds.Element (tree_node (tree_nodes doc.now) n).name (ordinal (tree_nodes doc.now) n))
        (chars (string_bytes out.old)) (chars (string_bytes out.new)) }
{
    push_plain("/", out)?;
    push_name_test(doc, doc.name(n), out)?;
    push_bracketed(ordinals.get(n), out)
}
