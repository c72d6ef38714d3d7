//! Moves over a document whose steps nobody counts.
ghost use Rattle.std.specs.Prelude.{◌≡◌, ℕ, ◌+◌, ◌<◌, ◌≤◌, length, drop, option_map};
ghost use Rattle.std.specs.Option.{ForSome};
ghost use Rattle.xml_events.specs.Events.{name_at};
ghost use Rattle.node_arena.specs.Document.{node_at};
ghost use Rattle.node_arena.specs.Moves.{tree_nodes, last_inside};
ghost use Rattle.rule_library.specs.Turns.{from};
ghost use Rattle.rule_library.specs.Walk.{parent_name};

use inv_base::Steps;
use node_arena::{Doc, NodeId, moves_lead_on};
use std::marker::Brand;
use std::sync::ledger::{Blank, Ledger};
use xml_events::NameId;

/// The node behind one, in document order.
pub(crate) fn next_of(doc: &Doc<'_>, n: NodeId) -> Option<NodeId>
    requires { n < length doc.now.nodes }
    ensures rest { from result doc.now.nodes ≡ drop (n + 1) doc.now.nodes }
    ensures within { ForSome result (λ m. m < length doc.now.nodes) }
{
    next_by::<Brand>(doc, n, Blank::new(1))
}

fn next_by<L: Ledger>(doc: &Doc<'_>, n: NodeId, ledger: Blank) -> Option<NodeId>
    requires name { ledger.name ≡ L.name }
    requires parts { ledger.parts ≡ L.parts }
    requires some { 0 < ledger.parts }
    requires within { n < length doc.now.nodes }
    ensures rest { from result doc.now.nodes ≡ drop (n + 1) doc.now.nodes }
    ensures within { ForSome result (λ m. m < length doc.now.nodes) }
{
    let mut steps = Steps::<L>::new(ledger);
    doc.next_node(n, &mut steps)
}

/// The last node inside one, or that one itself where none is inside it.
pub(crate) fn last_of(doc: &Doc<'_>, n: NodeId) -> NodeId
    requires { n < length doc.now.nodes }
    ensures node { result ≡ last_inside (tree_nodes doc.now) n }
    ensures low { n ≤ result }
    ensures within { result < length doc.now.nodes }
{
    last_by::<Brand>(doc, n, Blank::new(1))
}

fn last_by<L: Ledger>(doc: &Doc<'_>, n: NodeId, ledger: Blank) -> NodeId
    requires name { ledger.name ≡ L.name }
    requires parts { ledger.parts ≡ L.parts }
    requires some { 0 < ledger.parts }
    requires within { n < length doc.now.nodes }
    ensures node { result ≡ last_inside (tree_nodes doc.now) n }
    ensures low { n ≤ result }
    ensures within { result < length doc.now.nodes }
{
    let mut steps = Steps::<L>::new(ledger);
    doc.last_inside(n, &mut steps)
}

/// How many nodes a node is inside.
pub(crate) fn level_of(doc: &Doc<'_>, n: NodeId) -> usize
    requires { n < length doc.now.nodes }
    ensures { result ≡ length (node_at doc.now.nodes n).above }
{
    level_by::<Brand>(doc, n, Blank::new(1))
}

fn level_by<L: Ledger>(doc: &Doc<'_>, n: NodeId, ledger: Blank) -> usize
    requires name { ledger.name ≡ L.name }
    requires parts { ledger.parts ≡ L.parts }
    requires some { 0 < ledger.parts }
    requires within { n < length doc.now.nodes }
    ensures { result ≡ length (node_at doc.now.nodes n).above }
{
    // Laws, which have no code.
    doc.is_of_a_tree();
    moves_lead_on();
    let mut steps = Steps::<L>::new(ledger);
    let mut level = 0;
    let mut at = n;
    'levels: while let Some(around) = doc.parent(at, &mut steps) {
        level += 1;
        at = around;
    }
    level
}

/// The name of a node's parent.
pub(crate) fn parent_name(doc: &Doc<'_>, n: NodeId) -> Option<NameId>
    requires { n < length doc.now.nodes }
    ensures name { option_map (name_at doc.now.names) result ≡ parent_name doc.now (node_at doc.now.nodes n) }
    ensures within { ForSome result (λ id. id < length doc.now.names) }
{
    parent_by::<Brand>(doc, n, Blank::new(1))
}

fn parent_by<L: Ledger>(doc: &Doc<'_>, n: NodeId, ledger: Blank) -> Option<NameId>
    requires name { ledger.name ≡ L.name }
    requires parts { ledger.parts ≡ L.parts }
    requires some { 0 < ledger.parts }
    requires within { n < length doc.now.nodes }
    ensures name { option_map (name_at doc.now.names) result ≡ parent_name doc.now (node_at doc.now.nodes n) }
    ensures within { ForSome result (λ id. id < length doc.now.names) }
{
    let mut steps = Steps::<L>::new(ledger);
    match doc.parent(n, &mut steps) {
        Some(around) => doc.name(around),
        None => doc.name(doc.document()),
    }
}
