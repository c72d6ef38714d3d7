//! The ordinals of a document's nodes among their siblings.
ghost use Rattle.std.specs.Prelude.{◌≡◌, ℕ, ◌+◌, ◌<◌, ◌≤◌, length, get_or, true, IfOk};
ghost use Rattle.node_locations.specs.Locations.{AreOrdinals};
ghost use Rattle.node_locations.specs.Counting.{seen, AreCounted};

use crate::counting::{NONE_SEEN, Seen, count_one, key_of};
use inv_base::Steps;
use node_arena::{Doc, NodeId, moves_lead_on};
use std::alloc::{AllocError, Global};
use std::marker::{Brand, Model};
use std::sync::ledger::{Blank, Ledger};

/// Of each element and text of a document how many siblings like it stand before it, and one. It is made once for a
/// document.
#[derive(Drop)]
pub struct Ordinals {
    counts: Vec<u32>,
}

impl Model for Ordinals {
    ghost use Rattle.std.specs.Prelude.{List, ℕ};

    ghost Value = { List ℕ };

    ghost view = { λ ordinals. ordinals.counts.items };
}

impl Ordinals {
    /// The ordinals of a document's nodes, in one pass over its nodes and their children. From node to node it takes
    /// a few moves, however many names there are, whose steps nobody counts.
    pub fn new(alloc: Global, doc: &Doc<'_>) -> Result<Ordinals, AllocError>
        ensures { IfOk result (λ ordinals. AreOrdinals doc.now ordinals) }
    {
        ordinals_by::<Brand>(alloc, doc, Blank::new(1))
    }

    /// How many nodes the document has.
    pub fn len(&self) -> usize
        ensures { result ≡ length self.now }
    {
        self.counts.len()
    }

    /// The ordinal of an element or a text, from 1 on.
    pub fn get(&self, n: NodeId) -> u32
        requires { n < length self.now }
        ensures { result ≡ get_or self.now n 0 }
    {
        count_at(&self.counts, n)
    }
}

/// The same by steps that nobody asks for.
fn ordinals_by<L: Ledger>(
    alloc: Global,
    doc: &Doc<'_>,
    ledger: Blank,
) -> Result<Ordinals, AllocError>
    requires name { ledger.name ≡ L.name }
    requires parts { ledger.parts ≡ L.parts }
    requires some { 0 < ledger.parts }
    ensures { IfOk result (λ ordinals. AreOrdinals doc.now ordinals) }
{
    let mut steps = Steps::<L>::new(ledger);
    doc.is_of_a_tree();
    // No table of names has as many as that.
    let Some(keys) = doc.names().len().checked_add(1) else {
        return Err(AllocError);
    };
    let mut table = vec![in alloc; NONE_SEEN; keys]?;
    let mut counts = vec![in alloc; 0u32; node_count(doc, &mut steps)]?;
    count_all(doc, &mut table, &mut counts, &mut steps);
    Ok(Ordinals { counts })
}

/// The count that is kept of a node.
fn count_at(counts: &[u32], n: NodeId) -> u32
    requires { n < length counts.now }
    ensures { result ≡ get_or counts.now n 0 }
{
    counts[n.number() as usize]
}

/// How many nodes a document has.
fn node_count<L: Ledger>(doc: &Doc<'_>, steps: &mut Steps<L>) -> usize
    ensures { result ≡ length doc.now.nodes }
{
    doc.is_of_a_tree();
    moves_lead_on();
    doc.last_inside(doc.document(), steps).number() as usize + 1
}

/// Counts the children of each node.
fn count_all<L: Ledger>(doc: &Doc<'_>, table: &mut [Seen], counts: &mut [u32], steps: &mut Steps<L>)
    requires table { length table.old ≡ length doc.now.names + 1 }
    requires fresh { (parent key : ℕ) → seen table.old parent key ≡ 0 }
    requires long { length counts.old ≡ length doc.now.nodes }
    ensures counted { AreCounted doc.now (length doc.now.nodes) counts.new }
    ensures long { length counts.new ≡ length counts.old }
{
    let mut next = Some(doc.document());
    'parents: while let Some(parent) = next {
        count_children(doc, parent, table, counts, steps);
        next = doc.next_node(parent, steps);
    }
}

/// Counts the children of a node, each behind those before it.
fn count_children<L: Ledger>(
    doc: &Doc<'_>,
    parent: NodeId,
    table: &mut [Seen],
    counts: &mut [u32],
    steps: &mut Steps<L>,
)
    requires parent { parent < length doc.now.nodes }
    requires table { length table.old ≡ length doc.now.names + 1 }
    requires fresh { (p key : ℕ) → parent ≤ p → seen table.old p key ≡ 0 }
    requires long { length counts.old ≡ length doc.now.nodes }
    requires counted { AreCounted doc.now parent counts.old }
    ensures counted { AreCounted doc.now (parent + 1) counts.new }
    ensures fresh { (p key : ℕ) → parent < p → seen table.new p key ≡ 0 }
    ensures table { length table.new ≡ length table.old }
    ensures long { length counts.new ≡ length counts.old }
{
    doc.is_of_a_tree();
    let mut next = doc.first_child(parent, steps);
    'children: while let Some(n) = next {
        counts[n.number() as usize] = count_one(table, key_of(doc, n), parent.number());
        next = doc.next_sibling(n, steps);
    }
}
