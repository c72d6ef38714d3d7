//! How many children of a parent were seen so far, by what they are counted with.
ghost use Rattle.std.specs.Prelude.{◌≡◌, ℕ, ◌+◌, ◌<◌, ◌≤◌, ◌^◌, ◌==◌, if◌then◌else◌, length};
ghost use Rattle.node_arena.specs.Document.{node_at};
ghost use Rattle.node_locations.specs.Counting.{seen, key};

use node_arena::{Doc, NodeId};

/// How many children of a name were seen so far, and of which parent: those of any other are none.
#[derive(Clone, Copy, Drop)]
pub(crate) struct Seen {
    parent: u32,
    count: u32,
}

/// No child of any parent.
pub(crate) const NONE_SEEN: Seen = Seen {
    parent: 0,
    count: 0,
};

/// The place in the table of what a child is counted with: 0 for texts, and behind it the names by their numbers.
pub(crate) fn key_of(doc: &Doc<'_>, n: NodeId) -> usize
    requires { n < length doc.now.nodes }
    ensures key { result ≡ key (node_at doc.now.nodes n).name }
    ensures within { result < length doc.now.names + 1 }
{
    match doc.name(n) {
        None => 0,
        Some(name) => name.number() as usize + 1,
    }
}

/// Counts one child more of that key and parent, and answers how many there are with it.
pub(crate) fn count_one(table: &mut [Seen], key: usize, parent: u32) -> u32
    requires within { key < length table.old }
    requires room { seen table.old parent key + 1 < 2 ^ 32 }
    ensures count { result ≡ seen table.old parent key + 1 }
    ensures here { (k : ℕ) → seen table.new parent k ≡ (if key == k then 1 else 0) + seen table.old parent k }
    ensures elsewhere { (p k : ℕ) → parent < p → seen table.old p k ≡ 0 → seen table.new p k ≡ 0 }
    ensures long { length table.new ≡ length table.old }
{
    let count = seen_at(table, key, parent) + 1;
    table[key] = Seen { parent, count };
    count
}

/// How many children of that key and parent were seen.
fn seen_at(table: &[Seen], key: usize, parent: u32) -> u32
    requires { key < length table.now }
    ensures { result ≡ seen table.now parent key }
{
    let at = table[key];
    if at.parent == parent { at.count } else { 0 }
}
