//! Nodes while they are built, beside the number of the last node inside each.
ghost use Rattle.std.specs.Prelude.{◌≡◌, ◌+◌, ◌^◌, ◌<◌, ◌≤◌, true, [], ◌∷◌, ◌++◌, length, chars, string_bytes, vec_len, vec_capacity, IfOk, OnOk, OnErr};
ghost use Rattle.std.specs.Prelude.{OnSome};
ghost use Rattle.node_arena.specs.Document.{ended};
ghost use Rattle.node_arena.specs.Slots.{path, kept, text_nodes, IsGrowing};
ghost use Rattle.node_arena.specs.Linked.{AreEnds};

use crate::slot::{Slot, parent_at};
use bumpalo::Bump;
use inv_base::{Kind, Place};
use std::alloc::AllocError;

/// Adds the text that was going on, if one was, as a node: a lent piece as it is, or all pieces placed in the arena.
/// Behind it there is room for one node more. Where memory runs out, nothing is added.
pub(crate) fn settle_text<'a>(
    bump: &'a Bump,
    nodes: &mut Vec<Slot<'a>>,
    ends: &mut Vec<u32>,
    current: u32,
    lent: &'a str,
    text: &String,
    place: Option<Place>,
) -> Result<(), AllocError>
    requires { IsGrowing nodes.old.items ends.old.items current }
    ensures growing { OnOk result (IsGrowing nodes.new.items ends.new.items current) }
    ensures nodes { OnOk result (kept nodes.new.items ≡ kept nodes.old.items ++
        text_nodes (kept nodes.old.items) (path (kept nodes.old.items) current) (chars lent.now ++ chars (string_bytes text.now)) place) }
    ensures around { OnOk result (path (kept nodes.new.items) current ≡ path (kept nodes.old.items) current) }
    ensures nodes_room { OnOk result (vec_len nodes.new < vec_capacity nodes.new) }
    ensures ends_room { OnOk result (vec_len ends.new < vec_capacity ends.new) }
    ensures few { OnOk result (vec_len nodes.new + 1 < 2 ^ 32) }
    ensures nodes_same { OnErr result (nodes.new.items ≡ nodes.old.items) }
    ensures ends_same { OnErr result (ends.new.items ≡ ends.old.items) }
{
    let text = lent_text(bump, lent, text, place)?;
    make_room(nodes, ends)?;
    push_text(nodes, ends, current, text, place);
    Ok(())
}

/// The text that was going on.
fn lent_text<'a>(
    bump: &'a Bump,
    lent: &'a str,
    text: &String,
    place: Option<Place>,
) -> Result<&'a str, AllocError>
    ensures { IfOk result (λ whole. OnSome place (chars whole.now ≡ chars lent.now ++ chars (string_bytes text.now))) }
{
    match place {
        Some(_) => joined_text(bump, lent, text),
        None => Ok(""),
    }
}

/// A lent piece and a copied one behind it as one text, placed in the arena where the first doesn't stand alone.
fn joined_text<'a>(bump: &'a Bump, lent: &'a str, text: &String) -> Result<&'a str, AllocError>
    ensures { IfOk result (λ whole. chars whole.now ≡ chars lent.now ++ chars (string_bytes text.now)) }
{
    let copied = text.as_str();
    if copied.is_empty() {
        return Ok(lent);
    }
    if lent.is_empty() {
        return bump.try_alloc_str(copied);
    }
    let mut whole = String::from_str(*text.allocator(), lent)?;
    whole.push_str(copied)?;
    let placed = bump.try_alloc_str(whole.as_str());
    drop(whole);
    placed
}

/// Room for two nodes more, which have numbers of 32 bits. Where there is none, memory runs out.
fn make_room(nodes: &mut Vec<Slot<'_>>, ends: &mut Vec<u32>) -> Result<(), AllocError>
    ensures nodes { nodes.new.items ≡ nodes.old.items }
    ensures ends { ends.new.items ≡ ends.old.items }
    ensures nodes_room { OnOk result (vec_len nodes.new + 2 ≤ vec_capacity nodes.new) }
    ensures ends_room { OnOk result (vec_len ends.new + 2 ≤ vec_capacity ends.new) }
    ensures few { OnOk result (vec_len nodes.new + 2 < 2 ^ 32) }
{
    if nodes.len() >= u32::MAX as usize - 2 {
        return Err(AllocError);
    }
    nodes.reserve(2)?;
    ends.reserve(2)?;
    Ok(())
}

/// Adds the text that was going on, if one was, as a node.
fn push_text<'a>(
    nodes: &mut Vec<Slot<'a>>,
    ends: &mut Vec<u32>,
    current: u32,
    text: &'a str,
    place: Option<Place>,
)
    requires growing { IsGrowing nodes.old.items ends.old.items current }
    requires nodes_room { vec_len nodes.old + 2 ≤ vec_capacity nodes.old }
    requires ends_room { vec_len ends.old + 2 ≤ vec_capacity ends.old }
    requires few { vec_len nodes.old + 2 < 2 ^ 32 }
    ensures growing { IsGrowing nodes.new.items ends.new.items current }
    ensures nodes { kept nodes.new.items ≡ kept nodes.old.items ++
        text_nodes (kept nodes.old.items) (path (kept nodes.old.items) current) (chars text.now) place }
    ensures around { path (kept nodes.new.items) current ≡ path (kept nodes.old.items) current }
    ensures nodes_room { vec_len nodes.new < vec_capacity nodes.new }
    ensures ends_room { vec_len ends.new < vec_capacity ends.new }
    ensures few { vec_len nodes.new + 1 < 2 ^ 32 }
{
    if let Some(place) = place {
        let node = Slot {
            kind: Kind::Text,
            name: None,
            parent: current,
            text,
            place,
        };
        let number = nodes.len() as u32;
        push_within(nodes, node);
        push_within(ends, number);
    }
}

/// Adds an item where there is room for it.
pub(crate) fn push_within<T: Drop>(items: &mut Vec<T>, item: T)
    requires { vec_len items.old < vec_capacity items.old }
    ensures items { items.new.items ≡ items.old.items ++ item ∷ [] }
    ensures len { vec_len items.new ≡ vec_len items.old + 1 }
    ensures room { vec_capacity items.old ≤ vec_capacity items.new }
{
    let _ = items.push(item);
}

/// The innermost open node ends with the last node so far, and the one around it is the innermost. The document stays
/// open.
pub(crate) fn close(nodes: &[Slot<'_>], ends: &mut [u32], current: u32) -> u32
    requires growing { IsGrowing nodes.now ends.old current }
    requires few { length nodes.now < 2 ^ 32 }
    ensures growing { IsGrowing nodes.now ends.new result }
    ensures around { path (kept nodes.now) result ≡ ended (path (kept nodes.now) current) }
{
    match parent_at(nodes, current) {
        Some(parent) => {
            ends[current as usize] = (nodes.len() - 1) as u32;
            parent
        }
        None => current,
    }
}

/// All that is still open ends with the last node.
pub(crate) fn close_all(nodes: &[Slot<'_>], ends: &mut [u32], current: u32)
    requires growing { IsGrowing nodes.now ends.old current }
    requires few { length nodes.now < 2 ^ 32 }
    ensures ends { AreEnds nodes.now ends.new }
    ensures long { length ends.new ≡ length ends.old }
{
    let last = (nodes.len() - 1) as u32;
    let mut current = current;
    'open: while let Some(parent) = parent_at(nodes, current) {
        ends[current as usize] = last;
        current = parent;
    }
    ends[current as usize] = last;
}
