//! One walk over the nodes of a document.
ghost use Rattle.std.specs.Prelude.{◌≡◌, ◌+◌, ◌++◌, ◌∷◌, [], ◌<◌, length, map, drop, IfOk, OnOk};
ghost use Rattle.node_arena.specs.Moves.{tree_nodes, tree_node, is_attribute};
ghost use Rattle.schematron_meaning.specs.Entries as spec;
ghost use Rattle.schematron_entries.specs.Seen.{seen_given, seen_entries};
ghost use Rattle.schematron_entries.specs.Reading.{from_next};

use crate::entry::{Entry, Given};
use crate::places::{around_by, around_node};
use crate::roles::{element_role, is_listed, text_role};
use inv_base::{Kind, Steps, is_same_text};
use node_arena::{Doc, NodeId};
use schematron_meaning::{Around, Role};
use std::alloc::{AllocError, Global};
use std::sync::ledger::Ledger;

/// The entries of a document, in its order. Takes time in proportion to the document.
pub fn read<'d, L: Ledger>(
    alloc: Global,
    doc: &'d Doc<'_>,
    steps: &mut Steps<L>,
) -> Result<Vec<Entry<'d>>, AllocError>
    ensures { IfOk result (λ found. seen_entries found.items ≡ spec.entries (tree_nodes doc.now)) }
{
    let mut seen: Vec<Around> = Vec::new(alloc);
    let mut entries: Vec<Entry<'d>> = Vec::new(alloc);
    let mut next = Some(doc.document());
    'nodes: while let Some(n) = next {
        take(alloc, doc, n, &mut seen, &mut entries, steps)?;
        next = doc.next_node(n, steps);
    }
    Ok(entries)
}

/// Reads a node, where all before it were read.
fn take<'d, L: Ledger>(
    alloc: Global,
    doc: &'d Doc<'_>,
    n: NodeId,
    seen: &mut Vec<Around>,
    entries: &mut Vec<Entry<'d>>,
    steps: &mut Steps<L>,
) -> Result<(), AllocError>
    requires within { n < length doc.now.nodes }
    ensures { OnOk result (seen_entries entries.old.items ++ spec.entries_behind seen.old.items (drop n (tree_nodes doc.now))
        ≡ seen_entries entries.new.items ++ spec.entries_behind seen.new.items (drop (n + 1) (tree_nodes doc.now))) }
{
    doc.is_of_a_tree();
    let parent = around_node(doc, seen.as_slice(), n, steps);
    let given = given_behind(alloc, doc, n, steps)?;
    let role = role_of(doc, parent.role, n, given.as_slice());
    seen.push(around_by(role, n.number(), parent.number))?;
    if is_listed(role) {
        entries.push(Entry {
            node: n,
            role,
            parent: parent.number,
            given,
            text: doc.text(n),
        })?;
    }
    Ok(())
}

/// The role of a node in one of the role.
fn role_of(doc: &Doc<'_>, parent: Role, n: NodeId, given: &[Given<'_>]) -> Role
    requires { n < length doc.now.nodes }
    ensures { result ≡ spec.role_of parent (tree_node (tree_nodes doc.now) n) (map seen_given given.now) }
{
    match doc.kind(n) {
        Kind::Document => Role::Outside,
        Kind::Element => named_role(doc, parent, n, given),
        Kind::Attribute => Role::Passed,
        Kind::Text => text_role(parent),
    }
}

/// The role of an element in one of the role.
fn named_role(doc: &Doc<'_>, parent: Role, n: NodeId, given: &[Given<'_>]) -> Role
    requires { n < length doc.now.nodes }
    ensures { result ≡ spec.named_role parent (tree_node (tree_nodes doc.now) n).name (map seen_given given.now) }
{
    match doc.name(n) {
        Some(name) => element_role(
            parent,
            doc.names().uri(name),
            doc.names().local(name),
            given,
        ),
        None => Role::Passed,
    }
}

/// The attributes of a node in no namespace.
fn given_behind<'d, L: Ledger>(
    alloc: Global,
    doc: &'d Doc<'_>,
    n: NodeId,
    steps: &mut Steps<L>,
) -> Result<Vec<Given<'d>>, AllocError>
    requires { n < length doc.now.nodes }
    ensures { IfOk result (λ given. map seen_given given.items
        ≡ spec.given_behind (tree_node (tree_nodes doc.now) n) (drop (n + 1) (tree_nodes doc.now))) }
{
    match doc.kind(n) {
        Kind::Element => given_at(alloc, doc, n, steps),
        Kind::Document | Kind::Attribute | Kind::Text => Ok(Vec::new(alloc)),
    }
}

/// The attributes that stand right behind a node.
fn given_at<'d, L: Ledger>(
    alloc: Global,
    doc: &'d Doc<'_>,
    n: NodeId,
    steps: &mut Steps<L>,
) -> Result<Vec<Given<'d>>, AllocError>
    requires { n < length doc.now.nodes }
    ensures { IfOk result (λ given. map seen_given given.items ≡ spec.given_at (drop (n + 1) (tree_nodes doc.now))) }
{
    let mut given: Vec<Given<'d>> = Vec::new(alloc);
    let mut next = doc.next_node(n, steps);
    'attributes: while let Some(attribute) = next {
        if !is_attribute(doc, attribute) {
            return Ok(given);
        }
        give(doc, attribute, &mut given)?;
        next = doc.next_node(attribute, steps);
    }
    Ok(given)
}

fn is_attribute(doc: &Doc<'_>, n: NodeId) -> bool
    requires { n < length doc.now.nodes }
    ensures { result ≡ is_attribute (tree_node (tree_nodes doc.now) n) }
{
    match doc.kind(n) {
        Kind::Attribute => true,
        Kind::Document | Kind::Element | Kind::Text => false,
    }
}

/// Adds an attribute behind the others, if it is in no namespace.
fn give<'d>(doc: &'d Doc<'_>, n: NodeId, given: &mut Vec<Given<'d>>) -> Result<(), AllocError>
    requires { n < length doc.now.nodes }
    ensures { OnOk result (map seen_given given.new.items ≡ map seen_given given.old.items
        ++ spec.given_by (tree_node (tree_nodes doc.now) n).text (tree_node (tree_nodes doc.now) n).name) }
{
    if let Some(name) = doc.name(n) {
        if is_same_text(doc.names().uri(name), "") {
            given.push(Given {
                name: doc.names().local(name),
                value: doc.text(n),
            })?;
        }
    }
    Ok(())
}
