//! Nodes in chains: the children of a node, the attributes of an element, the elements and attributes of a name.
ghost use Rattle.std.specs.Prelude.{◌≡◌, ℕ, ◌+◌, ◌^◌, ◌<◌, length, get_or, replicate, None, IfSome, IfOk};
ghost use Rattle.node_arena.specs.Document.{node_at, AreNamed};
ghost use Rattle.node_arena.specs.Keys.{key_of, keys, first_keyed, next_keyed, AreLinks};
ghost use Rattle.node_arena.specs.Slots.{kept, AreBelow};

use crate::link::Link;
use crate::slot::{Slot, is_attribute, name_number, parent_at};
use std::alloc::{AllocError, Global};

/// What nodes of a chain have in common.
#[derive(Clone, Copy)]
pub(crate) enum Family {
    Children,
    Attributes,
    Named,
}

/// The links along the chains: of each node to its first child and its first attribute, to the next child or attribute
/// of the same parent, and to the next node of its name; of each name to the first node that has it.
pub(crate) struct Links {
    pub(crate) first_child: Vec<Link>,
    pub(crate) first_attribute: Vec<Link>,
    pub(crate) next_beside: Vec<Link>,
    pub(crate) next_named: Vec<Link>,
    pub(crate) first_named: Vec<Link>,
}

impl Drop for Links {
    fn drop(self) {
        let Links {
            first_child,
            first_attribute,
            next_beside,
            next_named,
            first_named,
        } = self;
        drop(first_child);
        drop(first_attribute);
        drop(next_beside);
        drop(next_named);
        drop(first_named);
    }
}

impl Links {
    /// The links of nodes whose names are below the count.
    pub(crate) fn of(alloc: Global, nodes: &[Slot<'_>], names: usize) -> Result<Links, AllocError>
        requires few { length nodes.now < 2 ^ 32 }
        requires below { AreBelow 0 nodes.now }
        requires named { AreNamed names (kept nodes.now) }
        ensures { IfOk result (λ links. AreLinks (kept nodes.now) names links) }
    {
        let mut links = Links::none(alloc, nodes.len(), names)?;
        link(
            nodes,
            Family::Children,
            &mut links.first_child,
            &mut links.next_beside,
        );
        link(
            nodes,
            Family::Attributes,
            &mut links.first_attribute,
            &mut links.next_beside,
        );
        link(
            nodes,
            Family::Named,
            &mut links.first_named,
            &mut links.next_named,
        );
        Ok(links)
    }

    /// Room for the links of so many nodes and names, none of which leads anywhere.
    fn none(alloc: Global, nodes: usize, names: usize) -> Result<Links, AllocError>
        ensures first_child { IfOk result (λ links. links.first_child.items ≡ replicate nodes None) }
        ensures first_attribute { IfOk result (λ links. links.first_attribute.items ≡ replicate nodes None) }
        ensures next_beside { IfOk result (λ links. links.next_beside.items ≡ replicate nodes None) }
        ensures next_named { IfOk result (λ links. links.next_named.items ≡ replicate nodes None) }
        ensures first_named { IfOk result (λ links. links.first_named.items ≡ replicate names None) }
    {
        let first_child = no_links(alloc, nodes)?;
        let first_attribute = no_links(alloc, nodes)?;
        let next_beside = no_links(alloc, nodes)?;
        let next_named = no_links(alloc, nodes)?;
        let first_named = no_links(alloc, names)?;
        Ok(Links {
            first_child,
            first_attribute,
            next_beside,
            next_named,
            first_named,
        })
    }
}

/// So many links to nothing.
fn no_links(alloc: Global, count: usize) -> Result<Vec<Link>, AllocError>
    ensures { IfOk result (λ links. links.items ≡ replicate count None) }
{
    vec![in alloc; Link::none(); count]
}

/// The number of what a node has in common with the others of its chain: of the node around it, or of its name.
fn key_at(nodes: &[Slot<'_>], family: Family, n: usize) -> Option<u32>
    requires within { n < length nodes.now }
    requires few { length nodes.now < 2 ^ 32 }
    requires below { AreBelow 0 nodes.now }
    ensures { result ≡ key_of family (node_at (kept nodes.now) n) }
{
    match family {
        Family::Children => {
            if is_attribute(nodes, n) {
                None
            } else {
                parent_at(nodes, n as u32)
            }
        }
        Family::Attributes => {
            if is_attribute(nodes, n) {
                parent_at(nodes, n as u32)
            } else {
                None
            }
        }
        Family::Named => name_number(nodes, n),
    }
}

/// Links each node of a family to the next of its chain, and each key to the first, from the last node back.
fn link(nodes: &[Slot<'_>], family: Family, first: &mut [Link], next: &mut [Link])
    requires few { length nodes.now < 2 ^ 32 }
    requires below { AreBelow 0 nodes.now }
    requires keys { (n : ℕ) → n < length nodes.now → IfSome (key_of family (node_at (kept nodes.now) n)) (λ key. key < length first.old) }
    requires none { (key : ℕ) → key < length first.old → get_or first.old key None ≡ None }
    requires long { length next.old ≡ length nodes.now }
    ensures first { (key : ℕ) → key < length first.old → get_or first.new key None ≡ first_keyed key 0 (keys family (kept nodes.now)) }
    ensures next { (n : ℕ) → n < length nodes.now → get_or next.new n None ≡ next_keyed (get_or next.old n None) n (keys family (kept nodes.now)) }
    ensures first_long { length first.new ≡ length first.old }
    ensures next_long { length next.new ≡ length next.old }
{
    let mut n = nodes.len();
    'nodes: while n > 0 {
        n -= 1;
        match key_at(nodes, family, n) {
            Some(key) => {
                next[n] = first[key as usize];
                first[key as usize] = Link::to(n as u32);
            }
            None => {}
        }
    }
}
