//! Elements of a document, and what stands in their nodes.
ghost use Rattle.std.specs.Prelude.{◌≡◌, ◌<◌, length, IfOk};
ghost use Rattle.node_arena.specs.Moves.{tree_nodes};
ghost use Rattle.bind_meaning.specs.Elements as spec;

use inv_base::{Kind, Steps};
use inv_terms::is_blank;
use node_arena::{Doc, NodeId};
use std::alloc::{AllocError, Global};
use std::sync::ledger::Ledger;

/// Whether a node of this kind is an element.
pub fn is_element(kind: Kind) -> bool
    ensures { result ≡ spec.is_element_kind kind }
{
    match kind {
        Kind::Element => true,
        Kind::Document | Kind::Attribute | Kind::Text => false,
    }
}

/// Whether a node's string has no character but white space.
pub fn is_blank_at<L: Ledger>(
    alloc: Global,
    doc: &Doc<'_>,
    n: NodeId,
    steps: &mut Steps<L>,
) -> Result<bool, AllocError>
    requires { n < length doc.now.nodes }
    ensures { IfOk result (λ blank. blank ≡ spec.is_blank_at (tree_nodes doc.now) n) }
{
    let string = doc.string(alloc, n, steps)?;
    Ok(is_blank(string.as_str()))
}
