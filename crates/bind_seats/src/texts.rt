//! Strings of nodes without the white space around them.

ghost use Rattle.std.specs.Prelude.{◌≡◌, ◌<◌, length, bytes_eq, IfOk};
ghost use Rattle.inv_terms.specs.Values as spec;
ghost use Rattle.node_arena.specs.Moves.{tree_nodes};
ghost use Rattle.bind_meaning.specs.Elements.{string_at};

use inv_base::{Steps, Txt, is_same_text};
use inv_terms::trimmed;
use node_arena::{Doc, NodeId};
use std::alloc::{AllocError, Global};
use std::sync::ledger::Ledger;

/// The string of a node without the white space at its ends.
pub(crate) fn trimmed_string<L: Ledger>(
    alloc: Global,
    doc: &Doc<'_>,
    n: NodeId,
    steps: &mut Steps<L>,
) -> Result<Txt, AllocError>
    requires { n < length doc.now.nodes }
    ensures { IfOk result (λ text. text ≡ spec.trimmed (string_at (tree_nodes doc.now) n)) }
{
    let string = doc.string(alloc, n, steps)?;
    Txt::of(alloc, trimmed(string.as_str()))
}

/// Whether the string of a node without the white space at its ends is the text.
pub(crate) fn has_string<L: Ledger>(
    alloc: Global,
    doc: &Doc<'_>,
    n: NodeId,
    text: &Txt,
    steps: &mut Steps<L>,
) -> Result<bool, AllocError>
    requires { n < length doc.now.nodes }
    ensures { IfOk result (λ is. is ≡ bytes_eq (spec.trimmed (string_at (tree_nodes doc.now) n)) text.now) }
{
    let string = doc.string(alloc, n, steps)?;
    Ok(is_same_text(trimmed(string.as_str()), text.as_str()))
}
