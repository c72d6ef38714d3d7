//! What a row checks at its nodes beside the values: the attributes `schemeID` and `format`.
ghost use Rattle.std.specs.Prelude.{◌≡◌, ◌<◌, not, length, chars, All, IfOk};
ghost use Rattle.std.specs.List.{list_any};
ghost use Rattle.node_arena.specs.Moves.{tree_nodes};
ghost use Rattle.bind_meaning.specs.Elements.{is_blank_at};
ghost use Rattle.bind_meaning.specs.Judging as spec;
ghost use Rattle.bind_terms.specs.Kinds.{is_other, is_other_at};

use crate::attributes::attributes_named;
use bind_meaning::is_blank_at;
use bind_rows::Check;
use inv_base::{Steps, is_same_text};
use inv_terms::{is_blank, trimmed};
use node_arena::{Doc, NodeId};
use std::alloc::{AllocError, Global};
use std::sync::ledger::Ledger;

/// Whether the node breaks what its row checks.
pub(crate) fn breaks<L: Ledger>(
    alloc: Global,
    doc: &Doc<'_>,
    check: Check,
    n: NodeId,
    steps: &mut Steps<L>,
) -> Result<bool, AllocError>
    requires { n < length doc.now.nodes }
    ensures { IfOk result (λ broken. broken ≡ spec.breaks (tree_nodes doc.now) check n) }
{
    match check {
        Check::Nothing => Ok(false),
        Check::Scheme => lacks_attribute(alloc, doc, "schemeID", n, steps),
        Check::Format => has_other_format(alloc, doc, n, steps),
        Check::Indicator(_) => Ok(false),
    }
}

// Whether no attribute of the name has a string that isn't blank.
fn lacks_attribute<L: Ledger>(
    alloc: Global,
    doc: &Doc<'_>,
    local: &str,
    n: NodeId,
    steps: &mut Steps<L>,
) -> Result<bool, AllocError>
    requires { n < length doc.now.nodes }
    ensures { IfOk result (λ lacking. lacking ≡ not (spec.has_attribute (tree_nodes doc.now) (chars local.now) n)) }
{
    let found = attributes_named(alloc, doc, local, n, steps)?;
    are_blank(alloc, doc, &found, steps)
}

fn are_blank<L: Ledger>(
    alloc: Global,
    doc: &Doc<'_>,
    found: &[NodeId],
    steps: &mut Steps<L>,
) -> Result<bool, AllocError>
    requires { All (λ m. m < length doc.now.nodes) found.now }
    ensures { IfOk result (λ blank. blank ≡ not (list_any (λ m. not (is_blank_at (tree_nodes doc.now) m)) found.now)) }
{
    'found: for m in found {
        if !is_blank_at(alloc, doc, *m, steps)? {
            return Ok(false);
        }
    }
    Ok(true)
}

// Whether the attribute `format` isn't blank and other than `102`.
fn has_other_format<L: Ledger>(
    alloc: Global,
    doc: &Doc<'_>,
    n: NodeId,
    steps: &mut Steps<L>,
) -> Result<bool, AllocError>
    requires { n < length doc.now.nodes }
    ensures { IfOk result (λ other. other ≡ spec.is_other_format (tree_nodes doc.now) n) }
{
    let found = attributes_named(alloc, doc, "format", n, steps)?;
    is_any_other(alloc, doc, &found, steps)
}

fn is_any_other<L: Ledger>(
    alloc: Global,
    doc: &Doc<'_>,
    found: &[NodeId],
    steps: &mut Steps<L>,
) -> Result<bool, AllocError>
    requires { All (λ m. m < length doc.now.nodes) found.now }
    ensures { IfOk result (λ other. other ≡ list_any (is_other_at (tree_nodes doc.now)) found.now) }
{
    'found: for m in found {
        if is_other_at(alloc, doc, *m, steps)? {
            return Ok(true);
        }
    }
    Ok(false)
}

fn is_other_at<L: Ledger>(
    alloc: Global,
    doc: &Doc<'_>,
    n: NodeId,
    steps: &mut Steps<L>,
) -> Result<bool, AllocError>
    requires { n < length doc.now.nodes }
    ensures { IfOk result (λ other. other ≡ is_other_at (tree_nodes doc.now) n) }
{
    let string = doc.string(alloc, n, steps)?;
    Ok(is_other(string.as_str()))
}

fn is_other(text: &str) -> bool
    ensures { result ≡ is_other (chars text.now) }
{
    !is_blank(text) && !is_same_text(trimmed(text), "102")
}
