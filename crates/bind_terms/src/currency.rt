//! The currency of an amount beside that of the invoice.
ghost use Rattle.std.specs.Prelude.{◌≡◌, ◌<◌, length, chars, map, All, IfOk, Some, option_map};
ghost use Rattle.node_arena.specs.Moves.{tree_nodes};
ghost use Rattle.bind_meaning.specs.Currencies.{amount_currency, first_full};
ghost use Rattle.bind_meaning.specs.Judging as spec;
ghost use Rattle.bind_terms.specs.Kinds.{trimmed_at};

use crate::attributes::attributes_named;
use inv_base::{Steps, is_same_text};
use inv_terms::{is_blank, trimmed};
use node_arena::{Doc, NodeId};
use std::alloc::{AllocError, Global};
use std::sync::ledger::Ledger;

/// Whether the amount's currency isn't that of the invoice, where both are named.
pub(crate) fn differs<L: Ledger>(
    alloc: Global,
    doc: &Doc<'_>,
    invoice: Option<&str>,
    n: NodeId,
    steps: &mut Steps<L>,
) -> Result<bool, AllocError>
    requires { n < length doc.now.nodes }
    ensures { IfOk result (λ other. other ≡ spec.differs (option_map (λ text. chars text.now) invoice.entry) (amount_currency (tree_nodes doc.now) n)) }
{
    match invoice {
        Some(invoice) => {
            let found = attributes_named(alloc, doc, "currencyID", n, steps)?;
            is_other_currency(alloc, doc, invoice, &found, steps)
        }
        None => Ok(false),
    }
}

// Whether the first of the nodes that isn't blank has another text than the currency.
fn is_other_currency<L: Ledger>(
    alloc: Global,
    doc: &Doc<'_>,
    invoice: &str,
    found: &[NodeId],
    steps: &mut Steps<L>,
) -> Result<bool, AllocError>
    requires { All (λ m. m < length doc.now.nodes) found.now }
    ensures { IfOk result (λ other. other ≡ spec.differs (Some (chars invoice.now)) (first_full (map (trimmed_at (tree_nodes doc.now)) found.now))) }
{
    'found: for m in found {
        let string = doc.string(alloc, *m, steps)?;
        let currency = trimmed(string.as_str());
        if !is_blank(currency) {
            return Ok(!is_same_text(invoice, currency));
        }
    }
    Ok(false)
}
