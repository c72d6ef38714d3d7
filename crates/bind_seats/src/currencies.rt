//! The currencies of an invoice, and which VAT total is in which.

ghost use Rattle.std.specs.Prelude.{◌≡◌, ◌<◌, [], length, chars, IfOk};
ghost use Rattle.node_arena.specs.Moves.{tree_nodes, tree_node};
ghost use Rattle.bind_meaning.specs.Names as names;
ghost use Rattle.bind_meaning.specs.Currencies as spec;
ghost use Rattle.bind_seats.specs.Currency as own;
ghost use Rattle.bind_seats.specs.Rowed.{AreWithin, pick_of};

use crate::input::NumberingInput;
use crate::known::nodes_are_sound;
use crate::rowed::has_term;
use crate::texts::trimmed_string;
use bind_meaning::Picked;
use bind_rows::{Row, Same, Written};
use inv_base::{Steps, Txt};
use inv_terms::is_blank;
use node_arena::{Doc, NodeId};
use std::alloc::{AllocError, Global};
use std::sync::ledger::Ledger;
use term_table::Term;

/// BT-5, the currency of the invoice.
const INVOICE_CURRENCY: Term = Term { number: 5, part: 0 };

/// BT-6, the currency of its accounting.
const ACCOUNTING_CURRENCY: Term = Term { number: 6, part: 0 };

/// The two currencies, where they are named.
#[derive(Drop)]
pub(crate) struct Currencies {
    pub(crate) invoice: Option<Txt>,
    pub(crate) accounting: Option<Txt>,
}

/// The first node that the row of that number picks.
fn node_of_row(picks: &[Picked], number: usize) -> Option<NodeId>
    ensures { result ≡ own.node_of_row number picks.now }
{
    'picks: for pick in picks {
        if pick.row as usize == number {
            return Some(pick.node);
        }
    }
    None
}

/// The first node that a row of the term picks, by the order of the rows.
fn first_node(rows: &[Row], picks: &[Picked], term: Term) -> Option<NodeId>
    ensures { result ≡ own.first_node term 1 rows.now picks.now }
{
    'rows: for (k, row) in rows.iter().enumerate() {
        if has_term(row, term) {
            match node_of_row(picks, k + 1) {
                Some(n) => return Some(n),
                None => {}
            }
        }
    }
    None
}

fn named_currency<L: Ledger>(
    input: &NumberingInput<'_, '_>,
    picks: &[Picked],
    term: Term,
    steps: &mut Steps<L>,
) -> Result<Option<Txt>, AllocError>
    requires { AreWithin (length input.now.doc.now.nodes) picks.now }
    ensures { IfOk result (λ text. text ≡ own.named_currency (tree_nodes input.now.doc.now) input.now.rows.now picks.now term) }
{
    match first_node(input.rows, picks, term) {
        None => Ok(None),
        Some(n) => Ok(Some(trimmed_string(input.alloc, input.doc, n, steps)?)),
    }
}

impl Currencies {
    /// The trimmed strings of the first nodes that the rows of BT-5 and BT-6 pick.
    pub(crate) fn named<L: Ledger>(
        input: &NumberingInput<'_, '_>,
        picks: &[Picked],
        steps: &mut Steps<L>,
    ) -> Result<Currencies, AllocError>
        requires { AreWithin (length input.now.doc.now.nodes) picks.now }
        ensures invoice { IfOk result (λ c. c.invoice
            ≡ (own.named_currencies (tree_nodes input.now.doc.now) input.now.rows.now picks.now).invoice) }
        ensures accounting { IfOk result (λ c. c.accounting
            ≡ (own.named_currencies (tree_nodes input.now.doc.now) input.now.rows.now picks.now).accounting) }
    {
        Ok(Currencies {
            invoice: named_currency(input, picks, INVOICE_CURRENCY, steps)?,
            accounting: named_currency(input, picks, ACCOUNTING_CURRENCY, steps)?,
        })
    }

    /// Whether the text is the accounting currency, and not that of the invoice.
    fn has_accounting(&self, text: &Txt) -> bool
        ensures { result ≡ spec.is_accounting_in (record { invoice = self.now.invoice; accounting = self.now.accounting }) text.now }
    {
        match &self.invoice {
            None => false,
            Some(invoice) => !invoice.is_same(text) && is_some_text(&self.accounting, text),
        }
    }

    /// Whether an amount is in the accounting currency, and that isn't the invoice's.
    fn is_accounting<L: Ledger>(
        &self,
        alloc: Global,
        doc: &Doc<'_>,
        n: NodeId,
        steps: &mut Steps<L>,
    ) -> Result<bool, AllocError>
        requires { n < length doc.now.nodes }
        ensures { IfOk result (λ is. is ≡ spec.is_accounting (record { invoice = self.now.invoice; accounting = self.now.accounting })
            (spec.amount_currency (tree_nodes doc.now) n)) }
    {
        match amount_currency(alloc, doc, n, steps)? {
            None => Ok(false),
            Some(text) => Ok(self.has_accounting(&text)),
        }
    }

    /// Whether what a row picks is in the currency of its VAT total, if it is one.
    pub(crate) fn suit<L: Ledger>(
        &self,
        alloc: Global,
        doc: &Doc<'_>,
        row: &Row,
        n: NodeId,
        steps: &mut Steps<L>,
    ) -> Result<bool, AllocError>
        requires { n < length doc.now.nodes }
        ensures { IfOk result (λ is. is ≡ spec.is_in_its_currency (tree_nodes doc.now)
            (record { invoice = self.now.invoice; accounting = self.now.accounting }) (pick_of row.now n)) }
    {
        match row.written {
            Written::VatTotal => Ok(!self.is_accounting(alloc, doc, n, steps)?),
            Written::AccountingVatTotal => self.is_accounting(alloc, doc, n, steps),
            _ => Ok(true),
        }
    }
}

fn is_some_text(named: &Option<Txt>, text: &Txt) -> bool
    ensures { result ≡ spec.is_some_text named.now text.now }
{
    match named {
        None => false,
        Some(own) => own.is_same(text),
    }
}

/// Whether a name is `currencyID`, in no namespace.
fn is_currency_name(uri: &str, local: &str) -> bool
    ensures { result ≡ names.is_spelled [] spec.currency_id (record { uri = chars uri.now; local = chars local.now }) }
{
    if local == "currencyID" {
        uri.is_empty()
    } else {
        false
    }
}

fn is_currency_id(doc: &Doc<'_>, n: NodeId) -> bool
    requires { n < length doc.now.nodes }
    ensures { result ≡ names.has_plain_name spec.currency_id (tree_node (tree_nodes doc.now) n) }
{
    match doc.name(n) {
        None => false,
        Some(id) => is_currency_name(doc.names().uri(id), doc.names().local(id)),
    }
}

/// The text of a `currencyID`, unless it is blank.
fn currency_at<L: Ledger>(
    alloc: Global,
    doc: &Doc<'_>,
    attribute: NodeId,
    steps: &mut Steps<L>,
) -> Result<Option<Txt>, AllocError>
    requires { attribute < length doc.now.nodes }
    ensures { IfOk result (λ text. text ≡ own.currency_at (tree_nodes doc.now) attribute) }
{
    if !is_currency_id(doc, attribute) {
        return Ok(None);
    }
    let text = trimmed_string(alloc, doc, attribute, steps)?;
    if is_blank(text.as_str()) {
        Ok(None)
    } else {
        Ok(Some(text))
    }
}

/// The currency of an amount: its trimmed `currencyID`, unless it is blank.
fn amount_currency<L: Ledger>(
    alloc: Global,
    doc: &Doc<'_>,
    n: NodeId,
    steps: &mut Steps<L>,
) -> Result<Option<Txt>, AllocError>
    requires { n < length doc.now.nodes }
    ensures { IfOk result (λ text. text ≡ spec.amount_currency (tree_nodes doc.now) n) }
{
    nodes_are_sound(doc);
    let mut next = doc.first_attribute(n, steps);
    'attributes: while let Some(attribute) = next {
        match currency_at(alloc, doc, attribute, steps)? {
            Some(text) => return Ok(Some(text)),
            None => next = doc.next_attribute(attribute, steps),
        }
    }
    Ok(None)
}
