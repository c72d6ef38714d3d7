ghost use Rattle.std.specs.Prelude.{◌≡◌, [], ◌∷◌, ◌++◌, None, IfOk, OnOk, IfErr, OnErr, filter, option_copied, slice_get};
ghost use Rattle.term_table.specs.Contexts.{is_inside};
ghost use Rattle.term_table.specs.Runs.{IsNested};
ghost use Rattle.inv_terms.specs.Listing.{IsInvoice, Fits, refusal, value_in};
ghost use Rattle.inv_terms.specs.Refusals.{Refuses};

use crate::entries::Entry;
use crate::laws::invoices_are_in_listing_order;
use crate::listing::{Refusal, why_refused};
use crate::looking::value_in;
use crate::values::Value;
use std::alloc::{AllocError, Global};
use std::marker::Model;
use term_table::{Context, Term, run_in};

/// Why an entry wasn't added to an invoice, with the entry.
#[derive(Drop)]
pub enum PushFault {
    /// The entry isn't listed behind the last one.
    OutOfOrder(Entry),
    /// Its term has no such context, or an index is neither that of the last occurrence of its group nor the next.
    BadContext(Entry),
    /// There is no memory for it.
    Memory(Entry),
}

/// An invoice: its entries in listing order, each with a context that its term has and a value that fits it, the
/// occurrences of each group numbered from 1 without a gap. Contracts see the list of its entries.
pub struct Invoice {
    entries: Vec<Entry>,
}

impl Drop for Invoice {
    fn drop(self) {
        let Invoice { entries } = self;
        drop(entries);
    }
}

impl Model for Invoice {
    ghost use Rattle.std.specs.Prelude.{List};
    ghost use Rattle.inv_terms.specs.declared.entries.Entry.{Entry};
    ghost use Rattle.inv_terms.specs.Listing.{IsInvoice};

    ghost Value = { List Entry };

    ghost view = { λ i. i.entries.items };

    ghost invariant = { λ i. IsInvoice i.entries.items };
}

impl Invoice {
    /// An invoice without entries.
    pub fn new(alloc: Global) -> Result<Invoice, AllocError>
        ensures { IfOk result (λ i. i ≡ []) }
    {
        Ok(Invoice {
            entries: Vec::new(alloc),
        })
    }

    /// The invoice of these entries, which are one: in listing order, each with a context that its term has and a value
    /// that fits it, the occurrences of each group numbered from 1 without a gap.
    pub fn from_entries(entries: Vec<Entry>) -> Invoice
        requires { IsInvoice entries.items }
        ensures { result ≡ entries.items }
    {
        Invoice { entries }
    }

    /// Adds an entry behind the others. A refused entry is handed back, and nothing changes.
    pub fn push(&mut self, e: Entry) -> Result<(), PushFault>
        requires { Fits e.term e.value }
        ensures ok { OnOk result ((refusal self.old e ≡ None) × (self.new ≡ self.old ++ e ∷ [])) }
        ensures err { OnErr result (self.new ≡ self.old) }
        ensures fault { IfErr result (λ fault. Refuses (refusal self.old e) e fault) }
        ensures invoice { IsInvoice self.new }
    {
        match why_refused(&self.entries, &e) {
            Some(Refusal::OutOfOrder) => return Err(PushFault::OutOfOrder(e)),
            Some(Refusal::BadContext) => return Err(PushFault::BadContext(e)),
            None => {}
        }
        match self.entries.push(e) {
            Ok(()) => return Ok(()),
            Err(failed) => return Err(PushFault::Memory(failed.value)),
        }
    }

    /// The k-th entry, from 0. None behind the last one.
    pub fn entry(&self, k: usize) -> Option<&Entry>
        ensures entry { option_copied result ≡ slice_get self.now k }
        ensures invoice { IsInvoice self.now }
    {
        self.entries.get(k)
    }

    /// The entries in listing order.
    pub fn entries(&self) -> &[Entry]
        ensures entries { result.now ≡ self.now }
        ensures invoice { IsInvoice self.now }
    {
        self.entries.as_slice()
    }

    /// The value of a term in a context, if it stands there. It is found by halving.
    pub fn value(&self, term: Term, context: Context) -> Option<&Value>
        ensures { option_copied result ≡ value_in self.now term context }
    {
        invoices_are_in_listing_order();
        value_in(self.entries(), term, context)
    }

    /// The entries in a context and in those inside it, which stand together. They are found by halving.
    pub fn run(&self, context: Context) -> &[Entry]
        requires { IsNested context }
        ensures run { result.now ≡ filter (λ e. is_inside context e.context) self.now }
        ensures invoice { IsInvoice self.now }
    {
        invoices_are_in_listing_order();
        run_in(self.entries(), context)
    }
}
