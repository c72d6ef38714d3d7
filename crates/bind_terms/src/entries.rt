//! The entries of an invoice.
ghost use Rattle.std.specs.Prelude.{◌≡◌, ◌++◌, [], flat_map, reverse, vec_len, IfOk, OnOk};
ghost use Rattle.inv_terms.specs.Listing.{IsInvoice};
ghost use Rattle.bind_terms.specs.Entries.{entries_of};

use crate::firsts::First;
use inv_terms::{Entry, Invoice};
use std::alloc::{AllocError, Global};

/// The invoice of what was told first of each term in each context, in listing order, where that is one.
pub(crate) fn invoice_of(alloc: Global, firsts: Vec<First>) -> Result<Invoice, AllocError>
    requires { IsInvoice (flat_map entries_of firsts.items) }
    ensures { IfOk result (λ invoice. invoice ≡ flat_map entries_of firsts.items) }
{
    let entries = entries_of(alloc, firsts)?;
    Ok(Invoice::from_entries(entries))
}

fn entries_of(alloc: Global, firsts: Vec<First>) -> Result<Vec<Entry>, AllocError>
    ensures { IfOk result (λ entries. entries.items ≡ flat_map entries_of firsts.items) }
{
    match Vec::with_capacity(alloc, firsts.len()) {
        Ok(room) => {
            let mut entries = from_last(firsts, room)?;
            entries.reverse();
            Ok(entries)
        }
        Err(error) => {
            drop(firsts);
            Err(error)
        }
    }
}

/// The entries, the last first. Each list takes about half as much memory as the document, so the one is given back while the other
/// grows.
fn from_last(firsts: Vec<First>, room: Vec<Entry>) -> Result<Vec<Entry>, AllocError>
    requires { room.items ≡ [] }
    ensures { IfOk result (λ entries. reverse entries.items ≡ flat_map entries_of firsts.items) }
{
    let mut rest = firsts;
    let mut entries = room;
    'firsts: while let Some(first) = rest.pop() {
        push_first(&mut entries, first)?;
        give_back(&mut rest);
    }
    Ok(entries)
}

/// How many are taken from a list before it gives back the room that they had.
const GIVEN_BACK: usize = 65_536;

/// Gives back the room that the list no longer needs, now and then.
fn give_back(rest: &mut Vec<First>)
    ensures items { rest.new.items ≡ rest.old.items }
    ensures len { vec_len rest.new ≡ vec_len rest.old }
{
    if rest.len() % GIVEN_BACK == 0 {
        rest.shrink_to_fit();
    }
}

fn push_first(entries: &mut Vec<Entry>, first: First) -> Result<(), AllocError>
    ensures { OnOk result (entries.new.items ≡ entries.old.items ++ entries_of first) }
{
    let First {
        context,
        row: _,
        term,
        value,
    } = first;
    match value {
        Some(value) => entries.push(Entry {
            context,
            term,
            value,
        })?,
        None => {}
    }
    Ok(())
}
