//! The invoice, or the faults.
ghost use Rattle.std.specs.Prelude.{◌≡◌, ◌↔◌, [], ◌∷◌, ◌++◌, All, Contains, flat_map, IfOk, OnOk};
ghost use Rattle.std.specs.List.Sorted.{IsPermutation};
ghost use Rattle.inv_terms.specs.declared.entries.Entry.{Entry};
ghost use Rattle.inv_terms.specs.Listing.{Fits};
ghost use Rattle.invoice_data.specs.Told.{both};
ghost use Rattle.invoice_data.specs.Members as spec;
ghost use Rattle.invoice_data.specs.Data.{Says, IsData, IsWhole, FitsFound, entries, entries_of};

use crate::data::Data;
use crate::faults::{DataKind, DataName};
use crate::input::Input;
use crate::members::{OuterArrays, tell_element};
use crate::names::Room;
use crate::parts::split;
use crate::telling::{Found, Telling};
use crate::values::fault_at;
use code_lists::CodeLists;
use extension_files::Extension;
use inv_terms::{Entry, Invoice, check};
use json_reading::{Item, JsonText};
use std::alloc::{AllocError, Global};
use term_table::{ROOT, place_of};

const ROOT_ROOM: Room = Room {
    context: ROOT,
    place: ROOT,
};

#[tactic(auto, unfolding(crate::specs::Members::told))]
fn tell_all(input: &Input<'_>, items: &[Item], telling: &mut Telling) -> Result<(), AllocError>
    ensures { OnOk result (telling.new ≡ both telling.old (spec.told input.now items.now)) }
{
    match items.split_first() {
        Some((item, behind)) => {
            let (inside, _) = split(item, behind);
            tell_element::<OuterArrays>(input, ROOT_ROOM, item, inside, telling)
        }
        None => telling.put_fault(fault_at(DataKind::NotAnObject, ROOT_ROOM, DataName::Nothing, 0)),
    }
}

// ---- the entries in listing order

/// Puts what was found in listing order.
fn sort(founds: &mut Vec<Found>) -> Result<(), AllocError>
    ensures { IsPermutation founds.old.items founds.new.items }
{
    founds.sort_by_key(|f| place_of(f.seat.term, f.seat.context))
}

/// Adds an entry to an invoice.
fn push(invoice: &mut Invoice, e: Entry) -> Result<(), AllocError>
    requires { Fits e.term e.value }
    ensures { OnOk result (invoice.new ≡ invoice.old ++ e ∷ []) }
{
    match invoice.push(e) {
        Ok(()) => Ok(()),
        Err(fault) => {
            drop(fault);
            Err(AllocError)
        }
    }
}

/// Adds what was found to an invoice, where it has a value.
fn put_found(invoice: &mut Invoice, found: Found) -> Result<(), AllocError>
    requires { FitsFound found }
    ensures { OnOk result (invoice.new ≡ invoice.old ++ entries_of found) }
{
    let Found { seat, value } = found;
    match value {
        None => Ok(()),
        Some(value) => push(
            invoice,
            Entry {
                context: seat.context,
                term: seat.term,
                value,
            },
        ),
    }
}

/// Adds all that was found.
fn put_all(invoice: &mut Invoice, founds: Vec<Found>) -> Result<(), AllocError>
    requires { All FitsFound founds.items }
    ensures { OnOk result (invoice.new ≡ invoice.old ++ flat_map entries_of founds.items) }
{
    'founds: for found in founds {
        match put_found(invoice, found) {
            Ok(()) => {}
            Err(error) => return Err(error),
        }
    }
    Ok(())
}

/// The invoice of what was found in listing order.
fn invoice_of(alloc: Global, founds: Vec<Found>) -> Result<Invoice, AllocError>
    requires { All FitsFound founds.items }
    ensures { IfOk result (λ invoice. invoice ≡ flat_map entries_of founds.items) }
{
    match Invoice::new(alloc) {
        Ok(made) => {
            let mut invoice = made;
            match put_all(&mut invoice, founds) {
                Ok(()) => Ok(invoice),
                Err(error) => {
                    drop(invoice);
                    Err(error)
                }
            }
        }
        Err(error) => {
            drop(founds);
            Err(error)
        }
    }
}

/// The invoice of what was found.
fn listed(alloc: Global, unsorted: Vec<Found>) -> Result<Invoice, AllocError>
    requires { All FitsFound unsorted.items }
    ensures { IfOk result (λ invoice. (e : Entry) → (Contains invoice e ↔ Contains (entries unsorted.items) e)) }
{
    let mut founds = unsorted;
    match sort(&mut founds) {
        Ok(()) => invoice_of(alloc, founds),
        Err(error) => {
            drop(founds);
            Err(error)
        }
    }
}

/// The invoice as data, which lacks nothing.
fn whole(invoice: Invoice, lists: &CodeLists) -> Result<Data, AllocError>
    ensures { IfOk result (λ d. IsWhole invoice lists.now d) }
{
    match check(&invoice, lists) {
        Ok(()) => Ok(Data::Invoice(invoice)),
        Err(_) => {
            drop(invoice);
            Err(AllocError)
        }
    }
}

/// What was found, as data.
fn invoice_data(alloc: Global, lists: &CodeLists, founds: Vec<Found>) -> Result<Data, AllocError>
    requires { All FitsFound founds.items }
    ensures { IfOk result (λ d. IsData founds.items lists.now d) }
{
    match listed(alloc, founds) {
        Ok(invoice) => whole(invoice, lists),
        Err(error) => Err(error),
    }
}

/// What was told: an invoice, or its faults.
fn data_of(alloc: Global, lists: &CodeLists, telling: Telling) -> Result<Data, AllocError>
    requires { All FitsFound telling.founds }
    ensures { IfOk result (λ d. Says lists.now d telling) }
{
    let (founds, faults) = telling.into_parts();
    if faults.as_slice().is_empty() {
        drop(faults);
        return invoice_data(alloc, lists, founds);
    }
    drop(founds);
    Ok(Data::Faults(faults))
}

/// The invoice that the members of a text say, or all faults of its content. Terms of a user's table are known where they stand in
/// `added`, and codes are listed by `lists`.
pub fn read_members(
    alloc: Global,
    text: &JsonText<'_>,
    added: &Extension,
    lists: &CodeLists,
) -> Result<Data, AllocError>
    ensures { IfOk result (λ d. Says lists.now d (spec.told (record { bytes = text.now.bytes.now; added = added.now; lists = lists.now }) text.now.items.items)) }
{
    let input = Input {
        alloc,
        text,
        added: added.terms(),
        lists,
    };
    let mut telling = Telling::new(alloc);
    match tell_all(&input, text.items.as_slice(), &mut telling) {
        Ok(()) => data_of(alloc, lists, telling),
        Err(error) => {
            drop(telling);
            Err(error)
        }
    }
}
