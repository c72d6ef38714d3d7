//! What a file of code lists gives, read key by key.
ghost use Rattle.std.specs.Prelude.{◌≡◌, ◌≢◌, List, [], ◌++◌, Ok, Err, Some, None, IfOk, IfErr, OnOk, option_map, chars};
ghost use Rattle.toml.specs.View.{view, array_view, table_view};
ghost use Rattle.code_lists.specs.CodeFiles as spec;
ghost use Rattle.code_lists.specs.declared.fault.ListFault.TheVariants.{Memory, NotToml, NotALists};

use crate::codes::{Codes, is_code};
use crate::fault::ListFault;
use crate::keys::other_key;
use crate::names::List;
use inv_base::Txt;
use std::alloc::{AllocError, Global};
use toml::value::Array;
use toml::{Table, Value};

/// The TOML document that the bytes are.
pub fn read_document(alloc: Global, bytes: &[u8]) -> Result<Table, ListFault>
    ensures ok { IfOk result (λ document. spec.document_of bytes.now ≡ Some (table_view document)) }
    ensures fault { IfErr result (λ fault. fault ≢ Memory → (fault ≡ NotToml) × (spec.document_of bytes.now ≡ None)) }
{
    match toml::table_from_slice(alloc, bytes) {
        Ok(document) => Ok(document),
        Err(error) => {
            if error.is_memory() {
                Err(ListFault::Memory)
            } else {
                Err(ListFault::NotToml)
            }
        }
    }
}

/// The table `lists` of a document, or the first key in byte order that offends.
pub fn lists_of(document: &Table) -> Result<&Table, &str>
    ensures ok { IfOk result (λ lists. (spec.first_of (spec.document_offences (table_view document.now)) ≡ None)
        × (spec.lists_table (table_view document.now) ≡ Some (table_view lists.now))) }
    ensures fault { IfErr result (λ key.
        spec.first_of (spec.document_offences (table_view document.now)) ≡ Some (key.now, NotALists (chars key.now))) }
{
    match (lists_table(document), other_key(document, &["lists"])) {
        (Some(lists), None) => Ok(lists),
        (Some(_), Some(key)) => Err(key),
        (None, Some(key)) => {
            if "lists" < key {
                Err("lists")
            } else {
                Err(key)
            }
        }
        (None, None) => Err("lists"),
    }
}

fn lists_table(document: &Table) -> Option<&Table>
    ensures { option_map (λ lists. table_view lists.now) result ≡ spec.lists_table (table_view document.now) }
{
    match document.get("lists") {
        Some(lists) => lists.as_table(),
        None => None,
    }
}

/// Adds the lists that the table gives to those found, up to the first key in byte order that offends.
pub fn read_lists(
    alloc: Global,
    lists: &Table,
    found: &mut Vec<(List, Codes)>,
) -> Result<(), ListFault>
    ensures ok { OnOk result ((spec.first_fault (spec.offences (table_view lists.now)) ≡ None)
        × (found.new.items ≡ found.old.items ++ spec.given_lists (table_view lists.now))) }
    ensures fault { IfErr result (λ fault. fault ≢ Memory → spec.first_fault (spec.offences (table_view lists.now)) ≡ Some fault) }
{
    'keys: for (key, value) in lists.iter() {
        found.push(read_list(alloc, key.as_str(), value)?)?;
    }
    Ok(())
}

// The list that a key gives, with its codes.
fn read_list(alloc: Global, key: &str, value: &Value) -> Result<(List, Codes), ListFault>
    ensures ok { IfOk result (λ list. spec.given key.now (view value.now) ≡ Ok list) }
    ensures fault { IfErr result (λ fault. fault ≢ Memory → spec.given key.now (view value.now) ≡ Err fault) }
{
    match (List::named(key), value.as_array()) {
        (Some(list), Some(items)) => match read_codes(alloc, items)? {
            Some(codes) => Ok((list, codes)),
            None => Err(ListFault::BadCode(Txt::of(alloc, key)?)),
        },
        _ => Err(ListFault::NotALists(Txt::of(alloc, key)?)),
    }
}

// The codes of an array, if all its items are codes.
fn read_codes(alloc: Global, items: &Array) -> Result<Option<Codes>, AllocError>
    ensures { IfOk result (λ codes. codes ≡ spec.with_items [] (array_view items.now)) }
{
    let mut codes = Codes::new(alloc);
    'items: for item in items {
        match code_in(item) {
            Some(code) => codes.add(alloc, code)?,
            None => return Ok(None),
        }
    }
    Ok(Some(codes))
}

// The code that a value is.
fn code_in(value: &Value) -> Option<&str>
    ensures { option_map (λ code. chars code.now) result ≡ spec.code_of (view value.now) }
{
    let text = value.as_str()?;
    if is_code(text) { Some(text) } else { None }
}
