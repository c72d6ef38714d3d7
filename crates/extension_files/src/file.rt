//! What a file of extension terms gives, read key by key and table by table.
ghost use Rattle.std.specs.Prelude.{◌≡◌, ◌≢◌, Ok, Err, Some, None, IfOk, IfErr, option_map, chars};
ghost use Rattle.code_lists.specs.CodeFiles.{document_of};
ghost use Rattle.toml.specs.View.{view, array_view, table_view};
ghost use Rattle.extension_files.specs.ExtensionFiles as spec;
ghost use Rattle.extension_files.specs.declared.fault.ExtFault.TheVariants.{Memory, NotToml, NotAnExtension};

use crate::fault::ExtFault;
use crate::keys::value_at;
use crate::tables::term_of;
use crate::terms::ExtTerm;
use code_lists::other_key;
use inv_base::{Many, Txt};
use std::alloc::{AllocError, Global};
use toml::value::Array;
use toml::{Table, Value};

/// The TOML document that the bytes are.
pub(crate) fn read_document(alloc: Global, bytes: &[u8]) -> Result<Table, ExtFault>
    ensures ok { IfOk result (λ document. document_of bytes.now ≡ Some (table_view document)) }
    ensures fault { IfErr result (λ fault. fault ≢ Memory → (fault ≡ NotToml) × (document_of bytes.now ≡ None)) }
{
    match toml::table_from_slice(alloc, bytes) {
        Ok(document) => Ok(document),
        Err(error) => {
            if error.is_memory() {
                Err(ExtFault::Memory)
            } else {
                Err(ExtFault::NotToml)
            }
        }
    }
}

/// The terms of a document.
#[tactic(auto, using(crate::proofs::FileLemmas::documents))]
pub(crate) fn read_terms(alloc: Global, document: &Table) -> Result<Many<ExtTerm>, ExtFault>
    ensures ok { IfOk result (λ terms. spec.document_terms (table_view document.now) ≡ Ok terms) }
    ensures fault { IfErr result (λ fault. fault ≢ Memory → spec.document_terms (table_view document.now) ≡ Err fault) }
{
    match tables_of(document) {
        Ok(tables) => read_tables(alloc, tables),
        Err(key) => Err(ExtFault::NotAnExtension(Txt::of(alloc, key)?)),
    }
}

// The array of tables that gives the terms of a document, or the key that offends.
#[tactic(auto, using(crate::proofs::FileLemmas::offences))]
fn tables_of(document: &Table) -> Result<&Array, &str>
    ensures ok { IfOk result (λ tables. spec.document_terms (table_view document.now) ≡ spec.terms_from 0 1 (array_view tables.now)) }
    ensures fault { IfErr result (λ key. spec.document_terms (table_view document.now) ≡ Err (NotAnExtension (chars key.now))) }
{
    if let Some(key) = other_key(document, &["term"]) {
        return Err(key);
    }
    match term_tables(document) {
        Some(tables) => Ok(tables),
        None => Err("term"),
    }
}

// The array of tables under `term`.
fn term_tables(document: &Table) -> Option<&Array>
    ensures { option_map (λ tables. array_view tables.now) result ≡ spec.term_tables (table_view document.now) }
{
    match value_at(document, "term") {
        Some(value) => tables_in(value),
        None => None,
    }
}

// The tables of an array.
#[tactic(auto, using(crate::proofs::FileLemmas::arrays))]
fn tables_in(value: &Value) -> Option<&Array>
    ensures { option_map (λ tables. array_view tables.now) result ≡ spec.tables_in (view value.now) }
{
    match value.as_array() {
        Some(tables) => {
            if are_tables(tables) {
                Some(tables)
            } else {
                None
            }
        }
        None => None,
    }
}

fn are_tables(items: &Array) -> bool
    ensures { result ≡ spec.are_tables (array_view items.now) }
{
    'items: for item in items {
        if !item.is_table() {
            return false;
        }
    }
    true
}

// The terms that the tables give, each with a number above the one before it.
#[tactic(auto, using(crate::proofs::ExtensionLemmas::turns))]
fn read_tables(alloc: Global, tables: &Array) -> Result<Many<ExtTerm>, ExtFault>
    ensures ok { IfOk result (λ terms. spec.terms_from 0 1 (array_view tables.now) ≡ Ok terms) }
    ensures fault { IfErr result (λ fault. fault ≢ Memory → spec.terms_from 0 1 (array_view tables.now) ≡ Err fault) }
{
    let mut terms = Many::new(alloc);
    let mut before: u8 = 0;
    'tables: for table in tables {
        match read_term(alloc, before, table)? {
            Some(term) => {
                before = term.number;
                terms.push(term)?;
            }
            None => {
                let place = terms.len() as u32 + 1;
                drop(terms);
                return Err(ExtFault::BadTerm(place));
            }
        }
    }
    Ok(terms)
}

// The term that a value gives, if it is a table that gives one.
fn read_term(alloc: Global, before: u8, value: &Value) -> Result<Option<ExtTerm>, AllocError>
    ensures { IfOk result (λ term. term ≡ spec.value_term before (view value.now)) }
{
    match value.as_table() {
        Some(table) => term_of(alloc, before, table),
        None => Ok(None),
    }
}
