//! The term that a table of a file gives.
ghost use Rattle.std.specs.Prelude.{◌≡◌, IfOk, is_some, option_map};
ghost use Rattle.toml.specs.View.{table_view};
ghost use Rattle.extension_files.specs.TermTables as spec;

use crate::keys::value_at;
use crate::paths::path_of;
use crate::terms::{ExtPlace, ExtTerm, Paths};
use crate::words::{data_type_named, place_named};
use bind_rows::{ElementName, Namespace};
use code_lists::other_key;
use inv_base::Many;
use std::alloc::{AllocError, Global};
use term_table::DataType;
use toml::Table;

const UBL: [Namespace; 2] = [Namespace::UblAggregate, Namespace::UblBasic];

const CII: [Namespace; 4] = [
    Namespace::CiiInvoice,
    Namespace::CiiAggregate,
    Namespace::CiiUnqualified,
    Namespace::CiiQualified,
];

/// The term that a table gives, if it gives one whose number is above `before`.
#[tactic(auto, using(crate::proofs::TableLemmas::terms))]
pub(crate) fn term_of(
    alloc: Global,
    before: u8,
    table: &Table,
) -> Result<Option<ExtTerm>, AllocError>
    ensures { IfOk result (λ term. term ≡ spec.term_of before (table_view table.now)) }
{
    let Some((number, place, data_type)) = head_of(before, table) else {
        return Ok(None);
    };
    match paths_of(alloc, table)? {
        Some(paths) => Ok(Some(ExtTerm {
            number,
            place,
            data_type,
            paths,
        })),
        None => Ok(None),
    }
}

// The number, the place and the type of the term, if the table has no other keys than those of a term.
#[tactic(auto, using(crate::proofs::TableLemmas::heads))]
fn head_of(before: u8, table: &Table) -> Option<(u8, ExtPlace, DataType)>
    ensures { result ≡ spec.head_of before (table_view table.now) }
{
    if has_other_keys(table) {
        return None;
    }
    let number = number_of(before, table)?;
    let place = place_of(table)?;
    let data_type = data_type_of(table)?;
    Some((number, place, data_type))
}

fn has_other_keys(table: &Table) -> bool
    ensures { result ≡ is_some (spec.other_key_of (table_view table.now)) }
{
    other_key(table, &["number", "place", "type", "ubl", "cn", "cii"]).is_some()
}

fn place_of(table: &Table) -> Option<ExtPlace>
    ensures { result ≡ spec.place_of (table_view table.now) }
{
    match text_at(table, "place") {
        Some(word) => place_named(word),
        None => None,
    }
}

fn data_type_of(table: &Table) -> Option<DataType>
    ensures { result ≡ spec.data_type_of (table_view table.now) }
{
    match text_at(table, "type") {
        Some(word) => data_type_named(word),
        None => None,
    }
}

// The number of the term, if it is above `before` and at most 99.
#[tactic(auto, using(crate::proofs::TableLemmas::bounds))]
fn number_of(before: u8, table: &Table) -> Option<u8>
    ensures { result ≡ spec.number_of before (table_view table.now) }
{
    match integer_at(table, "number") {
        Some(number) => {
            if number <= i64::from(before) {
                return None;
            }
            if number > 99 {
                return None;
            }
            Some(number as u8)
        }
        None => None,
    }
}

// The whole number under a key.
fn integer_at(table: &Table, key: &str) -> Option<i64>
    ensures { result ≡ spec.integer_at key.now (table_view table.now) }
{
    match value_at(table, key) {
        Some(value) => value.as_integer(),
        None => None,
    }
}

// The text under a key.
fn text_at<'a>(table: &'a Table, key: &str) -> Option<&'a str>
    ensures { option_map (λ text. text.now) result ≡ spec.text_at key.now (table_view table.now) }
{
    match value_at(table, key) {
        Some(value) => value.as_str(),
        None => None,
    }
}

// The paths of the term, if there is one, and each that there is is one of its syntax.
#[tactic(auto, using(crate::proofs::TableLemmas::paths))]
fn paths_of(alloc: Global, table: &Table) -> Result<Option<Paths>, AllocError>
    ensures { IfOk result (λ paths. paths ≡ spec.paths_of (table_view table.now)) }
{
    let Some(ubl) = path_at(alloc, table, "ubl", &UBL)? else {
        return Ok(None);
    };
    let Some(credit_note) = path_at(alloc, table, "cn", &UBL)? else {
        drop(ubl);
        return Ok(None);
    };
    let Some(cii) = path_at(alloc, table, "cii", &CII)? else {
        drop(ubl);
        drop(credit_note);
        return Ok(None);
    };
    let paths = Paths {
        ubl,
        credit_note,
        cii,
    };
    if has_path(&paths) {
        Ok(Some(paths))
    } else {
        drop(paths);
        Ok(None)
    }
}

fn has_path(paths: &Paths) -> bool
    ensures { result ≡ spec.has_path paths.now }
{
    paths.ubl.is_some() || paths.credit_note.is_some() || paths.cii.is_some()
}

// The path under a key, or none where the key is missing; nothing where the key has something else.
#[tactic(auto, using(crate::proofs::TableLemmas::ways))]
fn path_at(
    alloc: Global,
    table: &Table,
    key: &str,
    spaces: &[Namespace],
) -> Result<Option<Option<Many<ElementName>>>, AllocError>
    ensures { IfOk result (λ path. path ≡ spec.path_at spaces.now key.now (table_view table.now)) }
{
    match value_at(table, key) {
        None => Ok(Some(None)),
        Some(value) => match value.as_str() {
            None => Ok(None),
            Some(text) => match path_of(alloc, spaces, text)? {
                Some(names) => Ok(Some(Some(names))),
                None => Ok(None),
            },
        },
    }
}
