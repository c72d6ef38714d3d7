//! The three tables with the terms that a user adds: each has a row for each term that has a path in its syntax, and is
//! judged with them.
ghost use Rattle.std.specs.Prelude.{◌≡◌, ◌≢◌, true, Ok, Err, IfOk, IfErr, option_map};
ghost use Rattle.std.specs.Option.{option_and_then};
ghost use Rattle.bind_table.specs.WellFormed.{first_fault};
ghost use Rattle.bind_meaning.specs.Tables.{rows_of};
ghost use Rattle.extension_files.specs.Extensions.{is_extension};
ghost use Rattle.bind_run.specs.Extensions as spec;
ghost use Rattle.bind_run.specs.declared.extensions.ExtendFault.TheVariants as faults;

use bind_rows::{Content, Copied, DocumentType, ElementName, Many};
use bind_table::{AddedTerm, Binding, TableFault, TableKind, well_formed};
use extension_files::{ExtPlace, ExtTerm, Paths};
use std::alloc::{AllocError, Global};
use term_table::{Group, Term};

/// The first row at which something is wrong, of the first of the three tables that isn't well formed with a user's terms.
#[derive(Clone, Copy, PartialEq, Eq)]
pub struct BadRow {
    pub table: DocumentType,
    pub kind: TableKind,
    /// Its term, which is one that the user added.
    pub term: Option<Term>,
}

/// Why the three tables can't be had with a user's terms.
#[derive(Clone, Copy, PartialEq, Eq)]
pub enum ExtendFault {
    /// One of them isn't well formed with these.
    BadRow(BadRow),
    Memory,
}

impl From<AllocError> for ExtendFault {
    ghost from_gives = { λ _ e. e ≡ faults.Memory };

    fn from(_e: AllocError) -> ExtendFault {
        ExtendFault::Memory
    }
}

fn outer_of(place: ExtPlace) -> Option<Group>
    ensures { result ≡ spec.outer_of place }
{
    match place {
        ExtPlace::Root => None,
        ExtPlace::Line => Some(Group::InvoiceLine),
    }
}

fn path_for(table: DocumentType, paths: &Paths) -> Option<&Many<ElementName>>
    ensures { option_map (λ names. names.now) result ≡ spec.path_for table paths.now }
{
    match table {
        DocumentType::Invoice => paths.ubl.as_ref(),
        DocumentType::CreditNote => paths.credit_note.as_ref(),
        DocumentType::Cii => paths.cii.as_ref(),
    }
}

/// The term with its path in the table's syntax, if it has one.
fn added_of(
    alloc: Global,
    table: DocumentType,
    term: &ExtTerm,
) -> Result<Option<AddedTerm>, AllocError>
    ensures { IfOk result (λ added. added ≡ spec.added_of table term.now) }
{
    match path_for(table, &term.paths) {
        None => Ok(None),
        Some(names) => Ok(Some(AddedTerm {
            number: term.number,
            outer: outer_of(term.place),
            inner: None,
            data_type: term.data_type,
            names: names.copied(alloc)?,
        })),
    }
}

/// The terms that have a path in the table's syntax.
fn terms_for(
    alloc: Global,
    table: DocumentType,
    terms: &[ExtTerm],
) -> Result<Many<AddedTerm>, AllocError>
    ensures { IfOk result (λ added. added ≡ spec.terms_for table terms.now) }
{
    let mut added = Many::new(alloc);
    'terms: for term in terms {
        match added_of(alloc, table, term)? {
            None => {}
            Some(a) => added.push(a)?,
        }
    }
    Ok(added)
}

/// One of the three tables with the rows of terms.
fn with_terms(
    alloc: Global,
    table: DocumentType,
    own: &Binding,
    terms: &[ExtTerm],
) -> Result<Binding, AllocError>
    requires own { own.now ≡ rows_of table }
    requires fine { is_extension terms.now ≡ true }
    ensures { IfOk result (λ more. more ≡ spec.rows_for terms.now table) }
{
    let added = terms_for(alloc, table, terms)?;
    let more = own.extend(alloc, table, added.as_slice());
    drop(added);
    more
}

fn term_in(content: &Content) -> Option<Term>
    ensures { result ≡ spec.term_in content.now }
{
    match content {
        Content::Term(term) => Some(*term),
        Content::Constant(_) => None,
    }
}

/// The term of a row, from 1.
fn term_at(table: &Binding, number: u32) -> Option<Term>
    ensures { result ≡ spec.term_at table.now number }
{
    match table.part(number.saturating_sub(1) as usize) {
        Some(row) => term_in(&row.content),
        None => None,
    }
}

/// Whether a table is well formed, or the first row at which something is wrong.
fn judged(table: DocumentType, rows: &Binding) -> Result<(), BadRow>
    ensures { result ≡ spec.judged_in table rows.now }
{
    match well_formed(rows) {
        Ok(()) => Ok(()),
        Err(TableFault { kind, row }) => Err(BadRow {
            table,
            kind,
            term: term_at(rows, row),
        }),
    }
}

/// One of the three tables with the rows of terms, if it is well formed with them.
pub(crate) fn extended(
    alloc: Global,
    table: DocumentType,
    own: &Binding,
    terms: &[ExtTerm],
) -> Result<Binding, ExtendFault>
    requires own { own.now ≡ rows_of table }
    requires fine { is_extension terms.now ≡ true }
    ensures rows { IfOk result (λ more. more ≡ spec.rows_for terms.now table) }
    ensures formed { IfOk result (λ more. first_fault more ≡ Ok tt) }
    ensures fault { IfErr result (λ fault. fault ≢ faults.Memory
        → spec.IsBadRow fault (spec.judged_in table (spec.rows_for terms.now table))) }
{
    let more = with_terms(alloc, table, own, terms)?;
    match judged(table, &more) {
        Ok(()) => Ok(more),
        Err(bad) => {
            drop(more);
            Err(ExtendFault::BadRow(bad))
        }
    }
}
