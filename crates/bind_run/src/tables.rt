ghost use Rattle.std.specs.Prelude.{◌≡◌, ◌≢◌, true, Ok, IfOk, IfErr};
ghost use Rattle.std.specs.Cow.{cow_value};
ghost use Rattle.std.specs.List.{list_all};
ghost use Rattle.bind_rows.specs.declared.tables.DocumentType.{DocumentType};
ghost use Rattle.bind_table.specs.Laid.{is_writable};
ghost use Rattle.bind_table.specs.WellFormed.{first_fault};
ghost use Rattle.bind_write.specs.Sources.{has_plain_attribute};
ghost use Rattle.bind_meaning.specs.Tables.{rows_of};
ghost use Rattle.extension_files.specs.Extensions.{is_extension};
ghost use Rattle.bind_run.specs.Extensions.{rows_for, judged, judged_in, AreGood, IsBadRow};
ghost use Rattle.bind_run.specs.Reading.{AreTables, AreTablesFor, AreFormed, kept_rows, rows_in};
ghost use Rattle.bind_run.specs.declared.extensions.ExtendFault.TheVariants as faults;

use crate::extensions::{ExtendFault, extended};
use bind_meaning::DocumentType;
use bind_table::Binding;
use extension_files::{ExtTerm, Extension};
use std::alloc::{AllocError, Global};
use std::borrow::Cow;

/// The three tables with the terms that a user adds, which were all made to be judged with these.
pub struct KeptTables {
    /// UBL Invoice
    pub invoice: Binding,
    /// UBL CreditNote
    pub credit_note: Binding,
    /// CII CrossIndustryInvoice
    pub cii: Binding,
}

impl Drop for KeptTables {
    fn drop(self) {
        let KeptTables {
            invoice,
            credit_note,
            cii,
        } = self;
        drop(invoice);
        drop(credit_note);
        drop(cii);
    }
}

impl KeptTables {
    fn table(&self, document_type: DocumentType) -> &Binding
        ensures { result.now ≡ kept_rows self.now document_type }
    {
        match document_type {
            DocumentType::Invoice => &self.invoice,
            DocumentType::CreditNote => &self.credit_note,
            DocumentType::Cii => &self.cii,
        }
    }
}

/// Three tables, by which documents are read and written.
#[derive(Drop)]
pub enum Tables {
    /// The built-in ones, of which none is kept: each is made where it is asked for, since a document needs one or two.
    BuiltIn,
    Kept(KeptTables),
}

impl Tables {
    /// The built-in tables. It takes no memory.
    pub fn built_in() -> Tables
        ensures tables { AreTables result }
        ensures formed { AreFormed result }
    {
        are_well_formed();
        Tables::BuiltIn
    }

    /// The built-in tables with the terms that a user adds, if all three are well formed with them; or the first row at
    /// which something is wrong, of the first that isn't, in the order UBL Invoice, UBL CreditNote, CII.
    pub fn extended(alloc: Global, extension: &Extension) -> Result<Tables, ExtendFault>
        ensures tables { IfOk result (λ tables. AreTablesFor extension.now tables) }
        ensures good { IfOk result (λ tables. AreGood extension.now) }
        ensures fault { IfErr result (λ fault. fault ≢ faults.Memory → IsBadRow fault (judged (rows_for extension.now))) }
    {
        let terms = extension.terms();
        let invoice = made_with(alloc, DocumentType::Invoice, terms)?;
        let credit_note = match made_with(alloc, DocumentType::CreditNote, terms) {
            Ok(credit_note) => credit_note,
            Err(fault) => {
                drop(invoice);
                return Err(fault);
            }
        };
        match made_with(alloc, DocumentType::Cii, terms) {
            Ok(cii) => Ok(Tables::Kept(KeptTables {
                invoice,
                credit_note,
                cii,
            })),
            Err(fault) => {
                drop(invoice);
                drop(credit_note);
                Err(fault)
            }
        }
    }

    /// One of the tables: a built-in one is made, and who asked for it lets it go; any other is lent.
    pub fn table(
        &self,
        alloc: Global,
        document_type: DocumentType,
    ) -> Result<Cow<'_, Binding>, AllocError>
        ensures { IfOk result (λ table. cow_value table ≡ rows_in self.now document_type) }
    {
        match self {
            Tables::BuiltIn => Ok(Cow::Owned(made(alloc, document_type)?)),
            Tables::Kept(kept) => Ok(Cow::Borrowed(kept.table(document_type))),
        }
    }
}

/// One of the built-in tables.
fn made(alloc: Global, document_type: DocumentType) -> Result<Binding, AllocError>
    ensures { IfOk result (λ table. table ≡ rows_of document_type) }
{
    match document_type {
        DocumentType::Invoice => ubl_binding::invoice(alloc),
        DocumentType::CreditNote => ubl_binding::credit_note(alloc),
        DocumentType::Cii => cii_binding::cii(alloc),
    }
}

/// One of the built-in tables with the rows of terms, if it is well formed with them.
fn made_with(
    alloc: Global,
    document_type: DocumentType,
    terms: &[ExtTerm],
) -> Result<Binding, ExtendFault>
    requires { is_extension terms.now ≡ true }
    ensures rows { IfOk result (λ more. more ≡ rows_for terms.now document_type) }
    ensures formed { IfOk result (λ more. first_fault more ≡ Ok tt) }
    ensures fault { IfErr result (λ fault. fault ≢ faults.Memory → IsBadRow fault (judged_in document_type (rows_for terms.now document_type))) }
{
    let own = made(alloc, document_type)?;
    let more = extended(alloc, document_type, &own, terms);
    drop(own);
    more
}

/// Invoices can be written by each of the three tables: laws of the crates below, which have no code, in one.
pub fn tables_are_laid()
    ensures laid { (document_type : DocumentType) → is_writable (rows_of document_type) ≡ true }
    ensures notes { (document_type : DocumentType) → list_all has_plain_attribute (rows_of document_type) ≡ true }
{
    ubl_binding::invoice_is_writable();
    ubl_binding::credit_note_is_writable();
    cii_binding::cii_is_writable();
}

/// The three tables are well formed: laws of the crates below, which have no code, in one.
fn are_well_formed()
    ensures { (document_type : DocumentType) → first_fault (rows_of document_type) ≡ Ok tt }
{
    ubl_binding::invoice_is_well_formed();
    ubl_binding::credit_note_is_well_formed();
    cii_binding::cii_is_well_formed();
}
