ghost use Rattle.std.specs.Prelude.{◌≡◌, ℕ, List, All, length, true, Ok, Err};
ghost use Rattle.std.specs.List.{list_all};
ghost use Rattle.code_lists.specs.CodeFiles.{Lists};
ghost use Rattle.inv_terms.specs.declared.entries.Entry.{Entry};
ghost use Rattle.inv_terms.specs.Listing.{IsInvoice};
ghost use Rattle.inv_terms.specs.Whole.{IsValid};
ghost use Rattle.bind_rows.specs.declared.tables.DocumentType.{DocumentType};
ghost use Rattle.extension_files.specs.declared.terms.ExtTerm.{ExtTerm};
ghost use Rattle.extension_files.specs.ExtensionFiles.{file_terms};
ghost use Rattle.extension_files.specs.Extensions.{is_extension};
ghost use Rattle.bind_table.specs.declared.judging.TableFault.{TableFault};
ghost use Rattle.bind_table.specs.Laid.{is_writable};
ghost use Rattle.bind_table.specs.Limits.{HasSteps, HasSmallNumbers, HasRooms};
ghost use Rattle.bind_table.specs.WellFormed.{first_fault};
ghost use Rattle.bind_meaning.specs.declared.tables.Syntax.{Syntax};
ghost use Rattle.bind_meaning.specs.Tables.{rows_of};
ghost use Rattle.bind_write.specs.Sources.{has_plain_attribute};
ghost use Rattle.bind_run.specs.Extensions.{terms_for, rows_for, AreGood};
ghost use Rattle.written_laws.specs.Texts.{exactly};
ghost use Rattle.extension_laws.specs.Faulty.{IsOfTerm};
ghost use Rattle.extension_laws.specs.Joins.{JoinEach};
ghost use Rattle.extension_laws.specs.Texts.{AreOpen, AreReadBy, text_by, IsCarriedIn};

use crate::{extended_tables_are_open, round_trip};
use cii_binding::cii_is_well_formed;
use extension_files::file_terms_are_extensions;
use ubl_binding::{credit_note_is_well_formed, invoice_is_well_formed};

/// The terms of each extension have room behind the rows of each of the three tables.
pub fn extensions_have_room()
    ensures rooms { (table : DocumentType) (terms : List ExtTerm) → is_extension terms ≡ true → HasRooms table (rows_of table) (terms_for table terms) }
    ensures steps { (table : DocumentType) → All HasSteps (rows_of table) }
    ensures numbers { (table : DocumentType) → All HasSmallNumbers (rows_of table) }
{}

/// Where one of the three tables with the terms of an extension is well formed, the row of each of them joins the rows before
/// it.
pub fn good_extensions_join()
    ensures { (table : DocumentType) (terms : List ExtTerm) → is_extension terms ≡ true → first_fault (rows_for terms table) ≡ Ok tt
        → JoinEach table (rows_of table) (terms_for table terms) }
{}

/// So where the three tables with the terms of an extension are well formed, they are open.
pub fn good_extensions_are_open()
    ensures { (terms : List ExtTerm) → AreGood terms → AreOpen (rows_for terms) }
{
    good_extensions_join();
    extended_tables_are_open();
}

/// So an invoice may be written by each of them.
pub fn extended_tables_are_laid()
    ensures laid { (terms : List ExtTerm) (table : DocumentType) → AreGood terms → is_writable (rows_for terms table) ≡ true }
    ensures notes { (terms : List ExtTerm) (table : DocumentType) → AreGood terms → list_all has_plain_attribute (rows_for terms table) ≡ true }
{
    good_extensions_are_open();
}

/// Whatever a user hands in as a file of extension terms: where each of the three tables with them is well formed, what a valid
/// invoice is written as in a syntax that carries it is read by these tables as exactly that invoice, with nothing passed over.
pub fn good_extensions_keep_the_round_trip()
    ensures { (bytes : List ℕ) (terms : List ExtTerm) (syntax : Syntax) (es : List Entry) (lists : Lists) → file_terms bytes ≡ Ok terms
        → ((table : DocumentType) → first_fault (rows_for terms table) ≡ Ok tt) → IsInvoice es → IsValid es lists → IsCarriedIn (rows_for terms) syntax es
        → AreReadBy (rows_for terms) (text_by (rows_for terms) syntax es) lists (exactly es) }
{
    file_terms_are_extensions();
    good_extensions_are_open();
    round_trip();
}

/// Where one of them isn't well formed, its fault is at a row that stands behind its own and has one of the extension's terms.
pub fn fault_of_an_extension()
    ensures { (table : DocumentType) (terms : List ExtTerm) (fault : TableFault) → is_extension terms ≡ true → first_fault (rows_for terms table) ≡ Err fault
        → IsOfTerm (length (rows_of table)) (rows_for terms table) fault }
{
    invoice_is_well_formed();
    credit_note_is_well_formed();
    cii_is_well_formed();
}
