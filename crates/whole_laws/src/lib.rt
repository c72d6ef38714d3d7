//! Laws of what an invoice is written as: its document is whole, so that nothing of it is lost where it is read by the same table,
//! also where users extend that.
#![tactic(auto)]

ghost use Rattle.std.specs.Prelude.{◌≡◌, ℕ, ◌<◌, List, ◌∷◌, [], ◌++◌, All, length, true, Ok, encode_utf8_all};
ghost use Rattle.inv_base.specs.Tree.{document_nodes};
ghost use Rattle.code_lists.specs.CodeFiles.{Lists};
ghost use Rattle.inv_terms.specs.declared.entries.Entry.{Entry};
ghost use Rattle.inv_terms.specs.Listing.{IsInvoice};
ghost use Rattle.inv_terms.specs.Whole.{IsValid};
ghost use Rattle.bind_rows.specs.declared.rows.Row.{Row};
ghost use Rattle.bind_rows.specs.declared.tables.DocumentType.{DocumentType};
ghost use Rattle.bind_table.specs.declared.extending.AddedTerm.{AddedTerm};
ghost use Rattle.bind_table.specs.Extending.{extended};
ghost use Rattle.bind_table.specs.WellFormed.{first_fault};
ghost use Rattle.bind_meaning.specs.declared.tables.Syntax.{Syntax};
ghost use Rattle.bind_meaning.specs.Losses.{lost_nodes};
ghost use Rattle.bind_meaning.specs.Tables.{rows_of};
ghost use Rattle.bind_meaning.specs.Trees.{document_of};
ghost use Rattle.bind_write.specs.Documents.{document_text};
ghost use Rattle.bind_carrying.specs.Carrying.{carrying};
ghost use Rattle.bind_run.specs.Extensions.{rows_for, AreGood};
ghost use Rattle.binding_laws.specs.Covered.{is_settled, holds_plainly};
ghost use Rattle.extension_files.specs.declared.terms.ExtTerm.{ExtTerm};
ghost use Rattle.extension_files.specs.ExtensionFiles.{file_terms};
ghost use Rattle.extension_laws.specs.Joins.{Joins, JoinEach};
ghost use Rattle.extension_laws.specs.Open.{IsOpen};
ghost use Rattle.extension_laws.specs.Texts.{AreOpen, target_rows, tree_by, text_by, IsCarriedIn};
ghost use Rattle.whole_laws.specs.Texts.{AreWhole, IsWholeBy};
ghost use Rattle.whole_laws.specs.Whole.{is_whole};

use carrying_laws::{carried_invoices_meet_each_condition, complete_tables_hold_carried_invoices};
use cii_binding::cii_is_well_formed;
use extension_files::file_terms_are_extensions;
use extension_laws::{good_extensions_are_open, good_extensions_join, tables_are_open};
use inv_decimal::laws::{printed_days_are_read, readings_are_in_range};
use inv_terms::spelled_values_are_read_back;
use ubl_binding::{credit_note_is_well_formed, invoice_is_well_formed};
use written_laws::{
    carried_documents_are_small, roots_tell_their_tables, shown_terms_make_a_document,
    small_documents_are_read_back,
};

/// The three tables are whole.
pub fn tables_are_whole()
    ensures { (table : DocumentType) → is_whole (rows_of table) ≡ true }
{}

/// A table that is whole stays so where a row joins it, and where the rows of terms join it one by one.
pub fn joined_tables_stay_whole()
    ensures row { (rows : List Row) (row : Row) → Joins rows row → is_whole rows ≡ true → is_whole (rows ++ row ∷ []) ≡ true }
    ensures terms { (table : DocumentType) (terms : List AddedTerm) (rows : List Row) → is_whole rows ≡ true → JoinEach table rows terms
        → is_whole (extended table rows terms) ≡ true }
{}

/// Where a well-formed and settled table that is whole holds an invoice, nothing is lost of what it is written as: no element is
/// passed over, and each text and each attribute that isn't blank is said.
pub fn held_invoices_are_whole()
    ensures { (rows : List Row) (es : List Entry) → IsInvoice es → All (λ r. 0 < length r.path) rows → first_fault rows ≡ Ok tt
        → is_settled rows ≡ true → holds_plainly rows es ≡ true → is_whole rows ≡ true
        → lost_nodes (document_nodes (document_of rows es)) rows ≡ [] }
{
    spelled_values_are_read_back();
    printed_days_are_read();
    readings_are_in_range();
}

/// So nothing is lost of what a valid invoice is written as by an open table that is well formed and whole, and carries it.
pub fn open_tables_lose_nothing()
    ensures { (table : DocumentType) (rows : List Row) (es : List Entry) (lists : Lists) → IsOpen table rows → is_whole rows ≡ true
        → first_fault rows ≡ Ok tt
        → IsInvoice es → IsValid es lists → carrying rows es ≡ Ok tt
        → lost_nodes (document_nodes (document_of rows es)) rows ≡ [] }
{
    held_invoices_are_whole();
    complete_tables_hold_carried_invoices();
    carried_invoices_meet_each_condition();
}

/// Of the text that a valid invoice is written as, by three open tables that are well formed and whole, in a table or in a syntax that
/// carries it, nothing is lost, by the table that its root selects.
pub fn written_texts_are_whole()
    ensures table { (tables : DocumentType → List Row) (table : DocumentType) (es : List Entry) (lists : Lists) → AreOpen tables → AreWhole tables
        → IsInvoice es → IsValid es lists → carrying (tables table) es ≡ Ok tt
        → IsWholeBy tables (encode_utf8_all (document_text (tables table) es)) }
    ensures syntax { (tables : DocumentType → List Row) (syntax : Syntax) (es : List Entry) (lists : Lists) → AreOpen tables → AreWhole tables
        → IsInvoice es → IsValid es lists → IsCarriedIn tables syntax es
        → IsWholeBy tables (text_by tables syntax es) }
{
    open_tables_lose_nothing();
    small_documents_are_read_back();
    shown_terms_make_a_document();
    carried_documents_are_small();
    roots_tell_their_tables();
}

/// So nothing is lost by the three tables of what a valid invoice is written as: of its document by a table that carries it, and of its
/// text in a syntax that does.
pub fn tables_lose_nothing()
    ensures document { (table : DocumentType) (es : List Entry) (lists : Lists) → IsInvoice es → IsValid es lists → carrying (rows_of table) es ≡ Ok tt
        → lost_nodes (document_nodes (document_of (rows_of table) es)) (rows_of table) ≡ [] }
    ensures text { (syntax : Syntax) (es : List Entry) (lists : Lists) → IsInvoice es → IsValid es lists → IsCarriedIn rows_of syntax es
        → IsWholeBy rows_of (text_by rows_of syntax es) }
{
    tables_are_whole();
    tables_are_open();
    open_tables_lose_nothing();
    written_texts_are_whole();
    invoice_is_well_formed();
    credit_note_is_well_formed();
    cii_is_well_formed();
}

/// The three tables with the terms of an extension, each of them well formed with these, are whole.
pub fn good_extensions_are_whole()
    ensures { (terms : List ExtTerm) → AreGood terms → AreWhole (rows_for terms) }
{
    tables_are_whole();
    joined_tables_stay_whole();
    good_extensions_join();
}

/// Whatever a user hands in as a file of extension terms: where each of the three tables with them is well formed, nothing is lost by
/// these tables of what a valid invoice is written as in a syntax that carries it, neither of its document nor of its text.
pub fn good_extensions_lose_nothing()
    ensures document { (bytes : List ℕ) (terms : List ExtTerm) (syntax : Syntax) (es : List Entry) (lists : Lists) → file_terms bytes ≡ Ok terms
        → ((table : DocumentType) → first_fault (rows_for terms table) ≡ Ok tt) → IsInvoice es → IsValid es lists → IsCarriedIn (rows_for terms) syntax es
        → lost_nodes (document_nodes (tree_by (rows_for terms) syntax es)) (target_rows (rows_for terms) syntax es) ≡ [] }
    ensures text { (bytes : List ℕ) (terms : List ExtTerm) (syntax : Syntax) (es : List Entry) (lists : Lists) → file_terms bytes ≡ Ok terms
        → ((table : DocumentType) → first_fault (rows_for terms table) ≡ Ok tt) → IsInvoice es → IsValid es lists → IsCarriedIn (rows_for terms) syntax es
        → IsWholeBy (rows_for terms) (text_by (rows_for terms) syntax es) }
{
    file_terms_are_extensions();
    good_extensions_are_open();
    good_extensions_are_whole();
    open_tables_lose_nothing();
    written_texts_are_whole();
}
