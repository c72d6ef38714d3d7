//! Each call does nothing: what it ensures is the law. An invoice is carried where it meets all nine conditions of
//! bind_carrying; the laws ask for those that its entries show alone (`entries_carried`), and not for the limits on sizes.
ghost use Rattle.std.specs.Prelude.{◌≡◌, List, [], Contains, true, false, None, Ok};
ghost use Rattle.inv_base.specs.Tree.{document_nodes};
ghost use Rattle.code_lists.specs.CodeFiles.{Lists};
ghost use Rattle.term_table.specs.SemanticModel.{is_extension};
ghost use Rattle.inv_terms.specs.declared.entries.Entry.{Entry};
ghost use Rattle.inv_terms.specs.Listing.{IsInvoice};
ghost use Rattle.inv_terms.specs.Whole.{IsValid};
ghost use Rattle.bind_rows.specs.declared.rows.Row.{Row};
ghost use Rattle.bind_rows.specs.declared.tables.DocumentType.{DocumentType};
ghost use Rattle.bind_rows.specs.declared.tables.DocumentType.TheVariants as document_type;
ghost use Rattle.bind_meaning.specs.Tables.{rows_of};
ghost use Rattle.bind_meaning.specs.Terms.{Read, terms_of};
ghost use Rattle.bind_meaning.specs.Trees.{document_of};
ghost use Rattle.bind_carrying.specs.Tables.{document_type_of};
ghost use Rattle.bind_carrying.specs.Carrying.{stands_alone, marks_creditor, is_placeholder, is_bad_note, has_bad_code, lacks_means, has_no_currency};
ghost use Rattle.bind_carrying.specs.Carrying.{is_unplaced};
ghost use Rattle.bind_carrying.specs.Carrying.{entries_fail, entries_carried, carrying};
ghost use Rattle.binding_laws.specs.Apart.{holds_none};
ghost use Rattle.binding_laws.specs.Covered.{left_out, holds_plainly};
ghost use Rattle.carrying_laws.specs.Complete.{is_complete};

use binding_laws::{valid_invoices_are_converted_back, valid_invoices_are_read_exactly};

/// Each of the three tables is complete: its rows write each term of the semantic model in each context that it has.
/// None of them leaves a term out.
pub fn tables_are_complete()
    ensures complete { (table : DocumentType) → is_complete (rows_of table) ≡ true }
    ensures left { (table : DocumentType) → left_out (rows_of table) ≡ [] }
{}

/// A complete table, whatever its rows are, holds each valid invoice that meets the conditions of carrying and in which
/// no term stands that the table leaves out: each value is read back, a covered row writes it, and it isn't taken for
/// something else.
pub fn complete_tables_hold_carried_invoices()
    ensures { (rows : List Row) (es : List Entry) (lists : Lists) → IsInvoice es → IsValid es lists → is_complete rows ≡ true
        → entries_carried rows es ≡ Ok tt → holds_none (left_out rows) es ≡ true → holds_plainly rows es ≡ true }
{}

/// Where an invoice meets the conditions of carrying, or is carried, each of those that its entries show holds of each
/// entry, in the order of bind_carrying: the first seven, and the ninth, that its terms are those of the semantic model or
/// have an added row of the table, of their context and type. None of the three tables has such a row.
pub fn carried_invoices_meet_each_condition()
    ensures carried { (rows : List Row) (es : List Entry) → carrying rows es ≡ Ok tt → entries_fail rows es ≡ None }
    ensures entries { (rows : List Row) (es : List Entry) → carrying rows es ≡ Ok tt → entries_carried rows es ≡ Ok tt }
    ensures fails { (rows : List Row) (es : List Entry) → entries_carried rows es ≡ Ok tt → entries_fail rows es ≡ None }
    ensures part { (rows : List Row) (es : List Entry) (e : Entry) → entries_fail rows es ≡ None → Contains es e → stands_alone (document_type_of rows) es e
        ≡ false }
    ensures creditor { (rows : List Row) (es : List Entry) (e : Entry) → entries_fail rows es ≡ None → Contains es e →
        marks_creditor (document_type_of rows) e ≡ false }
    ensures placeholder { (rows : List Row) (es : List Entry) (e : Entry) → entries_fail rows es ≡ None → Contains es e
        → is_placeholder (document_type_of rows) es e ≡ false }
    ensures note { (rows : List Row) (es : List Entry) (e : Entry) → entries_fail rows es ≡ None → Contains es e → is_bad_note (document_type_of rows) es e
        ≡ false }
    ensures code { (rows : List Row) (es : List Entry) (e : Entry) → entries_fail rows es ≡ None → Contains es e → has_bad_code (document_type_of rows) e
        ≡ false }
    ensures means { (rows : List Row) (es : List Entry) (e : Entry) → entries_fail rows es ≡ None → Contains es e → lacks_means (document_type_of rows) es e
        ≡ false }
    ensures currency { (rows : List Row) (es : List Entry) (e : Entry) → entries_fail rows es ≡ None → Contains es e → has_no_currency es e ≡ false }
    ensures placed { (rows : List Row) (es : List Entry) (e : Entry) → entries_carried rows es ≡ Ok tt → Contains es e → is_unplaced rows e ≡ false }
    ensures modelled { (table : DocumentType) (es : List Entry) (e : Entry) → entries_carried (rows_of table) es ≡ Ok tt → Contains es e →
        is_extension e.term ≡ false }
{}

/// In each of the three tables: a valid invoice that meets the conditions of carrying is held.
pub fn carried_invoices_are_held()
    ensures { (table : DocumentType) (es : List Entry) (lists : Lists) → IsInvoice es → IsValid es lists → entries_carried (rows_of table) es ≡ Ok tt
        → holds_plainly (rows_of table) es ≡ true }
{}

/// In each of the three tables: reading the document of such an invoice answers exactly that invoice, with nothing
/// passed over.
pub fn carried_invoices_are_read_exactly()
    ensures { (table : DocumentType) (es : List Entry) (lists : Lists) → IsInvoice es → IsValid es lists → entries_carried (rows_of table) es ≡ Ok tt
        → terms_of (document_nodes (document_of (rows_of table) es)) (rows_of table) lists ≡ Ok (record { entries = es; passed_over = 0 }) }
{
    valid_invoices_are_read_exactly();
}

/// Of each two of the three tables: such an invoice of both, converted to the one syntax, to the other and back, is the
/// first document again, with its terms; no reading finds a fault.
pub fn carried_invoices_are_converted_back()
    ensures { (first second : DocumentType) (es : List Entry) (lists : Lists) → IsInvoice es → IsValid es lists
        → entries_carried (rows_of first) es ≡ Ok tt → entries_carried (rows_of second) es ≡ Ok tt
        → (read : Read) × ((terms_of (document_nodes (document_of (rows_of first) es)) (rows_of first) lists ≡ Ok read)
        × ((again : Read) × ((terms_of (document_nodes (document_of (rows_of second) read.entries)) (rows_of second) lists ≡ Ok again)
        × ((again.entries ≡ es) × (document_of (rows_of first) again.entries ≡ document_of (rows_of first) es))))) }
{
    valid_invoices_are_converted_back();
}

/// Some invoice meets all that these laws ask of one, in UBL and in CII.
pub fn some_invoice_is_carried()
    ensures { (es : List Entry) × ((lists : Lists) × (IsInvoice es × (IsValid es lists
        × ((carrying (rows_of document_type.Invoice) es ≡ Ok tt) × (carrying (rows_of document_type.Cii) es ≡ Ok tt))))) }
{}
