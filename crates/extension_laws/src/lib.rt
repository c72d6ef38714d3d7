//! Laws of tables that users extend: a row that joins a table changes nothing for its other rows, so that a table which is
//! open stays so; and by open tables what is written is read and converted back.
#![tactic(auto)]

ghost use Rattle.std.specs.Prelude.{◌≡◌, ℕ, suc, ◌<◌, ◌≤◌, List, ◌∷◌, [], ◌++◌, All, length, true, Ok, Some, encode_utf8_all, option_and_then};
ghost use Rattle.std.specs.List.{list_all};
ghost use Rattle.inv_base.specs.Tree.{document_nodes};
ghost use Rattle.code_lists.specs.CodeFiles.{Lists};
ghost use Rattle.inv_terms.specs.declared.entries.Entry.{Entry};
ghost use Rattle.inv_terms.specs.Listing.{IsInvoice};
ghost use Rattle.inv_terms.specs.Whole.{IsValid};
ghost use Rattle.bind_rows.specs.declared.rows.Row.{Row};
ghost use Rattle.bind_rows.specs.declared.tables.DocumentType.{DocumentType};
ghost use Rattle.bind_table.specs.declared.extending.AddedTerm.{AddedTerm};
ghost use Rattle.bind_table.specs.Extending.{extended};
ghost use Rattle.bind_table.specs.Lines.{plan_of};
ghost use Rattle.bind_rows.specs.Added.{is_added};
ghost use Rattle.bind_table.specs.Crossings.{part_by_name};
ghost use Rattle.bind_table.specs.WellFormed.{first_fault, is_rooted, carries_only};
ghost use Rattle.bind_meaning.specs.declared.tables.Syntax.{Syntax};
ghost use Rattle.bind_meaning.specs.Tables.{rows_of};
ghost use Rattle.bind_meaning.specs.Terms.{terms_of};
ghost use Rattle.bind_meaning.specs.Trees.{document_of, is_at_element};
ghost use Rattle.bind_write.specs.Documents.{document_text};
ghost use Rattle.bind_carrying.specs.Carrying.{carrying};
ghost use Rattle.bind_carrying.specs.Tables.{document_type_of};
ghost use Rattle.binding_laws.specs.Apart.{Known, is_apart};
ghost use Rattle.binding_laws.specs.Covered.{unjoined_terms, unpaired_terms, left_out};
ghost use Rattle.binding_laws.specs.Faultless.{is_faultless};
ghost use Rattle.binding_laws.specs.Plain.{rows_at};
ghost use Rattle.carrying_laws.specs.Complete.{is_complete};
ghost use Rattle.written_laws.specs.Texts.{exactly};
ghost use Rattle.extension_laws.specs.Joins.{Joins, JoinEach};
ghost use Rattle.extension_laws.specs.Open.{IsOpen, HasRoom, are_covered};
ghost use Rattle.written_laws.specs.Readable.{reading_limits};
ghost use Rattle.xml_profile.specs.Profile.{IsXml};
ghost use Rattle.extension_laws.specs.Texts.{AreOpen, AreReadBy, tree_by, text_by, IsCarriedIn, conversion_by};

mod extensions;

use bind_run::tables_are_laid;
use binding_laws::{invoices_of_covered_rows_are_read_back, tables_leave_terms_out};
use carrying_laws::{
    carried_invoices_meet_each_condition, complete_tables_hold_carried_invoices,
    tables_are_complete,
};
pub use extensions::{
    extended_tables_are_laid, extensions_have_room, fault_of_an_extension,
    good_extensions_are_open, good_extensions_join, good_extensions_keep_the_round_trip,
};
use written_laws::{
    carried_documents_are_small, roots_tell_their_tables, shown_terms_make_a_document,
    small_documents_are_read_back, small_texts_are_documents, tables_are_readable,
};

/// A row that joins a table stands apart in it, whatever is known of an invoice, and is the only one at its element.
pub fn joined_rows_stand_apart()
    ensures apart { (rows : List Row) (row : Row) (known : Known) → Joins rows row → All (λ r. 0 < length r.path) rows
        → is_apart known (plan_of (rows ++ row ∷ [])) row.path ≡ true }
    ensures alone { (rows : List Row) (row : Row) → Joins rows row → All (λ r. 0 < length r.path) rows
        → rows_at is_at_element (plan_of (rows ++ row ∷ [])) row.path ≡ row ∷ [] }
{}

/// Where a row joins a table whose rows are covered, whose placeholders are told from values and whose VAT totals are told
/// apart, all of this is so of the table with it.
pub fn joined_tables_stay_covered()
    ensures covered { (rows : List Row) (row : Row) → Joins rows row → All (λ r. 0 < length r.path) rows
        → unpaired_terms (plan_of rows) rows ≡ [] → are_covered rows ≡ true → are_covered (rows ++ row ∷ []) ≡ true }
    ensures joined { (rows : List Row) (row : Row) → Joins rows row → All (λ r. 0 < length r.path) rows
        → unjoined_terms (plan_of rows) rows ≡ [] → unjoined_terms (plan_of (rows ++ row ∷ [])) (rows ++ row ∷ []) ≡ [] }
    ensures paired { (rows : List Row) (row : Row) → Joins rows row → All (λ r. 0 < length r.path) rows
        → unpaired_terms (plan_of rows) rows ≡ [] → unpaired_terms (plan_of (rows ++ row ∷ [])) (rows ++ row ∷ []) ≡ [] }
{}

/// Where a row joins a table in whose documents reading finds no fault, it finds none in those of the table with it.
pub fn joined_tables_stay_faultless()
    ensures { (rows : List Row) (row : Row) → Joins rows row → All (λ r. 0 < length r.path) rows → is_faultless rows ≡ true
        → is_faultless (rows ++ row ∷ []) ≡ true }
{}

/// Where a row joins a complete table that leaves no term out, the table with it is complete, if it leaves none out either.
pub fn joined_tables_stay_complete()
    ensures { (rows : List Row) (row : Row) → Joins rows row → All (λ r. 0 < length r.path) rows → unpaired_terms (plan_of rows) rows ≡ []
        → left_out rows ≡ [] → left_out (rows ++ row ∷ []) ≡ [] → document_type_of (rows ++ row ∷ []) ≡ document_type_of rows
        → is_complete rows ≡ true → is_complete (rows ++ row ∷ []) ≡ true }
{}

/// So an open table stays open where a row joins it, and where the rows of terms join it one by one.
pub fn joined_tables_stay_open()
    ensures open_table { (table : DocumentType) (rows : List Row) (row : Row) (n : ℕ) → IsOpen table rows → HasRoom (suc n) rows → Joins rows row
        → IsOpen table (rows ++ row ∷ []) }
    ensures room { (table : DocumentType) (rows : List Row) (row : Row) (n : ℕ) → IsOpen table rows → HasRoom (suc n) rows → Joins rows row
        → HasRoom n (rows ++ row ∷ []) }
    ensures extended_table { (table : DocumentType) (terms : List AddedTerm) (rows : List Row) → IsOpen table rows → HasRoom (length terms) rows →
        JoinEach table rows terms
        → IsOpen table (extended table rows terms) }
{}

/// The three tables are open, and there is room for the names of 99 rows more.
pub fn tables_are_open()
    ensures open_table { (table : DocumentType) → IsOpen table (rows_of table) }
    ensures room { (table : DocumentType) → HasRoom 99 (rows_of table) }
{
    tables_leave_terms_out();
    tables_are_complete();
    tables_are_readable();
    roots_tell_their_tables();
    tables_are_laid();
}

/// So each of the three tables stays open where it is extended by the terms of a user, 99 at most, whose rows join it one by
/// one.
pub fn extended_tables_are_open()
    ensures { (table : DocumentType) (terms : List AddedTerm) → length terms ≤ 99 → JoinEach table (rows_of table) terms
        → IsOpen table (extended table (rows_of table) terms) }
{
    tables_are_open();
    joined_tables_stay_open();
}

/// In a well-formed table a row that a user added leaves the path of each row before it by a name, goes through the element
/// of its context's group and of no other, and begins with the root of the others.
pub fn good_rows_join()
    ensures parts { (rows back : List Row) (row : Row) → first_fault (rows ++ row ∷ back) ≡ Ok tt → is_added row ≡ true
        → list_all (λ (other : Row). part_by_name row.path other.path) rows ≡ true }
    ensures through { (rows back : List Row) (row : Row) → first_fault (rows ++ row ∷ back) ≡ Ok tt → is_added row ≡ true
        → carries_only row.outer row.path ≡ true }
    ensures rooted { (first : Row) (rows back : List Row) (row : Row) → first_fault ((first ∷ rows) ++ row ∷ back) ≡ Ok tt
        → is_rooted (first ∷ rows) row ≡ true }
{}

/// By an open table that is well formed the document of a valid invoice which it carries is read as exactly that invoice.
pub fn open_tables_read_exactly()
    ensures { (table : DocumentType) (rows : List Row) (es : List Entry) (lists : Lists) → IsOpen table rows → first_fault rows ≡ Ok tt
        → IsInvoice es → IsValid es lists → carrying rows es ≡ Ok tt
        → terms_of (document_nodes (document_of rows es)) rows lists ≡ Ok (exactly es) }
{
    invoices_of_covered_rows_are_read_back();
    complete_tables_hold_carried_invoices();
    carried_invoices_meet_each_condition();
}

/// The round trip, by three open tables that are well formed: what a valid invoice is written as by one of them, or in a
/// syntax, that carries it is read as exactly that invoice, with nothing passed over.
pub fn round_trip()
    ensures table { (tables : DocumentType → List Row) (table : DocumentType) (es : List Entry) (lists : Lists) → AreOpen tables → IsInvoice es
        → IsValid es lists
        → carrying (tables table) es ≡ Ok tt
        → AreReadBy tables (encode_utf8_all (document_text (tables table) es)) lists (exactly es) }
    ensures syntax { (tables : DocumentType → List Row) (syntax : Syntax) (es : List Entry) (lists : Lists) → AreOpen tables → IsInvoice es → IsValid es lists
        → IsCarriedIn tables syntax es → AreReadBy tables (text_by tables syntax es) lists (exactly es) }
{
    invoices_of_covered_rows_are_read_back();
    complete_tables_hold_carried_invoices();
    carried_invoices_meet_each_condition();
    small_documents_are_read_back();
    shown_terms_make_a_document();
    carried_documents_are_small();
    roots_tell_their_tables();
}

/// What a valid invoice is written as, by three such tables, in a syntax that carries it, is XML of exactly the tree of its
/// document.
pub fn texts_are_documents()
    ensures { (tables : DocumentType → List Row) (syntax : Syntax) (es : List Entry) (lists : Lists) → AreOpen tables → IsInvoice es → IsValid es lists
        → IsCarriedIn tables syntax es → IsXml reading_limits (text_by tables syntax es) (tree_by tables syntax es) }
{
    small_texts_are_documents();
    shown_terms_make_a_document();
    carried_documents_are_small();
}

/// The second conversion, by three such tables: where both syntaxes carry a valid invoice, its text in the one is converted
/// to its text in the other, and that, converted back, is the first text again, byte for byte.
pub fn second_conversion()
    ensures there { (tables : DocumentType → List Row) (first second : Syntax) (es : List Entry) (lists : Lists) → AreOpen tables → IsInvoice es
        → IsValid es lists
        → IsCarriedIn tables first es → IsCarriedIn tables second es
        → conversion_by tables second lists (text_by tables first es) ≡ Some (text_by tables second es) }
    ensures back { (tables : DocumentType → List Row) (first second : Syntax) (es : List Entry) (lists : Lists) → AreOpen tables → IsInvoice es
        → IsValid es lists
        → IsCarriedIn tables first es → IsCarriedIn tables second es
        → option_and_then (conversion_by tables first lists) (conversion_by tables second lists (text_by tables first es)) ≡ Some (text_by tables first es) }
{
    round_trip();
}
