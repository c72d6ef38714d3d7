//! Each call does nothing: what it ensures is the law. Where a law speaks of an invoice whose values covered rows write, it
//! asks of one with a VAT total in accounting currency too that its two currencies stand in it and differ.
ghost use Rattle.std.specs.Prelude.{codes, ◌≡◌, not, ◌&&◌, ◌||◌, ◌<◌, ℕ, List, [], ◌∷◌, All, Contains, length, true, false, Some, Ok, filter, flat_map, map};
ghost use Rattle.std.specs.Prelude.{slice_get};
ghost use Rattle.inv_base.specs.Tree.{document_nodes};
ghost use Rattle.term_table.specs.declared.terms.Term.{Term};
ghost use Rattle.term_table.specs.SemanticModel.{same_term, is_extension};
ghost use Rattle.inv_terms.specs.declared.entries.Entry.{Entry};
ghost use Rattle.inv_terms.specs.Listing.{IsInvoice};
ghost use Rattle.code_lists.specs.CodeFiles.{Lists};
ghost use Rattle.inv_terms.specs.Whole.{IsValid};
ghost use Rattle.bind_rows.specs.declared.names.Leaf.TheVariants as leaves;
ghost use Rattle.bind_rows.specs.declared.rows.Row.{Row};
ghost use Rattle.bind_rows.specs.declared.rows.Written.TheVariants as rules;
ghost use Rattle.bind_rows.specs.Added.{is_typed};
ghost use Rattle.std.specs.List.{list_all};
ghost use Rattle.std.specs.Str.{bytes_eq};
ghost use Rattle.bind_meaning.specs.Values.{parsed, form_for};
ghost use Rattle.bind_meaning.specs.Elements.{string_at, is_full, has_element_inside};
ghost use Rattle.bind_meaning.specs.Picks.{has_term, nodes_picked};
ghost use Rattle.bind_table.specs.WellFormed.{first_fault};
ghost use Rattle.bind_meaning.specs.Currencies.{Currencies, currencies};
ghost use Rattle.bind_meaning.specs.Seats.{Placed, context_of};
ghost use Rattle.bind_meaning.specs.Judging.{Told, parsed_by, is_of_seat};
ghost use Rattle.bind_meaning.specs.Terms.{passed_over, term_picks, place_all, told, entries, Read, terms_of};
ghost use Rattle.bind_rows.specs.declared.tables.DocumentType.{DocumentType};
ghost use Rattle.bind_meaning.specs.Tables.{rows_of};
ghost use Rattle.bind_meaning.specs.Trees.{document_of};
ghost use Rattle.bind_meaning.specs.Writing.{formed};
ghost use Rattle.binding_laws.specs.Apart.{Unlike, Together, unknown, holds_none, stands_apart_without, stands_apart};
ghost use Rattle.binding_laws.specs.Known.{known_of};
ghost use Rattle.binding_laws.specs.Covered.{code_terms, count_covered, is_settled, holds_plainly, are_own_currencies, left_out_terms};
ghost use Rattle.binding_laws.specs.Faultless.{is_faultless};
ghost use Rattle.binding_laws.specs.Plain.{IsPlain, stands_there, IsPlainAttribute, is_written_by, is_plain, is_plain_attribute, count_terms, count_plain};
ghost use Rattle.binding_laws.specs.Plain.{count_attributes};
ghost use Rattle.ubl_binding.specs.Tables.{invoice_rows, credit_note_rows};
ghost use Rattle.cii_binding.specs.Table.{cii_rows};
ghost use Rattle.binding_laws.specs.Written.{written_at, values_named};

use cii_binding::cii_is_well_formed;
use inv_decimal::laws::{printed_days_are_read, readings_are_in_range};
use inv_terms::spelled_values_are_read_back;
use ubl_binding::{credit_note_is_well_formed, invoice_is_well_formed};

/// In the document that an invoice is written as, no element is passed over, whatever the table and the entries are: each
/// is on the way of a row.
pub fn nothing_is_passed_over()
    ensures { (rows : List Row) (es : List Entry) → passed_over (document_nodes (document_of rows es)) rows ≡ 0 }
{}

/// In the document that an invoice is written as, a row whose path stands apart in the table picks the strings that are
/// written there, in their order, and no others: the texts of the elements that aren't blank, or, of these elements, the
/// values of its attribute that aren't blank. Nothing that it picks has an element inside. The table may have any other
/// rows. A path stands apart also where guards tell its elements from others of their names.
pub fn rows_apart_pick_what_is_written()
    ensures elements { (rows : List Row) (es : List Entry) (k : ℕ) (row : Row) → row.leaf ≡ leaves.Element → stands_apart rows row.path ≡ true
        → map (λ pick. string_at (document_nodes (document_of rows es)) pick.node) (nodes_picked (document_nodes (document_of rows es)) k row)
        ≡ filter is_full (map (λ spot. spot.text) (written_at rows es row.path)) }
    ensures attributes { (rows : List Row) (es : List Entry) (k : ℕ) (row : Row) (local : List ℕ) → row.leaf ≡ leaves.Attribute local →
        stands_apart rows row.path ≡ true
        → map (λ pick. string_at (document_nodes (document_of rows es)) pick.node) (nodes_picked (document_nodes (document_of rows es)) k row)
        ≡ flat_map (λ spot. filter is_full (values_named local spot.attributes)) (filter (λ spot. is_full spot.text) (written_at rows es row.path)) }
    ensures inside { (rows : List Row) (es : List Entry) (k : ℕ) (row : Row) → stands_apart rows row.path ≡ true
        → filter (has_element_inside (document_nodes (document_of rows es)))
        (map (λ pick. pick.node) (nodes_picked (document_nodes (document_of rows es)) k row)) ≡ [] }
{}

/// The same of an invoice in which none of some terms stands, for a row whose path stands apart from the lines that are
/// written of it: a line whose rows have these terms alone is none of them. So, where the VAT total in accounting currency
/// (BT-111) doesn't stand, the rows of the VAT total (BT-110) pick what is written at their lines: both have one name.
pub fn rows_apart_without_terms_pick_what_is_written()
    ensures elements { (gone : List Term) (rows : List Row) (es : List Entry) (k : ℕ) (row : Row) → holds_none gone es ≡ true → row.leaf ≡ leaves.Element →
        stands_apart_without gone rows row.path ≡ true
        → map (λ pick. string_at (document_nodes (document_of rows es)) pick.node) (nodes_picked (document_nodes (document_of rows es)) k row)
        ≡ filter is_full (map (λ spot. spot.text) (written_at rows es row.path)) }
    ensures attributes { (gone : List Term) (rows : List Row) (es : List Entry) (k : ℕ) (row : Row) (local : List ℕ) → holds_none gone es ≡ true →
        row.leaf ≡ leaves.Attribute local → stands_apart_without gone rows row.path ≡ true
        → map (λ pick. string_at (document_nodes (document_of rows es)) pick.node) (nodes_picked (document_nodes (document_of rows es)) k row)
        ≡ flat_map (λ spot. filter is_full (values_named local spot.attributes)) (filter (λ spot. is_full spot.text) (written_at rows es row.path)) }
    ensures inside { (gone : List Term) (rows : List Row) (es : List Entry) (k : ℕ) (row : Row) → holds_none gone es ≡ true →
        stands_apart_without gone rows row.path ≡ true
        → filter (has_element_inside (document_nodes (document_of rows es)))
        (map (λ pick. pick.node) (nodes_picked (document_nodes (document_of rows es)) k row)) ≡ [] }
    ensures totals { (table : DocumentType) → list_all (λ row. not (has_term (record { number = 110; part = 0 }) row) ||
        stands_apart_without (record { number = 111; part = 0 } ∷ []) (rows_of table) row.path) (rows_of table) ≡ true }
{}

/// In the document that an invoice is written as, a plain row of a term picks exactly the values of that term that it
/// writes, in the row's form, each once and in listing order; and each string that it picks says that value of that term,
/// if it is one of the semantic model, whose types the forms of rows go by, or the form has a type itself, as that of a row
/// which a user added.
/// A row that is always written, of a term that stands in no other context, picks all values of its term. The table may
/// have any other rows.
pub fn plain_rows_pick_the_values_of_their_terms()
    ensures strings { (rows : List Row) (es : List Entry) (k : ℕ) (row : Row) (term : Term) → IsInvoice es → IsPlain rows row term
        → map (λ pick. string_at (document_nodes (document_of rows es)) pick.node) (nodes_picked (document_nodes (document_of rows es)) k row)
        ≡ map (λ e. formed (form_for row.form term) es e.context e.value) (filter (λ e. same_term e.term term && is_written_by row term es e.context) es) }
    ensures says { (rows : List Row) (es : List Entry) (k : ℕ) (row : Row) (term : Term) → IsInvoice es → IsPlain rows row term
        → (is_extension term && not (is_typed (form_for row.form term))) ≡ false
        → map (λ pick. parsed row.form term (string_at (document_nodes (document_of rows es)) pick.node))
        (nodes_picked (document_nodes (document_of rows es)) k row)
        ≡ map (λ e. record { term = term; value = Some e.value } ∷ []) (filter (λ e. same_term e.term term && is_written_by row term es e.context) es) }
    ensures always { (rows : List Row) (es : List Entry) (row : Row) (term : Term) → IsInvoice es → IsPlain rows row term → row.written ≡ rules.Always →
        stands_there term row.outer row.inner ≡ true
        → filter (λ e. same_term e.term term && is_written_by row term es e.context) es ≡ filter (λ e. same_term e.term term) es }
{
    spelled_values_are_read_back();
    printed_days_are_read();
    readings_are_in_range();
}

/// In the document that an invoice is written as, a plain row of a term at an attribute picks exactly the values of that
/// term beside which the main term is written, the one in the element itself. Where no part stands without its main term,
/// and that one is always written, these are all values of the term.
pub fn plain_attributes_pick_the_values_beside_their_main_terms()
    ensures { (rows : List Row) (es : List Entry) (k : ℕ) (row : Row) (term : Term) (main : Row) (main_term : Term) → IsInvoice es
        → IsPlainAttribute rows row term main main_term
        → map (λ pick. string_at (document_nodes (document_of rows es)) pick.node) (nodes_picked (document_nodes (document_of rows es)) k row)
        ≡ map (λ e. formed (form_for row.form term) es e.context e.value)
        (filter (λ e. same_term e.term term && is_written_by main main_term es e.context) es) }
{
    spelled_values_are_read_back();
    printed_days_are_read();
    readings_are_in_range();
}

/// Which rows of a table are plain is computed by tests.
pub fn plain_rows_are_computed()
    ensures elements { (rows : List Row) (j : ℕ) (row : Row) (term : Term) → All (λ r. 0 < length r.path) rows → slice_get rows j ≡ Some row
        → is_plain rows row term ≡ true → IsPlain rows row term }
    ensures attributes { (rows : List Row) (i j : ℕ) (row : Row) (term : Term) (main : Row) (main_term : Term) → All (λ r. 0 < length r.path) rows
        → slice_get rows i ≡ Some row → slice_get rows j ≡ Some main → is_plain_attribute rows row term main main_term ≡ true
        → IsPlainAttribute rows row term main main_term }
{}

/// How many rows the three tables have with a term, how many of these are plain, and how many are plain at an attribute.
pub fn tables_have_plain_rows()
    ensures invoice { (count_terms invoice_rows ≡ 181) × (count_plain invoice_rows ≡ 147) × (count_attributes invoice_rows ≡ 16) }
    ensures credit_note { (count_terms credit_note_rows ≡ 181) × (count_plain credit_note_rows ≡ 146) × (count_attributes credit_note_rows ≡ 16) }
    ensures cii { (count_terms cii_rows ≡ 185) × (count_plain cii_rows ≡ 160) × (count_attributes cii_rows ≡ 16) }
{}

/// Where covered rows write all values of an invoice, and it holds no term that is left out, what the rows of a well-formed
/// table pick in its document tells exactly its entries, each where it stands: occurrences are numbered as reading numbers
/// them. A pick may tell two, a note and the subject code in front of it. Where no such code stands, each pick says the
/// value of one entry, and each entry is said by a pick. No pick has an element inside, and what is told of one term in one
/// context agrees. All this holds for any two currencies the first of which is that of the invoice or isn't named, as are
/// those that are read of the document; where a VAT total in accounting currency stands in the invoice, both of them are to
/// be those of the invoice, as these are too.
pub fn picks_say_the_entries_where_they_stand()
    ensures currency { (rows : List Row) (es : List Entry) → IsInvoice es → All (λ r. 0 < length r.path) rows → first_fault rows ≡ Ok tt →
        is_settled rows ≡ true → holds_plainly rows es ≡ true
        → are_own_currencies rows es (currencies (document_nodes (document_of rows es)) rows) ≡ true }
    ensures parsed { (rows : List Row) (es : List Entry) (c : Currencies) (p : Placed) → IsInvoice es → All (λ r. 0 < length r.path) rows →
        first_fault rows ≡ Ok tt
        → is_settled rows ≡ true → holds_plainly rows es ≡ true → are_own_currencies rows es c ≡ true → holds_none (code_terms rows) es ≡ true
        → Contains (place_all (document_nodes (document_of rows es)) (term_picks (document_nodes (document_of rows es)) c rows)) p
        → (e : Entry) × (Contains es e × ((parsed_by (document_nodes (document_of rows es)) p ≡ record { term = e.term; value = Some e.value } ∷ []) ×
        (context_of p ≡ e.context))) }
    ensures all { (rows : List Row) (es : List Entry) (c : Currencies) (e : Entry) → IsInvoice es → All (λ r. 0 < length r.path) rows → first_fault rows ≡ Ok tt
        → is_settled rows ≡ true → holds_plainly rows es ≡ true → are_own_currencies rows es c ≡ true → holds_none (code_terms rows) es ≡ true → Contains es e
        → (p : Placed) × (Contains (place_all (document_nodes (document_of rows es)) (term_picks (document_nodes (document_of rows es)) c rows)) p
        × ((parsed_by (document_nodes (document_of rows es)) p ≡ record { term = e.term; value = Some e.value } ∷ []) × (context_of p ≡ e.context))) }
    ensures told { (rows : List Row) (es : List Entry) (c : Currencies) (t : Told) → IsInvoice es → All (λ r. 0 < length r.path) rows → first_fault rows ≡ Ok tt
        → is_settled rows ≡ true → holds_plainly rows es ≡ true → are_own_currencies rows es c ≡ true
        → Contains (told (document_nodes (document_of rows es))
        (place_all (document_nodes (document_of rows es)) (term_picks (document_nodes (document_of rows es)) c rows))) t
        → (e : Entry) × (Contains es e × ((t.parsed ≡ record { term = e.term; value = Some e.value }) × (context_of t.placed ≡ e.context))) }
    ensures all_told { (rows : List Row) (es : List Entry) (c : Currencies) (e : Entry) → IsInvoice es → All (λ r. 0 < length r.path) rows →
        first_fault rows ≡ Ok tt
        → is_settled rows ≡ true → holds_plainly rows es ≡ true → are_own_currencies rows es c ≡ true → Contains es e
        → (t : Told) × (Contains (told (document_nodes (document_of rows es))
        (place_all (document_nodes (document_of rows es)) (term_picks (document_nodes (document_of rows es)) c rows))) t
        × ((t.parsed ≡ record { term = e.term; value = Some e.value }) × (context_of t.placed ≡ e.context))) }
    ensures inside { (rows : List Row) (es : List Entry) (c : Currencies) (p : Placed) → IsInvoice es → All (λ r. 0 < length r.path) rows →
        first_fault rows ≡ Ok tt
        → is_settled rows ≡ true → holds_plainly rows es ≡ true → are_own_currencies rows es c ≡ true
        → Contains (place_all (document_nodes (document_of rows es)) (term_picks (document_nodes (document_of rows es)) c rows)) p
        → has_element_inside (document_nodes (document_of rows es)) p.pick.node ≡ false }
    ensures agree { (rows : List Row) (es : List Entry) (c : Currencies) (a b : Told) → IsInvoice es → All (λ r. 0 < length r.path) rows →
        first_fault rows ≡ Ok tt
        → is_settled rows ≡ true → holds_plainly rows es ≡ true → are_own_currencies rows es c ≡ true
        → Contains (told (document_nodes (document_of rows es))
        (place_all (document_nodes (document_of rows es)) (term_picks (document_nodes (document_of rows es)) c rows))) a
        → Contains (told (document_nodes (document_of rows es))
        (place_all (document_nodes (document_of rows es)) (term_picks (document_nodes (document_of rows es)) c rows))) b
        → is_of_seat a b ≡ true → a.parsed ≡ b.parsed }
{
    spelled_values_are_read_back();
    printed_days_are_read();
    readings_are_in_range();
}

/// Where covered rows write all values of an invoice, and it holds no term that is left out, the entries that are read of its
/// document are those of the invoice. So, whatever the code lists are, reading it answers that invoice, with nothing passed
/// over, or a fault. Where the invoice is valid and the table faultless, reading finds no fault: it answers exactly that
/// invoice, with nothing passed over.
pub fn invoices_of_covered_rows_are_read_back()
    ensures entries { (rows : List Row) (es : List Entry) (c : Currencies) → IsInvoice es → All (λ r. 0 < length r.path) rows → first_fault rows ≡ Ok tt
        → is_settled rows ≡ true → holds_plainly rows es ≡ true → are_own_currencies rows es c ≡ true
        → entries (told (document_nodes (document_of rows es))
        (place_all (document_nodes (document_of rows es)) (term_picks (document_nodes (document_of rows es)) c rows))) ≡ es }
    ensures answer { (rows : List Row) (es : List Entry) (lists : Lists) (read : Read) → IsInvoice es → All (λ r. 0 < length r.path) rows →
        first_fault rows ≡ Ok tt
        → is_settled rows ≡ true → holds_plainly rows es ≡ true
        → terms_of (document_nodes (document_of rows es)) rows lists ≡ Ok read → (read.entries ≡ es) × (read.passed_over ≡ 0) }
    ensures exactly { (rows : List Row) (es : List Entry) (lists : Lists) → IsInvoice es → IsValid es lists → All (λ r. 0 < length r.path) rows →
        first_fault rows ≡ Ok tt
        → is_settled rows ≡ true → is_faultless rows ≡ true → holds_plainly rows es ≡ true
        → terms_of (document_nodes (document_of rows es)) rows lists ≡ Ok (record { entries = es; passed_over = 0 }) }
{
    spelled_values_are_read_back();
    printed_days_are_read();
    readings_are_in_range();
}

/// Where covered rows of two tables write all values of an invoice, and it holds no term that is left out of either,
/// converting it to the one syntax, what is read of that to the other, and what is read of this back to the first, gives
/// the first document again, and its terms, unless a reading finds a fault. Where the invoice is valid and both tables are
/// faultless, no reading finds one.
pub fn invoices_of_covered_rows_are_converted_back()
    ensures read { (first second : List Row) (es : List Entry) (lists : Lists) (read again : Read) → IsInvoice es
        → All (λ r. 0 < length r.path) first → first_fault first ≡ Ok tt → is_settled first ≡ true → holds_plainly first es ≡ true
        → All (λ r. 0 < length r.path) second → first_fault second ≡ Ok tt → is_settled second ≡ true → holds_plainly second es ≡ true
        → terms_of (document_nodes (document_of first es)) first lists ≡ Ok read
        → terms_of (document_nodes (document_of second read.entries)) second lists ≡ Ok again
        → (again.entries ≡ es) × (document_of first again.entries ≡ document_of first es) }
    ensures exactly { (first second : List Row) (es : List Entry) (lists : Lists) → IsInvoice es → IsValid es lists
        → All (λ r. 0 < length r.path) first → first_fault first ≡ Ok tt → is_settled first ≡ true → is_faultless first ≡ true → holds_plainly first es ≡ true
        → All (λ r. 0 < length r.path) second → first_fault second ≡ Ok tt → is_settled second ≡ true → is_faultless second ≡ true →
        holds_plainly second es ≡ true
        → (read : Read) × ((terms_of (document_nodes (document_of first es)) first lists ≡ Ok read)
        × ((again : Read) × ((terms_of (document_nodes (document_of second read.entries)) second lists ≡ Ok again) ×
        ((again.entries ≡ es) × (document_of first again.entries ≡ document_of first es))))) }
{
    spelled_values_are_read_back();
    printed_days_are_read();
    readings_are_in_range();
}

/// In each of the three tables: where covered rows write all values of a valid invoice, and it holds no term that the table
/// leaves out, reading its document answers exactly that invoice, with nothing passed over.
pub fn valid_invoices_are_read_exactly()
    ensures { (table : DocumentType) (es : List Entry) (lists : Lists) → IsInvoice es → IsValid es lists → holds_plainly (rows_of table) es ≡ true
        → terms_of (document_nodes (document_of (rows_of table) es)) (rows_of table) lists ≡ Ok (record { entries = es; passed_over = 0 }) }
{
    spelled_values_are_read_back();
    printed_days_are_read();
    readings_are_in_range();
    invoice_is_well_formed();
    credit_note_is_well_formed();
    cii_is_well_formed();
}

/// Of each two of the three tables: where covered rows of both write all values of a valid invoice, and it holds no term
/// that either leaves out, converting it to the one syntax, what is read of that to the other, and what is read of this
/// back to the first, gives the first document again, and its terms; no reading finds a fault.
pub fn valid_invoices_are_converted_back()
    ensures { (first second : DocumentType) (es : List Entry) (lists : Lists) → IsInvoice es → IsValid es lists → holds_plainly (rows_of first) es ≡ true →
        holds_plainly (rows_of second) es ≡ true
        → (read : Read) × ((terms_of (document_nodes (document_of (rows_of first) es)) (rows_of first) lists ≡ Ok read)
        × ((again : Read) × ((terms_of (document_nodes (document_of (rows_of second) read.entries)) (rows_of second) lists ≡ Ok again)
        × ((again.entries ≡ es) × (document_of (rows_of first) again.entries ≡ document_of (rows_of first) es))))) }
{
    spelled_values_are_read_back();
    printed_days_are_read();
    readings_are_in_range();
    invoice_is_well_formed();
    credit_note_is_well_formed();
    cii_is_well_formed();
}

/// How many rows with a term of each of the three tables are covered, which is to say plain or spread, at an element or an
/// attribute, or spread but for a placeholder, or plain but for a subject code in front, or that of a VAT total, or told apart
/// by values: all of them. The tables are settled and faultless, and leave no terms out. So that values tell rows apart, UBL
/// asks that the scheme of BT-29 and that of BT-60 aren't `SEPA`, and that BT-29 has its scheme where it may have one; CII
/// asks nothing.
pub fn tables_leave_terms_out()
    ensures invoice { (count_covered invoice_rows ≡ 181) × (is_settled invoice_rows ≡ true) × (is_faultless invoice_rows ≡ true) ×
        (map (λ t. t.number) (left_out_terms invoice_rows) ≡ []) }
    ensures credit_note { (count_covered credit_note_rows ≡ 181) × (is_settled credit_note_rows ≡ true) × (is_faultless credit_note_rows ≡ true) ×
        (map (λ t. t.number) (left_out_terms credit_note_rows) ≡ []) }
    ensures cii { (count_covered cii_rows ≡ 185) × (is_settled cii_rows ≡ true) × (is_faultless cii_rows ≡ true) ×
        (map (λ t. t.number) (left_out_terms cii_rows) ≡ []) }
    ensures asked_invoice { (list_all (λ (u : Unlike). (same_term u.term (record { number = 29; part = 1 })
        || same_term u.term (record { number = 60; part = 1 })) &&
        bytes_eq u.text (codes "SEPA")) (known_of invoice_rows).unlike ≡ true)
        × (map (λ (x : Together). x.term.number) (known_of invoice_rows).together ≡ 29 ∷ []) }
    ensures asked_credit_note { (list_all (λ (u : Unlike). (same_term u.term (record { number = 29; part = 1 })
        || same_term u.term (record { number = 60; part = 1 })) &&
        bytes_eq u.text (codes "SEPA")) (known_of credit_note_rows).unlike ≡ true)
        × (map (λ (x : Together). x.term.number) (known_of credit_note_rows).together ≡ 29 ∷ []) }
    ensures asked_cii { known_of cii_rows ≡ unknown }
{}
