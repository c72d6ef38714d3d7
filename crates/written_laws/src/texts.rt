//! Laws of invoices as texts: what is written is a document of exactly the tree that the table says, and is read and
//! converted back.
ghost use Rattle.std.specs.Prelude.{◌≡◌, ℕ, List, true, Some, Ok, encode_utf8_all, option_and_then};
ghost use Rattle.code_lists.specs.CodeFiles.{Lists};
ghost use Rattle.xml_state.specs.declared.limits.Limits.{Limits};
ghost use Rattle.xml_profile.specs.Profile.{IsXml};
ghost use Rattle.inv_terms.specs.declared.entries.Entry.{Entry};
ghost use Rattle.inv_terms.specs.Listing.{IsInvoice};
ghost use Rattle.inv_terms.specs.Whole.{IsValid};
ghost use Rattle.bind_rows.specs.declared.rows.Row.{Row};
ghost use Rattle.bind_rows.specs.declared.tables.DocumentType.{DocumentType};
ghost use Rattle.bind_meaning.specs.declared.tables.Syntax.{Syntax};
ghost use Rattle.bind_meaning.specs.Tables.{rows_of};
ghost use Rattle.bind_meaning.specs.Trees.{document_of};
ghost use Rattle.bind_write.specs.Documents.{document_text};
ghost use Rattle.bind_carrying.specs.Carrying.{carrying};
ghost use Rattle.written_laws.specs.Readable.{reading_limits, is_readable, holds_any};
ghost use Rattle.written_laws.specs.Reading.{IsSmall};
ghost use Rattle.written_laws.specs.Texts.{tree_in, text_in, IsCarriedBy, exactly, AreReadAs, conversion};

use carrying_laws::{carried_invoices_are_read_exactly, carried_invoices_meet_each_condition};
use inv_terms::spelled_values_are_read_back;
use node_arena::events_build_the_nodes_of_their_tree;
use xml_laws::{canonical_text_is_read, read_tells_its_tree};

/// The text of a small document, by a table that passes the test, is XML with exactly the tree that the table says.
pub fn small_texts_are_documents()
    ensures { (limits : Limits) (rows : List Row) (es : List Entry) → IsInvoice es → is_readable limits rows ≡ true → holds_any rows es ≡ true
        → IsSmall limits rows es → IsXml limits (encode_utf8_all (document_text rows es)) (document_of rows es) }
{
    spelled_values_are_read_back();
    canonical_text_is_read();
}

/// So is the text that an invoice is written as which one of the three tables carries, where some line holds an entry, as
/// in each valid invoice; and so what a valid invoice is written as in a syntax that carries it.
pub fn carried_texts_are_documents()
    ensures held { (table : DocumentType) (es : List Entry) → IsInvoice es → holds_any (rows_of table) es ≡ true → carrying (rows_of table) es ≡ Ok tt
        → IsXml reading_limits (encode_utf8_all (document_text (rows_of table) es)) (document_of (rows_of table) es) }
    ensures valid { (table : DocumentType) (es : List Entry) (lists : Lists) → IsInvoice es → IsValid es lists → carrying (rows_of table) es ≡ Ok tt
        → IsXml reading_limits (encode_utf8_all (document_text (rows_of table) es)) (document_of (rows_of table) es) }
    ensures syntax { (syntax : Syntax) (es : List Entry) (lists : Lists) → IsInvoice es → IsValid es lists → IsCarriedBy syntax es
        → IsXml reading_limits (text_in syntax es) (tree_in syntax es) }
{
    spelled_values_are_read_back();
    canonical_text_is_read();
}

/// The round trip: what a valid invoice is written as, by a table or in a syntax that carries it, is read as exactly that
/// invoice, with nothing passed over.
pub fn round_trip()
    ensures table { (table : DocumentType) (es : List Entry) (lists : Lists) → IsInvoice es → IsValid es lists → carrying (rows_of table) es ≡ Ok tt
        → AreReadAs (encode_utf8_all (document_text (rows_of table) es)) lists (exactly es) }
    ensures syntax { (syntax : Syntax) (es : List Entry) (lists : Lists) → IsInvoice es → IsValid es lists → IsCarriedBy syntax es
        → AreReadAs (text_in syntax es) lists (exactly es) }
{
    spelled_values_are_read_back();
    canonical_text_is_read();
    read_tells_its_tree();
    events_build_the_nodes_of_their_tree();
    carried_invoices_meet_each_condition();
    carried_invoices_are_read_exactly();
}

/// The second conversion: where two syntaxes carry a valid invoice, its text in the one is converted to its text in the
/// other, and that, converted back, is the first text again, byte for byte.
pub fn second_conversion()
    ensures there { (first second : Syntax) (es : List Entry) (lists : Lists) → IsInvoice es → IsValid es lists → IsCarriedBy first es → IsCarriedBy second es
        → conversion second lists (text_in first es) ≡ Some (text_in second es) }
    ensures back { (first second : Syntax) (es : List Entry) (lists : Lists) → IsInvoice es → IsValid es lists → IsCarriedBy first es → IsCarriedBy second es
        → option_and_then (conversion first lists) (conversion second lists (text_in first es)) ≡ Some (text_in first es) }
{
    round_trip();
}
