//! Laws of what is written: the text that an invoice is written as is a document, is read again as exactly that
//! invoice, and is converted back.
#![tactic(auto)]

mod texts;

ghost use Rattle.std.specs.Prelude.{◌≡◌, List, true, is_some, Some, Ok};
ghost use Rattle.code_lists.specs.CodeFiles.{Lists};
ghost use Rattle.xml_state.specs.declared.limits.Limits.{Limits};
ghost use Rattle.inv_base.specs.Tree.{Node, document_nodes};
ghost use Rattle.xml_laws.specs.Writable.{IsWritable};
ghost use Rattle.term_table.specs.Contexts.{root_context};
ghost use Rattle.term_table.specs.declared.terms.Term.{Term};
ghost use Rattle.inv_terms.specs.declared.entries.Entry.{Entry};
ghost use Rattle.inv_terms.specs.Listing.{IsInvoice, value_in};
ghost use Rattle.inv_terms.specs.Whole.{IsValid};
ghost use Rattle.bind_rows.specs.declared.rows.Row.{Row};
ghost use Rattle.bind_table.specs.Lines.{plan_of};
ghost use Rattle.bind_rows.specs.declared.tables.DocumentType.{DocumentType};
ghost use Rattle.bind_meaning.specs.Tables.{rows_of};
ghost use Rattle.bind_meaning.specs.Terms.{Read, terms_of};
ghost use Rattle.bind_meaning.specs.Trees.{document_of};
ghost use Rattle.bind_write.specs.Documents.{declarations_for};
ghost use Rattle.bind_carrying.specs.Carrying.{carrying};
ghost use Rattle.bind_run.specs.Roots.{document_type_of};
ghost use Rattle.written_laws.specs.Readable.{reading_limits, is_readable, shows, invoice_number, holds_any};
ghost use Rattle.written_laws.specs.Reading.{IsSmall, IsReadBack, IsReadByTable};
ghost use Rattle.written_laws.specs.Roots.{root_table};

use inv_terms::spelled_values_are_read_back;
use node_arena::events_build_the_nodes_of_their_tree;
pub use texts::{
    carried_texts_are_documents, round_trip, second_conversion, small_texts_are_documents,
};
use xml_laws::{canonical_text_is_read, read_tells_its_tree};

/// The document of an invoice by a table that passes the test can be written as canonical text within the limits, where
/// it is small.
pub fn small_documents_are_writable()
    ensures { (limits : Limits) (rows : List Row) (es : List Entry) → IsInvoice es → is_readable limits rows ≡ true → holds_any rows es ≡ true
        → IsSmall limits rows es → IsWritable limits (declarations_for rows) (document_of rows es) }
{
    spelled_values_are_read_back();
}

/// So the text that is written is read, as a document whose nodes are those of the tree that the table says.
pub fn small_documents_are_read_back()
    ensures { (limits : Limits) (rows : List Row) (es : List Entry) → IsInvoice es → is_readable limits rows ≡ true → holds_any rows es ≡ true
        → IsSmall limits rows es → IsReadBack limits rows es }
{
    spelled_values_are_read_back();
    canonical_text_is_read();
    read_tells_its_tree();
    events_build_the_nodes_of_their_tree();
}

/// Each of the three tables passes the tests: its documents can be read, and it shows the number of an invoice.
pub fn tables_are_readable()
    ensures readable { (table : DocumentType) → is_readable reading_limits (rows_of table) ≡ true }
    ensures shows { (table : DocumentType) → shows invoice_number (plan_of (rows_of table)) ≡ true }
{}

/// There is a document where a term stands that the table shows. So there is one of each valid invoice where the table
/// shows its number.
pub fn shown_terms_make_a_document()
    ensures term { (rows : List Row) (es : List Entry) (term : Term) → shows term (plan_of rows) ≡ true → is_some (value_in es term root_context) ≡ true
        → holds_any rows es ≡ true }
    ensures valid { (rows : List Row) (es : List Entry) (lists : Lists) → shows invoice_number (plan_of rows) ≡ true → IsValid es lists
        → holds_any rows es ≡ true }
{}

/// An invoice that is read, by whatever table, has its number: else that would be missing. So each of the three tables
/// makes a document of it.
pub fn read_invoices_have_a_number()
    ensures number { (nodes : List Node) (rows : List Row) (lists : Lists) (read : Read) → terms_of nodes rows lists ≡ Ok read
        → is_some (value_in read.entries invoice_number root_context) ≡ true }
    ensures document { (table : DocumentType) (nodes : List Node) (rows : List Row) (lists : Lists) (read : Read) → terms_of nodes rows lists ≡ Ok read
        → holds_any (rows_of table) read.entries ≡ true }
{}

/// Where a table carries an invoice, its document keeps the limits on bytes, on tags and on nodes.
pub fn carried_documents_are_small()
    ensures { (rows : List Row) (es : List Entry) → carrying rows es ≡ Ok tt → IsSmall reading_limits rows es }
{}

/// So the text that is written of an invoice which one of the three tables carries is read back, where some line holds
/// an entry, as in each valid invoice.
pub fn carried_invoices_are_read_back()
    ensures held { (table : DocumentType) (es : List Entry) → IsInvoice es → holds_any (rows_of table) es ≡ true → carrying (rows_of table) es ≡ Ok tt
        → IsReadBack reading_limits (rows_of table) es }
    ensures valid { (table : DocumentType) (es : List Entry) (lists : Lists) → IsInvoice es → IsValid es lists → carrying (rows_of table) es ≡ Ok tt
        → IsReadBack reading_limits (rows_of table) es }
{
    spelled_values_are_read_back();
    canonical_text_is_read();
    read_tells_its_tree();
    events_build_the_nodes_of_their_tree();
}

/// The root of a document is the one by which its table is told.
pub fn roots_tell_their_tables()
    ensures document { (limits : Limits) (rows : List Row) (es : List Entry) → is_readable limits rows ≡ true → holds_any rows es ≡ true
        → document_type_of (document_nodes (document_of rows es)) ≡ root_table rows }
    ensures tables { (table : DocumentType) → root_table (rows_of table) ≡ Some table }
{}

/// So what is read of the text is what the table that wrote it reads in the tree that it says: of each invoice that was
/// read of a document, too.
pub fn carried_invoices_are_read_by_their_tables()
    ensures held { (table : DocumentType) (es : List Entry) (lists : Lists) → IsInvoice es → holds_any (rows_of table) es ≡ true → carrying (rows_of table) es
        ≡ Ok tt
        → IsReadByTable table es lists }
    ensures valid { (table : DocumentType) (es : List Entry) (lists : Lists) → IsInvoice es → IsValid es lists → carrying (rows_of table) es ≡ Ok tt
        → IsReadByTable table es lists }
    ensures read { (table : DocumentType) (nodes : List Node) (rows : List Row) (lists others : Lists) (read : Read) → terms_of nodes rows lists ≡ Ok read →
        IsInvoice read.entries
        → carrying (rows_of table) read.entries ≡ Ok tt → IsReadByTable table read.entries others }
{
    spelled_values_are_read_back();
    canonical_text_is_read();
    read_tells_its_tree();
    events_build_the_nodes_of_their_tree();
}
