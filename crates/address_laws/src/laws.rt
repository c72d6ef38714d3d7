//! Each call does nothing: what it ensures is the law.

ghost use Rattle.std.specs.Prelude.{◌≡◌, true, false, List, Contains, None, Ok};
ghost use Rattle.inv_base.specs.Tree.{size};
ghost use Rattle.term_table.specs.declared.terms.Term.{Term};
ghost use Rattle.term_table.specs.Contexts.{slot_group};
ghost use Rattle.inv_terms.specs.declared.entries.Entry.{Entry};
ghost use Rattle.inv_terms.specs.Listing.{IsInvoice};
ghost use Rattle.bind_rows.specs.declared.rows.Row.{Row};
ghost use Rattle.bind_rows.specs.declared.rows.Repeats.TheVariants as repeat;
ghost use Rattle.bind_rows.specs.declared.tables.DocumentType.{DocumentType};
ghost use Rattle.bind_table.specs.Laid.{is_writable};
ghost use Rattle.bind_table.specs.WellFormed.{first_fault};
ghost use Rattle.bind_meaning.specs.Tables.{rows_of};
ghost use Rattle.bind_meaning.specs.Trees.{document_of};
ghost use Rattle.address_laws.specs.AddressTrees.{Said, tree_of};
ghost use Rattle.address_laws.specs.Addresses.{entry_leaves, leaf_at, leaves_of, said_of_row};
ghost use Rattle.address_laws.specs.Addressed.{is_addressed, is_own_way};
ghost use Rattle.address_laws.specs.EntryAddresses.{address_in, last_step};
ghost use Rattle.address_laws.specs.Samples as samples;

use cii_binding::cii_is_writable;
use ubl_binding::{credit_note_is_writable, invoice_is_writable};

/// The document of an invoice by a table that is laid and addressed is the tree of its leaves: those of its entries, each at
/// the address that the entry and the table's row give, the constants whose holders hold an entry, and the elements that are
/// always written.
pub fn documents_are_trees_of_leaves()
    ensures { (rows : List Row) (es : List Entry) → IsInvoice es → is_writable rows ≡ true → is_addressed rows ≡ true →
        document_of rows es ≡ tree_of (leaves_of rows es) }
{}

/// Each entry has its leaves: along a row that isn't spread, in whose groups it stands, what the row says of its context is a
/// leaf at the address that its slots give.
pub fn entries_have_their_leaves()
    ensures { (es : List Entry) (row : Row) (term : Term) (e : Entry) (said : Said) → IsInvoice es → is_own_way row term ≡ true → Contains es e
        → slot_group e.context.outer ≡ row.outer → slot_group e.context.inner ≡ row.inner →
        Contains (said_of_row es row e.context (last_step None row.path)) said
        → Contains (entry_leaves es row) (leaf_at (address_in e.context row.path) said) }
{}

/// The three tables are addressed.
pub fn tables_are_addressed()
    ensures { (document_type : DocumentType) → is_addressed (rows_of document_type) ≡ true }
{}

/// So by each of the three tables the document of an invoice is the tree of its leaves.
pub fn documents_by_the_tables_are_trees_of_leaves()
    ensures { (document_type : DocumentType) (es : List Entry) → IsInvoice es → document_of (rows_of document_type) es
        ≡ tree_of (leaves_of (rows_of document_type) es) }
{
    invoice_is_writable();
    credit_note_is_writable();
    cii_is_writable();
}

/// That a table is well formed and laid isn't enough: by two such tables documents have other numbers of nodes than trees. One
/// has a row of the invoice itself that goes through the element of a group without being spread over its occurrences, so it
/// has one leaf, but is written in each. The other has a constant attribute of an element in which a term stands, beside
/// another term: where that one alone stands, the attribute has no leaf, but is written. Neither is addressed.
pub fn other_tables_may_differ()
    ensures group { (first_fault (samples.a_row_through_a_group repeat.Once) ≡ Ok tt) × ((is_writable (samples.a_row_through_a_group repeat.Once) ≡ true)
        × ((is_addressed (samples.a_row_through_a_group repeat.Once) ≡ false)
        × ((size (document_of (samples.a_row_through_a_group repeat.Once) samples.two_rates) ≡ 11)
        × (size (tree_of (leaves_of (samples.a_row_through_a_group repeat.Once) samples.two_rates)) ≡ 9)))) }
    ensures constant { (first_fault samples.a_constant_attribute ≡ Ok tt) ×
        ((is_writable samples.a_constant_attribute ≡ true) × ((is_addressed samples.a_constant_attribute ≡ false)
        × ((size (document_of samples.a_constant_attribute samples.an_identifier) ≡ 5) ×
        (size (tree_of (leaves_of samples.a_constant_attribute samples.an_identifier)) ≡ 3)))) }
{}

/// A table with a group inside another one, a spread term, constants and an element that is always written, by which both
/// definitions compute to one tree, with and without entries.
pub fn samples_are_trees_of_leaves()
    ensures table { (is_addressed samples.a_table ≡ true) × (size (document_of samples.a_table samples.an_invoice) ≡ 30) }
    ensures full { document_of samples.a_table samples.an_invoice ≡ tree_of (leaves_of samples.a_table samples.an_invoice) }
    ensures spread { document_of (samples.a_row_through_a_group repeat.Spread) samples.two_rates ≡ tree_of
        (leaves_of (samples.a_row_through_a_group repeat.Spread) samples.two_rates) }
{}
