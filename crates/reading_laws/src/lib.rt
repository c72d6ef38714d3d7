//! Laws of reading: what is read of a document is an invoice in listing order, and a valid one.
#![tactic(auto)]

ghost use Rattle.std.specs.Prelude.{◌≡◌, ℕ, List, ◌∷◌, ◌++◌, true, None, is_some, Ok, All};
ghost use Rattle.std.specs.List.{list_all};
ghost use Rattle.code_lists.specs.CodeFiles.{Lists};
ghost use Rattle.inv_base.specs.Tree.{Node, Forest, document_nodes};
ghost use Rattle.term_table.specs.declared.terms.Term.{Term};
ghost use Rattle.term_table.specs.Places.{place_of};
ghost use Rattle.inv_terms.specs.declared.entries.Entry.{Entry};
ghost use Rattle.inv_terms.specs.Listing.{Fits, is_placed, is_listed, is_numbered, refusal, IsInvoice};
ghost use Rattle.inv_terms.specs.Whole.{IsValid};
ghost use Rattle.node_arena.specs.Document.{Document};
ghost use Rattle.node_arena.specs.Moves.{tree_nodes, IsOfATree};
ghost use Rattle.bind_rows.specs.declared.rows.Form.{Form};
ghost use Rattle.bind_rows.specs.declared.rows.Row.{Row};
ghost use Rattle.bind_table.specs.WellFormed.{first_fault};
ghost use Rattle.bind_rows.specs.declared.tables.DocumentType.{DocumentType};
ghost use Rattle.bind_meaning.specs.Tables.{rows_of};
ghost use Rattle.bind_meaning.specs.Currencies.{currencies};
ghost use Rattle.bind_meaning.specs.Seats.{context_of};
ghost use Rattle.bind_meaning.specs.Values.{parsed};
ghost use Rattle.bind_meaning.specs.Judging.{Told};
ghost use Rattle.bind_meaning.specs.Terms.{Read, told, term_picks, place_all, terms_of};
ghost use Rattle.reading_laws.specs.Nodes.{Rise};
ghost use Rattle.reading_laws.specs.ParsedValues.{AllFit};

use cii_binding::cii_is_well_formed;
use inv_decimal::laws::{printed_days_are_read, readings_are_in_range};
use inv_terms::{push_refuses_what_makes_no_invoice, valid_invoices_lack_nothing};
use ubl_binding::{credit_note_is_well_formed, invoice_is_well_formed};

/// Each value that a string says fits its term.
pub fn said_values_fit_their_terms()
    ensures { (form : Form) (term : Term) (string : List ℕ) → AllFit (parsed form term string) }
{
    printed_days_are_read();
    readings_are_in_range();
}

/// So each value that is read fits its term.
pub fn read_values_fit_their_terms()
    ensures { (nodes : List Node) (rows : List Row) (lists : Lists) (read : Read) → terms_of nodes rows lists ≡ Ok read
        → All (λ (e : Entry). Fits e.term e.value) read.entries }
{
    said_values_fit_their_terms();
}

/// Of what is read nothing is missing, in any context of it, and each code is in its list.
pub fn read_invoices_lack_nothing()
    ensures { (nodes : List Node) (rows : List Row) (lists : Lists) (read : Read) → terms_of nodes rows lists ≡ Ok read
        → IsValid read.entries lists }
{
    valid_invoices_lack_nothing();
}

/// By a well formed table each term that is read stands in a context that it has.
pub fn read_terms_stand_in_their_contexts()
    ensures { (nodes : List Node) (rows : List Row) (lists : Lists) (read : Read) → first_fault rows ≡ Ok tt → terms_of nodes rows lists ≡ Ok read
        → list_all is_placed read.entries ≡ true }
{}

/// So the entries are in strictly rising order: no term stands twice in a context.
pub fn read_entries_are_in_listing_order()
    ensures { (nodes : List Node) (rows : List Row) (lists : Lists) (read : Read) → first_fault rows ≡ Ok tt → terms_of nodes rows lists ≡ Ok read
        → is_listed read.entries ≡ true }
{}

/// The occurrences of each group are numbered from 1 without a gap, in each occurrence of the group around it, where
/// the numbers of the nodes rise.
pub fn read_occurrences_have_no_gap()
    ensures { (nodes : List Node) (rows : List Row) (lists : Lists) (read : Read) → Rise 0 nodes → first_fault rows ≡ Ok tt
        → terms_of nodes rows lists ≡ Ok read
        → is_numbered read.entries ≡ true }
{}

/// They rise in each tree, and so in each document.
pub fn numbers_of_nodes_rise()
    ensures tree { (forest : Forest) → Rise 0 (document_nodes forest) }
    ensures document { (document : Document) → IsOfATree document → Rise 0 (tree_nodes document) }
{}

/// What is read by a well formed table is a valid invoice, so what is read by one of the three tables, and so what is
/// read of any document.
pub fn read_invoices_are_valid()
    ensures rows { (nodes : List Node) (rows : List Row) (lists : Lists) (read : Read) → Rise 0 nodes → first_fault rows ≡ Ok tt
        → terms_of nodes rows lists ≡ Ok read
        → IsInvoice read.entries × IsValid read.entries lists }
    ensures tables { (table : DocumentType) (nodes : List Node) (lists : Lists) (read : Read) → Rise 0 nodes → terms_of nodes (rows_of table) lists ≡ Ok read
        → IsInvoice read.entries × IsValid read.entries lists }
    ensures documents { (table : DocumentType) (document : Document) (lists : Lists) (read : Read) → IsOfATree document
        → terms_of (tree_nodes document) (rows_of table) lists ≡ Ok read
        → IsInvoice read.entries × IsValid read.entries lists }
{
    read_values_fit_their_terms();
    read_invoices_lack_nothing();
    invoice_is_well_formed();
    credit_note_is_well_formed();
    cii_is_well_formed();
}

/// So nothing is refused on the way: by a well formed table all that is told of a document has a place, whatever its
/// faults, and where the entries of an invoice are added one by one, none is refused.
pub fn nothing_read_is_refused()
    ensures places { (nodes : List Node) (rows : List Row) → first_fault rows ≡ Ok tt
        → All (λ (t : Told). is_some (place_of t.parsed.term (context_of t.placed)) ≡ true)
        (told nodes (place_all nodes (term_picks nodes (currencies nodes rows) rows))) }
    ensures entries { (es more : List Entry) (e : Entry) → IsInvoice (es ++ e ∷ more) → refusal es e ≡ None }
{
    push_refuses_what_makes_no_invoice();
}
