//! A law of documents. The call does nothing: what it ensures is the law.
ghost use Rattle.std.specs.Prelude.{◌≡◌, Ok};
ghost use Rattle.code_lists.specs.CodeFiles.{Lists};
ghost use Rattle.inv_terms.specs.Listing.{IsInvoice};
ghost use Rattle.inv_terms.specs.Whole.{IsValid};
ghost use Rattle.node_arena.specs.Document.{Document};
ghost use Rattle.node_arena.specs.Moves.{tree_nodes, IsOfATree};
ghost use Rattle.bind_meaning.specs.Terms.{Read};
ghost use Rattle.bind_run.specs.Reading.{invoice_of};

use reading_laws::read_invoices_are_valid;

/// The invoice that a document is, by the table that its root element selects, is a valid one.
pub fn invoices_of_documents_are_valid()
    ensures { (document : Document) (lists : Lists) (read : Read) → IsOfATree document → invoice_of (tree_nodes document) lists ≡ Ok read
        → IsInvoice read.entries × IsValid read.entries lists }
{
    read_invoices_are_valid();
}
