//! What conversions promise, whatever runs.
ghost use Rattle.invoice_cli.specs.Conversions.{ConversionsReturn};

use invoice_jobs::{
    accepted_terms_are_good, carried_texts_are_read_exactly, converted_texts_are_documents,
    done_conversions_are_documents, read_files_are_valid_invoices,
};

/// Converting an invoice that the syntax carries writes the syntax's document of it, and nothing else is answered as done.
/// What was written is XML of exactly that document's tree, and is read as exactly its terms; converting it to another
/// syntax that carries them, and that back, writes the first bytes again. It has no code.
pub(crate) fn conversions_return()
    ensures { ConversionsReturn }
{
    accepted_terms_are_good();
    read_files_are_valid_invoices();
    carried_texts_are_read_exactly();
    converted_texts_are_documents();
    done_conversions_are_documents();
}
