//! What files are read as, what converting them answers, and what is read of what conversions write, whatever runs.
ghost use Rattle.std.specs.Prelude.{◌≡◌, ℕ, List, [], Option, Ok};
ghost use Rattle.inv_base.specs.Files.{Files};
ghost use Rattle.inv_terms.specs.declared.entries.Entry.{Entry};
ghost use Rattle.inv_terms.specs.Listing.{IsInvoice};
ghost use Rattle.inv_terms.specs.Whole.{IsValid};
ghost use Rattle.bind_meaning.specs.Terms.{Read};
ghost use Rattle.bind_meaning.specs.declared.tables.Syntax.{Syntax};
ghost use Rattle.bind_run.specs.Extensions.{AreGood};
ghost use Rattle.written_laws.specs.Texts.{exactly};
ghost use Rattle.job_protocol.specs.declared.status.Status.TheVariants as statuses;
ghost use Rattle.job_protocol.specs.Protocol.{Answer, answer_of};
ghost use Rattle.job_protocol.specs.Runs.{EndsIn};
ghost use Rattle.invoice_jobs.specs.Sources.{Sources, ReadingProfile};
ghost use Rattle.invoice_jobs.specs.Invoices.{convert_protocol, convert_whole_protocol};
ghost use Rattle.invoice_jobs.specs.Conversions.{AreReadAs, IsProfile, IsReadAs, IsCarriedBy, Holds, text_of_invoice, IsDocumentText, IsConverted};
ghost use Rattle.invoice_jobs.specs.Conversions.{IsConvertedThere, IsConvertedWhole};

use cii_binding::cii_is_well_formed;
use extension_files::file_terms_are_extensions;
use extension_laws::{good_extensions_are_open, round_trip, texts_are_documents};
use node_arena::events_build_the_nodes_of_their_tree;
use reading_laws::{numbers_of_nodes_rise, read_invoices_are_valid};
use ubl_binding::{credit_note_is_well_formed, invoice_is_well_formed};
use xml_laws::read_tells_its_tree;

/// The invoice that a file is read as, by terms with which the tables are well formed, has its terms in listing order, and is valid
/// by the code lists. The law has no code.
pub fn read_files_are_valid_invoices()
    ensures { (files : Files) (file : List ℕ) (reading_profile : ReadingProfile) (read : Read) → AreGood reading_profile.terms
        → IsReadAs files file reading_profile read
        → IsInvoice read.entries × IsValid read.entries reading_profile.lists }
{
    read_tells_its_tree();
    events_build_the_nodes_of_their_tree();
    numbers_of_nodes_rise();
    read_invoices_are_valid();
}

/// The terms that the files beside a document give are such terms. The law has no code.
pub fn accepted_terms_are_good()
    ensures { (files : Files) (sources : Sources) (reading_profile : ReadingProfile) → IsProfile files sources reading_profile → AreGood reading_profile.terms }
{
    file_terms_are_extensions();
    no_terms_are_good();
}

/// The tables are well formed as they are. The law has no code.
fn no_terms_are_good()
    ensures { AreGood [] }
{
    invoice_is_well_formed();
    credit_note_is_well_formed();
    cii_is_well_formed();
}

/// A file that holds the text of a valid invoice in a syntax that carries it is read, by the same files beside it, as exactly
/// its terms. The law has no code.
pub fn carried_texts_are_read_exactly()
    ensures { (files : Files) (file : List ℕ) (sources : Sources) (reading_profile : ReadingProfile) (syntax : Syntax) (es : List Entry)
        → IsInvoice es → IsValid es reading_profile.lists → IsCarriedBy syntax reading_profile es
        → Holds files file (text_of_invoice syntax reading_profile es) sources reading_profile
        → IsReadAs files file reading_profile (exactly es) }
{
    accepted_terms_are_good();
    good_extensions_are_open();
    round_trip();
}

/// What was read as an invoice that a syntax carries, by terms with which the tables are well formed, has a text there which is XML
/// of exactly the tree of its document, and which is read as exactly its terms. The law has no code.
pub fn converted_texts_are_documents()
    ensures { (bytes : List ℕ) (reading_profile : ReadingProfile) (read : Read) (syntax : Syntax) → AreGood reading_profile.terms
        → AreReadAs bytes reading_profile read
        → IsCarriedBy syntax reading_profile read.entries → IsDocumentText syntax reading_profile read.entries }
{
    read_tells_its_tree();
    events_build_the_nodes_of_their_tree();
    numbers_of_nodes_rise();
    read_invoices_are_valid();
    good_extensions_are_open();
    texts_are_documents();
    round_trip();
}

/// Converting is done only where the files beside the document were accepted, it was read by them as an invoice and the syntax
/// carries that; what was answered then is such a text. So it is of files that are told, and of some content of each file
/// where they aren't. Where nothing may be lost it is done only where nothing is. The law has no code.
pub fn done_conversions_are_documents()
    ensures told { (files : Files) (syntax : Syntax) (sources : Sources) (file : List ℕ)
        → (answer_of (convert_protocol syntax sources file) files).status ≡ statuses.Done
        → IsConverted files syntax sources file (answer_of (convert_protocol syntax sources file) files) }
    ensures ended { (held : Option Files) (syntax : Syntax) (sources : Sources) (file : List ℕ) (count : ℕ) (answer : Answer)
        → EndsIn held (convert_protocol syntax sources file) count answer → answer.status ≡ statuses.Done
        → IsConvertedThere held syntax sources file answer }
    ensures whole { (held : Option Files) (syntax : Syntax) (sources : Sources) (file : List ℕ) (count : ℕ) (answer : Answer)
        → EndsIn held (convert_whole_protocol syntax sources file) count answer → answer.status ≡ statuses.Done
        → IsConvertedWhole held syntax sources file answer }
{
    file_terms_are_extensions();
    no_terms_are_good();
    converted_texts_are_documents();
}
