//! Laws of the trial: for every number of lines the generated invoice is valid, both syntaxes carry it, and both
//! readings of a trial are that invoice. So its terms are the same. Each call does nothing: what it ensures is the law.
#![tactic(auto)]

ghost use Rattle.std.specs.Prelude.{◌≡◌, ◌≤◌, ◌*◌, ℕ, true, Some, Ok};
ghost use Rattle.code_lists.specs.CodeFiles.{built_in_lists};
ghost use Rattle.inv_terms.specs.Listing.{IsInvoice};
ghost use Rattle.inv_terms.specs.Values.{spelled};
ghost use Rattle.inv_terms.specs.Whole.{IsValid};
ghost use Rattle.bind_meaning.specs.declared.tables.Syntax.{Syntax};
ghost use Rattle.bind_meaning.specs.Tables.{rows_of};
ghost use Rattle.bind_carrying.specs.Carrying.{carrying};
ghost use Rattle.bind_carrying.specs.Tables.{target};
ghost use Rattle.written_laws.specs.Texts.{text_in, exactly, AreReadAs};
ghost use Rattle.trial_invoice.specs.Amounts.{sum_of_nets};
ghost use Rattle.trial_invoice.specs.Generated.{amount, trial_entries};
ghost use Rattle.svrl_report.specs.Plain.{tally_of};
ghost use Rattle.trial_run.specs.Trials.{terms_of_ubl, terms_of_cii, trial_findings, trial_of, trial_rules, ubl_text};
ghost use Rattle.trial_laws.specs.Rules.{the_ready};

use inv_decimal::laws::printed_numbers_are_read;
use inv_terms::push_refuses_what_makes_no_invoice;
use trial_invoice::MOST_LINES;
use written_laws::{
    carried_invoices_are_read_back, round_trip, shown_terms_make_a_document, tables_are_readable,
};

/// The generated entries are an invoice.
pub fn trial_entries_are_an_invoice()
    ensures { (lines : ℕ) → lines ≤ MOST_LINES → IsInvoice (trial_entries lines) }
{
    printed_numbers_are_read();
    push_refuses_what_makes_no_invoice();
}

/// That invoice is valid by the built-in code lists, where it has a line.
pub fn trial_entries_are_valid()
    ensures { (lines : ℕ) → 1 ≤ lines → IsValid (trial_entries lines) built_in_lists }
{}

/// Both syntaxes carry it, by all conditions: its document keeps the limits on sizes, too.
pub fn trial_entries_are_carried()
    ensures { (syntax : Syntax) (lines : ℕ) → lines ≤ MOST_LINES → carrying (rows_of (target (trial_entries lines) syntax)) (trial_entries lines) ≡ Ok tt }
{}

/// So what is written of it, in both syntaxes, is read as exactly the generated entries, with nothing passed over.
pub fn trial_texts_are_read_back()
    ensures { (syntax : Syntax) (lines : ℕ) → 1 ≤ lines → lines ≤ MOST_LINES
        → AreReadAs (text_in syntax (trial_entries lines)) built_in_lists (exactly (trial_entries lines)) }
{
    trial_entries_are_an_invoice();
    trial_entries_are_valid();
    trial_entries_are_carried();
    round_trip();
}

/// Both readings of a trial are the generated entries. So a trial of any number of lines finds the same terms, and the
/// total with tax is the generated one.
pub fn trials_keep_the_terms()
    ensures ubl { (lines : ℕ) → 1 ≤ lines → lines ≤ MOST_LINES → terms_of_ubl lines ≡ trial_entries lines }
    ensures cii { (lines : ℕ) → 1 ≤ lines → lines ≤ MOST_LINES → terms_of_cii lines ≡ trial_entries lines }
    ensures same { (lines steps : ℕ) → 1 ≤ lines → lines ≤ MOST_LINES → (trial_of lines steps).same_terms ≡ true }
    ensures total { (lines steps : ℕ) → 1 ≤ lines → lines ≤ MOST_LINES → (trial_of lines steps).total ≡ Some (spelled (amount (120 * sum_of_nets lines))) }
{
    trial_texts_are_read_back();
}

/// The built-in rules of a trial are compiled: these are the rules, and their only pattern is active.
pub fn trial_rules_are_compiled()
    ensures { trial_rules ≡ Some the_ready }
{}

/// What the built-in rules find in the UBL document of a trial of any number of lines: the last line is reported, no
/// assertion fails, and there is no error.
pub fn trials_find_one_report()
    ensures found { (lines : ℕ) → 1 ≤ lines → lines ≤ MOST_LINES
        → tally_of (trial_findings (ubl_text lines)) ≡ record { failed = 0; reported = 1; errors = 0; minor = 0 } }
    ensures tally { (lines steps : ℕ) → 1 ≤ lines → lines ≤ MOST_LINES
        → (trial_of lines steps).tally ≡ record { failed = 0; reported = 1; errors = 0; minor = 0 } }
{
    printed_numbers_are_read();
    trial_entries_are_an_invoice();
    trial_entries_are_valid();
    trial_entries_are_carried();
    tables_are_readable();
    shown_terms_make_a_document();
    carried_invoices_are_read_back();
}
