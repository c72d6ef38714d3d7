ghost use Rattle.std.specs.Prelude.{◌≡◌, ◌≤◌, min, length, option_map, IfOk};
ghost use Rattle.inv_base.specs.Counts.{last_count};
ghost use Rattle.bind_meaning.specs.declared.tables.Syntax.TheVariants as syntaxes;
ghost use Rattle.held_rules.specs.Texts.{seen_ready, AreReady};
ghost use Rattle.trial_run.specs.Memory.{AreBuiltIn, written, terms_read};
ghost use Rattle.trial_run.specs.Trials as spec;

use crate::comparing::are_same_entries;
use crate::judging::{see, trial_rules};
use crate::reading::{Means, terms_read, written};
use bind_run::Syntax;
use held_rules::Ready;
use inv_base::{Steps, Txt};
use inv_terms::Invoice;
use std::alloc::{AllocError, Global};
use std::sync::ledger::Ledger;
use svrl_report::Tally;
use term_table::{ROOT, Term};
use trial_invoice::{MOST_LINES, trial_invoice};

/// What a trial came to.
pub struct Trial {
    /// How many lines the generated invoice has.
    pub lines: u32,
    /// The total with tax (BT-112) of the last reading, if it has one.
    pub total: Option<Txt>,
    /// Whether both readings have the terms of the generated invoice.
    pub same_terms: bool,
    /// How many bytes the UBL document has.
    pub ubl_bytes: usize,
    /// How many bytes the CII document has.
    pub cii_bytes: usize,
    /// How many findings of each sort the built-in rule file has in the UBL document.
    pub tally: Tally,
    /// How many steps the judging took.
    pub steps: u64,
}

impl Drop for Trial {
    fn drop(self) {
        let Trial {
            lines: _,
            total,
            same_terms: _,
            ubl_bytes: _,
            cii_bytes: _,
            tally: _,
            steps: _,
        } = self;
        drop(total);
    }
}

/// The total with tax.
const TOTAL: Term = Term {
    number: 112,
    part: 0,
};

/// The total with tax of an invoice, if it has one.
fn total_in(alloc: Global, invoice: &Invoice) -> Result<Option<Txt>, AllocError>
    ensures { IfOk result (λ total. total ≡ spec.total_in invoice.now) }
{
    let mut buf = [0; 40];
    match invoice.value(TOTAL, ROOT) {
        None => Ok(None),
        Some(value) => Ok(Some(Txt::of(alloc, value.text(&mut buf))?)),
    }
}

/// Whether both readings of an invoice have its terms.
fn are_same_terms(invoice: &Invoice, first: &Invoice, last: &Invoice) -> bool
    ensures { result ≡ spec.same_terms invoice.now first.now last.now }
{
    are_same_entries(invoice.entries(), first.entries())
        && are_same_entries(first.entries(), last.entries())
}

/// What the second reading of an invoice came to.
#[derive(Drop)]
struct LastReading {
    total: Option<Txt>,
    same_terms: bool,
    bytes: usize,
}

/// Writes as CII what was first read of an invoice, and reads it again.
fn read_again(
    alloc: Global,
    invoice: &Invoice,
    first: &Invoice,
    means: &Means,
) -> Result<LastReading, AllocError>
    requires { AreBuiltIn means.now }
    ensures total { IfOk result (λ last. last.total ≡ spec.total_in (terms_read (written syntaxes.Cii first.now))) }
    ensures same_terms { IfOk result (λ last. last.same_terms ≡ spec.same_terms invoice.now first.now (terms_read (written syntaxes.Cii first.now))) }
    ensures bytes { IfOk result (λ last. last.bytes ≡ length (written syntaxes.Cii first.now)) }
{
    let cii = written(alloc, first, Syntax::Cii, means)?;
    let last = terms_read(alloc, cii.bytes(), means)?;
    let total = total_in(alloc, &last)?;
    Ok(LastReading {
        total,
        same_terms: are_same_terms(invoice, first, &last),
        bytes: cii.bytes().len(),
    })
}

/// The trial by what it takes to read and to write, and by the built-in rule file.
fn try_by<L: Ledger>(
    alloc: Global,
    lines: u32,
    means: &Means,
    rules: &Option<Ready>,
    steps: &mut Steps<L>,
) -> Result<Trial, AllocError>
    requires lines { lines ≤ MOST_LINES }
    requires means { AreBuiltIn means.now }
    requires rules { option_map seen_ready rules.now ≡ spec.trial_rules }
    requires ready { AreReady rules.now }
    ensures { IfOk result (λ trial. trial ≡ spec.trial_of lines (min steps.new last_count)) }
{
    let invoice = trial_invoice(alloc, lines)?;
    let ubl = written(alloc, &invoice, Syntax::Ubl, means)?;
    let first = see(alloc, ubl.bytes(), means, rules, steps)?;
    let last = read_again(alloc, &invoice, &first.invoice, means)?;
    Ok(Trial {
        lines,
        total: last.total,
        same_terms: last.same_terms,
        ubl_bytes: ubl.bytes().len(),
        cii_bytes: last.bytes,
        tally: first.tally,
        steps: steps.count(),
    })
}

/// Tries the tool on a generated invoice of so many lines: it is written as UBL, read, written as CII and read, and the UBL document is
/// judged by a built-in rule file. The judging takes its steps from those that are given; the trial tells how many these are behind it.
pub fn run_trial<L: Ledger>(
    alloc: Global,
    lines: u32,
    steps: &mut Steps<L>,
) -> Result<Trial, AllocError>
    requires { lines ≤ MOST_LINES }
    ensures { IfOk result (λ trial. trial ≡ spec.trial_of lines (min steps.new last_count)) }
{
    let means = Means::new(alloc)?;
    let rules = trial_rules(alloc)?;
    let trial = try_by(alloc, lines, &means, &rules, steps);
    drop(rules);
    trial
}
