//! The job that tries the whole tool.
ghost use Rattle.std.specs.Prelude.{◌≡◌, ◌≤◌, ◌<◌, ℕ};
ghost use Rattle.trial_run.specs.Trials.{trial_of, trial_text};
ghost use Rattle.invoice_cli.specs.Job.{most_lines};
ghost use Rattle.invoice_cli.specs.Answers.{Tries};
ghost use Rattle.invoice_cli.specs.Trials.{TrialsKeepTerms};

use inv_base::{Sink, Steps};
use job_protocol::Status;
use std::alloc::Global;
use std::marker::Brand;
use std::sync::ledger::{Blank, Ledger};
use trial_laws::{trials_find_one_report, trials_keep_the_terms};
use trial_run::{run_trial, write_trial};

/// A trial of each number of lines finds the same terms, the generated total, and by its rules the last line alone. It
/// has no code.
pub(crate) fn trials_keep_terms()
    ensures { TrialsKeepTerms }
{
    trials_keep_the_terms();
    trials_find_one_report();
}

/// Tries the tool on a generated invoice of so many lines, and writes what the trial came to. Nothing is written before it is over.
pub(crate) fn trial<O: Sink>(alloc: Global, lines: u32, out: &mut O) -> Status
    requires { lines ≤ most_lines }
    ensures { (steps : ℕ) × Tries result (trial_text (trial_of lines steps)) (O.view out.old) (O.view out.new) }
{
    trial_by::<Brand, O>(alloc, lines, Blank::new(1), out)
}

/// The same, with what its steps are counted on.
fn trial_by<L: Ledger, O: Sink>(alloc: Global, lines: u32, ledger: Blank, out: &mut O) -> Status
    requires few { lines ≤ most_lines }
    requires name { ledger.name ≡ L.name }
    requires parts { ledger.parts ≡ L.parts }
    requires some { 0 < ledger.parts }
    ensures { (steps : ℕ) × Tries result (trial_text (trial_of lines steps)) (O.view out.old) (O.view out.new) }
{
    let mut steps = Steps::<L>::new(ledger);
    let trial = match run_trial(alloc, lines, &mut steps) {
        Ok(trial) => trial,
        Err(_) => return Status::Memory,
    };
    match write_trial(&trial, out) {
        Ok(()) => Status::Done,
        Err(_) => Status::WriteFault,
    }
}
