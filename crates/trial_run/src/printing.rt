//! What a trial came to, written.
ghost use Rattle.inv_base.specs.Printing.{Prints, Printed};
ghost use Rattle.inv_base.specs.Writing.{Writes};
ghost use Rattle.trial_run.specs.Trials as spec;

use crate::trial::Trial;
use inv_base::{Printer, Sink, Txt};
use svrl_report::{print_counts, print_number, print_text};
use xml_write::WriteFault;

/// Writes what a trial came to, in six lines. Behind a fault the sink has taken a front of them.
pub fn write_trial<K: Sink>(trial: &Trial, out: &mut K) -> Result<(), WriteFault>
    ensures { Writes result (spec.trial_text trial.now) (K.view out.old) (K.view out.new) }
{
    if print_trial(trial, out) {
        return Err(WriteFault);
    }
    Ok(())
}

/// Prints what a trial came to; answers whether a write failed.
fn print_trial<K: Sink>(trial: &Trial, out: &mut K) -> bool
    ensures { Printed result (spec.trial_text trial.now) (K.view out.old) (K.view out.new) }
{
    let mut printer = Printer::new();
    print_lines(trial, &mut printer, out);
    printer.failed
}

fn print_lines<K: Sink>(trial: &Trial, printer: &mut Printer, out: &mut K)
    ensures { Prints (spec.trial_text trial.now) printer.old.failed printer.new.failed (K.view out.old) (K.view out.new) }
{
    printer.put(out, b"lines ");
    print_number(u64::from(trial.lines), printer, out);
    printer.put(out, b"\n");
    print_documents(trial, printer, out);
    print_counts(trial.tally, printer, out);
    printer.put(out, b"steps ");
    print_number(trial.steps, printer, out);
    printer.put(out, b"\n");
}

/// Prints what the documents of a trial came to.
fn print_documents<K: Sink>(trial: &Trial, printer: &mut Printer, out: &mut K)
    ensures { Prints (spec.documents_text trial.now) printer.old.failed printer.new.failed (K.view out.old) (K.view out.new) }
{
    printer.put(out, b"total ");
    print_total(&trial.total, printer, out);
    printer.put(out, b"\nsame terms ");
    print_answer(trial.same_terms, printer, out);
    printer.put(out, b"\nbytes ");
    print_number(trial.ubl_bytes as u64, printer, out);
    printer.put(out, b" ");
    print_number(trial.cii_bytes as u64, printer, out);
    printer.put(out, b"\n");
}

/// Prints the total, or a dash where there is none.
fn print_total<K: Sink>(total: &Option<Txt>, printer: &mut Printer, out: &mut K)
    ensures { Prints (spec.total_text total.now) printer.old.failed printer.new.failed (K.view out.old) (K.view out.new) }
{
    match total {
        None => printer.put(out, b"-"),
        Some(total) => print_text(total, printer, out),
    }
}

fn print_answer<K: Sink>(yes: bool, printer: &mut Printer, out: &mut K)
    ensures { Prints (spec.yes_or_no yes) printer.old.failed printer.new.failed (K.view out.old) (K.view out.new) }
{
    if yes {
        printer.put(out, b"yes");
    } else {
        printer.put(out, b"no");
    }
}
