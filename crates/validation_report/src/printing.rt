//! The report for a person.
ghost use Rattle.std.specs.Prelude.{encode_utf8_all, flat_map, List, ℕ};
ghost use Rattle.inv_base.specs.Printing.{Prints};
ghost use Rattle.schematron_findings.specs.declared.finding.Finding.{Finding};
ghost use Rattle.validation_report.specs.Validating.{at_text, finding_text};
ghost use Rattle.validation_report.specs.Held.{line_text, spot_text, fault_word, outcome_word, located_text, held_unread, held_counts};

use crate::places::{Located, Spot, Spots, Unread};
use inv_base::{Printer, Sink};
use line_places::LinePlace;
use schematron_findings::{Finding, Lent, Line};
use svrl_report::{
    Tally, print_counts, print_id, print_message, print_number, print_outcome, print_text,
};

/// The word with which the line of a finding begins.
pub(crate) trait Word {
    /// The word of a finding.
    ghost word: { Finding → List ℕ };

    /// Prints it.
    fn print<K: Sink>(finding: &Finding<'_>, printer: &mut Printer, out: &mut K)
        ensures { Prints (word finding.now) printer.old.failed printer.new.failed (K.view out.old) (K.view out.new) };
}

/// The word of a fault of reading.
pub(crate) struct FaultWord;

impl Word for FaultWord {
    ghost word = { fault_word };

    fn print<K: Sink>(finding: &Finding<'_>, printer: &mut Printer, out: &mut K) {
        printer.put(out, b"fault ");
        print_kind(&finding.test, printer, out);
    }
}

fn print_kind<K: Sink>(kind: &Lent<'_>, printer: &mut Printer, out: &mut K)
    ensures { Prints (encode_utf8_all kind.now) printer.old.failed printer.new.failed (K.view out.old) (K.view out.new) }
{
    printer.put(out, kind.as_str().as_bytes());
}

/// The word of a finding of a rule.
pub(crate) struct OutcomeWord;

impl Word for OutcomeWord {
    ghost word = { outcome_word };

    fn print<K: Sink>(finding: &Finding<'_>, printer: &mut Printer, out: &mut K) {
        print_outcome(finding.outcome, finding.level, printer, out);
    }
}

/// Prints the findings at these spots, each of a line of these.
pub(crate) fn print_spots<W: Word, K: Sink>(
    lines: &[Line<'_>],
    spots: &[Spot],
    printer: &mut Printer,
    out: &mut K,
)
    ensures { Prints (flat_map (spot_text W.word lines.now) spots.now) printer.old.failed printer.new.failed (K.view out.old) (K.view out.new) }
{
    'spots: for spot in spots {
        print_spot::<W, K>(lines, *spot, printer, out);
    }
}

fn print_spot<W: Word, K: Sink>(lines: &[Line<'_>], spot: Spot, printer: &mut Printer, out: &mut K)
    ensures { Prints (spot_text W.word lines.now spot) printer.old.failed printer.new.failed (K.view out.old) (K.view out.new) }
{
    match lines.get(spot.line) {
        Some(line) => print_line::<W, K>(line, spot.place, printer, out),
        None => {}
    }
}

fn print_line<W: Word, K: Sink>(
    line: &Line<'_>,
    place: LinePlace,
    printer: &mut Printer,
    out: &mut K,
)
    ensures { Prints (line_text W.word place line.now) printer.old.failed printer.new.failed (K.view out.old) (K.view out.new) }
{
    match line {
        Line::Found(finding) => print_finding::<W, K>(finding, place, printer, out),
        _ => {}
    }
}

/// Prints the line of a finding.
fn print_finding<W: Word, K: Sink>(
    finding: &Finding<'_>,
    place: LinePlace,
    printer: &mut Printer,
    out: &mut K,
)
    ensures { Prints (finding_text (W.word finding.now) finding.now place) printer.old.failed printer.new.failed (K.view out.old) (K.view out.new) }
{
    W::print(finding, printer, out);
    printer.put(out, b" ");
    print_id(&finding.id, printer, out);
    printer.put(out, b" ");
    print_text(&finding.location, printer, out);
    print_place(place, printer, out);
    printer.put(out, b" ");
    print_message(&finding.message, printer, out);
    printer.put(out, b"\n");
}

/// Prints a line and a column behind ` at `.
fn print_place<K: Sink>(place: LinePlace, printer: &mut Printer, out: &mut K)
    ensures { Prints (at_text place) printer.old.failed printer.new.failed (K.view out.old) (K.view out.new) }
{
    printer.put(out, b" at ");
    print_number(place.line, printer, out);
    printer.put(out, b":");
    print_number(place.column, printer, out);
}

/// Prints the lines of these elements, each behind the word.
pub(crate) fn print_all_located<K: Sink>(
    word: &[u8],
    located: &[Located],
    printer: &mut Printer,
    out: &mut K,
)
    ensures { Prints (flat_map (located_text word.now) located.now) printer.old.failed printer.new.failed (K.view out.old) (K.view out.new) }
{
    'located: for one in located {
        print_located(word, one, printer, out);
    }
}

fn print_located<K: Sink>(word: &[u8], located: &Located, printer: &mut Printer, out: &mut K)
    ensures { Prints (located_text word.now located.now) printer.old.failed printer.new.failed (K.view out.old) (K.view out.new) }
{
    printer.put(out, word);
    printer.put(out, b" ");
    print_text(&located.location, printer, out);
    print_place(located.place, printer, out);
    printer.put(out, b"\n");
}

/// Prints the lines of the unread nodes.
pub(crate) fn print_all_unread<K: Sink>(unread: &[Unread], printer: &mut Printer, out: &mut K)
    ensures { Prints (flat_map held_unread unread.now) printer.old.failed printer.new.failed (K.view out.old) (K.view out.new) }
{
    'unread: for one in unread {
        print_unread(one, printer, out);
    }
}

fn print_unread<K: Sink>(unread: &Unread, printer: &mut Printer, out: &mut K)
    ensures { Prints (held_unread unread.now) printer.old.failed printer.new.failed (K.view out.old) (K.view out.new) }
{
    printer.put(out, b"unread ");
    print_text(&unread.element.location, printer, out);
    print_place(unread.element.place, printer, out);
    printer.put(out, b" ");
    print_message(&unread.value, printer, out);
    printer.put(out, b"\n");
}

/// Prints how many there are of each sort of what the reading finds, and how many findings of each sort.
pub(crate) fn print_all_counts<K: Sink>(
    spots: &Spots,
    rules: &[Line<'_>],
    printer: &mut Printer,
    out: &mut K,
)
    ensures { Prints (held_counts spots.now rules.now) printer.old.failed printer.new.failed (K.view out.old) (K.view out.new) }
{
    printer.put(out, b"faults ");
    print_number(spots.faults.as_slice().len() as u64, printer, out);
    printer.put(out, b", passed over ");
    print_number(spots.passed.as_slice().len() as u64, printer, out);
    printer.put(out, b", unread ");
    print_number(spots.unread.as_slice().len() as u64, printer, out);
    printer.put(out, b", misplaced ");
    print_number(spots.misplaced.as_slice().len() as u64, printer, out);
    printer.put(out, b", ");
    print_counts(Tally::of(rules), printer, out);
}
