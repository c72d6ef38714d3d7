ghost use Rattle.std.specs.Prelude.{◌≡◌, ◌++◌, List, encode_utf8_all};
ghost use Rattle.inv_base.specs.Printing.{Prints, Printed};
ghost use Rattle.inv_base.specs.Text.{quoted};
ghost use Rattle.inv_base.specs.Writing.{Writes};
ghost use Rattle.schematron_findings.specs.declared.finding.Line.{Line};
ghost use Rattle.svrl_report.specs.Plain as spec;

use crate::tally::Tally;
use inv_base::{Printer, Sink, Str, Txt};
use itoa::Buffer;
use schematron_findings::{Finding, FindingKind, Findings, Level, Line};
use xml_write::WriteFault;
use xpath_items::code_of;

/// Writes the plain report on what several rule files found. Behind a fault the sink has taken a front of it.
pub fn write_plain<K: Sink>(findings: &[Findings<'_>], out: &mut K) -> Result<(), WriteFault>
    ensures { Writes result (spec.plain_report findings.now) (K.view out.old) (K.view out.new) }
{
    if print_report(findings, out) {
        return Err(WriteFault);
    }
    Ok(())
}

/// Prints the report; answers whether a write failed.
fn print_report<K: Sink>(findings: &[Findings<'_>], out: &mut K) -> bool
    ensures { Printed result (spec.plain_report findings.now) (K.view out.old) (K.view out.new) }
{
    let mut printer = Printer::new();
    let mut tally = Tally::new();
    'files: for file in findings {
        tally = print_lines(file.lines(), tally, &mut printer, out);
    }
    print_counts(tally, &mut printer, out);
    printer.failed
}

/// Prints the findings of a rule file, and counts them behind those that were counted before.
fn print_lines<K: Sink>(
    lines: &[Line<'_>],
    tally: Tally,
    printer: &mut Printer,
    out: &mut K,
) -> Tally
    ensures prints { Prints (spec.lines_text lines.now) printer.old.failed printer.new.failed (K.view out.old) (K.view out.new) }
    ensures tally { (before : List Line) → tally ≡ spec.tally_of before → result ≡ spec.tally_of (before ++ lines.now) }
{
    let mut tally = tally;
    'lines: for line in lines {
        print_line(line, printer, out);
        tally = tally.with(line);
    }
    tally
}

fn print_line<K: Sink>(line: &Line<'_>, printer: &mut Printer, out: &mut K)
    ensures { Prints (spec.line_text line.now) printer.old.failed printer.new.failed (K.view out.old) (K.view out.new) }
{
    match line {
        Line::Found(finding) => print_finding(finding, printer, out),
        _ => {}
    }
}

fn print_finding<K: Sink>(finding: &Finding<'_>, printer: &mut Printer, out: &mut K)
    ensures { Prints (spec.finding_line finding.now) printer.old.failed printer.new.failed (K.view out.old) (K.view out.new) }
{
    print_outcome(finding.outcome, finding.level, printer, out);
    printer.put(out, b" ");
    print_id(&finding.id, printer, out);
    printer.put(out, b" ");
    print_text(&finding.location, printer, out);
    printer.put(out, b" ");
    print_message(&finding.message, printer, out);
    printer.put(out, b"\n");
}

/// Prints a text as it stands.
pub fn print_text<K: Sink>(text: &Txt, printer: &mut Printer, out: &mut K)
    ensures { Prints (encode_utf8_all text.now) printer.old.failed printer.new.failed (K.view out.old) (K.view out.new) }
{
    printer.put(out, text.as_str().as_bytes());
}

/// Prints a message between quotes.
pub fn print_message<K: Sink>(message: &Txt, printer: &mut Printer, out: &mut K)
    ensures { Prints (encode_utf8_all (quoted message.now)) printer.old.failed printer.new.failed (K.view out.old) (K.view out.new) }
{
    printer.put_quoted(out, message.as_str());
}

/// Prints what an assertion came to, in the word with which its line begins.
pub fn print_outcome<K: Sink>(
    outcome: FindingKind,
    level: Level,
    printer: &mut Printer,
    out: &mut K,
)
    ensures { Prints (spec.outcome_text outcome level) printer.old.failed printer.new.failed (K.view out.old) (K.view out.new) }
{
    match outcome {
        FindingKind::Failed => printer.put(out, failed_word(level).as_bytes()),
        FindingKind::Reported => printer.put(out, b"reported"),
        FindingKind::Error(error) => {
            printer.put(out, b"error ");
            printer.put(out, code_of(error).as_bytes());
        }
    }
}

/// The word with which the line of a failed assertion begins.
pub fn failed_word(level: Level) -> &'static str
    ensures { result.now ≡ spec.failed_word level }
{
    match level {
        Level::Fatal => "failed",
        Level::Warning => "warning",
        Level::Information => "information",
    }
}

/// Prints an id, or `-` where there is none.
pub fn print_id<K: Sink>(id: &Option<Str<'_>>, printer: &mut Printer, out: &mut K)
    ensures { Prints (spec.id_text id.now) printer.old.failed printer.new.failed (K.view out.old) (K.view out.new) }
{
    match id {
        None => printer.put(out, b"-"),
        Some(id) => print_given_id(id, printer, out),
    }
}

fn print_given_id<K: Sink>(id: &Str<'_>, printer: &mut Printer, out: &mut K)
    ensures { Prints (encode_utf8_all id.now) printer.old.failed printer.new.failed (K.view out.old) (K.view out.new) }
{
    printer.put(out, id.as_str().as_bytes());
}

/// Prints how many findings there are of each sort, in one line.
pub fn print_counts<K: Sink>(tally: Tally, printer: &mut Printer, out: &mut K)
    ensures { Prints (spec.counts_line tally) printer.old.failed printer.new.failed (K.view out.old) (K.view out.new) }
{
    printer.put(out, b"failed ");
    print_number(tally.failed, printer, out);
    printer.put(out, b", reported ");
    print_number(tally.reported, printer, out);
    printer.put(out, b", errors ");
    print_number(tally.errors, printer, out);
    printer.put(out, b", minor ");
    print_number(tally.minor, printer, out);
    printer.put(out, b"\n");
}

/// Prints a number in decimal.
pub fn print_number<K: Sink>(number: u64, printer: &mut Printer, out: &mut K)
    ensures { Prints (spec.number_text number) printer.old.failed printer.new.failed (K.view out.old) (K.view out.new) }
{
    let mut digits = Buffer::new();
    printer.put(out, digits.format(number).as_bytes());
}
