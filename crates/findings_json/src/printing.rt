ghost use Rattle.std.specs.Prelude.{◌≡◌, ◌+◌, ◌≤◌, ◌++◌, List, codes, chars, encode_utf8_all, option_map, slice_get};
ghost use Rattle.inv_base.specs.Printing.{Printed};
ghost use Rattle.schematron_findings.specs.declared.finding.Line.{Line};
ghost use Rattle.svrl_report.specs.Plain.{tally_of, all_lines};
ghost use Rattle.json_text.specs.declared.state.TheConstants.{DEEPEST};
ghost use Rattle.json_text.specs.Layout.{document};
ghost use Rattle.json_text.specs.Making.{text_member, array_member};
ghost use Rattle.json_text.specs.Made.{Wrote};
ghost use Rattle.findings_json.specs.FindingsJson as spec;

use crate::findings::{put_head, put_message, put_tally};
use inv_base::Sink;
use json_text::{Container, JsonPen};
use schematron_findings::{Finding, Findings, Line};
use svrl_report::Tally;

/// Prints what rule files find in a document as JSON text: one object with the name of the document's file, the findings of each rule
/// file in its turn, with the name in the same place among these, and how many there are of each sort. It takes no memory. Answers
/// whether a write failed.
pub fn print_findings<K: Sink>(
    file: &str,
    rules: &[&str],
    findings: &[Findings<'_>],
    out: &mut K,
) -> bool
    ensures { Printed result (encode_utf8_all (document (spec.findings_json (chars file.now) (spec.names_of rules.now) findings.now)))
        (K.view out.old) (K.view out.new) }
{
    let mut pen = JsonPen::new();
    pen.begin_item(out, Container::Object);
    pen.text_member(out, "file", file);
    put_findings(rules, findings, &mut pen, out);
    put_counts(tally_of(findings), &mut pen, out);
    pen.end(out, Container::Object);
    pen.finish(out)
}

/// How many findings there are of each sort in all files.
fn tally_of(findings: &[Findings<'_>]) -> Tally
    ensures { result ≡ tally_of (all_lines findings.now) }
{
    let mut tally = Tally::new();
    'files: for file in findings {
        tally = with_lines(tally, file.lines());
    }
    tally
}

/// A count with those of one file more.
fn with_lines(tally: Tally, lines: &[Line<'_>]) -> Tally
    ensures { (before : List Line) → tally ≡ tally_of before → result ≡ tally_of (before ++ lines.now) }
{
    let mut tally = tally;
    'lines: for line in lines {
        tally = tally.with(line);
    }
    tally
}

/// Writes the array of the findings.
fn put_findings<K: Sink>(rules: &[&str], findings: &[Findings<'_>], pen: &mut JsonPen, out: &mut K)
    requires { pen.old.state.depth + 2 ≤ DEEPEST }
    ensures { Wrote (array_member (codes "findings") (spec.all_objects (spec.names_of rules.now) findings.now)) pen.old pen.new
        (K.view out.old) (K.view out.new) }
{
    pen.begin_member(out, "findings", Container::Array);
    put_files(rules, findings, pen, out);
    pen.end(out, Container::Array);
}

/// Writes the findings of each file.
fn put_files<K: Sink>(rules: &[&str], findings: &[Findings<'_>], pen: &mut JsonPen, out: &mut K)
    requires { pen.old.state.depth + 1 ≤ DEEPEST }
    ensures { Wrote (spec.all_objects (spec.names_of rules.now) findings.now) pen.old pen.new (K.view out.old) (K.view out.new) }
{
    'files: for (k, file) in findings.iter().enumerate() {
        put_lines(name_at(rules, k), file.lines(), pen, out);
    }
}

/// The name of the file of that number, if there is one.
fn name_at<'n>(names: &[&'n str], k: usize) -> Option<&'n str>
    ensures { option_map (λ name. chars name.now) result ≡ slice_get (spec.names_of names.now) k }
{
    names.get(k).copied()
}

/// Writes the findings among the lines of a file.
fn put_lines<K: Sink>(rules: Option<&str>, lines: &[Line<'_>], pen: &mut JsonPen, out: &mut K)
    requires { pen.old.state.depth + 1 ≤ DEEPEST }
    ensures { Wrote (spec.file_objects (option_map (λ name. chars name.now) rules.entry) lines.now) pen.old pen.new (K.view out.old) (K.view out.new) }
{
    'lines: for line in lines {
        put_line(rules, line, pen, out);
    }
}

fn put_line<K: Sink>(rules: Option<&str>, line: &Line<'_>, pen: &mut JsonPen, out: &mut K)
    requires { pen.old.state.depth + 1 ≤ DEEPEST }
    ensures { Wrote (spec.line_object (option_map (λ name. chars name.now) rules.entry) line.now) pen.old pen.new (K.view out.old) (K.view out.new) }
{
    match line {
        Line::Found(finding) => put_finding(rules, finding, pen, out),
        _ => {}
    }
}

fn put_finding<K: Sink>(rules: Option<&str>, finding: &Finding<'_>, pen: &mut JsonPen, out: &mut K)
    requires { pen.old.state.depth + 1 ≤ DEEPEST }
    ensures { Wrote (spec.finding_object (option_map (λ name. chars name.now) rules.entry) finding.now) pen.old pen.new (K.view out.old) (K.view out.new) }
{
    pen.begin_item(out, Container::Object);
    put_rules(rules, pen, out);
    put_head(finding, pen, out);
    put_message(finding, pen, out);
    pen.end(out, Container::Object);
}

/// Writes the name of the rule file, if it has one.
fn put_rules<K: Sink>(rules: Option<&str>, pen: &mut JsonPen, out: &mut K)
    ensures { Wrote (spec.member_if (codes "rules") (option_map (λ name. chars name.now) rules.entry)) pen.old pen.new (K.view out.old) (K.view out.new) }
{
    match rules {
        None => {}
        Some(rules) => put_given_rules(rules, pen, out),
    }
}

fn put_given_rules<K: Sink>(rules: &str, pen: &mut JsonPen, out: &mut K)
    ensures { Wrote (text_member (codes "rules") (chars rules.now)) pen.old pen.new (K.view out.old) (K.view out.new) }
{
    pen.text_member(out, "rules", rules);
}

/// Writes how many findings there are of each sort, in an object.
fn put_counts<K: Sink>(tally: Tally, pen: &mut JsonPen, out: &mut K)
    requires { pen.old.state.depth + 1 ≤ DEEPEST }
    ensures { Wrote (spec.counts_member tally) pen.old pen.new (K.view out.old) (K.view out.new) }
{
    pen.begin_member(out, "counts", Container::Object);
    put_tally(tally, pen, out);
    pen.end(out, Container::Object);
}
