//! Faults of reading, and findings of rules.
ghost use Rattle.std.specs.Prelude.{◌+◌, ◌≤◌, flat_map, codes, chars};
ghost use Rattle.std.specs.Str.{IsAscii};
ghost use Rattle.line_places.specs.declared.place.LinePlace.{LinePlace};
ghost use Rattle.schematron_findings.specs.declared.finding.Finding.{Finding};
ghost use Rattle.validation_report.specs.Held.{placed_line, placed_in};
ghost use Rattle.findings_json.specs.FindingsJson.{member_if};
ghost use Rattle.json_text.specs.declared.state.TheConstants.{DEEPEST};
ghost use Rattle.json_text.specs.Json.{Json};
ghost use Rattle.json_text.specs.Making.{text_member, array_member};
ghost use Rattle.json_text.specs.Made.{Wrote};
ghost use Rattle.validation_json.specs.ValidationJson.{name_member, fault_object, finding_object, placed_objects};

use crate::members::{put_located, put_place};
use findings_json::{put_head, put_message};
use inv_base::{Sink, Str, Txt};
use json_text::{Container, JsonPen};
use line_places::LinePlace;
use schematron_findings::{Finding, Lent, Line};
use validation_report::Spot;

/// A form of findings.
pub(crate) trait Form {
    /// The object of a finding at a place.
    ghost said: { Finding → LinePlace → Json };

    /// Writes it.
    fn put<K: Sink>(finding: &Finding<'_>, place: LinePlace, pen: &mut JsonPen, out: &mut K)
        requires { pen.old.state.depth + 1 ≤ DEEPEST }
        ensures { Wrote (said finding.now place) pen.old pen.new (K.view out.old) (K.view out.new) };
}

/// The form of faults of reading.
pub(crate) struct FaultForm;

impl Form for FaultForm {
    ghost said = { fault_object };

    fn put<K: Sink>(finding: &Finding<'_>, place: LinePlace, pen: &mut JsonPen, out: &mut K) {
        pen.begin_item(out, Container::Object);
        put_kind(&finding.test, pen, out);
        put_term(&finding.id, pen, out);
        put_name(&finding.message, pen, out);
        put_located(&finding.location, place, pen, out);
        pen.end(out, Container::Object);
    }
}

/// The form of findings of rules.
pub(crate) struct RuleForm;

impl Form for RuleForm {
    ghost said = { finding_object };

    fn put<K: Sink>(finding: &Finding<'_>, place: LinePlace, pen: &mut JsonPen, out: &mut K) {
        pen.begin_item(out, Container::Object);
        put_head(finding, pen, out);
        put_place(place, pen, out);
        put_message(finding, pen, out);
        pen.end(out, Container::Object);
    }
}

/// Writes an array of the findings at these spots, each of a line of these.
pub(crate) fn put_findings<F: Form, K: Sink>(
    name: &str,
    lines: &[Line<'_>],
    spots: &[Spot],
    pen: &mut JsonPen,
    out: &mut K,
)
    requires name { IsAscii name.now }
    requires room { pen.old.state.depth + 2 ≤ DEEPEST }
    ensures { Wrote (array_member name.now (placed_objects F.said (flat_map (placed_in lines.now) spots.now))) pen.old pen.new
        (K.view out.old) (K.view out.new) }
{
    pen.begin_member(out, name, Container::Array);
    put_spots::<F, K>(lines, spots, pen, out);
    pen.end(out, Container::Array);
}

/// Writes the findings one behind another.
fn put_spots<F: Form, K: Sink>(lines: &[Line<'_>], spots: &[Spot], pen: &mut JsonPen, out: &mut K)
    requires { pen.old.state.depth + 1 ≤ DEEPEST }
    ensures { Wrote (placed_objects F.said (flat_map (placed_in lines.now) spots.now)) pen.old pen.new (K.view out.old) (K.view out.new) }
{
    'spots: for spot in spots {
        put_spot::<F, K>(lines, *spot, pen, out);
    }
}

fn put_spot<F: Form, K: Sink>(lines: &[Line<'_>], spot: Spot, pen: &mut JsonPen, out: &mut K)
    requires { pen.old.state.depth + 1 ≤ DEEPEST }
    ensures { Wrote (placed_objects F.said (placed_in lines.now spot)) pen.old pen.new (K.view out.old) (K.view out.new) }
{
    match lines.get(spot.line) {
        Some(line) => put_line::<F, K>(line, spot.place, pen, out),
        None => {}
    }
}

fn put_line<F: Form, K: Sink>(line: &Line<'_>, place: LinePlace, pen: &mut JsonPen, out: &mut K)
    requires { pen.old.state.depth + 1 ≤ DEEPEST }
    ensures { Wrote (placed_objects F.said (placed_line place line.now)) pen.old pen.new (K.view out.old) (K.view out.new) }
{
    match line {
        Line::Found(finding) => F::put(finding, place, pen, out),
        _ => {}
    }
}

/// Writes the kind of a fault.
fn put_kind<K: Sink>(kind: &Lent<'_>, pen: &mut JsonPen, out: &mut K)
    ensures { Wrote (text_member (codes "kind") kind.now) pen.old pen.new (K.view out.old) (K.view out.new) }
{
    pen.text_member(out, "kind", kind.as_str());
}

/// Writes the term or the group that a fault names, where it names one.
fn put_term<K: Sink>(label: &Option<Str<'_>>, pen: &mut JsonPen, out: &mut K)
    ensures { Wrote (member_if (codes "term") label.now) pen.old pen.new (K.view out.old) (K.view out.new) }
{
    match label {
        None => {}
        Some(label) => put_label(label, pen, out),
    }
}

fn put_label<K: Sink>(label: &Str<'_>, pen: &mut JsonPen, out: &mut K)
    ensures { Wrote (text_member (codes "term") label.now) pen.old pen.new (K.view out.old) (K.view out.new) }
{
    pen.text_member(out, "term", label.as_str());
}

/// Writes the name of a term or a group, where the semantic model has one.
fn put_name<K: Sink>(name: &Txt, pen: &mut JsonPen, out: &mut K)
    ensures { Wrote (name_member name.now) pen.old pen.new (K.view out.old) (K.view out.new) }
{
    put_name_text(name.as_str(), pen, out);
}

fn put_name_text<K: Sink>(name: &str, pen: &mut JsonPen, out: &mut K)
    ensures { Wrote (name_member (chars name.now)) pen.old pen.new (K.view out.old) (K.view out.new) }
{
    if name.is_empty() {
        return;
    }
    pen.text_member(out, "name", name);
}
