//! The members of a finding, and how many findings there are.
ghost use Rattle.std.specs.Prelude.{◌≡◌, codes, chars};
ghost use Rattle.std.specs.Str.{IsAscii};
ghost use Rattle.json_text.specs.Making.{text_member};
ghost use Rattle.json_text.specs.Made.{Wrote};
ghost use Rattle.findings_json.specs.FindingsJson as spec;

use inv_base::{Sink, Str, Txt};
use json_text::JsonPen;
use schematron_findings::{Finding, FindingKind, Level};
use svrl_report::{Tally, failed_word};
use xpath_items::code_of;

/// Writes the members of a finding in front of the place of its node: what it came to, its assertion's id, and where the node stands.
pub fn put_head<K: Sink>(finding: &Finding<'_>, pen: &mut JsonPen, out: &mut K)
    ensures { Wrote (spec.finding_head finding.now) pen.old pen.new (K.view out.old) (K.view out.new) }
{
    put_kind(finding.outcome, finding.level, pen, out);
    put_code(finding.outcome, pen, out);
    put_id(&finding.id, pen, out);
    put_text("location", &finding.location, pen, out);
}

/// Writes a finding's message.
pub fn put_message<K: Sink>(finding: &Finding<'_>, pen: &mut JsonPen, out: &mut K)
    ensures { Wrote (spec.message_member finding.now) pen.old pen.new (K.view out.old) (K.view out.new) }
{
    put_text("message", &finding.message, pen, out);
}

/// What a finding came to, in one word.
fn kind_text(outcome: FindingKind, level: Level) -> &'static str
    ensures { result.now ≡ spec.kind_text outcome level }
{
    match outcome {
        FindingKind::Failed => failed_word(level),
        FindingKind::Reported => "reported",
        FindingKind::Error(_) => "error",
    }
}

fn put_kind<K: Sink>(outcome: FindingKind, level: Level, pen: &mut JsonPen, out: &mut K)
    ensures { Wrote (text_member (codes "kind") (spec.kind_text outcome level)) pen.old pen.new (K.view out.old) (K.view out.new) }
{
    pen.text_member(out, "kind", kind_text(outcome, level));
}

/// Writes the code of an error.
fn put_code<K: Sink>(outcome: FindingKind, pen: &mut JsonPen, out: &mut K)
    ensures { Wrote (spec.code_member outcome) pen.old pen.new (K.view out.old) (K.view out.new) }
{
    match outcome {
        FindingKind::Failed => {}
        FindingKind::Reported => {}
        FindingKind::Error(error) => pen.text_member(out, "code", code_of(error)),
    }
}

/// Writes the id of an assertion, if it has one.
fn put_id<K: Sink>(id: &Option<Str<'_>>, pen: &mut JsonPen, out: &mut K)
    ensures { Wrote (spec.member_if (codes "id") id.now) pen.old pen.new (K.view out.old) (K.view out.new) }
{
    match id {
        None => {}
        Some(id) => put_given_id(id, pen, out),
    }
}

fn put_given_id<K: Sink>(id: &Str<'_>, pen: &mut JsonPen, out: &mut K)
    ensures { Wrote (text_member (codes "id") id.now) pen.old pen.new (K.view out.old) (K.view out.new) }
{
    pen.text_member(out, "id", id.as_str());
}

fn put_text<K: Sink>(name: &str, text: &Txt, pen: &mut JsonPen, out: &mut K)
    requires { IsAscii name.now }
    ensures { Wrote (text_member name.now text.now) pen.old pen.new (K.view out.old) (K.view out.new) }
{
    pen.text_member(out, name, text.as_str());
}

/// Writes how many findings there are of each sort.
pub fn put_tally<K: Sink>(tally: Tally, pen: &mut JsonPen, out: &mut K)
    ensures { Wrote (spec.tally_members tally) pen.old pen.new (K.view out.old) (K.view out.new) }
{
    pen.number_member(out, "failed", tally.failed);
    pen.number_member(out, "reported", tally.reported);
    pen.number_member(out, "errors", tally.errors);
    pen.number_member(out, "minor", tally.minor);
}
