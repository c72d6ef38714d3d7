ghost use Rattle.std.specs.Prelude.{◌≡◌, ◌≢◌, ◌∷◌, [], codes, encode_utf8_all};
ghost use Rattle.xml_write.specs.declared.pen.PenState.TheVariants.{Fresh, InsideTag};
ghost use Rattle.xml_write.specs.Calls.{call_start, call_attribute, call_end};
ghost use Rattle.xml_write.specs.Writers.{state_of, Makes};
ghost use Rattle.svrl_report.specs.Calls as calls;

use inv_base::{Sink, Str, Txt};
use schematron_findings::{Finding, FindingKind, Lent};
use xml_write::{WriteFault, Writer};
use xpath_items::code_of;

/// Writes that a pattern is active.
pub(crate) fn put_pattern<W: Writer, K: Sink>(
    pen: &mut W,
    out: &mut K,
    id: &Option<Lent<'_>>,
) -> Result<(), WriteFault>
    ensures makes { Makes result (W.view pen.old) (K.view out.old) (calls.pattern_calls id.now) (W.view pen.new) (K.view out.new) }
    ensures state { state_of (W.view pen.new) ≢ Fresh }
{
    pen.start(out, "svrl:active-pattern")?;
    put_given(pen, out, "id", id)?;
    pen.end(out, "svrl:active-pattern")
}

/// Writes that a rule judges a node.
pub(crate) fn put_fired<W: Writer, K: Sink>(
    pen: &mut W,
    out: &mut K,
    context: &Lent<'_>,
) -> Result<(), WriteFault>
    ensures makes { Makes result (W.view pen.old) (K.view out.old) (calls.fired_calls context.now) (W.view pen.new) (K.view out.new) }
    ensures state { state_of (W.view pen.new) ≢ Fresh }
{
    pen.start(out, "svrl:fired-rule")?;
    put_attribute(pen, out, "context", context)?;
    pen.end(out, "svrl:fired-rule")
}

/// Writes what an assertion came to.
pub(crate) fn put_finding<W: Writer, K: Sink>(
    pen: &mut W,
    out: &mut K,
    finding: &Finding<'_>,
) -> Result<(), WriteFault>
    ensures makes { Makes result (W.view pen.old) (K.view out.old) (calls.finding_calls finding.now) (W.view pen.new) (K.view out.new) }
    ensures state { state_of (W.view pen.new) ≢ Fresh }
{
    put_start(pen, out, finding)?;
    put_message(pen, out, &finding.message)?;
    put_end(pen, out, finding.outcome)
}

/// The name of a finding's element.
fn element_of(outcome: FindingKind) -> &'static str
    ensures { result.now ≡ calls.element_of outcome }
{
    match outcome {
        FindingKind::Failed | FindingKind::Error(_) => "svrl:failed-assert",
        FindingKind::Reported => "svrl:successful-report",
    }
}

/// Begins a finding's element, without its attributes.
fn put_name<W: Writer, K: Sink>(
    pen: &mut W,
    out: &mut K,
    outcome: FindingKind,
) -> Result<(), WriteFault>
    ensures makes { Makes result (W.view pen.old) (K.view out.old) (call_start (calls.element_of outcome) ∷ []) (W.view pen.new) (K.view out.new) }
    ensures state { state_of (W.view pen.new) ≡ InsideTag }
{
    pen.start(out, element_of(outcome))
}

/// Ends a finding's element.
fn put_end<W: Writer, K: Sink>(
    pen: &mut W,
    out: &mut K,
    outcome: FindingKind,
) -> Result<(), WriteFault>
    requires { state_of (W.view pen.old) ≢ Fresh }
    ensures makes { Makes result (W.view pen.old) (K.view out.old) (call_end (calls.element_of outcome) ∷ []) (W.view pen.new) (K.view out.new) }
    ensures state { state_of (W.view pen.new) ≢ Fresh }
{
    pen.end(out, element_of(outcome))
}

/// Begins a finding's element, with its attributes.
fn put_start<W: Writer, K: Sink>(
    pen: &mut W,
    out: &mut K,
    finding: &Finding<'_>,
) -> Result<(), WriteFault>
    ensures makes { Makes result (W.view pen.old) (K.view out.old) (calls.start_calls finding.now) (W.view pen.new) (K.view out.new) }
    ensures state { state_of (W.view pen.new) ≢ Fresh }
{
    put_name(pen, out, finding.outcome)?;
    put_places(pen, out, finding)?;
    put_marks(pen, out, finding)
}

/// Writes what the assertion tests, and where the node stands.
fn put_places<W: Writer, K: Sink>(
    pen: &mut W,
    out: &mut K,
    finding: &Finding<'_>,
) -> Result<(), WriteFault>
    requires { state_of (W.view pen.old) ≡ InsideTag }
    ensures makes { Makes result (W.view pen.old) (K.view out.old) (calls.place_calls finding.now) (W.view pen.new) (K.view out.new) }
    ensures state { state_of (W.view pen.new) ≡ InsideTag }
{
    put_attribute(pen, out, "test", &finding.test)?;
    put_location(pen, out, &finding.location)
}

fn put_location<W: Writer, K: Sink>(
    pen: &mut W,
    out: &mut K,
    location: &Txt,
) -> Result<(), WriteFault>
    requires { state_of (W.view pen.old) ≡ InsideTag }
    ensures makes { Makes result (W.view pen.old) (K.view out.old) (call_attribute (codes "location") (encode_utf8_all location.now) ∷ []) (W.view pen.new)
        (K.view out.new) }
    ensures state { state_of (W.view pen.new) ≡ InsideTag }
{
    pen.attribute(out, "location", location.as_str())
}

/// Writes what marks the assertion.
fn put_marks<W: Writer, K: Sink>(
    pen: &mut W,
    out: &mut K,
    finding: &Finding<'_>,
) -> Result<(), WriteFault>
    requires { state_of (W.view pen.old) ≡ InsideTag }
    ensures makes { Makes result (W.view pen.old) (K.view out.old) (calls.mark_calls finding.now) (W.view pen.new) (K.view out.new) }
    ensures state { state_of (W.view pen.new) ≡ InsideTag }
{
    put_id(pen, out, &finding.id)?;
    put_flag(pen, out, finding.outcome, &finding.flag)?;
    put_role(pen, out, finding.outcome, &finding.role)
}

/// Writes the identifier, if it is given.
fn put_id<W: Writer, K: Sink>(
    pen: &mut W,
    out: &mut K,
    id: &Option<Str<'_>>,
) -> Result<(), WriteFault>
    requires { state_of (W.view pen.old) ≡ InsideTag }
    ensures makes { Makes result (W.view pen.old) (K.view out.old) (calls.given_calls (codes "id") id.now) (W.view pen.new) (K.view out.new) }
    ensures state { state_of (W.view pen.new) ≡ InsideTag }
{
    match id {
        None => Ok(()),
        Some(id) => put_given_id(pen, out, id),
    }
}

fn put_given_id<W: Writer, K: Sink>(
    pen: &mut W,
    out: &mut K,
    id: &Str<'_>,
) -> Result<(), WriteFault>
    requires { state_of (W.view pen.old) ≡ InsideTag }
    ensures makes { Makes result (W.view pen.old) (K.view out.old) (call_attribute (codes "id") (encode_utf8_all id.now) ∷ []) (W.view pen.new)
        (K.view out.new) }
    ensures state { state_of (W.view pen.new) ≡ InsideTag }
{
    pen.attribute(out, "id", id.as_str())
}

/// Writes the flag, for which the code of an error stands.
fn put_flag<W: Writer, K: Sink>(
    pen: &mut W,
    out: &mut K,
    outcome: FindingKind,
    flag: &Option<Lent<'_>>,
) -> Result<(), WriteFault>
    requires { state_of (W.view pen.old) ≡ InsideTag }
    ensures makes { Makes result (W.view pen.old) (K.view out.old) (calls.flag_calls outcome flag.now) (W.view pen.new) (K.view out.new) }
    ensures state { state_of (W.view pen.new) ≡ InsideTag }
{
    match outcome {
        FindingKind::Error(error) => pen.attribute(out, "flag", code_of(error)),
        FindingKind::Failed | FindingKind::Reported => put_given(pen, out, "flag", flag),
    }
}

/// Writes the role, for which `error` stands where the test ends in one.
fn put_role<W: Writer, K: Sink>(
    pen: &mut W,
    out: &mut K,
    outcome: FindingKind,
    role: &Option<Lent<'_>>,
) -> Result<(), WriteFault>
    requires { state_of (W.view pen.old) ≡ InsideTag }
    ensures makes { Makes result (W.view pen.old) (K.view out.old) (calls.role_calls outcome role.now) (W.view pen.new) (K.view out.new) }
    ensures state { state_of (W.view pen.new) ≡ InsideTag }
{
    match outcome {
        FindingKind::Error(_) => pen.attribute(out, "role", "error"),
        FindingKind::Failed | FindingKind::Reported => put_given(pen, out, "role", role),
    }
}

/// Writes the message in an element of its own.
fn put_message<W: Writer, K: Sink>(
    pen: &mut W,
    out: &mut K,
    message: &Txt,
) -> Result<(), WriteFault>
    ensures makes { Makes result (W.view pen.old) (K.view out.old) (calls.message_calls message.now) (W.view pen.new) (K.view out.new) }
    ensures state { state_of (W.view pen.new) ≢ Fresh }
{
    pen.start(out, "svrl:text")?;
    put_words(pen, out, message)?;
    pen.end(out, "svrl:text")
}

fn put_words<W: Writer, K: Sink>(pen: &mut W, out: &mut K, text: &Txt) -> Result<(), WriteFault>
    requires { state_of (W.view pen.old) ≢ Fresh }
    ensures makes { Makes result (W.view pen.old) (K.view out.old) (calls.text_calls text.now) (W.view pen.new) (K.view out.new) }
    ensures state { state_of (W.view pen.new) ≢ Fresh }
{
    put_text(pen, out, text.as_str())
}

/// Writes a text, if it has a character.
fn put_text<W: Writer, K: Sink>(pen: &mut W, out: &mut K, text: &str) -> Result<(), WriteFault>
    requires { state_of (W.view pen.old) ≢ Fresh }
    ensures makes { Makes result (W.view pen.old) (K.view out.old) (calls.byte_calls text.now) (W.view pen.new) (K.view out.new) }
    ensures state { state_of (W.view pen.new) ≢ Fresh }
{
    if text.is_empty() {
        return Ok(());
    }
    pen.text(out, text)
}

/// Writes an attribute, if it is given.
fn put_given<W: Writer, K: Sink>(
    pen: &mut W,
    out: &mut K,
    name: &str,
    value: &Option<Lent<'_>>,
) -> Result<(), WriteFault>
    requires { state_of (W.view pen.old) ≡ InsideTag }
    ensures makes { Makes result (W.view pen.old) (K.view out.old) (calls.given_calls name.now value.now) (W.view pen.new) (K.view out.new) }
    ensures state { state_of (W.view pen.new) ≡ InsideTag }
{
    match value {
        None => Ok(()),
        Some(value) => put_attribute(pen, out, name, value),
    }
}

fn put_attribute<W: Writer, K: Sink>(
    pen: &mut W,
    out: &mut K,
    name: &str,
    value: &Lent<'_>,
) -> Result<(), WriteFault>
    requires { state_of (W.view pen.old) ≡ InsideTag }
    ensures makes { Makes result (W.view pen.old) (K.view out.old) (call_attribute name.now (encode_utf8_all value.now) ∷ []) (W.view pen.new)
        (K.view out.new) }
    ensures state { state_of (W.view pen.new) ≡ InsideTag }
{
    pen.attribute(out, name, value.as_str())
}
