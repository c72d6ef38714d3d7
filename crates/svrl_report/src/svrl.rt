ghost use Rattle.std.specs.Prelude.{◌≡◌, ◌≢◌, encode_utf8_all};
ghost use Rattle.inv_base.specs.Writing.{Writes};
ghost use Rattle.xml_write.specs.declared.pen.PenState.TheVariants.{Fresh};
ghost use Rattle.xml_write.specs.Writers.{state_of, Makes};
ghost use Rattle.svrl_report.specs.Svrl as spec;
ghost use Rattle.svrl_report.specs.Calls as calls;

use crate::elements::{put_finding, put_fired, put_pattern};
use inv_base::Sink;
use schematron_findings::{Findings, Line};
use xml_write::{Pen, WriteFault, Writer, calls_append_canonical_text};

const SVRL_URI: &str = "http://purl.oclc.org/dsdl/svrl";

/// Writes the report in the Schematron Validation Report Language on what several rule files found. Behind a fault the
/// sink has taken a front of it.
pub fn write_svrl<K: Sink>(findings: &[Findings<'_>], out: &mut K) -> Result<(), WriteFault>
    ensures { Writes result (encode_utf8_all (spec.svrl_report findings.now)) (K.view out.old) (K.view out.new) }
{
    calls_append_canonical_text();
    let mut pen = Pen::new();
    put_report(&mut pen, out, findings)?;
    pen.close(out)
}

/// Writes the root and what stands in it.
fn put_report<W: Writer, K: Sink>(
    pen: &mut W,
    out: &mut K,
    findings: &[Findings<'_>],
) -> Result<(), WriteFault>
    ensures makes { Makes result (W.view pen.old) (K.view out.old) (calls.report_calls findings.now) (W.view pen.new) (K.view out.new) }
    ensures state { calls.IsPastOk result (state_of (W.view pen.new)) }
{
    pen.start(out, "svrl:schematron-output")?;
    pen.declare(out, "svrl", SVRL_URI)?;
    put_files(pen, out, findings)?;
    pen.end(out, "svrl:schematron-output")
}

fn put_files<W: Writer, K: Sink>(
    pen: &mut W,
    out: &mut K,
    findings: &[Findings<'_>],
) -> Result<(), WriteFault>
    requires { state_of (W.view pen.old) ≢ Fresh }
    ensures makes { Makes result (W.view pen.old) (K.view out.old) (calls.files_calls findings.now) (W.view pen.new) (K.view out.new) }
    ensures state { state_of (W.view pen.new) ≢ Fresh }
{
    'files: for file in findings {
        put_file(pen, out, file)?;
    }
    Ok(())
}

fn put_file<W: Writer, K: Sink>(
    pen: &mut W,
    out: &mut K,
    file: &Findings<'_>,
) -> Result<(), WriteFault>
    requires { state_of (W.view pen.old) ≢ Fresh }
    ensures makes { Makes result (W.view pen.old) (K.view out.old) (calls.lines_calls file.now) (W.view pen.new) (K.view out.new) }
    ensures state { state_of (W.view pen.new) ≢ Fresh }
{
    put_lines(pen, out, file.lines())
}

fn put_lines<W: Writer, K: Sink>(
    pen: &mut W,
    out: &mut K,
    lines: &[Line<'_>],
) -> Result<(), WriteFault>
    requires { state_of (W.view pen.old) ≢ Fresh }
    ensures makes { Makes result (W.view pen.old) (K.view out.old) (calls.lines_calls lines.now) (W.view pen.new) (K.view out.new) }
    ensures state { state_of (W.view pen.new) ≢ Fresh }
{
    'lines: for line in lines {
        put_line(pen, out, line)?;
    }
    Ok(())
}

fn put_line<W: Writer, K: Sink>(pen: &mut W, out: &mut K, line: &Line<'_>) -> Result<(), WriteFault>
    ensures makes { Makes result (W.view pen.old) (K.view out.old) (calls.line_calls line.now) (W.view pen.new) (K.view out.new) }
    ensures state { state_of (W.view pen.new) ≢ Fresh }
{
    match line {
        Line::Pattern { id } => put_pattern(pen, out, id),
        Line::Fired {
            node: _,
            rule: _,
            context,
        } => put_fired(pen, out, context),
        Line::Found(finding) => put_finding(pen, out, finding),
    }
}
