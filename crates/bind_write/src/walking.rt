ghost use Rattle.std.specs.Prelude.{◌≡◌, ◌≢◌, List, flat_map};
ghost use Rattle.xml_write.specs.declared.pen.PenState.TheVariants.{Fresh, InsideTag, PastTag};
ghost use Rattle.xml_write.specs.Writers.{state_of, Makes};
ghost use Rattle.bind_table.specs.Growing.{AreLines};
ghost use Rattle.bind_table.specs.Lines.{Plan, Cell};
ghost use Rattle.bind_meaning.specs.Trees as trees;
ghost use Rattle.bind_write.specs.Sources as sources;
ghost use Rattle.bind_write.specs.Holding as holding;
ghost use Rattle.bind_write.specs.Walking as spec;

use crate::cells::put_cells;
use crate::holding::standing;
use crate::source::Source;
use crate::spots::{number_of, spot_at, spots_of};
use bind_rows::{Step, prefix_of};
use bind_table::Line;
use inv_base::Sink;
use xml_write::{WriteFault, Writer};

/// Begins the element of a step.
pub(crate) fn put_start<W: Writer, K: Sink>(
    pen: &mut W,
    out: &mut K,
    step: &Step,
) -> Result<(), WriteFault>
    ensures makes { Makes result (W.view pen.old) (K.view out.old) (spec.start_calls step.now) (W.view pen.new) (K.view out.new) }
    ensures state { state_of (W.view pen.new) ≡ InsideTag }
{
    pen.start_qualified(
        out,
        prefix_of(step.name.namespace),
        step.name.local.as_str(),
    )
}

/// Ends the element of a step.
pub(crate) fn put_end<W: Writer, K: Sink>(
    pen: &mut W,
    out: &mut K,
    step: &Step,
) -> Result<(), WriteFault>
    requires { state_of (W.view pen.old) ≢ Fresh }
    ensures makes { Makes result (W.view pen.old) (K.view out.old) (spec.end_calls step.now) (W.view pen.new) (K.view out.new) }
    ensures state { state_of (W.view pen.new) ≡ PastTag }
{
    pen.end_qualified(
        out,
        prefix_of(step.name.namespace),
        step.name.local.as_str(),
    )
}

/// Writes these lines in the context. `held` says whether the element above holds an entry.
#[cycle(walking)]
pub(crate) fn put_lines<W: Writer, K: Sink>(
    pen: &mut W,
    out: &mut K,
    source: &Source<'_>,
    lines: &[Line],
    held: bool,
) -> Result<(), WriteFault>
    requires state { state_of (W.view pen.old) ≢ Fresh }
    requires source { sources.IsSource source.now }
    requires lines { AreLines lines.now }
    ensures makes { (plan : Plan) → holding.IsPlanOf source.now.rows.now lines.now plan
        → Makes result (W.view pen.old) (K.view out.old) (spec.plan_calls source.now.entries.now plan held source.now.context) (W.view pen.new)
        (K.view out.new) }
    ensures state { state_of (W.view pen.new) ≢ Fresh }
{
    let mut rest = lines;
    'lines: while let Some((line, behind)) = rest.split_first() {
        let (inside, further) = behind.split_at(line.size);
        put_line(pen, out, source, line, inside, held)?;
        rest = further;
    }
    Ok(())
}

/// Writes a line with what is inside it, in each occurrence of its group.
#[cycle(walking)]
fn put_line<W: Writer, K: Sink>(
    pen: &mut W,
    out: &mut K,
    source: &Source<'_>,
    line: &Line,
    inside: &[Line],
    held: bool,
) -> Result<(), WriteFault>
    requires state { state_of (W.view pen.old) ≢ Fresh }
    requires source { sources.IsSource source.now }
    requires lines { AreLines inside.now }
    ensures makes { (cells : List Cell) (plan : Plan) → holding.IsLineOf source.now.rows.now line.now inside.now cells plan
        → Makes result (W.view pen.old) (K.view out.old)
        (flat_map (spec.element_calls source.now.entries.now line.now.step cells plan held)
        (trees.spots source.now.entries.now source.now.context line.now.step.group)) (W.view pen.new) (K.view out.new) }
    ensures state { state_of (W.view pen.new) ≢ Fresh }
{
    if line.step.group.is_none() {
        return put_element(pen, out, source, line, inside, held);
    }
    let spots = spots_of(source, line.step.group);
    let mut place = 0;
    'spots: for k in 0..number_of(spots) {
        let here = spot_at(source, spots, k, place);
        place = here.end;
        put_element(pen, out, &here, line, inside, held)?;
    }
    Ok(())
}

/// Writes a line with what is inside it in the context, if it is written there.
#[cycle(walking)]
fn put_element<W: Writer, K: Sink>(
    pen: &mut W,
    out: &mut K,
    source: &Source<'_>,
    line: &Line,
    inside: &[Line],
    held: bool,
) -> Result<(), WriteFault>
    requires state { state_of (W.view pen.old) ≢ Fresh }
    requires source { sources.IsSource source.now }
    requires lines { AreLines inside.now }
    ensures makes { (cells : List Cell) (plan : Plan) → holding.IsLineOf source.now.rows.now line.now inside.now cells plan
        → Makes result (W.view pen.old) (K.view out.old) (spec.element_calls source.now.entries.now line.now.step cells plan held source.now.context)
        (W.view pen.new) (K.view out.new) }
    ensures state { state_of (W.view pen.new) ≢ Fresh }
{
    match standing(source, line, inside, held) {
        None => Ok(()),
        Some(further) => {
            put_start(pen, out, &line.step)?;
            put_cells(pen, out, source, line)?;
            put_lines(pen, out, source, inside, further)?;
            put_end(pen, out, &line.step)
        }
    }
}
