ghost use Rattle.std.specs.Prelude.{◌≡◌, ◌≢◌, ◌∷◌, [], List, flat_map, map, IfSome};
ghost use Rattle.xml_write.specs.declared.pen.PenState.TheVariants.{Fresh, InsideTag, PastTag};
ghost use Rattle.xml_write.specs.Writers.{state_of, Makes};
ghost use Rattle.bind_table.specs.Growing.{AreLines};
ghost use Rattle.bind_table.specs.Lines.{Plan, Cell, nothing, a_line};
ghost use Rattle.bind_meaning.specs.Trees as trees;
ghost use Rattle.bind_write.specs.Sources as sources;
ghost use Rattle.bind_write.specs.Holding as holding;
ghost use Rattle.bind_write.specs.Roots as spec;

use crate::cells::put_cells;
use crate::holding::standing;
use crate::source::Source;
use crate::spots::{number_of, spot_at, spots_of};
use crate::walking::{put_end, put_lines, put_start};
use bind_rows::{Namespace, Step, declared_by, prefix_of, uri_of};
use bind_table::Line;
use inv_base::Sink;
use xml_write::{WriteFault, Writer};

/// The root element of a document.
#[derive(Clone, Copy)]
pub(crate) struct Root<'a> {
    /// The invoice, as the root sees it.
    pub source: Source<'a>,
    pub line: &'a Line,
    pub inside: &'a [Line],
    /// What is inside it stands in an element that holds an entry.
    pub held: bool,
}

/// The root of the invoice's document, if it has one. The first of the lines is that of the root.
pub(crate) fn root_of<'a>(source: &Source<'a>, lines: &'a [Line]) -> Option<Root<'a>>
    requires source { sources.IsSource source.now }
    requires lines { AreLines lines.now }
    ensures { spec.FindsRoot source.now lines.now result }
{
    match lines.split_first() {
        None => None,
        Some((line, behind)) => {
            let (inside, _) = behind.split_at(line.size);
            root_at(source, line, inside)
        }
    }
}

fn root_at<'a>(source: &Source<'a>, line: &'a Line, inside: &'a [Line]) -> Option<Root<'a>>
    requires source { sources.IsSource source.now }
    requires lines { AreLines inside.now }
    ensures { (cells : List Cell) (plan : Plan) → holding.IsLineOf source.now.rows.now line.now inside.now cells plan →
        spec.IsRootOf source.now line.now.step cells plan result }
{
    let spots = spots_of(source, line.step.group);
    'spots: for k in 0..number_of(spots) {
        let here = spot_at(source, spots, k, 0);
        match standing(&here, line, inside, false) {
            None => {}
            Some(held) => {
                return Some(Root {
                    source: here,
                    line,
                    inside,
                    held,
                });
            }
        }
    }
    None
}

fn put_declaration<W: Writer, K: Sink>(
    pen: &mut W,
    out: &mut K,
    namespace: Namespace,
) -> Result<(), WriteFault>
    requires { state_of (W.view pen.old) ≡ InsideTag }
    ensures makes { Makes result (W.view pen.old) (K.view out.old) (spec.declaration_call namespace ∷ []) (W.view pen.new) (K.view out.new) }
    ensures state { state_of (W.view pen.new) ≡ InsideTag }
{
    pen.declare(out, prefix_of(namespace), uri_of(namespace))
}

/// Declares the namespaces of the syntax whose root is in this one.
fn put_declarations<W: Writer, K: Sink>(
    pen: &mut W,
    out: &mut K,
    root: Namespace,
) -> Result<(), WriteFault>
    requires { state_of (W.view pen.old) ≡ InsideTag }
    ensures makes { Makes result (W.view pen.old) (K.view out.old) (spec.declaration_calls root) (W.view pen.new) (K.view out.new) }
    ensures state { state_of (W.view pen.new) ≡ InsideTag }
{
    let namespaces = declared_by(root);
    'namespaces: for namespace in namespaces {
        put_declaration(pen, out, *namespace)?;
    }
    Ok(())
}

/// Writes the start tag and the text of the root.
fn put_root_start<W: Writer, K: Sink>(
    pen: &mut W,
    out: &mut K,
    source: &Source<'_>,
    line: &Line,
) -> Result<(), WriteFault>
    requires { sources.IsSource source.now }
    ensures makes { Makes result (W.view pen.old) (K.view out.old) (spec.root_start source.now.rows.now source.now.entries.now line.now source.now.context)
        (W.view pen.new) (K.view out.new) }
    ensures state { state_of (W.view pen.new) ≢ Fresh }
{
    put_start(pen, out, &line.step)?;
    put_declarations(pen, out, line.step.name.namespace)?;
    put_cells(pen, out, source, line)
}

/// Writes the root with what is inside it.
pub(crate) fn put_root<W: Writer, K: Sink>(
    pen: &mut W,
    out: &mut K,
    root: &Root<'_>,
) -> Result<(), WriteFault>
    requires source { sources.IsSource root.now.source }
    requires lines { AreLines root.now.inside.now }
    ensures makes { (cells : List Cell) (plan : Plan) → holding.IsLineOf root.now.source.rows.now root.now.line.now root.now.inside.now cells plan
        → Makes result (W.view pen.old) (K.view out.old)
        (spec.root_calls root.now.source.entries.now root.now.line.now.step cells plan root.now.held root.now.source.context) (W.view pen.new)
        (K.view out.new) }
    ensures state { spec.IsPastOk result (state_of (W.view pen.new)) }
{
    put_root_start(pen, out, &root.source, root.line)?;
    put_lines(pen, out, &root.source, root.inside, root.held)?;
    put_end(pen, out, &root.line.step)
}
