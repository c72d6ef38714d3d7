ghost use Rattle.std.specs.Prelude.{◌≡◌, ◌||◌, ◌&&◌, not, option_map, option_copied, slice_get, Some, None, true, false, List};
ghost use Rattle.std.specs.List.{list_any};
ghost use Rattle.bind_table.specs.Growing.{AreLines};
ghost use Rattle.bind_table.specs.Lines.{Plan, Cell, flat};
ghost use Rattle.bind_meaning.specs.Writing as writing;
ghost use Rattle.bind_meaning.specs.Trees as trees;
ghost use Rattle.bind_write.specs.Sources as sources;
ghost use Rattle.bind_write.specs.Wordings as wordings;
ghost use Rattle.bind_write.specs.Holding as spec;

use crate::source::{Source, context_for, entries_for};
use crate::spots::{number_of, spot_at, spots_of};
use crate::wording::{Plain, Wording, term_wording};
use bind_rows::{Content, Row, Written};
use bind_table::Line;
use term_table::{Context, Term};

fn has_placeholder(row: &Row) -> bool
    ensures { result ≡ spec.has_placeholder row.now.written }
{
    matches!(row.written, Written::OrPlaceholder(_))
}

/// Whether it is plain without a look at the entries that a row writes nothing of its term in the context: no such term stands in the
/// context's occurrence, and the row has no placeholder. Where it isn't plain, it may still write nothing.
fn is_absent(source: &Source<'_>, row: &Row, term: Term, context: Context) -> bool
    requires source { sources.IsSource source.now }
    requires context { sources.IsAround source.now.context context }
    ensures { result ≡ true → writing.term_text row.now source.now.entries.now term context ≡ None }
{
    if context.outer.is_none() {
        return false;
    }
    if source.presence.may_have(term) {
        return false;
    }
    !has_placeholder(row)
}

/// What a row writes: its constant, or what its term has in the context.
pub(crate) fn wording_of<'a>(source: &Source<'a>, row: &'a Row) -> Option<Wording<'a>>
    requires { sources.IsSource source.now }
    ensures text { option_map wordings.wording_text result ≡ trees.constant_or_text source.now.entries.now source.now.context row.now }
    ensures plain { sources.is_note row.now.form ≡ false → wordings.IsPlain result }
{
    match &row.content {
        Content::Constant(text) => Some(Wording {
            subject: None,
            text: Plain::Text(text),
        }),
        Content::Term(term) => {
            let context = context_for(row, source.context);
            if is_absent(source, row, *term, context) {
                return None;
            }
            term_wording(row, entries_for(source, context), *term, context)
        }
    }
}

/// Whether a row with a term writes something.
pub(crate) fn writes(source: &Source<'_>, row: &Row) -> bool
    requires { sources.IsSource source.now }
    ensures { result ≡ spec.writes source.now.entries.now source.now.context row.now }
{
    match &row.content {
        Content::Constant(_) => false,
        Content::Term(term) => {
            let context = context_for(row, source.context);
            if is_absent(source, row, *term, context) {
                return false;
            }
            term_wording(row, entries_for(source, context), *term, context).is_some()
        }
    }
}

/// The row of that number, from 0.
pub(crate) fn row_at(rows: &[Row], number: usize) -> Option<&Row>
    ensures { option_copied result ≡ slice_get rows.now number }
{
    rows.get(number)
}

/// Whether some row of the line writes an entry.
fn cells_hold(source: &Source<'_>, line: &Line) -> bool
    requires { sources.IsSource source.now }
    ensures { result ≡ spec.rows_hold source.now.entries.now source.now.rows.now line.now.rows source.now.context }
{
    let numbers = line.rows.as_slice();
    'rows: for number in numbers {
        if writes_at(source, *number) {
            return true;
        }
    }
    false
}

fn writes_at(source: &Source<'_>, number: usize) -> bool
    requires { sources.IsSource source.now }
    ensures { result ≡ spec.holds_at source.now.entries.now source.now.context (slice_get source.now.rows.now number) }
{
    match row_at(source.rows, number) {
        Some(row) => writes(source, row),
        None => false,
    }
}

/// Whether some line of these holds an entry in the context.
#[cycle(holding)]
fn holds(source: &Source<'_>, lines: &[Line]) -> bool
    requires source { sources.IsSource source.now }
    requires lines { AreLines lines.now }
    ensures { (plan : Plan) → spec.IsPlanOf source.now.rows.now lines.now plan → result ≡ trees.holds source.now.entries.now plan source.now.context }
{
    let mut rest = lines;
    'lines: while let Some((line, behind)) = rest.split_first() {
        let (inside, further) = behind.split_at(line.size);
        if is_held_somewhere(source, line, inside) {
            return true;
        }
        rest = further;
    }
    false
}

/// The same of one line with what is inside it, in some occurrence of its group.
#[cycle(holding)]
fn is_held_somewhere(source: &Source<'_>, line: &Line, inside: &[Line]) -> bool
    requires source { sources.IsSource source.now }
    requires lines { AreLines inside.now }
    ensures { (cells : List Cell) (plan : Plan) → spec.IsLineOf source.now.rows.now line.now inside.now cells plan
        → result ≡ list_any (trees.line_holds source.now.entries.now cells plan) (trees.spots source.now.entries.now source.now.context line.now.step.group) }
{
    if line.step.group.is_none() {
        return is_held(source, line, inside);
    }
    let spots = spots_of(source, line.step.group);
    'spots: for k in 0..number_of(spots) {
        if is_held(&spot_at(source, spots, k, 0), line, inside) {
            return true;
        }
    }
    false
}

/// Whether the line or one inside it holds an entry in the context.
#[cycle(holding)]
pub(crate) fn is_held(source: &Source<'_>, line: &Line, inside: &[Line]) -> bool
    requires source { sources.IsSource source.now }
    requires lines { AreLines inside.now }
    ensures { (cells : List Cell) (plan : Plan) → spec.IsLineOf source.now.rows.now line.now inside.now cells plan
        → result ≡ trees.line_holds source.now.entries.now cells plan source.now.context }
{
    cells_hold(source, line) || holds(source, inside)
}

fn has_term_at(rows: &[Row], number: usize) -> bool
    ensures { result ≡ spec.has_term_at (slice_get rows.now number) }
{
    match row_at(rows, number) {
        Some(row) => row.has_term(),
        None => false,
    }
}

fn has_constant_at(rows: &[Row], number: usize) -> bool
    ensures { result ≡ spec.has_constant_at (slice_get rows.now number) }
{
    match row_at(rows, number) {
        Some(row) => !row.has_term(),
        None => false,
    }
}

/// Whether some row of the line has a term.
fn has_terms(rows: &[Row], line: &Line) -> bool
    ensures { result ≡ spec.line_has_terms rows.now line.now }
{
    line.rows
        .as_slice()
        .iter()
        .any(|number| has_term_at(rows, *number))
}

/// Whether some row of the line is a constant.
fn has_constant(rows: &[Row], line: &Line) -> bool
    ensures { result ≡ spec.line_has_constant rows.now line.now }
{
    line.rows
        .as_slice()
        .iter()
        .any(|number| has_constant_at(rows, *number))
}

/// Whether some row of these lines has a term.
fn have_terms(rows: &[Row], lines: &[Line]) -> bool
    ensures { result ≡ list_any (spec.line_has_terms rows.now) lines.now }
{
    'lines: for line in lines {
        if has_terms(rows, line) {
            return true;
        }
    }
    false
}

/// Whether no row of the line and of those inside it has a term.
fn is_constant(rows: &[Row], line: &Line, inside: &[Line]) -> bool
    ensures { result ≡ not (spec.line_has_terms rows.now line.now || list_any (spec.line_has_terms rows.now) inside.now) }
{
    !(has_terms(rows, line) || have_terms(rows, inside))
}

fn is_held_constant(rows: &[Row], line: &Line, inside: &[Line], held: bool) -> bool
    ensures { result ≡ (held && not (spec.line_has_terms rows.now line.now || list_any (spec.line_has_terms rows.now) inside.now)) }
{
    held && is_constant(rows, line, inside)
}

/// Whether a line that holds no entry is written.
fn is_due(rows: &[Row], line: &Line, held: bool, constant: bool) -> bool
    ensures { result ≡ (constant || (line.now.step.always || (held && spec.line_has_constant rows.now line.now))) }
{
    constant || line.step.always || held && has_constant(rows, line)
}

/// Whether a line is written in the context, and if so, whether what is inside it stands in an element that holds an entry.
/// `held` says it of the element above.
pub(crate) fn standing(
    source: &Source<'_>,
    line: &Line,
    inside: &[Line],
    held: bool,
) -> Option<bool>
    requires source { sources.IsSource source.now }
    requires lines { AreLines inside.now }
    ensures { (cells : List Cell) (plan : Plan) → spec.IsLineOf source.now.rows.now line.now inside.now cells plan
        → result ≡ spec.standing source.now.entries.now line.now.step cells plan held source.now.context }
{
    if is_held(source, line, inside) {
        return Some(true);
    }
    let constant = is_held_constant(source.rows, line, inside, held);
    if is_due(source.rows, line, held, constant) {
        Some(constant)
    } else {
        None
    }
}
