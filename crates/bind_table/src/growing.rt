ghost use Rattle.std.specs.Prelude.{◌≡◌, ◌||◌, ◌&&◌, ◌^◌, nat_lt, slice_get, slice_set, Some, ℕ, ◌<◌, ◌≤◌, ◌+◌, ◌++◌, [], ◌∷◌, length, take, drop, IfOk};
ghost use Rattle.std.specs.Prelude.{IsTrue, OnOk, OnErr, vec_len};
ghost use Rattle.bind_rows.specs.Same.{same_step};
ghost use Rattle.bind_table.specs.Lines.{Plan, Cell, flat, add, nothing};
ghost use Rattle.bind_table.specs.Growing as spec;
ghost use Rattle.bind_table.specs.declared.lines.Line.{Line};

use crate::lines::Line;
use bind_rows::{Copied, Many, Same, Step};
use std::alloc::{AllocError, Global};

/// Adds a row to the lines, under its number.
pub(crate) fn add_row(
    alloc: Global,
    lines: &mut Vec<Line>,
    path: &[Step],
    row: usize,
) -> Result<(), AllocError>
    requires { spec.AreLines lines.old.items }
    ensures ok { OnOk result (spec.AddsRow path.now row lines.old.items lines.new.items) }
    ensures err { OnErr result (lines.new.items ≡ lines.old.items) }
{
    let end = lines.len();
    extend(alloc, lines, 0, end, path, row)?;
    Ok(())
}

/// Adds a row to the lines from one place to another, which are those inside one line. Answers how many lines that
/// took.
fn extend(
    alloc: Global,
    lines: &mut Vec<Line>,
    from: usize,
    to: usize,
    path: &[Step],
    row: usize,
) -> Result<usize, AllocError>
    requires { spec.AreLinesWithin lines.old.items from to }
    ensures ok { IfOk result (λ more. spec.AddsWithin path.now row from to more lines.old.items lines.new.items) }
    ensures err { OnErr result (lines.new.items ≡ lines.old.items) }
{
    let Some((step, deeper)) = path.split_first() else {
        return Ok(0);
    };
    let at = seek(lines.as_slice(), from, to, step);
    if !is_line_of(lines.as_slice(), at, to, step) {
        return insert(alloc, lines, at, path, row);
    }
    if deeper.is_empty() {
        note_row(lines, at, row)?;
        return Ok(0);
    }
    let end = end_of(lines.as_slice(), at);
    let more = extend(alloc, lines, at + 1, end, deeper, row)?;
    enlarge(lines, at, more);
    Ok(more)
}

/// Whether the line at a place that was sought for a step is the step's. Where it isn't, it has a greater number.
fn is_line_of(lines: &[Line], at: usize, to: usize, step: &Step) -> bool
    requires { (x : Line) → at < to → slice_get lines.now at ≡ Some x → IsTrue (same_step step.now x.step || nat_lt step.now.number x.step.number) }
    ensures { result ≡ (nat_lt at to && spec.is_line_of step.now (slice_get lines.now at)) }
{
    match lines.get(at) {
        Some(line) => (at < to) & !(step.number < line.step.number),
        None => false,
    }
}

/// The place behind a line and its inside.
fn end_of(lines: &[Line], at: usize) -> usize
    requires there { at < length lines.now }
    requires fits { (x : Line) → slice_get lines.now at ≡ Some x → at + (1 + x.size) ≤ length lines.now }
    ensures { (x : Line) → slice_get lines.now at ≡ Some x → result ≡ at + (1 + x.size) }
{
    at + (1 + lines[at].size)
}

/// Notes that the row ends at the line.
fn note_row(lines: &mut Vec<Line>, at: usize, row: usize) -> Result<(), AllocError>
    requires { at < vec_len lines.old }
    ensures ok { OnOk result ((x : Line) → slice_get lines.old.items at ≡ Some x →
        lines.new.items ≡ slice_set lines.old.items at (record x { rows = x.rows ++ row ∷ [] })) }
    ensures err { OnErr result (lines.new.items ≡ lines.old.items) }
{
    let line = &mut lines[at];
    line.rows.push(row)?;
    Ok(())
}

/// Notes that as many more lines stand inside the line.
fn enlarge(lines: &mut Vec<Line>, at: usize, more: usize)
    requires there { at < vec_len lines.old }
    requires fits { (x : Line) → slice_get lines.old.items at ≡ Some x → x.size + more < 2 ^ 64 }
    ensures { (x : Line) → slice_get lines.old.items at ≡ Some x → lines.new.items ≡ slice_set lines.old.items at (record x { size = x.size + more }) }
{
    lines[at].size += more;
}

/// The first of the lines at this level that is the step's or stands behind it.
fn seek(lines: &[Line], from: usize, to: usize, step: &Step) -> usize
    requires { spec.AreLinesWithin lines.now from to }
    ensures { spec.Seeks lines.now from to step.now result }
{
    let mut at = from;
    'beside: while at < to {
        let line = &lines[at];
        if stops(step, line) {
            return at;
        }
        at += 1 + line.size;
    }
    at
}

fn stops(step: &Step, line: &Line) -> bool
    ensures { result ≡ (same_step step.now line.now.step || nat_lt step.now.number line.now.step.number) }
{
    step.is_same(&line.step) || step.number < line.step.number
}

/// Puts the lines of a path that has none yet before the line at a place. Answers how many there are.
fn insert(
    alloc: Global,
    lines: &mut Vec<Line>,
    at: usize,
    path: &[Step],
    row: usize,
) -> Result<usize, AllocError>
    requires { at ≤ vec_len lines.old }
    ensures ok { IfOk result (λ more. (more ≡ length path.now) ×
        (lines.new.items ≡ take at lines.old.items ++ (spec.chain path.now row ++ drop at lines.old.items))) }
    ensures err { OnErr result (lines.new.items ≡ lines.old.items) }
{
    let mut fresh = chain(alloc, path, row)?;
    let behind = lines.len() - at;
    lines.rotate_left(at);
    let moved = lines.append(&mut fresh);
    lines.rotate_left(behind);
    moved?;
    Ok(path.len())
}

/// One line inside another, the row at the innermost.
fn chain(alloc: Global, path: &[Step], row: usize) -> Result<Vec<Line>, AllocError>
    ensures { IfOk result (λ fresh. fresh.items ≡ spec.chain path.now row) }
{
    let mut fresh = Vec::new(alloc);
    let mut left = path;
    'steps: while let Some((step, deeper)) = left.split_first() {
        let mut rows = Many::new(alloc);
        if deeper.is_empty() {
            rows.push(row)?;
        }
        fresh.push(Line {
            step: step.copied(alloc)?,
            rows,
            size: deeper.len(),
        })?;
        left = deeper;
    }
    Ok(fresh)
}
