//! The lines of a table with their names as a document has them.

ghost use Rattle.std.specs.Prelude.{◌≡◌, ◌+◌, ◌++◌, ◌||◌, option_copied, slice_get, take, IfOk, OnOk};
ghost use Rattle.std.specs.List.{flat_map, list_any};
ghost use Rattle.bind_table.specs.Lines.{flat, plan_of};
ghost use Rattle.bind_walk.specs.Lines as spec;

use crate::{FoundGuard, FoundLeaf, element_number, find_guards, leaf_number};
use bind_rows::{Check, Content, Many, Row, is_added};
use bind_table::{Binding, Line};
use node_arena::Doc;
use std::alloc::{AllocError, Global};
use term_table::Group;

/// Why a row is read.
#[derive(Clone, Copy)]
pub(crate) enum Wanted {
    /// It has a term.
    Term,
    /// It has none, and its word is checked.
    Indicator,
}

/// Where a row ends: at the element of its line, or at an attribute of it.
#[derive(Clone, Copy)]
pub(crate) enum End {
    Element,
    Attribute,
}

/// A row that is read, by its number from 1, as picks tell their rows. The lines of the table have its index, from 0.
#[derive(Clone, Copy)]
pub(crate) struct FoundRow {
    pub(crate) number: u32,
    pub(crate) wanted: Wanted,
    pub(crate) end: End,
    /// The number that the attribute's name has in the document, if any.
    pub(crate) attribute: Option<u32>,
    pub(crate) outer: Option<Group>,
    pub(crate) inner: Option<Group>,
}

/// A line of the table, with those of its rows that are read.
pub(crate) struct FoundLine {
    pub(crate) name: Option<u32>,
    pub(crate) guards: Many<FoundGuard>,
    pub(crate) group: Option<Group>,
    pub(crate) rows: Many<FoundRow>,
    /// Its number in the table, where a row that nobody added ends at it or inside it.
    pub(crate) place: Option<u32>,
    /// How many lines stand inside this one.
    pub(crate) size: usize,
}

impl Drop for FoundLine {
    fn drop(self) {
        let FoundLine {
            name: _,
            guards,
            group: _,
            rows,
            place: _,
            size: _,
        } = self;
        drop(guards);
        drop(rows);
    }
}

pub(crate) fn find_lines(
    alloc: Global,
    doc: &Doc<'_>,
    table: &Binding,
) -> Result<Vec<FoundLine>, AllocError>
    ensures { IfOk result (λ found. found.items ≡ spec.found_lines doc.now table.now (flat (plan_of table.now))) }
{
    let all = table.rows();
    let mut found = Vec::new(alloc);
    let mut left = table.lines();
    'lines: while let Some((line, behind)) = left.split_first() {
        let place = place_of(all, line, behind);
        found.push(find_line(alloc, doc, line, place, all)?)?;
        left = behind;
    }
    Ok(found)
}

fn find_line(
    alloc: Global,
    doc: &Doc<'_>,
    line: &Line,
    place: Option<u32>,
    rows: &[Row],
) -> Result<FoundLine, AllocError>
    ensures { IfOk result (λ found. found ≡ spec.found_line doc.now rows.now line.now place) }
{
    Ok(FoundLine {
        name: element_number(alloc, doc, &line.step.name)?,
        guards: find_guards(alloc, doc, line.step.guards.as_slice())?,
        group: line.step.group,
        rows: find_rows(alloc, doc, line.rows.as_slice(), rows)?,
        place,
        size: line.size,
    })
}

/// The place of a line with those behind it. Mostly the first row that is looked at gives it.
fn place_of(rows: &[Row], line: &Line, behind: &[Line]) -> Option<u32>
    ensures { result ≡ spec.line_place rows.now line.now behind.now }
{
    place_if(
        is_built(rows, line, front(behind, line.size)),
        line.step.number,
    )
}

fn place_if(is_built: bool, number: u32) -> Option<u32>
    ensures { result ≡ spec.place_if is_built number }
{
    if is_built { Some(number) } else { None }
}

/// Whether a row that nobody added ends at a line or inside it.
fn is_built(rows: &[Row], line: &Line, inside: &[Line]) -> bool
    ensures { result ≡ (spec.has_built rows.now line.now || list_any (spec.has_built rows.now) inside.now) }
{
    if has_built(rows, line.rows.as_slice()) {
        return true;
    }
    'lines: for inner in inside {
        if has_built(rows, inner.rows.as_slice()) {
            return true;
        }
    }
    false
}

fn has_built(rows: &[Row], numbers: &[usize]) -> bool
    ensures { result ≡ list_any (spec.is_built_at rows.now) numbers.now }
{
    'numbers: for number in numbers {
        if is_built_at(rows, *number) {
            return true;
        }
    }
    false
}

fn is_built_at(rows: &[Row], number: usize) -> bool
    ensures { result ≡ spec.is_built_at rows.now number }
{
    match row_of(rows, number) {
        Some(row) => !is_added(row),
        None => false,
    }
}

/// The first so many lines, or all.
fn front(lines: &[Line], size: usize) -> &[Line]
    ensures { result.now ≡ take size lines.now }
{
    if size < lines.len() {
        lines.split_at(size).0
    } else {
        lines
    }
}

/// Those of the rows with these numbers that are read.
fn find_rows(
    alloc: Global,
    doc: &Doc<'_>,
    numbers: &[usize],
    rows: &[Row],
) -> Result<Many<FoundRow>, AllocError>
    ensures { IfOk result (λ found. found ≡ flat_map (spec.found_at doc.now rows.now) numbers.now) }
{
    let mut found = Many::new(alloc);
    'numbers: for number in numbers {
        add_row(alloc, doc, *number, rows, &mut found)?;
    }
    Ok(found)
}

/// Puts the row of that number behind the others, if it is read.
fn add_row(
    alloc: Global,
    doc: &Doc<'_>,
    number: usize,
    rows: &[Row],
    found: &mut Many<FoundRow>,
) -> Result<(), AllocError>
    ensures { OnOk result (found.new ≡ found.old ++ spec.found_at doc.now rows.now number) }
{
    match row_of(rows, number) {
        Some(row) => add_wanted(alloc, doc, number, row, found),
        None => Ok(()),
    }
}

fn row_of(rows: &[Row], number: usize) -> Option<&Row>
    ensures { option_copied result ≡ slice_get rows.now number }
{
    rows.get(number)
}

fn add_wanted(
    alloc: Global,
    doc: &Doc<'_>,
    number: usize,
    row: &Row,
    found: &mut Many<FoundRow>,
) -> Result<(), AllocError>
    ensures { OnOk result (found.new ≡ found.old ++ spec.found_row doc.now number row.now) }
{
    match wanted_of(row) {
        Some(wanted) => {
            found.push(find_row(alloc, doc, number, row, wanted)?)?;
            Ok(())
        }
        None => Ok(()),
    }
}

fn find_row(
    alloc: Global,
    doc: &Doc<'_>,
    number: usize,
    row: &Row,
    wanted: Wanted,
) -> Result<FoundRow, AllocError>
    ensures { IfOk result (λ found. found ≡ spec.wanted_row doc.now number row.now wanted) }
{
    let leaf = leaf_number(alloc, doc, &row.leaf)?;
    Ok(FoundRow {
        number: number_of(number)?,
        wanted,
        end: end_at(&leaf),
        attribute: attribute_at(&leaf),
        outer: row.outer,
        inner: row.inner,
    })
}

fn end_at(leaf: &FoundLeaf) -> End
    ensures { result ≡ spec.end_at leaf.now }
{
    match leaf {
        FoundLeaf::Element => End::Element,
        FoundLeaf::Attribute(_) => End::Attribute,
    }
}

fn attribute_at(leaf: &FoundLeaf) -> Option<u32>
    ensures { result ≡ spec.attribute_at leaf.now }
{
    match leaf {
        FoundLeaf::Element => None,
        FoundLeaf::Attribute(name) => *name,
    }
}

fn wanted_of(row: &Row) -> Option<Wanted>
    ensures { result ≡ spec.wanted row.now }
{
    match row.content {
        Content::Term(_) => Some(Wanted::Term),
        Content::Constant(_) => match row.check {
            Check::Indicator(_) => Some(Wanted::Indicator),
            Check::Nothing | Check::Scheme | Check::Format => None,
        },
    }
}

// A number of 32 bits serves 4,294,967,295 rows. Where a table has more, memory runs out.
fn number_of(number: usize) -> Result<u32, AllocError>
    ensures { IfOk result (λ n. n ≡ number + 1) }
{
    match u32::try_from(number) {
        Ok(n) if n < u32::MAX => Ok(n + 1),
        _ => Err(AllocError),
    }
}
