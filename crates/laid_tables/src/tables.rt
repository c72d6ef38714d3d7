//! Whether a table is laid, and has no note with a code in an attribute.
ghost use Rattle.std.specs.Prelude.{◌≡◌, ◌&&◌, IfOk};
ghost use Rattle.std.specs.List.{list_all};
ghost use Rattle.bind_table.specs.Laid.{is_writable};
ghost use Rattle.bind_table.specs.Lines.{plan_of, flat};
ghost use Rattle.bind_write.specs.Sources.{has_plain_attribute};
ghost use Rattle.laid_tables.specs.Lines as spec;

use crate::ends::{end_apart, end_writably};
use crate::names::is_writable_name;
use crate::numbers::are_distinct;
use bind_rows::{Form, Leaf, Namespace, Row};
use bind_table::{Binding, Line};
use std::alloc::{AllocError, Global};

/// Whether no line has two rows that end at one place.
fn all_end_apart(table: &Binding, lines: &[Line]) -> bool
    ensures { result ≡ list_all (spec.line_ends_apart table.now) lines.now }
{
    lines
        .iter()
        .all(|line| end_apart(table, line.rows.as_slice()))
}

fn is_writable(table: &Binding, root: Namespace, line: &Line) -> bool
    ensures { result ≡ spec.is_writable_line table.now root line.now }
{
    is_writable_name(root, &line.step.name) && end_writably(table, line.rows.as_slice())
}

/// Whether the names of all lines, and of the attributes at which their rows end, can be written below a root of that namespace.
fn all_writable(table: &Binding, root: Namespace, lines: &[Line]) -> bool
    ensures { result ≡ list_all (spec.is_writable_line table.now root) lines.now }
{
    lines.iter().all(|line| is_writable(table, root, line))
}

/// Whether the lines are those of a table that is laid.
fn are_laid(alloc: Global, table: &Binding, lines: &[Line]) -> Result<bool, AllocError>
    ensures { IfOk result (λ laid. laid ≡ spec.are_laid table.now lines.now) }
{
    match lines.split_first() {
        None => Ok(false),
        Some((root, behind)) => {
            if root.size != behind.len() {
                return Ok(false);
            }
            if !all_end_apart(table, lines) {
                return Ok(false);
            }
            if !all_writable(table, root.step.name.namespace, lines) {
                return Ok(false);
            }
            are_distinct(alloc, lines)
        }
    }
}

/// Whether the row ends at an element, or has a value that is one text.
fn has_plain_attribute(row: &Row) -> bool
    ensures { result ≡ has_plain_attribute row.now }
{
    match row.leaf {
        Leaf::Element => true,
        Leaf::Attribute(_) => match row.form {
            Form::CodedNote => false,
            _ => true,
        },
    }
}

fn have_plain_attributes(rows: &[Row]) -> bool
    ensures { result ≡ list_all has_plain_attribute rows.now }
{
    rows.iter().all(|row| has_plain_attribute(row))
}

/// Whether invoices can be written by a table: each number is one element of it, one element is the root, no two rows end
/// at one place, the names can be written, and no note with a subject code stands in an attribute. These are the
/// conditions of `write` and `measure` (bind_write).
pub fn can_be_written(alloc: Global, table: &Binding) -> Result<bool, AllocError>
    ensures { IfOk result (λ answer. answer ≡ (is_writable table.now && list_all has_plain_attribute table.now)) }
{
    if are_laid(alloc, table, table.lines())? {
        Ok(have_plain_attributes(table.rows()))
    } else {
        Ok(false)
    }
}
