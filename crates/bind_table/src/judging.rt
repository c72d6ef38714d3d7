ghost use Rattle.std.specs.Prelude.{◌≡◌, ℕ, [], chars, bytes_eq, ◌<◌, ◌≤◌, ◌+◌, ◌^◌, length, take, option_map};
ghost use Rattle.std.specs.List.{list_all};
ghost use Rattle.bind_rows.specs.Added.{built};
ghost use Rattle.bind_rows.specs.Same.{same_group};
ghost use Rattle.bind_table.specs.WellFormed as spec;

use crate::adding::added_fault;
use crate::parting::clash;
use bind_rows::{
    Content, ElementName, Namespace, Row, Same, Step, Word, are_same, is_added, is_same_or_none,
};
use inv_base::is_same_text;
use term_table::{Group, row_in};

/// What may be wrong with a row of a table.
#[derive(Clone, Copy, Debug, PartialEq, Eq)]
pub enum TableKind {
    /// Another row has its path of names, and no guard parts the two. Of a row that a user added: its path doesn't part
    /// from another row's by a name, or goes through an element without a term below it.
    Ambiguous,
    /// It has a term that isn't one of the semantic model in its context, and no user added the row.
    UnknownTerm,
    /// Its path doesn't carry its context. Of a row that a user added: or goes through another group.
    OutsideContext,
}

/// A row of a table, from 1, and what is wrong with it.
#[derive(Clone, Copy, Debug, PartialEq, Eq)]
pub struct TableFault {
    pub kind: TableKind,
    pub row: u32,
}

/// The first row at which something is wrong.
pub(crate) fn first_fault(rows: &[Row]) -> Result<(), TableFault>
    requires { length rows.now < 2 ^ 31 }
    ensures { result ≡ spec.first_fault rows.now }
{
    'rows: for (k, row) in rows.iter().enumerate() {
        match fault_of(rows, k, row) {
            Some(kind) => {
                return Err(TableFault {
                    kind,
                    row: k as u32 + 1,
                });
            }
            None => {}
        }
    }
    Ok(())
}

fn fault_of(rows: &[Row], k: usize, row: &Row) -> Option<TableKind>
    ensures { result ≡ spec.fault_of rows.now (built rows.now) k row.now }
{
    if is_added(row) {
        added_fault(rows, k, row)
    } else {
        own_fault(rows, k, row)
    }
}

fn own_fault(rows: &[Row], k: usize, row: &Row) -> Option<TableKind>
    ensures { result ≡ spec.own_fault rows.now (built rows.now) k row.now }
{
    if is_ambiguous(rows, k, row) {
        return Some(TableKind::Ambiguous);
    }
    if is_unknown(row) {
        return Some(TableKind::UnknownTerm);
    }
    if is_outside(rows, row) {
        return Some(TableKind::OutsideContext);
    }
    None
}

fn is_ambiguous(rows: &[Row], k: usize, row: &Row) -> bool
    ensures { result ≡ spec.is_ambiguous rows.now k row.now }
{
    'rows: for (n, other) in rows.iter().enumerate() {
        if n != k && !is_added(other) && clash(row, other) {
            return true;
        }
    }
    false
}

fn is_unknown(row: &Row) -> bool
    ensures { result ≡ spec.is_unknown row.now row.now.content }
{
    match row.content {
        Content::Term(term) => {
            term.is_extension() || row_in(term, row.outer, row.inner).is_none()
        }
        Content::Constant(_) => false,
    }
}

fn is_outside(rows: &[Row], row: &Row) -> bool
    ensures { result ≡ spec.is_outside (built rows.now) row.now }
{
    !(is_rooted(rows, row)
        && is_placed(rows, row, row.outer)
        && is_placed(rows, row, row.inner)
        && is_nested(row, row.outer, row.inner))
}

pub(crate) fn is_rooted(rows: &[Row], row: &Row) -> bool
    ensures { result ≡ spec.is_rooted (built rows.now) row.now }
{
    'rows: for first in rows {
        if !is_added(first) {
            return has_root(row.path.as_slice(), first.path.as_slice());
        }
    }
    false
}

fn has_root(path: &[Step], first: &[Step]) -> bool
    ensures { result ≡ spec.has_root path.now first.now }
{
    match path.first() {
        Some(step) => match first.first() {
            Some(other) => step.name.is_same(&other.name) && is_root(&step.name),
            None => false,
        },
        None => false,
    }
}

/// Whether the name is that of the root of UBL Invoice, UBL CreditNote or CII.
fn is_root(name: &ElementName) -> bool
    ensures { result ≡ spec.is_root name.now }
{
    is_root_of(name.namespace, &name.local)
}

fn is_root_of(namespace: Namespace, local: &Word) -> bool
    ensures { result ≡ spec.is_root_of namespace local.now }
{
    let text = local.as_str();
    match namespace {
        Namespace::UblInvoice => is_same_text(text, "Invoice"),
        Namespace::UblCreditNote => is_same_text(text, "CreditNote"),
        Namespace::CiiInvoice => is_same_text(text, "CrossIndustryInvoice"),
        _ => false,
    }
}

fn is_placed(rows: &[Row], row: &Row, group: Option<Group>) -> bool
    ensures { result ≡ spec.is_placed (built rows.now) row.now group }
{
    match group {
        Some(group) => is_carried(group, row) && is_carried_once(group, rows),
        None => true,
    }
}

fn is_nested(row: &Row, outer: Option<Group>, inner: Option<Group>) -> bool
    ensures { result ≡ spec.is_nested row.now outer inner }
{
    match outer {
        Some(outer) => match inner {
            Some(inner) => depth_of(outer, row.path.as_slice())
                < depth_of(inner, row.path.as_slice()),
            None => true,
        },
        None => true,
    }
}

pub(crate) fn is_same_group(a: Group, b: Group) -> bool
    ensures { result ≡ same_group a b }
{
    a == b
}

fn carries(group: Group, step: &Step) -> bool
    ensures { result ≡ spec.carries group step.now }
{
    is_same_or_none(step.group, Some(group))
}

/// How many elements of the path come before the first that carries the group. All, if none does.
pub(crate) fn depth_of(group: Group, path: &[Step]) -> usize
    ensures depth { result ≡ spec.depth_of group path.now }
    ensures within { result ≤ length path.now }
{
    let mut depth = 0;
    'steps: for step in path {
        if carries(group, step) {
            return depth;
        }
        depth += 1;
    }
    depth
}

fn is_carried(group: Group, row: &Row) -> bool
    ensures { result ≡ spec.is_carried group row.now }
{
    depth_of(group, row.path.as_slice()) < row.path.len()
}

/// Whether one element of the built-in part alone carries the group, or none.
pub(crate) fn is_carried_once(group: Group, rows: &[Row]) -> bool
    ensures { result ≡ spec.is_carried_once group (built rows.now) }
{
    match first_carrier(group, rows) {
        Some(first) => all_are(first, group, rows),
        None => true,
    }
}

fn all_are(first: &[Step], group: Group, rows: &[Row]) -> bool
    ensures { result ≡ list_all (λ r. list_all (spec.same_path first.now) (spec.carriers group [] r.path)) (built rows.now) }
{
    'rows: for row in rows {
        if !is_added(row) && !are_all(first, group, row.path.as_slice()) {
            return false;
        }
    }
    true
}

/// The front of the first built-in path that has an element which carries the group.
pub(crate) fn first_carrier(group: Group, rows: &[Row]) -> Option<&[Step]>
    ensures { option_map (λ path. path.now) result ≡ spec.first_carrier group (built rows.now) }
{
    'rows: for row in rows {
        let path = row.path.as_slice();
        let depth = depth_of(group, path);
        if !is_added(row) && depth < path.len() {
            return Some(path.split_at(depth + 1).0);
        }
    }
    None
}

/// Whether the fronts of the path that end at an element which carries the group are all this one.
fn are_all(first: &[Step], group: Group, path: &[Step]) -> bool
    ensures { result ≡ list_all (spec.same_path first.now) (spec.carriers group [] path.now) }
{
    'steps: for (depth, step) in path.iter().enumerate() {
        if carries(group, step) && !are_same(first, path.split_at(depth + 1).0) {
            return false;
        }
    }
    true
}
