ghost use Rattle.std.specs.Prelude.{◌≡◌, filter, option_map};
ghost use Rattle.std.specs.List.{list_all};
ghost use Rattle.bind_rows.specs.Added.{built};
ghost use Rattle.bind_rows.specs.Contents.{has_term};
ghost use Rattle.bind_table.specs.Crossings.{passes_no_group};
ghost use Rattle.bind_table.specs.WellFormed as spec;

use crate::crossings::{is_proper_front, part_by_name, passes_no_group, shared};
use crate::judging::{
    TableKind, depth_of, first_carrier, is_carried_once, is_rooted, is_same_group,
};
use bind_rows::{Row, Step, are_same, is_added};
use term_table::Group;

/// What is wrong with the k-th row, from 0, which a user added.
pub(crate) fn added_fault(rows: &[Row], k: usize, row: &Row) -> Option<TableKind>
    ensures { result ≡ spec.added_fault rows.now (built rows.now) k row.now }
{
    if !is_in_context(rows, row) {
        return Some(TableKind::OutsideContext);
    }
    if !parts_from(rows, k, row) {
        return Some(TableKind::Ambiguous);
    }
    if !is_held(rows, row) {
        return Some(TableKind::Ambiguous);
    }
    None
}

fn is_in_context(rows: &[Row], row: &Row) -> bool
    ensures { result ≡ spec.is_in_context (built rows.now) row.now }
{
    is_rooted(rows, row)
        && begins_there(rows, row, row.outer)
        && carries_only(row.outer, row.path.as_slice())
        && passes_no_other(rows, row)
}

fn begins_there(rows: &[Row], row: &Row, group: Option<Group>) -> bool
    ensures { result ≡ spec.begins_there (built rows.now) row.now group }
{
    match group {
        Some(group) => {
            is_carried_once(group, rows) && begins_with(first_carrier(group, rows), group, row)
        }
        None => true,
    }
}

fn begins_with(front: Option<&[Step]>, group: Group, row: &Row) -> bool
    ensures { result ≡ spec.begins_with (option_map (λ path. path.now) front.entry) group row.now }
{
    match front {
        Some(front) => {
            let path = row.path.as_slice();
            let depth = depth_of(group, path);
            depth < path.len() && are_same(front, path.split_at(depth + 1).0)
        }
        None => false,
    }
}

/// Whether one element of the path carries the group, and no other one a group.
fn carries_only(group: Option<Group>, path: &[Step]) -> bool
    ensures { result ≡ spec.carries_only group path.now }
{
    let mut left = group;
    'steps: for step in path {
        if let Some(carried) = step.group {
            match left {
                None => return false,
                Some(wanted) => {
                    if !is_same_group(carried, wanted) {
                        return false;
                    }
                    left = None;
                }
            }
        }
    }
    match left {
        None => true,
        Some(_) => false,
    }
}

fn passes_no_other(rows: &[Row], row: &Row) -> bool
    ensures { result ≡ list_all (λ r. passes_no_group row.now.outer row.now.path r.path) (built rows.now) }
{
    'rows: for other in rows {
        if !is_added(other)
            && !passes_no_group(row.outer, row.path.as_slice(), other.path.as_slice())
        {
            return false;
        }
    }
    true
}

fn stands_clear(row: &Row, other: &Row) -> bool
    ensures { result ≡ spec.stands_clear row.now other.now }
{
    part_by_name(row.path.as_slice(), other.path.as_slice())
        || (is_added(other) && is_proper_front(row.path.as_slice(), other.path.as_slice()))
}

fn parts_from(rows: &[Row], k: usize, row: &Row) -> bool
    ensures { result ≡ spec.parts_from rows.now 0 k row.now }
{
    'rows: for (n, other) in rows.iter().enumerate() {
        if n != k && !stands_clear(row, other) {
            return false;
        }
    }
    true
}

fn most_shared(rows: &[Row], path: &[Step]) -> usize
    ensures { result ≡ spec.most_shared path.now (built rows.now) }
{
    let mut most = 0;
    'rows: for row in rows {
        if !is_added(row) {
            most = most.max(shared(path, row.path.as_slice()));
        }
    }
    most
}

fn most_held(rows: &[Row], path: &[Step]) -> usize
    ensures { result ≡ spec.most_shared path.now (filter has_term (built rows.now)) }
{
    let mut most = 0;
    'rows: for row in rows {
        if !is_added(row) && row.has_term() {
            most = most.max(shared(path, row.path.as_slice()));
        }
    }
    most
}

fn is_held(rows: &[Row], row: &Row) -> bool
    ensures { result ≡ spec.is_held (built rows.now) row.now }
{
    most_shared(rows, row.path.as_slice()) == most_held(rows, row.path.as_slice())
}
