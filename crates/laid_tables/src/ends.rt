//! Where the rows of one line end.
ghost use Rattle.std.specs.Prelude.{◌≡◌, slice_get};
ghost use Rattle.std.specs.List.{list_all, list_any};
ghost use Rattle.laid_tables.specs.Lines as spec;

use crate::names::is_writable_leaf;
use bind_rows::Same;
use bind_table::Binding;

/// Whether both are numbers of rows, and these end at one place.
fn end_alike(table: &Binding, number: usize, other: usize) -> bool
    ensures { result ≡ spec.end_alike (slice_get table.now number) (slice_get table.now other) }
{
    match table.part(number) {
        None => false,
        Some(row) => match table.part(other) {
            None => false,
            Some(other) => row.leaf.is_same(&other.leaf),
        },
    }
}

fn ends_like_another(table: &Binding, number: usize, others: &[usize]) -> bool
    ensures { result ≡ list_any (λ other. spec.end_alike (slice_get table.now number) (slice_get table.now other)) others.now }
{
    others.iter().any(|other| end_alike(table, number, *other))
}

/// Whether no two of the rows of these numbers end at one place. They are the few rows of one line.
pub(crate) fn end_apart(table: &Binding, numbers: &[usize]) -> bool
    ensures { result ≡ spec.rows_end_apart table.now numbers.now }
{
    let mut rest = numbers;
    'numbers: while let Some((number, others)) = rest.split_first() {
        if ends_like_another(table, *number, others) {
            return false;
        }
        rest = others;
    }
    true
}

fn ends_writably(table: &Binding, number: usize) -> bool
    ensures { result ≡ spec.ends_writably (slice_get table.now number) }
{
    match table.part(number) {
        None => false,
        Some(row) => is_writable_leaf(&row.leaf),
    }
}

/// Whether the rows of these numbers end where they can be written.
pub(crate) fn end_writably(table: &Binding, numbers: &[usize]) -> bool
    ensures { result ≡ list_all (λ number. spec.ends_writably (slice_get table.now number)) numbers.now }
{
    numbers.iter().all(|number| ends_writably(table, *number))
}
