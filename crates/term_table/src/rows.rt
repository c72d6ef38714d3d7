ghost use Rattle.std.specs.Prelude.{◌≡◌, ◌≤◌, length, position, take, true};
ghost use Rattle.term_table.specs.SemanticModel.{is_extension};
ghost use Rattle.term_table.specs.Contexts as contexts;
ghost use Rattle.term_table.specs.Numbers as numbers;
ghost use Rattle.term_table.specs.Rows as spec;

use crate::contexts::Context;
use crate::groups::Group;
use crate::terms::{DataType, FIRST_ROWS, TERMS, Term, TermRow, term_row};
use code_lists::List;

/// Whether both are the same group, or both are none.
fn are_same(a: Option<Group>, b: Option<Group>) -> bool
    ensures { result ≡ contexts.same_groups a b }
{
    match (a, b) {
        (None, None) => true,
        (Some(a), Some(b)) => a.is_same(b),
        (None, Some(_)) => false,
        (Some(_), None) => false,
    }
}

fn stands_in(group: Group, outer: Option<Group>, inner: Option<Group>) -> bool
    ensures { result ≡ contexts.stands_in group outer inner }
{
    are_same(outer, group.outer()) && are_same(inner, group.inner())
}

/// Whether the terms of the group stand in such a context.
pub fn has_context(group: Group, context: Context) -> bool
    ensures { result ≡ contexts.has_context group context }
{
    stands_in(group, context.outer_group(), context.inner_group())
}

fn is_row_in(term: Term, outer: Option<Group>, inner: Option<Group>, row: &TermRow) -> bool
    ensures { result ≡ spec.is_row_in term outer inner row.now }
{
    row.term.is_same(term) && stands_in(row.group, outer, inner)
}

// Where the rows of the terms of a number begin.
fn first_of(firsts: &[u8], number: u16) -> usize
    ensures { result ≡ numbers.first_of firsts.now number }
{
    match firsts.get(number as usize) {
        Some(first) => *first as usize,
        None => 181,
    }
}

fn row_from(
    rows: &[TermRow],
    first: usize,
    term: Term,
    outer: Option<Group>,
    inner: Option<Group>,
) -> Option<usize>
    requires { first ≤ length rows.now }
    ensures { result ≡ numbers.row_from rows.now first term outer inner }
{
    let (_, behind) = rows.split_at(first);
    let k = position_in(behind, term, outer, inner)?;
    Some(first + k)
}

// The place of the row among the first three.
fn position_in(
    rows: &[TermRow],
    term: Term,
    outer: Option<Group>,
    inner: Option<Group>,
) -> Option<usize>
    ensures { result ≡ position (spec.is_row_in term outer inner) (take 3 rows.now) }
{
    rows.iter()
        .take(3)
        .position(|row| is_row_in(term, outer, inner, row))
}

/// The number of the row of a term in an occurrence of the outer group, if there is one, and of the inner group inside
/// it. It looks at three rows at most.
pub fn row_in(term: Term, outer: Option<Group>, inner: Option<Group>) -> Option<usize>
    ensures { result ≡ spec.row_in term outer inner }
{
    if term.is_extension() {
        return extension_row(term, outer, inner);
    }
    row_from(
        &TERMS,
        first_of(&FIRST_ROWS, term.number),
        term,
        outer,
        inner,
    )
}

// The number of the row of a term that a user's table adds.
fn extension_row(term: Term, outer: Option<Group>, inner: Option<Group>) -> Option<usize>
    requires { is_extension term ≡ true }
    ensures { result ≡ numbers.extension_row term.number outer inner }
{
    let first = (term.number as usize - 1001) * 2;
    if stands_in(Group::InvoiceLine, outer, inner) {
        return Some(181 + first);
    }
    if stands_in(Group::Root, outer, inner) {
        return Some(181 + (first + 1));
    }
    None
}

/// The number of the row of a term in a context. It looks at three rows at most.
pub fn row_of(term: Term, context: Context) -> Option<usize>
    ensures { result ≡ spec.row_of term context }
{
    row_in(term, context.outer_group(), context.inner_group())
}

/// The type of a term in occurrences of these groups, where it stands in such.
pub fn data_type_in(term: Term, outer: Option<Group>, inner: Option<Group>) -> Option<DataType>
    ensures { result ≡ spec.data_type_in term outer inner }
{
    let row = term_row(row_in(term, outer, inner)?)?;
    Some(row.data_type)
}

// The type of the first three rows' term that is this one.
fn letter_from(rows: &[TermRow], first: usize, term: Term) -> Option<DataType>
    requires { first ≤ length rows.now }
    ensures { result ≡ numbers.letter_from rows.now first term }
{
    let (_, behind) = rows.split_at(first);
    let row = behind.iter().take(3).find(|row| row.term.is_same(term))?;
    Some(row.data_type)
}

/// The type of a term, which is one wherever the term stands. None of what is no business term. It looks at three rows
/// at most.
pub fn data_type_of(term: Term) -> Option<DataType>
    ensures { result ≡ spec.data_type_of term }
{
    letter_from(&TERMS, first_of(&FIRST_ROWS, term.number), term)
}

/// The list that a term's codes come from in occurrences of these groups, where it stands in such and has a list.
pub fn list_in(term: Term, outer: Option<Group>, inner: Option<Group>) -> Option<List>
    ensures { result ≡ spec.list_in term outer inner }
{
    let row = term_row(row_in(term, outer, inner)?)?;
    row.list
}
