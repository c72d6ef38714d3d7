use crate::building::context_of;
use crate::texts::halves;
use std::test::Fail;
use term_table::{
    Group, ListingPlace, TermRow, data_type_in, list_in, place_of, row_in, row_of, term_row,
};
use test_rows::expect;

/// The groups in the order of their rows.
const LABELS: &str =
    "invoice BG-1 BG-2 BG-3 BG-4 P-29 P-29S BG-5 BG-6 BG-7 BG-8 BG-9 BG-10 BG-11 BG-12 BG-13 BG-14 BG-15 BG-16 BG-17 BG-18 BG-19 \
BG-20 BG-21 BG-22 BG-23 BG-24 BG-25 BG-26 BG-27 BG-28 BG-29 BG-30 BG-31 P-158 BG-32";

/// The group of a row, with its label in front of the words that are left where it is another than before.
fn label_behind<'a>(
    k: usize,
    before: Option<Group>,
    words: &'a str,
) -> Result<(Option<Group>, &'a str), Fail> {
    let group = term_row(k).ok_or("row")?.group;
    if before == Some(group) {
        return Ok((before, words));
    }
    let (label, behind) = halves(words, ' ');
    (label == group.label()).then_some(()).ok_or(k)?;
    Ok((Some(group), behind))
}

#[test]
fn groups_have_labels() -> Result<(), Fail> {
    let mut words = LABELS;
    let mut before = None;
    for k in 0..181 {
        let (group, behind) = label_behind(k, before, words)?;
        before = group;
        words = behind;
    }
    expect(words.is_empty(), "labels")
}
/// The place of a row, which stands there and behind the one before it.
fn place_behind(k: usize, before: Option<ListingPlace>) -> Result<Option<ListingPlace>, Fail> {
    let row = term_row(k).ok_or("row")?;
    let context = context_of(row.group, 1, 1);
    let place = place_of(row.term, context);
    let holds = row_of(row.term, context) == Some(k) && place > before;
    holds.then_some(()).ok_or(k)?;
    Ok(place)
}

#[test]
fn rows_stand_in_order() -> Result<(), Fail> {
    let mut before = None;
    for k in 0..181 {
        before = place_behind(k, before)?;
    }
    expect(term_row(181).is_none(), "last row")
}

fn is_typed(k: usize, row: &TermRow) -> bool {
    let (outer, inner) = (row.group.outer(), row.group.inner());
    row_in(row.term, outer, inner) == Some(k)
        && data_type_in(row.term, outer, inner) == Some(row.data_type)
        && list_in(row.term, outer, inner) == row.list
}

#[test]
fn rows_have_types_and_lists() -> Result<(), Fail> {
    for k in 0..181 {
        let row = term_row(k).ok_or("row")?;
        is_typed(k, &row).then_some(()).ok_or(k)?;
    }
    Ok(())
}
