//! Items that are compared with many items of one type, each read once as one of that type.
ghost use Rattle.std.specs.Prelude.{◌≡◌, ◌<◌, length, option_map, IfOk};
ghost use Rattle.xpath_meaning.specs.Comparing as meaning;
ghost use Rattle.xpath_operators.specs.Rows as spec;

use crate::ranking::rank;
use crate::searching::{are_typed_as, is_typed_as, read_beside};
use std::alloc::{AllocError, Global};
use xpath_items::{DynError, Item, Str};

/// The same item, with its text lent.
fn lent<'s>(item: &'s Item<'_>) -> Item<'s>
    ensures { result ≡ item.now }
{
    match item {
        Item::Node(node) => Item::Node(*node),
        Item::Boolean(b) => Item::Boolean(*b),
        Item::Number(number) => Item::Number(*number),
        Item::String(text) => Item::String(Str::lent(text.as_str())),
        Item::Untyped(text) => Item::Untyped(Str::lent(text.as_str())),
        Item::Date(day) => Item::Date(*day),
    }
}

/// An item as it is read beside another.
fn beside<'s>(other: &Item<'_>, item: &'s Item<'_>) -> Result<Item<'s>, DynError>
    ensures { result ≡ meaning.beside other.now item.now }
{
    match item {
        Item::Untyped(text) => read_beside(other, text.as_str()),
        _ => Ok(lent(item)),
    }
}

/// The same, where it is of the other's type. One of another type is XPTY0004.
fn row<'s>(other: &Item<'_>, item: &'s Item<'_>) -> Result<Item<'s>, DynError>
    ensures { result ≡ spec.row other.now item.now }
{
    let read = beside(other, item)?;
    if is_typed_as(rank(other), &read) {
        Ok(read)
    } else {
        Err(DynError::XPTY0004)
    }
}

/// Each item as it is read beside another, or none where one can't be.
fn rows<'s>(
    alloc: Global,
    other: &Item<'_>,
    items: &'s [Item<'_>],
) -> Result<Option<Vec<Item<'s>>>, AllocError>
    ensures { IfOk result (λ read. spec.AreRead other.now items.now (option_map (λ items. items.items) read)) }
{
    let mut read = Vec::with_capacity(alloc, items.len())?;
    'items: for item in items {
        match row(other, item) {
            Ok(item) => read.push(item)?,
            Err(_) => return Ok(None),
        }
    }
    Ok(Some(read))
}

/// The items on the right as they are read beside those on the left, where these are of one type and each can be read
/// so. Where one can't, the first on the left decides, since it is beside each.
pub(crate) fn read_alike<'s>(
    alloc: Global,
    xs: &[Item<'_>],
    ys: &'s [Item<'_>],
) -> Result<Option<Vec<Item<'s>>>, AllocError>
    requires xs { 0 < length xs.now }
    requires ys { 0 < length ys.now }
    ensures { IfOk result (λ read. spec.AreAlike xs.now ys.now (option_map (λ items. items.items) read)) }
{
    let first = &xs[0];
    if are_typed_as(rank(first), xs) {
        rows(alloc, first, ys)
    } else {
        Ok(None)
    }
}
