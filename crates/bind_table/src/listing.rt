ghost use Rattle.std.specs.Prelude.{◌≡◌, ◌<◌, ◌+◌, ◌^◌, [], ◌∷◌, All, IfOk, IsTrue, length};
ghost use Rattle.bind_table.specs.Items as spec;
ghost use Rattle.bind_table.specs.Making.{CanMake, made_of};

use crate::Binding;
use crate::cells::{Cell, check_of, content_of, form_of, repeats_of, written_of};
use crate::conditions::attribute_leaf;
use crate::items::{Head, TableItem, step_of};
use bind_rows::{Copied, Leaf, Many, Repeats, Row, Step};
use std::alloc::{AllocError, Global};
use term_table::Group;

/// The groups of which a context has an occurrence.
#[derive(Clone, Copy)]
struct Seat {
    outer: Option<Group>,
    inner: Option<Group>,
}

fn inside(seat: Seat, step: &Step) -> Seat
    ensures { result ≡ spec.inside seat step.now }
{
    match step.group {
        None => seat,
        Some(group) => match seat.outer {
            None => Seat {
                outer: Some(group),
                inner: None,
            },
            Some(_) => Seat {
                outer: seat.outer,
                inner: Some(group),
            },
        },
    }
}

fn around(seat: Seat) -> Seat
    ensures { result ≡ spec.around seat }
{
    match seat.inner {
        None => Seat {
            outer: None,
            inner: None,
        },
        Some(_) => Seat {
            outer: seat.outer,
            inner: None,
        },
    }
}

/// The context inside all elements of a path.
fn seat_in(path: &[Step]) -> Seat
    ensures { result ≡ spec.seat_in path.now }
{
    let mut seat = Seat {
        outer: None,
        inner: None,
    };
    'steps: for step in path {
        seat = inside(seat, step);
    }
    seat
}

/// The context of what stands at the end of a path.
fn seat_of(path: &[Step], repeats: Repeats) -> Seat
    ensures { result ≡ spec.seat_of path.now repeats }
{
    let seat = seat_in(path);
    match repeats {
        Repeats::Spread => around(seat),
        Repeats::Once | Repeats::Agreeing => seat,
    }
}

fn copies(alloc: Global, path: &[Step]) -> Result<Many<Step>, AllocError>
    ensures { IfOk result (λ steps. steps ≡ path.now) }
{
    let mut steps = Many::new(alloc);
    'steps: for step in path {
        steps.push(step.copied(alloc)?)?;
    }
    Ok(steps)
}

fn row_of(alloc: Global, path: &[Step], leaf: Leaf, cell: &Cell) -> Result<Row, AllocError>
    ensures { IfOk result (λ row. row ≡ spec.row_of path.now leaf cell.now) }
{
    let repeats = repeats_of(cell);
    let seat = seat_of(path, repeats);
    Ok(Row {
        path: copies(alloc, path)?,
        leaf,
        outer: seat.outer,
        inner: seat.inner,
        content: content_of(alloc, cell)?,
        form: form_of(cell),
        repeats,
        written: written_of(alloc, cell)?,
        check: check_of(cell),
    })
}

/// A table that is being made: its rows so far, the elements that haven't ended, and the number of the next element.
#[derive(Drop)]
struct Listing {
    rows: Binding,
    path: Vec<Step>,
    next: u32,
}

fn begin(alloc: Global, listing: &mut Listing, head: &Head) -> Result<(), AllocError>
    requires { listing.old.next + 1 < 2 ^ 31 }
    ensures { IfOk result (λ _. made_of listing.new ≡ spec.begun head.now (made_of listing.old)) }
{
    let step = step_of(alloc, head, listing.next)?;
    listing.path.push(step)?;
    listing.next += 1;
    Ok(())
}

fn add_row(alloc: Global, listing: &mut Listing, leaf: Leaf, cell: &Cell) -> Result<(), AllocError>
    requires few { length listing.old.rows + 1 < 2 ^ 31 }
    requires steps { 0 < length listing.old.path.items }
    requires numbers { All (λ s. s.number < 2 ^ 31) listing.old.path.items }
    ensures { IfOk result (λ _. made_of listing.new ≡ spec.with_row leaf cell.now (made_of listing.old)) }
{
    let row = row_of(alloc, listing.path.as_slice(), leaf, cell)?;
    listing.rows.push(row)?;
    Ok(())
}

fn end(listing: &mut Listing)
    requires { 0 < length listing.old.path.items }
    ensures { made_of listing.new ≡ spec.ended (made_of listing.old) }
{
    let depth = listing.path.len();
    listing.path.truncate(depth - 1);
}

fn make(alloc: Global, listing: &mut Listing, item: &TableItem) -> Result<(), AllocError>
    requires { CanMake (item.now ∷ []) (made_of listing.old) }
    ensures { IfOk result (λ _. made_of listing.new ≡ spec.made_by item.now (made_of listing.old)) }
{
    match item {
        TableItem::Element(head) => begin(alloc, listing, head),
        TableItem::Text(cell) => add_row(alloc, listing, Leaf::Element, cell),
        TableItem::Attribute(name, cell) => {
            let leaf = attribute_leaf(alloc, name)?;
            add_row(alloc, listing, leaf, cell)
        }
        TableItem::End => {
            end(listing);
            Ok(())
        }
    }
}

fn make_all(alloc: Global, listing: &mut Listing, items: &[TableItem]) -> Result<(), AllocError>
    requires { CanMake items.now (made_of listing.old) }
    ensures { IfOk result (λ _. made_of listing.new ≡ spec.made_by_all items.now (made_of listing.old)) }
{
    'items: for item in items {
        make(alloc, listing, item)?;
    }
    Ok(())
}

/// The table that is listed so, in sections that stand one behind the other.
pub fn listed(alloc: Global, sections: &[&[TableItem]]) -> Result<Binding, AllocError>
    requires { IsTrue (spec.is_table (spec.joined sections.now)) }
    ensures { IfOk result (λ rows. rows ≡ spec.rows_of (spec.joined sections.now)) }
{
    let mut listing = Listing {
        rows: Binding::new(alloc),
        path: Vec::new(alloc),
        next: 1,
    };
    'sections: for section in sections {
        make_all(alloc, &mut listing, section)?;
    }
    Ok(listing.rows)
}
