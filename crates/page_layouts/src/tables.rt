ghost use Rattle.std.specs.Prelude.{◌≡◌, true, flat_map, map};
ghost use Rattle.page_tables.specs.Tables.{cell_lent, item_lent, row_lent};
ghost use Rattle.inv_base.specs.Printing.{Prints};
ghost use Rattle.page_values.specs.Places as places;
ghost use Rattle.page_layouts.specs.Streaming.{Shows, head_lent};
ghost use Rattle.page_values.specs.Seen.{IsPlace, seen};
ghost use Rattle.page_layouts.specs.Tables as spec;

use crate::layouts::put_layout;
use crate::pens::{Head, Pen, open};
use inv_base::Sink;
use page_tables::{Align, Cell, Holds, Item, Row};
use page_values::{Place, count_in, occurrence, put_parts};
use term_table::Group;

/// Writes the rows of a table, group by group.
pub fn put_rows<K: Sink>(head: &Head, place: &Place<'_>, groups: &[Row], pen: &mut Pen, out: &mut K)
    requires { IsPlace place.now }
    ensures { Shows (head_lent head.now) (spec.rows (seen place.now) (map row_lent groups.now)) pen.old pen.new (K.view out.old) (K.view out.new) }
{
    'groups: for row in groups {
        put_rows_of(head, place, row, pen, out);
    }
}

/// Writes a row for each occurrence of a group.
fn put_rows_of<K: Sink>(head: &Head, place: &Place<'_>, row: &Row, pen: &mut Pen, out: &mut K)
    requires { IsPlace place.now }
    ensures { Shows (head_lent head.now) (spec.rows_of (seen place.now) (row_lent row.now)) pen.old pen.new (K.view out.old) (K.view out.new) }
{
    let count = count_in(place, row.0);
    'occurrences: for behind in 0..count {
        put_row_in(head, place, row.0, behind + 1, row.1, pen, out);
    }
}

fn put_row_in<K: Sink>(
    head: &Head,
    place: &Place<'_>,
    group: Group,
    k: u32,
    cells: &[Cell],
    pen: &mut Pen,
    out: &mut K,
)
    requires { IsPlace place.now }
    ensures { Shows (head_lent head.now) (spec.table_row (places.occurrence (seen place.now) group k)
        (map cell_lent cells.now)) pen.old pen.new (K.view out.old) (K.view out.new) }
{
    let inside = occurrence(place, group, k);
    put_row(head, &inside, cells, pen, out);
}

fn put_row<K: Sink>(head: &Head, place: &Place<'_>, cells: &[Cell], pen: &mut Pen, out: &mut K)
    requires { IsPlace place.now }
    ensures { Shows (head_lent head.now) (spec.table_row (seen place.now) (map cell_lent cells.now)) pen.old pen.new (K.view out.old) (K.view out.new) }
{
    open(head, pen, out);
    pen.printer.put(out, b"<tr>\n");
    put_cells(head, place, cells, pen, out);
    pen.printer.put(out, b"</tr>\n");
}

fn put_cells<K: Sink>(head: &Head, place: &Place<'_>, cells: &[Cell], pen: &mut Pen, out: &mut K)
    requires place { IsPlace place.now }
    requires begun { pen.old.begun ≡ true }
    ensures prints { Prints (flat_map (spec.cell_text (seen place.now)) (map cell_lent cells.now)) pen.old.printer.failed pen.new.printer.failed
        (K.view out.old) (K.view out.new) }
    ensures begun { pen.new.begun ≡ true }
{
    'cells: for cell in cells {
        put_cell(head, place, cell, pen, out);
    }
}

fn put_cell<K: Sink>(head: &Head, place: &Place<'_>, cell: &Cell, pen: &mut Pen, out: &mut K)
    requires place { IsPlace place.now }
    requires begun { pen.old.begun ≡ true }
    ensures prints { Prints (spec.cell_text (seen place.now) (cell_lent cell.now)) pen.old.printer.failed pen.new.printer.failed (K.view out.old)
        (K.view out.new) }
    ensures begun { pen.new.begun ≡ true }
{
    pen.printer.put(out, cell_start(cell.0));
    put_held(head, place, cell, pen, out);
    pen.printer.put(out, b"</td>\n");
}

fn cell_start(align: Align) -> &'static [u8]
    ensures { result.now ≡ spec.cell_start align }
{
    match align {
        Align::Texts => b"<td>",
        Align::Numbers => b"<td class=\"n\">",
    }
}

/// Writes what a cell holds.
fn put_held<K: Sink>(head: &Head, place: &Place<'_>, cell: &Cell, pen: &mut Pen, out: &mut K)
    requires place { IsPlace place.now }
    requires begun { pen.old.begun ≡ true }
    ensures prints { Prints (spec.held_in (seen place.now) (cell_lent cell.now)) pen.old.printer.failed pen.new.printer.failed (K.view out.old)
        (K.view out.new) }
    ensures begun { pen.new.begun ≡ true }
{
    match cell.1 {
        Holds::Words => pen.printer.put(out, cell.2.as_bytes()),
        Holds::Parts => put_parts(place, cell.3, &mut pen.printer, out),
        Holds::Layout => put_inner_layout(head, place, cell.4, pen, out),
    }
}

fn put_inner_layout<K: Sink>(
    head: &Head,
    place: &Place<'_>,
    items: &[Item],
    pen: &mut Pen,
    out: &mut K,
)
    requires place { IsPlace place.now }
    requires begun { pen.old.begun ≡ true }
    ensures prints { Prints (spec.inner_layout (seen place.now) (map item_lent items.now)) pen.old.printer.failed pen.new.printer.failed (K.view out.old)
        (K.view out.new) }
    ensures begun { pen.new.begun ≡ true }
{
    pen.printer.put(out, b"\n");
    put_layout(head, place, items, pen, out);
}
