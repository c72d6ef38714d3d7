ghost use Rattle.std.specs.Prelude.{◌≡◌, map};
ghost use Rattle.page_tables.specs.Tables.{item_lent};
ghost use Rattle.page_layouts.specs.Layouts as spec;
ghost use Rattle.page_values.specs.Places as places;
ghost use Rattle.page_layouts.specs.Streaming.{Shows, head_lent};
ghost use Rattle.page_values.specs.Seen.{IsPlace, seen};

use crate::items::put_item_in;
use crate::pens::{Head, Pen};
use inv_base::Sink;
use page_tables::Item;
use page_values::{Place, count_in, occurrence};
use term_table::Group;

/// Writes the items of a layout.
pub fn put_layout<K: Sink>(
    head: &Head,
    place: &Place<'_>,
    items: &[Item],
    pen: &mut Pen,
    out: &mut K,
)
    requires { IsPlace place.now }
    ensures { Shows (head_lent head.now) (spec.layout (seen place.now) (map item_lent items.now)) pen.old pen.new (K.view out.old) (K.view out.new) }
{
    'items: for item in items {
        put_item(head, place, item, pen, out);
    }
}

fn put_item<K: Sink>(head: &Head, place: &Place<'_>, item: &Item, pen: &mut Pen, out: &mut K)
    requires { IsPlace place.now }
    ensures { Shows (head_lent head.now) (spec.item_text (seen place.now) (item_lent item.now)) pen.old pen.new (K.view out.old) (K.view out.new) }
{
    match item.0 {
        None => put_item_in(head, place, item.1, item.2, item.3, pen, out),
        Some(group) => put_in_each(head, place, group, item, pen, out),
    }
}

/// Writes an item in each occurrence of a group.
fn put_in_each<K: Sink>(
    head: &Head,
    place: &Place<'_>,
    group: Group,
    item: &Item,
    pen: &mut Pen,
    out: &mut K,
)
    requires { IsPlace place.now }
    ensures { Shows (head_lent head.now) (spec.in_each (seen place.now) group (item_lent item.now)) pen.old pen.new (K.view out.old) (K.view out.new) }
{
    let count = count_in(place, group);
    'occurrences: for behind in 0..count {
        put_in_occurrence(head, place, group, behind + 1, item, pen, out);
    }
}

fn put_in_occurrence<K: Sink>(
    head: &Head,
    place: &Place<'_>,
    group: Group,
    k: u32,
    item: &Item,
    pen: &mut Pen,
    out: &mut K,
)
    requires { IsPlace place.now }
    ensures { Shows (head_lent head.now) (spec.one_in (places.occurrence (seen place.now) group k) (item_lent item.now)) pen.old pen.new (K.view out.old)
        (K.view out.new) }
{
    let inside = occurrence(place, group, k);
    put_item_in(head, &inside, item.1, item.2, item.3, pen, out);
}
