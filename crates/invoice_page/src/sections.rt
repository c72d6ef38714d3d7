ghost use Rattle.std.specs.Prelude.{◌≡◌, [], flat_map, map, if◌then◌else◌};
ghost use Rattle.page_tables.specs.Tables.{section_lent, table_lent};
ghost use Rattle.inv_base.specs.Printing.{Prints};
ghost use Rattle.invoice_page.specs.Page as spec;
ghost use Rattle.page_values.specs.Seen.{IsPlace, seen};

use crate::differing::put_difference_rows;
use inv_base::Sink;
use inv_totals::Difference;
use page_layouts::{Head, Pen, put_layout, put_rows};
use page_tables::{DIFFERING, EXTRAS, FACTS, LINES, PARTIES, REST, Section, TOTALS, Table, VAT};
use page_values::Place;

/// Writes the sections of the page, in their order.
pub(crate) fn put_sections<K: Sink>(
    place: &Place<'_>,
    differences: &[Difference],
    pen: &mut Pen,
    out: &mut K,
)
    requires { IsPlace place.now }
    ensures { Prints (spec.sections (seen place.now) differences.now) pen.old.printer.failed pen.new.printer.failed (K.view out.old) (K.view out.new) }
{
    put_facts(place, pen, out);
    put_parties(place, pen, out);
    put_lines(place, pen, out);
    put_extras(place, pen, out);
    put_sums(place, pen, out);
    put_differing(differences, pen, out);
    put_rest(place, pen, out);
}

fn put_parties<K: Sink>(place: &Place<'_>, pen: &mut Pen, out: &mut K)
    requires { IsPlace place.now }
    ensures { Prints (spec.parties (seen place.now)) pen.old.printer.failed pen.new.printer.failed (K.view out.old) (K.view out.new) }
{
    pen.printer.put(out, b"<div class=\"side\">\n");
    put_each_party(place, pen, out);
    pen.printer.put(out, b"</div>\n");
}

fn put_sums<K: Sink>(place: &Place<'_>, pen: &mut Pen, out: &mut K)
    requires { IsPlace place.now }
    ensures { Prints (spec.sums (seen place.now)) pen.old.printer.failed pen.new.printer.failed (K.view out.old) (K.view out.new) }
{
    pen.printer.put(out, b"<div class=\"side\">\n");
    put_vat(place, pen, out);
    put_totals(place, pen, out);
    pen.printer.put(out, b"</div>\n");
}

// ---- one table of page_tables each: a function pays for all that its constants hold

#[tactic(auto, unfolding(crate::specs::Page::facts))]
fn put_facts<K: Sink>(place: &Place<'_>, pen: &mut Pen, out: &mut K)
    requires { IsPlace place.now }
    ensures { Prints (spec.facts (seen place.now)) pen.old.printer.failed pen.new.printer.failed (K.view out.old) (K.view out.new) }
{
    put_section(place, &FACTS, pen, out);
}

#[tactic(auto, unfolding(crate::specs::Page::each_party))]
fn put_each_party<K: Sink>(place: &Place<'_>, pen: &mut Pen, out: &mut K)
    requires { IsPlace place.now }
    ensures { Prints (spec.each_party (seen place.now)) pen.old.printer.failed pen.new.printer.failed (K.view out.old) (K.view out.new) }
{
    put_each(place, &PARTIES, pen, out);
}

#[tactic(auto, unfolding(crate::specs::Page::lines))]
fn put_lines<K: Sink>(place: &Place<'_>, pen: &mut Pen, out: &mut K)
    requires { IsPlace place.now }
    ensures { Prints (spec.lines (seen place.now)) pen.old.printer.failed pen.new.printer.failed (K.view out.old) (K.view out.new) }
{
    put_table(place, &LINES, pen, out);
}

#[tactic(auto, unfolding(crate::specs::Page::extras))]
fn put_extras<K: Sink>(place: &Place<'_>, pen: &mut Pen, out: &mut K)
    requires { IsPlace place.now }
    ensures { Prints (spec.extras (seen place.now)) pen.old.printer.failed pen.new.printer.failed (K.view out.old) (K.view out.new) }
{
    put_table(place, &EXTRAS, pen, out);
}

#[tactic(auto, unfolding(crate::specs::Page::vat))]
fn put_vat<K: Sink>(place: &Place<'_>, pen: &mut Pen, out: &mut K)
    requires { IsPlace place.now }
    ensures { Prints (spec.vat (seen place.now)) pen.old.printer.failed pen.new.printer.failed (K.view out.old) (K.view out.new) }
{
    put_table(place, &VAT, pen, out);
}

#[tactic(auto, unfolding(crate::specs::Page::totals))]
fn put_totals<K: Sink>(place: &Place<'_>, pen: &mut Pen, out: &mut K)
    requires { IsPlace place.now }
    ensures { Prints (spec.totals (seen place.now)) pen.old.printer.failed pen.new.printer.failed (K.view out.old) (K.view out.new) }
{
    put_section(place, &TOTALS, pen, out);
}

#[tactic(auto, unfolding(crate::specs::Page::rest))]
fn put_rest<K: Sink>(place: &Place<'_>, pen: &mut Pen, out: &mut K)
    requires { IsPlace place.now }
    ensures { Prints (spec.rest (seen place.now)) pen.old.printer.failed pen.new.printer.failed (K.view out.old) (K.view out.new) }
{
    put_each(place, &REST, pen, out);
}

fn put_each<K: Sink>(place: &Place<'_>, sections: &[Section], pen: &mut Pen, out: &mut K)
    requires { IsPlace place.now }
    ensures { Prints (flat_map (spec.section_text (seen place.now)) (map section_lent sections.now)) pen.old.printer.failed pen.new.printer.failed
        (K.view out.old) (K.view out.new) }
{
    'sections: for section in sections {
        put_section(place, section, pen, out);
    }
}

/// Writes a section with a layout, unless that gives nothing.
fn put_section<K: Sink>(place: &Place<'_>, section: &Section, pen: &mut Pen, out: &mut K)
    requires { IsPlace place.now }
    ensures { Prints (spec.section_text (seen place.now) (section_lent section.now)) pen.old.printer.failed pen.new.printer.failed (K.view out.old)
        (K.view out.new) }
{
    let head: Head = (section.0, section.1, &[]);
    pen.begun = false;
    put_layout(&head, place, section.2, pen, out);
    put_end(b"</section>\n", pen, out);
}

/// Writes a section with a table, unless that has no rows.
fn put_table<K: Sink>(place: &Place<'_>, table: &Table, pen: &mut Pen, out: &mut K)
    requires { IsPlace place.now }
    ensures { Prints (spec.table_text (seen place.now) (table_lent table.now)) pen.old.printer.failed pen.new.printer.failed (K.view out.old) (K.view out.new) }
{
    let head: Head = (table.0, table.1, table.2);
    pen.begun = false;
    put_rows(&head, place, table.3, pen, out);
    put_end(b"</tbody>\n</table>\n</section>\n", pen, out);
}

/// Writes the totals that differ, if any does.
fn put_differing<K: Sink>(differences: &[Difference], pen: &mut Pen, out: &mut K)
    ensures { Prints (spec.differing differences.now) pen.old.printer.failed pen.new.printer.failed (K.view out.old) (K.view out.new) }
{
    let head: Head = (DIFFERING.0, DIFFERING.1, &[]);
    pen.begun = false;
    put_difference_rows(&head, differences, pen, out);
    put_end(b"</section>\n", pen, out);
}

/// Ends a section, if it is begun.
fn put_end<K: Sink>(end: &[u8], pen: &mut Pen, out: &mut K)
    ensures { Prints (if pen.old.begun then end.now else []) pen.old.printer.failed pen.new.printer.failed (K.view out.old) (K.view out.new) }
{
    if pen.begun {
        pen.printer.put(out, end);
    }
}
