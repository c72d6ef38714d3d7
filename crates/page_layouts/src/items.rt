ghost use Rattle.std.specs.Prelude.{◌≡◌, map};
ghost use Rattle.page_tables.specs.Tables.{part_lent};
ghost use Rattle.inv_base.specs.Printing.{Prints};
ghost use Rattle.page_layouts.specs.Layouts as spec;
ghost use Rattle.page_layouts.specs.Streaming.{Shows, head_lent};
ghost use Rattle.page_values.specs.Parts as parts_spec;
ghost use Rattle.page_values.specs.Seen.{IsPlace, seen};

use crate::pens::{Head, Pen, open};
use inv_base::{Printer, Sink};
use inv_listing::print_term;
use inv_terms::Entry;
use page_tables::{Form, Meanings, Part};
use page_values::{Place, any_stands, has_value, put_parts, put_plain, put_value};
use term_table::Term;

/// Writes an item where it stands.
pub(crate) fn put_item_in<K: Sink>(
    head: &Head,
    place: &Place<'_>,
    form: Form,
    label: &str,
    parts: &[Part],
    pen: &mut Pen,
    out: &mut K,
)
    requires { IsPlace place.now }
    ensures { Shows (head_lent head.now) (spec.item_in (seen place.now) form label.now (map part_lent parts.now)) pen.old pen.new (K.view out.old)
        (K.view out.new) }
{
    match form {
        Form::Row => put_row(head, place, label, parts, pen, out),
        Form::RowOf(term) => put_row_of(head, place, term, parts, pen, out),
        Form::Paragraph => put_paragraph(head, place, label, parts, pen, out),
        Form::Added => put_added(head, place, pen, out),
    }
}

/// Writes a row, where any of its parts stands.
fn put_row<K: Sink>(
    head: &Head,
    place: &Place<'_>,
    label: &str,
    parts: &[Part],
    pen: &mut Pen,
    out: &mut K,
)
    requires { IsPlace place.now }
    ensures { Shows (head_lent head.now) (spec.item_in (seen place.now) Form.Row label.now (map part_lent parts.now)) pen.old pen.new (K.view out.old)
        (K.view out.new) }
{
    if !any_stands(place, parts) {
        return;
    }
    open(head, pen, out);
    put_row_text(place, label, parts, &mut pen.printer, out);
}

fn put_row_text<K: Sink>(
    place: &Place<'_>,
    label: &str,
    parts: &[Part],
    printer: &mut Printer,
    out: &mut K,
)
    requires { IsPlace place.now }
    ensures { Prints (spec.row label.now (parts_spec.parts_text (seen place.now) (map part_lent parts.now))) printer.old.failed printer.new.failed
        (K.view out.old) (K.view out.new) }
{
    printer.put(out, b"<dl><dt>");
    printer.put(out, label.as_bytes());
    printer.put(out, b"</dt><dd>");
    put_parts(place, parts, printer, out);
    printer.put(out, b"</dd></dl>\n");
}

/// Writes a row that is labelled by a term's value, where that or any of its parts stands.
fn put_row_of<K: Sink>(
    head: &Head,
    place: &Place<'_>,
    term: Term,
    parts: &[Part],
    pen: &mut Pen,
    out: &mut K,
)
    requires { IsPlace place.now }
    ensures { Shows (head_lent head.now) (spec.labelled (seen place.now) term (map part_lent parts.now)) pen.old pen.new (K.view out.old) (K.view out.new) }
{
    if !stands_of(place, term, parts) {
        return;
    }
    open(head, pen, out);
    put_row_of_text(place, term, parts, &mut pen.printer, out);
}

fn stands_of(place: &Place<'_>, term: Term, parts: &[Part]) -> bool
    requires { IsPlace place.now }
    ensures { result ≡ spec.stands_of (seen place.now) term (map part_lent parts.now) }
{
    has_value(place, term) || any_stands(place, parts)
}

fn put_row_of_text<K: Sink>(
    place: &Place<'_>,
    term: Term,
    parts: &[Part],
    printer: &mut Printer,
    out: &mut K,
)
    requires { IsPlace place.now }
    ensures { Prints (spec.labelled_row (seen place.now) term (map part_lent parts.now)) printer.old.failed printer.new.failed (K.view out.old)
        (K.view out.new) }
{
    printer.put(out, b"<dl><dt>");
    put_value(place, term, Meanings::None, printer, out);
    printer.put(out, b"</dt><dd>");
    put_parts(place, parts, printer, out);
    printer.put(out, b"</dd></dl>\n");
}

/// Writes a paragraph, where any of its parts stands.
fn put_paragraph<K: Sink>(
    head: &Head,
    place: &Place<'_>,
    class: &str,
    parts: &[Part],
    pen: &mut Pen,
    out: &mut K,
)
    requires { IsPlace place.now }
    ensures { Shows (head_lent head.now) (spec.item_in (seen place.now) Form.Paragraph class.now (map part_lent parts.now)) pen.old pen.new (K.view out.old)
        (K.view out.new) }
{
    if !any_stands(place, parts) {
        return;
    }
    open(head, pen, out);
    put_paragraph_text(place, class, parts, &mut pen.printer, out);
}

fn put_paragraph_text<K: Sink>(
    place: &Place<'_>,
    class: &str,
    parts: &[Part],
    printer: &mut Printer,
    out: &mut K,
)
    requires { IsPlace place.now }
    ensures { Prints (spec.paragraph class.now (parts_spec.parts_text (seen place.now) (map part_lent parts.now))) printer.old.failed printer.new.failed
        (K.view out.old) (K.view out.new) }
{
    put_paragraph_start(class, printer, out);
    put_parts(place, parts, printer, out);
    printer.put(out, b"</p>\n");
}

fn put_paragraph_start<K: Sink>(class: &str, printer: &mut Printer, out: &mut K)
    ensures { Prints (spec.paragraph_start class.now) printer.old.failed printer.new.failed (K.view out.old) (K.view out.new) }
{
    if class.is_empty() {
        printer.put(out, b"<p>");
        return;
    }
    printer.put(out, b"<p class=\"");
    printer.put(out, class.as_bytes());
    printer.put(out, b"\">");
}

/// Writes a row for each term of the place that a user's table adds.
fn put_added<K: Sink>(head: &Head, place: &Place<'_>, pen: &mut Pen, out: &mut K)
    ensures { Shows (head_lent head.now) (spec.added_rows (seen place.now)) pen.old pen.new (K.view out.old) (K.view out.new) }
{
    'entries: for e in place.entries {
        put_where_added(head, place, e, pen, out);
    }
}

fn put_where_added<K: Sink>(head: &Head, place: &Place<'_>, e: &Entry, pen: &mut Pen, out: &mut K)
    ensures { Shows (head_lent head.now) (spec.added_text (seen place.now) e.now) pen.old pen.new (K.view out.old) (K.view out.new) }
{
    if !is_added(place, e) {
        return;
    }
    open(head, pen, out);
    put_added_row(e, &mut pen.printer, out);
}

fn is_added(place: &Place<'_>, e: &Entry) -> bool
    ensures { result ≡ spec.is_added (seen place.now) e.now }
{
    e.term.is_extension() && e.context.is_same(place.context)
}

fn put_added_row<K: Sink>(e: &Entry, printer: &mut Printer, out: &mut K)
    ensures { Prints (spec.added_row e.now) printer.old.failed printer.new.failed (K.view out.old) (K.view out.new) }
{
    printer.put(out, b"<dl><dt>");
    print_term(e.term, printer, out);
    printer.put(out, b"</dt><dd>");
    put_plain(e.term, Meanings::None, &e.value, printer, out);
    printer.put(out, b"</dd></dl>\n");
}
