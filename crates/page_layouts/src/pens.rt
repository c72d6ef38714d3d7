ghost use Rattle.std.specs.Prelude.{◌≡◌, true, flat_map, map};
ghost use Rattle.page_tables.specs.Tables.{column_lent};
ghost use Rattle.inv_base.specs.Printing.{Prints};
ghost use Rattle.page_layouts.specs.Sections as sections;
ghost use Rattle.page_layouts.specs.Streaming.{head_lent, opening};
ghost use Rattle.page_layouts.specs.Tables as spec;

use inv_base::{Printer, Sink};
use page_tables::{Align, Column};

/// What writes the page. Behind the first failure it writes nothing more.
#[derive(Drop)]
pub struct Pen {
    /// What is printed by, and whether a write failed.
    pub printer: Printer,
    /// Whether the section is begun that something may be written in.
    pub begun: bool,
}

/// The class and the heading of a section, and the columns of its table, if it has one.
pub type Head = (&'static str, &'static str, &'static [Column]);

/// Begins a section, unless it is begun.
pub fn open<K: Sink>(head: &Head, pen: &mut Pen, out: &mut K)
    ensures prints { Prints (opening pen.old.begun (head_lent head.now)) pen.old.printer.failed pen.new.printer.failed (K.view out.old) (K.view out.new) }
    ensures begun { pen.new.begun ≡ true }
{
    if pen.begun {
        return;
    }
    put_section_start(head.0, &mut pen.printer, out);
    put_heading(head.1, &mut pen.printer, out);
    put_table_start(head.2, &mut pen.printer, out);
    pen.begun = true;
}

fn put_section_start<K: Sink>(class: &str, printer: &mut Printer, out: &mut K)
    ensures { Prints (sections.section_start class.now) printer.old.failed printer.new.failed (K.view out.old) (K.view out.new) }
{
    if class.is_empty() {
        printer.put(out, b"<section>\n");
        return;
    }
    printer.put(out, b"<section class=\"");
    printer.put(out, class.as_bytes());
    printer.put(out, b"\">\n");
}

fn put_heading<K: Sink>(heading: &str, printer: &mut Printer, out: &mut K)
    ensures { Prints (sections.heading heading.now) printer.old.failed printer.new.failed (K.view out.old) (K.view out.new) }
{
    if heading.is_empty() {
        return;
    }
    printer.put(out, b"<h2>");
    printer.put(out, heading.as_bytes());
    printer.put(out, b"</h2>\n");
}

/// Begins a table, unless it has no columns.
fn put_table_start<K: Sink>(columns: &[Column], printer: &mut Printer, out: &mut K)
    ensures { Prints (spec.table_start (map column_lent columns.now)) printer.old.failed printer.new.failed (K.view out.old) (K.view out.new) }
{
    if columns.is_empty() {
        return;
    }
    printer.put(out, b"<table>\n<thead>\n<tr>\n");
    put_columns(columns, printer, out);
    printer.put(out, b"</tr>\n</thead>\n<tbody>\n");
}

fn put_columns<K: Sink>(columns: &[Column], printer: &mut Printer, out: &mut K)
    ensures { Prints (flat_map spec.column_text (map column_lent columns.now)) printer.old.failed printer.new.failed (K.view out.old) (K.view out.new) }
{
    'columns: for column in columns {
        put_column(column, printer, out);
    }
}

fn put_column<K: Sink>(column: &Column, printer: &mut Printer, out: &mut K)
    ensures { Prints (spec.column_text (column_lent column.now)) printer.old.failed printer.new.failed (K.view out.old) (K.view out.new) }
{
    printer.put(out, heading_start(column.0));
    printer.put(out, column.1.as_bytes());
    printer.put(out, b"</th>\n");
}

fn heading_start(align: Align) -> &'static [u8]
    ensures { result.now ≡ spec.heading_start align }
{
    match align {
        Align::Texts => b"<th>",
        Align::Numbers => b"<th class=\"n\">",
    }
}
