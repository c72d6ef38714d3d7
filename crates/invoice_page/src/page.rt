ghost use Rattle.std.specs.Prelude.{◌≡◌, ◌∷◌, IfOk, OnErr, chars};
ghost use Rattle.inv_base.specs.Printing.{Prints, Printed};
ghost use Rattle.inv_terms.specs.Counts.{AreCounted};
ghost use Rattle.inv_terms.specs.Values.{spelled};
ghost use Rattle.inv_totals.specs.Totals.{differences};
ghost use Rattle.page_tables.specs.Tables.{style};
ghost use Rattle.invoice_page.specs.Page as spec;
ghost use Rattle.page_values.specs.Places as places;
ghost use Rattle.page_values.specs.Seen.{IsPlace, seen};
ghost use Rattle.page_values.specs.Values.{kind_word};

use crate::sections::put_sections;
use inv_base::{Printer, Sink};
use inv_terms::{Counts, Invoice, Value, invoices_are_in_listing_order};
use inv_totals::{Difference, differences};
use itoa::Buffer;
use page_layouts::Pen;
use page_tables::{Meanings, OTHER_KIND, STYLE};
use page_values::{Place, kind_word, put_text_at, put_value, sizes_of, value_at};
use std::alloc::{AllocError, Global};
use term_table::{Group, ROOT, Term};

macro_rules! bt {
    ($number:literal) => {
        Term {
            number: $number,
            part: 0,
        }
    };
}

/// Prints an invoice as a page of HTML 5 that people read, with the totals that differ and how many elements of its document were passed
/// over; answers whether a write failed. Memory is taken before the first byte is written, and where there is none nothing is.
pub fn print_page<K: Sink>(
    alloc: Global,
    i: &Invoice,
    passed_over: u32,
    out: &mut K,
) -> Result<bool, AllocError>
    ensures ok { IfOk result (λ failed. Printed failed (spec.page i.now passed_over) (K.view out.old) (K.view out.new)) }
    ensures err { OnErr result (K.view out.new ≡ K.view out.old) }
{
    let counts = Counts::among(i.entries());
    match sizes_of(alloc, i, counts.last(Group::SupportingDocument)) {
        Ok(sizes) => {
            let failed = print_with_sizes(alloc, i, &counts, &sizes, passed_over, out);
            drop(sizes);
            failed
        }
        Err(fault) => Err(fault),
    }
}

fn print_with_sizes<K: Sink>(
    alloc: Global,
    i: &Invoice,
    counts: &Counts,
    sizes: &[Option<usize>],
    passed_over: u32,
    out: &mut K,
) -> Result<bool, AllocError>
    requires counted { AreCounted counts.now i.now }
    requires sizes { sizes.now ≡ places.sizes_of i.now }
    ensures ok { IfOk result (λ failed. Printed failed (spec.page i.now passed_over) (K.view out.old) (K.view out.new)) }
    ensures err { OnErr result (K.view out.new ≡ K.view out.old) }
{
    match differences(alloc, i) {
        Ok(found) => {
            let failed = print_with_differences(
                i,
                counts,
                sizes,
                found.as_slice(),
                passed_over,
                out,
            );
            drop(found);
            Ok(failed)
        }
        Err(fault) => Err(fault),
    }
}

#[tactic(auto, unfolding(crate::specs::Page::page))]
fn print_with_differences<K: Sink>(
    i: &Invoice,
    counts: &Counts,
    sizes: &[Option<usize>],
    found: &[Difference],
    passed_over: u32,
    out: &mut K,
) -> bool
    requires counted { AreCounted counts.now i.now }
    requires sizes { sizes.now ≡ places.sizes_of i.now }
    requires found { found.now ≡ differences i.now }
    ensures { Printed result (spec.page i.now passed_over) (K.view out.old) (K.view out.new) }
{
    invoices_are_in_listing_order();
    let place = Place {
        entries: i.entries(),
        context: ROOT,
        sizes,
        counts,
    };
    print_at(&place, found, passed_over, out)
}

/// Prints the page of the invoice that is seen from a place.
fn print_at<K: Sink>(place: &Place<'_>, found: &[Difference], passed_over: u32, out: &mut K) -> bool
    requires { IsPlace place.now }
    ensures { Printed result (spec.page_of (seen place.now) passed_over found.now) (K.view out.old) (K.view out.new) }
{
    let mut pen = Pen {
        printer: Printer::new(),
        begun: false,
    };
    put_head(place, &mut pen.printer, out);
    put_header(place, &mut pen.printer, out);
    put_sections(place, found, &mut pen, out);
    put_footer(passed_over, &mut pen.printer, out);
    pen.printer.failed
}

fn put_head<K: Sink>(place: &Place<'_>, printer: &mut Printer, out: &mut K)
    requires { IsPlace place.now }
    ensures { Prints (spec.head (seen place.now)) printer.old.failed printer.new.failed (K.view out.old) (K.view out.new) }
{
    printer.put(
        out,
        b"<!DOCTYPE html>\n<html lang=\"en\">\n<head>\n<meta charset=\"utf-8\">\n",
    );
    printer.put(
        out,
        b"<meta name=\"viewport\" content=\"width=device-width, initial-scale=1\">\n<title>",
    );
    put_kind(place, printer, out);
    printer.put(out, b" ");
    put_text_at(place, bt!(1), printer, out);
    printer.put(out, b"</title>\n<style>\n");
    put_style(printer, out);
    printer.put(out, b"</style>\n</head>\n<body>\n");
}

#[tactic(auto, unfolding(page_tables::specs::Tables::style))]
fn put_style<K: Sink>(printer: &mut Printer, out: &mut K)
    ensures { Prints style printer.old.failed printer.new.failed (K.view out.old) (K.view out.new) }
{
    printer.put(out, STYLE.as_bytes());
}

fn put_header<K: Sink>(place: &Place<'_>, printer: &mut Printer, out: &mut K)
    requires { IsPlace place.now }
    ensures { Prints (spec.header (seen place.now)) printer.old.failed printer.new.failed (K.view out.old) (K.view out.new) }
{
    printer.put(out, b"<header>\n<h1>");
    put_kind(place, printer, out);
    printer.put(out, b" ");
    put_value(place, bt!(1), Meanings::None, printer, out);
    printer.put(out, b"</h1>\n");
    put_amount_due(place, printer, out);
}

fn put_amount_due<K: Sink>(place: &Place<'_>, printer: &mut Printer, out: &mut K)
    requires { IsPlace place.now }
    ensures { Prints (spec.amount_due (seen place.now)) printer.old.failed printer.new.failed (K.view out.old) (K.view out.new) }
{
    printer.put(out, b"<p>Amount due <b>");
    put_text_at(place, bt!(115), printer, out);
    printer.put(out, b" ");
    put_text_at(place, bt!(5), printer, out);
    printer.put(out, b"</b></p>\n</header>\n<main>\n");
}

/// Writes what kind of document it is.
fn put_kind<K: Sink>(place: &Place<'_>, printer: &mut Printer, out: &mut K)
    requires { IsPlace place.now }
    ensures { Prints (spec.kind (seen place.now)) printer.old.failed printer.new.failed (K.view out.old) (K.view out.new) }
{
    match value_at(place, bt!(3)) {
        Some(value) => put_kind_of(value, printer, out),
        None => printer.put(out, OTHER_KIND.as_bytes()),
    }
}

fn put_kind_of<K: Sink>(value: &Value, printer: &mut Printer, out: &mut K)
    ensures { Prints (kind_word (spelled value.now)) printer.old.failed printer.new.failed (K.view out.old) (K.view out.new) }
{
    let mut buf = [0; 40];
    printer.put(out, kind_word(value.text(&mut buf)).as_bytes());
}

fn put_footer<K: Sink>(passed_over: u32, printer: &mut Printer, out: &mut K)
    ensures { Prints (spec.footer passed_over) printer.old.failed printer.new.failed (K.view out.old) (K.view out.new) }
{
    printer.put(out, b"</main>\n<footer>\n");
    put_passed(passed_over, printer, out);
    printer.put(
        out,
        b"<p>The electronic document is the invoice; this page shows it.</p>\n</footer>\n</body>\n</html>\n",
    );
}

fn put_passed<K: Sink>(passed_over: u32, printer: &mut Printer, out: &mut K)
    ensures { Prints (spec.passed_text passed_over) printer.old.failed printer.new.failed (K.view out.old) (K.view out.new) }
{
    if passed_over == 0 {
        return;
    }
    let mut digits = Buffer::new();
    printer.put(out, b"<p>Passed over, since they hold no term: ");
    printer.put(out, digits.format(passed_over).as_bytes());
    printer.put(out, b" elements of the document.</p>\n");
}
