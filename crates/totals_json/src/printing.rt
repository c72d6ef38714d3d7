ghost use Rattle.std.specs.Prelude.{◌≡◌, ◌+◌, ◌≤◌, codes, chars, encode_utf8_all};
ghost use Rattle.inv_base.specs.Printing.{Printed};
ghost use Rattle.inv_listing.specs.Listing.{slot_text, term_text};
ghost use Rattle.inv_decimal.specs.WrittenNumber.{decimal_text, scaled_text};
ghost use Rattle.json_text.specs.declared.state.TheConstants.{DEEPEST};
ghost use Rattle.json_text.specs.Layout.{document};
ghost use Rattle.json_text.specs.Making.{text_member, array_member, each};
ghost use Rattle.json_text.specs.Made.{Wrote};
ghost use Rattle.totals_json.specs.TotalsJson.{context_member, stated_member, computed_member, difference_object, counts_member, totals_json};

use crate::numbers::scaled_text;
use inv_base::{Sink, ascii_text};
use inv_decimal::{Dec, Overflow, Scaled};
use inv_listing::{put_slot, put_term};
use inv_totals::{Difference, Differences, number_text};
use json_text::{Container, JsonPen};
use short_lines::Short;
use term_table::{Slot, Term};

/// Prints differences as JSON text: one object with the name of the invoice's file, the differences in an array, and how many they
/// are. It takes no memory. Answers whether a write failed.
pub fn print_totals<K: Sink>(file: &str, differences: &Differences, out: &mut K) -> bool
    ensures { Printed result (encode_utf8_all (document (totals_json (chars file.now) differences.now))) (K.view out.old) (K.view out.new) }
{
    print_all(file, differences.as_slice(), out)
}

/// The same of a slice.
fn print_all<K: Sink>(file: &str, differences: &[Difference], out: &mut K) -> bool
    ensures { Printed result (encode_utf8_all (document (totals_json (chars file.now) differences.now))) (K.view out.old) (K.view out.new) }
{
    let mut pen = JsonPen::new();
    pen.begin_item(out, Container::Object);
    pen.text_member(out, "file", file);
    put_differences(differences, &mut pen, out);
    put_counts(differences.len(), &mut pen, out);
    pen.end(out, Container::Object);
    pen.finish(out)
}

/// Writes the array of the differences.
fn put_differences<K: Sink>(differences: &[Difference], pen: &mut JsonPen, out: &mut K)
    requires { pen.old.state.depth + 2 ≤ DEEPEST }
    ensures { Wrote (array_member (codes "differences") (each difference_object differences.now)) pen.old pen.new (K.view out.old) (K.view out.new) }
{
    pen.begin_member(out, "differences", Container::Array);
    put_items(differences, pen, out);
    pen.end(out, Container::Array);
}

/// Writes the differences one behind another.
fn put_items<K: Sink>(differences: &[Difference], pen: &mut JsonPen, out: &mut K)
    requires { pen.old.state.depth + 1 ≤ DEEPEST }
    ensures { Wrote (each difference_object differences.now) pen.old pen.new (K.view out.old) (K.view out.new) }
{
    'differences: for difference in differences {
        put_difference(difference, pen, out);
    }
}

fn put_difference<K: Sink>(difference: &Difference, pen: &mut JsonPen, out: &mut K)
    requires { pen.old.state.depth + 1 ≤ DEEPEST }
    ensures { Wrote (difference_object difference.now) pen.old pen.new (K.view out.old) (K.view out.new) }
{
    pen.begin_item(out, Container::Object);
    put_context(difference.context.outer, pen, out);
    put_term_member(difference.term, pen, out);
    put_stated(difference.stated, pen, out);
    put_computed(difference.computed, pen, out);
    pen.end(out, Container::Object);
}

/// Writes the VAT breakdown of the total, where it is of one.
fn put_context<K: Sink>(breakdown: Option<Slot>, pen: &mut JsonPen, out: &mut K)
    ensures { Wrote (context_member breakdown) pen.old pen.new (K.view out.old) (K.view out.new) }
{
    match breakdown {
        None => {}
        Some(slot) => put_slot_member(slot, pen, out),
    }
}

fn put_slot_member<K: Sink>(slot: Slot, pen: &mut JsonPen, out: &mut K)
    ensures { Wrote (text_member (codes "context") (slot_text slot)) pen.old pen.new (K.view out.old) (K.view out.new) }
{
    let mut text = Short::new();
    put_slot(&mut text, slot);
    pen.text_member(out, "context", ascii_text(text.as_slice()));
}

fn put_term_member<K: Sink>(term: Term, pen: &mut JsonPen, out: &mut K)
    ensures { Wrote (text_member (codes "term") (term_text term)) pen.old pen.new (K.view out.old) (K.view out.new) }
{
    let mut text = Short::new();
    put_term(&mut text, term);
    pen.text_member(out, "term", ascii_text(text.as_slice()));
}

/// Writes what the invoice states, where it does.
fn put_stated<K: Sink>(stated: Option<Scaled>, pen: &mut JsonPen, out: &mut K)
    ensures { Wrote (stated_member stated) pen.old pen.new (K.view out.old) (K.view out.new) }
{
    match stated {
        None => {}
        Some(number) => put_scaled(&number, pen, out),
    }
}

fn put_scaled<K: Sink>(number: &Scaled, pen: &mut JsonPen, out: &mut K)
    ensures { Wrote (text_member (codes "stated") (scaled_text number.now)) pen.old pen.new (K.view out.old) (K.view out.new) }
{
    let mut buf = [0; 40];
    pen.text_member(out, "stated", scaled_text(number, &mut buf));
}

/// Writes what the other values make, where that isn't out of range.
fn put_computed<K: Sink>(computed: Result<Dec, Overflow>, pen: &mut JsonPen, out: &mut K)
    ensures { Wrote (computed_member computed) pen.old pen.new (K.view out.old) (K.view out.new) }
{
    match computed {
        Ok(number) => put_number(&number, pen, out),
        Err(_) => {}
    }
}

fn put_number<K: Sink>(number: &Dec, pen: &mut JsonPen, out: &mut K)
    ensures { Wrote (text_member (codes "computed") (decimal_text number.now)) pen.old pen.new (K.view out.old) (K.view out.new) }
{
    let mut buf = [0; 40];
    pen.text_member(out, "computed", number_text(number, &mut buf));
}

/// Writes how many differences there are.
fn put_counts<K: Sink>(count: usize, pen: &mut JsonPen, out: &mut K)
    requires { pen.old.state.depth + 1 ≤ DEEPEST }
    ensures { Wrote (counts_member count) pen.old pen.new (K.view out.old) (K.view out.new) }
{
    pen.begin_member(out, "counts", Container::Object);
    pen.number_member(out, "differ", count as u64);
    pen.end(out, Container::Object);
}
