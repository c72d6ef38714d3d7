ghost use Rattle.std.specs.Prelude.{◌≡◌, [], ◌∷◌, encode_utf8_all};
ghost use Rattle.inv_base.specs.Printing.{Printed};
ghost use Rattle.json_text.specs.Layout.{document};
ghost use Rattle.json_text.specs.Calls.{call_name, calls_of};
ghost use Rattle.inv_listing.specs.Listing.{term_text};
ghost use Rattle.invoice_json.specs.InvoiceJson.{invoice_json, passed_member};
ghost use Rattle.json_text.specs.Made.{Made};
ghost use Rattle.invoice_json.specs.Streaming.{entry_calls};

use crate::occurrences::turn;
use inv_base::{Sink, ascii_text};
use inv_listing::put_term;
use inv_terms::{Entry, Invoice};
use json_text::{Container, JsonPen, calls_append_the_layout};
use short_lines::Short;
use term_table::{ROOT, Term};

/// Prints an invoice as JSON text: one object, in which terms are texts, and the occurrences of groups that may be repeated are
/// objects in arrays. How many elements of its document were passed over is the last member, unless none was. Answers whether a
/// write failed.
pub fn print_json<K: Sink>(i: &Invoice, passed_over: u32, out: &mut K) -> bool
    ensures { Printed result (encode_utf8_all (document (invoice_json i.now passed_over))) (K.view out.old) (K.view out.new) }
{
    calls_append_the_layout();
    let mut pen = JsonPen::new();
    let mut before = ROOT;
    pen.begin(out, Container::Object);
    'entries: for e in i.entries() {
        turn(before, e.context, &mut pen, out);
        put_entry(e, &mut pen, out);
        before = e.context;
    }
    turn(before, ROOT, &mut pen, out);
    put_passed(passed_over, &mut pen, out);
    pen.end(out, Container::Object);
    pen.finish(out)
}

/// Writes a term and its value.
fn put_entry<K: Sink>(e: &Entry, pen: &mut JsonPen, out: &mut K)
    ensures made { Made (entry_calls e.now) pen.old pen.new (K.view out.old) (K.view out.new) }
    ensures depth { pen.new.state.depth ≡ pen.old.state.depth }
{
    let mut buf = [0; 40];
    put_name(e.term, pen, out);
    pen.text(out, e.value.text(&mut buf));
}

/// Writes a term as a name.
fn put_name<K: Sink>(term: Term, pen: &mut JsonPen, out: &mut K)
    ensures made { Made (call_name (term_text term) ∷ []) pen.old pen.new (K.view out.old) (K.view out.new) }
    ensures depth { pen.new.state.depth ≡ pen.old.state.depth }
{
    let mut name = Short::new();
    put_term(&mut name, term);
    pen.name(out, ascii_text(name.as_slice()));
}

/// Writes how many elements of the document were passed over, where any were.
fn put_passed<K: Sink>(passed_over: u32, pen: &mut JsonPen, out: &mut K)
    ensures made { Made (calls_of (passed_member passed_over)) pen.old pen.new (K.view out.old) (K.view out.new) }
    ensures depth { pen.new.state.depth ≡ pen.old.state.depth }
{
    if passed_over == 0 {
        return;
    }
    pen.name(out, "passed_over");
    pen.number(out, u64::from(passed_over));
}
