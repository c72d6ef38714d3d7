ghost use Rattle.std.specs.Prelude.{◌≡◌, ◌≢◌, ◌&&◌, ◌||◌, [], ◌∷◌, None, false, flat_map, encode_utf8_all};
ghost use Rattle.xml_write.specs.declared.pen.PenState.TheVariants.{Fresh, InsideTag};
ghost use Rattle.xml_write.specs.Calls.{call_attribute};
ghost use Rattle.inv_terms.specs.Values.{spelled};
ghost use Rattle.xml_write.specs.Writers.{state_of, Makes};
ghost use Rattle.bind_meaning.specs.Trees as trees;
ghost use Rattle.bind_write.specs.Sources as sources;
ghost use Rattle.bind_write.specs.Wordings as wordings;
ghost use Rattle.bind_write.specs.Cells as spec;

use crate::holding::{row_at, wording_of, writes};
use crate::looking::value_of;
use crate::source::Source;
use crate::wording::{Plain, Wording, text_of};
use bind_meaning::{form_for, type_of};
use bind_rows::{Content, Leaf, Namespace, Row, Step, Written};
use bind_table::Line;
use inv_base::{Sink, Txt};
use inv_terms::Value;
use term_table::{DataType, ROOT, Term};
use xml_write::{WriteFault, Writer};

const INVOICE_CURRENCY: Term = Term { number: 5, part: 0 };

const ACCOUNTING_CURRENCY: Term = Term { number: 6, part: 0 };

fn is_ubl(namespace: Namespace) -> bool
    ensures { result ≡ trees.is_ubl namespace }
{
    match namespace {
        Namespace::UblInvoice
        | Namespace::UblCreditNote
        | Namespace::UblAggregate
        | Namespace::UblBasic => true,
        _ => false,
    }
}

fn is_vat_total(written: &Written) -> bool
    ensures { result ≡ trees.is_vat_total written.now }
{
    match written {
        Written::VatTotal | Written::AccountingVatTotal => true,
        _ => false,
    }
}

fn is_amount(row: &Row) -> bool
    ensures { result ≡ trees.is_amount row.now }
{
    match row.content {
        Content::Constant(_) => false,
        Content::Term(term) => match type_of(form_for(row.form, term), term) {
            Some(DataType::A) => true,
            _ => false,
        },
    }
}

fn may_show_currency(step: &Step, row: &Row) -> bool
    ensures { result ≡ (spec.is_at_element row.now && (trees.is_ubl step.now.name.namespace || trees.is_vat_total row.now.written)) }
{
    is_at_element(row) && (is_ubl(step.name.namespace) || is_vat_total(&row.written))
}

/// Whether a value of the row is written, and with its currency.
fn shows_currency(source: &Source<'_>, step: &Step, row: &Row) -> bool
    requires { sources.IsSource source.now }
    ensures { result ≡ spec.shows_currency source.now.entries.now step.now source.now.context row.now }
{
    may_show_currency(step, row) && is_amount(row) && writes(source, row)
}

fn currency_term(written: &Written) -> Term
    ensures { result ≡ trees.currency_term written.now }
{
    match written {
        Written::AccountingVatTotal => ACCOUNTING_CURRENCY,
        _ => INVOICE_CURRENCY,
    }
}

fn is_at_element(row: &Row) -> bool
    ensures { result ≡ spec.is_at_element row.now }
{
    match row.leaf {
        Leaf::Element => true,
        Leaf::Attribute(_) => false,
    }
}

fn put_value<W: Writer, K: Sink>(
    pen: &mut W,
    out: &mut K,
    name: &str,
    value: &Value,
) -> Result<(), WriteFault>
    requires { state_of (W.view pen.old) ≡ InsideTag }
    ensures makes { Makes result (W.view pen.old) (K.view out.old) (call_attribute name.now (encode_utf8_all (spelled value.now)) ∷ []) (W.view pen.new)
        (K.view out.new) }
    ensures state { state_of (W.view pen.new) ≡ InsideTag }
{
    let mut buf = [0; 40];
    pen.attribute(out, name, value.text(&mut buf))
}

/// Writes the currency of the row's amount.
fn put_currency_of<W: Writer, K: Sink>(
    pen: &mut W,
    out: &mut K,
    source: &Source<'_>,
    row: &Row,
) -> Result<(), WriteFault>
    requires state { state_of (W.view pen.old) ≡ InsideTag }
    requires source { sources.IsSource source.now }
    ensures makes { Makes result (W.view pen.old) (K.view out.old) (spec.currency_of source.now.entries.now row.now) (W.view pen.new) (K.view out.new) }
    ensures state { state_of (W.view pen.new) ≡ InsideTag }
{
    match value_of(source.entries, currency_term(&row.written), ROOT) {
        None => Ok(()),
        Some(value) => put_value(pen, out, "currencyID", value),
    }
}

fn put_currency<W: Writer, K: Sink>(
    pen: &mut W,
    out: &mut K,
    source: &Source<'_>,
    step: &Step,
    number: usize,
) -> Result<(), WriteFault>
    requires state { state_of (W.view pen.old) ≡ InsideTag }
    requires source { sources.IsSource source.now }
    ensures makes { Makes result (W.view pen.old) (K.view out.old)
        (spec.currency_calls source.now.rows.now source.now.entries.now step.now source.now.context number) (W.view pen.new) (K.view out.new) }
    ensures state { state_of (W.view pen.new) ≡ InsideTag }
{
    match row_at(source.rows, number) {
        None => Ok(()),
        Some(row) => {
            if shows_currency(source, step, row) {
                put_currency_of(pen, out, source, row)
            } else {
                Ok(())
            }
        }
    }
}

/// Writes the currencies of the amounts at the line's element.
fn put_currencies<W: Writer, K: Sink>(
    pen: &mut W,
    out: &mut K,
    source: &Source<'_>,
    line: &Line,
) -> Result<(), WriteFault>
    requires state { state_of (W.view pen.old) ≡ InsideTag }
    requires source { sources.IsSource source.now }
    ensures makes { Makes result (W.view pen.old) (K.view out.old)
        (flat_map (spec.currency_calls source.now.rows.now source.now.entries.now line.now.step source.now.context) line.now.rows) (W.view pen.new)
        (K.view out.new) }
    ensures state { state_of (W.view pen.new) ≡ InsideTag }
{
    let numbers = line.rows.as_slice();
    'rows: for number in numbers {
        put_currency(pen, out, source, &line.step, *number)?;
    }
    Ok(())
}

/// Writes the attribute at which a row ends, if it ends at one and has something to write.
fn put_wording<W: Writer, K: Sink>(
    pen: &mut W,
    out: &mut K,
    name: &Txt,
    wording: &Wording<'_>,
) -> Result<(), WriteFault>
    requires state { state_of (W.view pen.old) ≡ InsideTag }
    requires plain { wording.now.subject ≡ None }
    ensures makes { Makes result (W.view pen.old) (K.view out.old) (spec.attribute_with name.now (wordings.wording_text wording.now)) (W.view pen.new)
        (K.view out.new) }
    ensures state { state_of (W.view pen.new) ≡ InsideTag }
{
    let mut buf = [0; 40];
    pen.attribute(out, name.as_str(), text_of(&wording.text, &mut buf))
}

fn put_row_attribute<W: Writer, K: Sink>(
    pen: &mut W,
    out: &mut K,
    source: &Source<'_>,
    name: &Txt,
    row: &Row,
) -> Result<(), WriteFault>
    requires state { state_of (W.view pen.old) ≡ InsideTag }
    requires source { sources.IsSource source.now }
    requires plain { sources.is_note row.now.form ≡ false }
    ensures makes { Makes result (W.view pen.old) (K.view out.old)
        (spec.attribute_if name.now (trees.constant_or_text source.now.entries.now source.now.context row.now)) (W.view pen.new) (K.view out.new) }
    ensures state { state_of (W.view pen.new) ≡ InsideTag }
{
    match wording_of(source, row) {
        None => Ok(()),
        Some(wording) => put_wording(pen, out, name, &wording),
    }
}

fn put_attribute<W: Writer, K: Sink>(
    pen: &mut W,
    out: &mut K,
    source: &Source<'_>,
    number: usize,
) -> Result<(), WriteFault>
    requires state { state_of (W.view pen.old) ≡ InsideTag }
    requires source { sources.IsSource source.now }
    ensures makes { Makes result (W.view pen.old) (K.view out.old) (spec.attribute_calls source.now.rows.now source.now.entries.now source.now.context number)
        (W.view pen.new) (K.view out.new) }
    ensures state { state_of (W.view pen.new) ≡ InsideTag }
{
    match row_at(source.rows, number) {
        None => Ok(()),
        Some(row) => match &row.leaf {
            Leaf::Element => Ok(()),
            Leaf::Attribute(name) => put_row_attribute(pen, out, source, name, row),
        },
    }
}

fn put_attributes<W: Writer, K: Sink>(
    pen: &mut W,
    out: &mut K,
    source: &Source<'_>,
    line: &Line,
) -> Result<(), WriteFault>
    requires state { state_of (W.view pen.old) ≡ InsideTag }
    requires source { sources.IsSource source.now }
    ensures makes { Makes result (W.view pen.old) (K.view out.old)
        (flat_map (spec.attribute_calls source.now.rows.now source.now.entries.now source.now.context) line.now.rows) (W.view pen.new) (K.view out.new) }
    ensures state { state_of (W.view pen.new) ≡ InsideTag }
{
    let numbers = line.rows.as_slice();
    'rows: for number in numbers {
        put_attribute(pen, out, source, *number)?;
    }
    Ok(())
}

/// Writes a part of an element's text.
fn put_part<W: Writer, K: Sink>(pen: &mut W, out: &mut K, text: &str) -> Result<(), WriteFault>
    requires { state_of (W.view pen.old) ≢ Fresh }
    ensures makes { spec.GoesOn result (W.view pen.old) (K.view out.old) text.now (W.view pen.new) (K.view out.new) }
    ensures state { state_of (W.view pen.new) ≢ Fresh }
{
    if text.is_empty() {
        return Ok(());
    }
    pen.text(out, text)
}

fn put_value_part<W: Writer, K: Sink>(
    pen: &mut W,
    out: &mut K,
    value: &Value,
) -> Result<(), WriteFault>
    requires { state_of (W.view pen.old) ≢ Fresh }
    ensures makes { spec.GoesOn result (W.view pen.old) (K.view out.old) (encode_utf8_all (spelled value.now)) (W.view pen.new) (K.view out.new) }
    ensures state { state_of (W.view pen.new) ≢ Fresh }
{
    let mut buf = [0; 40];
    put_part(pen, out, value.text(&mut buf))
}

fn put_plain<W: Writer, K: Sink>(
    pen: &mut W,
    out: &mut K,
    plain: &Plain<'_>,
) -> Result<(), WriteFault>
    requires { state_of (W.view pen.old) ≢ Fresh }
    ensures makes { spec.GoesOn result (W.view pen.old) (K.view out.old) (encode_utf8_all (wordings.plain_text plain.now)) (W.view pen.new) (K.view out.new) }
    ensures state { state_of (W.view pen.new) ≢ Fresh }
{
    let mut buf = [0; 40];
    put_part(pen, out, text_of(plain, &mut buf))
}

/// Writes a subject code between two `#`.
fn put_subject<W: Writer, K: Sink>(pen: &mut W, out: &mut K, code: &Value) -> Result<(), WriteFault>
    requires { state_of (W.view pen.old) ≢ Fresh }
    ensures makes { spec.GoesOn result (W.view pen.old) (K.view out.old) (encode_utf8_all (spec.subject_text code.now)) (W.view pen.new) (K.view out.new) }
    ensures state { state_of (W.view pen.new) ≢ Fresh }
{
    put_part(pen, out, "#")?;
    put_value_part(pen, out, code)?;
    put_part(pen, out, "#")
}

fn put_text_of<W: Writer, K: Sink>(
    pen: &mut W,
    out: &mut K,
    wording: &Wording<'_>,
) -> Result<(), WriteFault>
    requires { state_of (W.view pen.old) ≢ Fresh }
    ensures makes { spec.GoesOn result (W.view pen.old) (K.view out.old) (encode_utf8_all (wordings.wording_text wording.now)) (W.view pen.new)
        (K.view out.new) }
    ensures state { state_of (W.view pen.new) ≢ Fresh }
{
    match wording.subject {
        None => put_plain(pen, out, &wording.text),
        Some(code) => {
            put_subject(pen, out, code)?;
            put_plain(pen, out, &wording.text)
        }
    }
}

fn put_row_text<W: Writer, K: Sink>(
    pen: &mut W,
    out: &mut K,
    source: &Source<'_>,
    row: &Row,
) -> Result<(), WriteFault>
    requires state { state_of (W.view pen.old) ≢ Fresh }
    requires source { sources.IsSource source.now }
    ensures makes { spec.GoesOn result (W.view pen.old) (K.view out.old) (spec.row_bytes source.now.entries.now source.now.context row.now) (W.view pen.new)
        (K.view out.new) }
    ensures state { state_of (W.view pen.new) ≢ Fresh }
{
    match wording_of(source, row) {
        None => Ok(()),
        Some(wording) => put_text_of(pen, out, &wording),
    }
}

fn put_text<W: Writer, K: Sink>(
    pen: &mut W,
    out: &mut K,
    source: &Source<'_>,
    number: usize,
) -> Result<(), WriteFault>
    requires state { state_of (W.view pen.old) ≢ Fresh }
    requires source { sources.IsSource source.now }
    ensures makes { spec.GoesOn result (W.view pen.old) (K.view out.old) (spec.text_at source.now.rows.now source.now.entries.now source.now.context number)
        (W.view pen.new) (K.view out.new) }
    ensures state { state_of (W.view pen.new) ≢ Fresh }
{
    match row_at(source.rows, number) {
        None => Ok(()),
        Some(row) => {
            if is_at_element(row) {
                put_row_text(pen, out, source, row)
            } else {
                Ok(())
            }
        }
    }
}

/// Writes the text of the line's element.
fn put_texts<W: Writer, K: Sink>(
    pen: &mut W,
    out: &mut K,
    source: &Source<'_>,
    line: &Line,
) -> Result<(), WriteFault>
    requires state { state_of (W.view pen.old) ≢ Fresh }
    requires source { sources.IsSource source.now }
    ensures makes { Makes result (W.view pen.old) (K.view out.old)
        (spec.text_calls (flat_map (spec.text_at source.now.rows.now source.now.entries.now source.now.context) line.now.rows)) (W.view pen.new)
        (K.view out.new) }
    ensures state { state_of (W.view pen.new) ≢ Fresh }
{
    let numbers = line.rows.as_slice();
    'rows: for number in numbers {
        put_text(pen, out, source, *number)?;
    }
    Ok(())
}

/// Writes the attributes and the text of the line's element, whose tag is open.
pub(crate) fn put_cells<W: Writer, K: Sink>(
    pen: &mut W,
    out: &mut K,
    source: &Source<'_>,
    line: &Line,
) -> Result<(), WriteFault>
    requires state { state_of (W.view pen.old) ≡ InsideTag }
    requires source { sources.IsSource source.now }
    ensures makes { Makes result (W.view pen.old) (K.view out.old) (spec.cell_calls source.now.rows.now source.now.entries.now line.now source.now.context)
        (W.view pen.new) (K.view out.new) }
    ensures state { state_of (W.view pen.new) ≢ Fresh }
{
    put_currencies(pen, out, source, line)?;
    put_attributes(pen, out, source, line)?;
    put_texts(pen, out, source, line)
}
