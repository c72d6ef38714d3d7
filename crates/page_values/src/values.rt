ghost use Rattle.std.specs.Prelude.{◌≡◌, chars, option_copied, option_map};
ghost use Rattle.inv_base.specs.Printing.{Prints};
ghost use Rattle.inv_terms.specs.Values.{spelled};
ghost use Rattle.inv_terms.specs.Attachments as attachments;
ghost use Rattle.page_values.specs.Values as spec;
ghost use Rattle.page_values.specs.Seen.{IsPlace, seen};

use crate::escapes::{put_bare, put_escaped};
use crate::places::{Place, size_at, value_at};
use crate::words::{is_saved, meaning_of};
use inv_base::{Printer, Sink, Txt};
use inv_listing::print_term;
use inv_terms::Value;
use itoa::Buffer;
use page_tables::Meanings;
use term_table::{Term, term_name};

const ATTACHED_DOCUMENT: Term = Term {
    number: 125,
    part: 0,
};

const MEDIA_TYPE: Term = Term {
    number: 125,
    part: 1,
};

const FILE_NAME: Term = Term {
    number: 125,
    part: 2,
};

/// Writes a term by its number and its name.
pub fn put_title<K: Sink>(term: Term, printer: &mut Printer, out: &mut K)
    ensures { Prints (spec.title term) printer.old.failed printer.new.failed (K.view out.old) (K.view out.new) }
{
    print_term(term, printer, out);
    put_name(term_name(term), printer, out);
}

fn put_name<K: Sink>(name: Option<&'static str>, printer: &mut Printer, out: &mut K)
    ensures { Prints (spec.name_text (option_map (λ text. text.now) name.entry)) printer.old.failed printer.new.failed (K.view out.old) (K.view out.new) }
{
    match name {
        Some(name) => {
            printer.put(out, b" ");
            printer.put(out, name.as_bytes());
        }
        None => {}
    }
}

/// Begins the element that a value is.
fn put_start<K: Sink>(term: Term, printer: &mut Printer, out: &mut K)
    ensures { Prints (spec.start term) printer.old.failed printer.new.failed (K.view out.old) (K.view out.new) }
{
    printer.put(out, b"<bdi title=\"");
    put_title(term, printer, out);
    printer.put(out, b"\">");
}

/// Writes the text of a value.
pub(crate) fn put_text<K: Sink>(value: &Value, printer: &mut Printer, out: &mut K)
    ensures { Prints (spec.value_text value.now) printer.old.failed printer.new.failed (K.view out.old) (K.view out.new) }
{
    let mut buf = [0; 40];
    put_escaped(value.text(&mut buf), printer, out);
}

/// Writes the text of a term's value, where it stands.
pub fn put_text_at<K: Sink>(place: &Place<'_>, term: Term, printer: &mut Printer, out: &mut K)
    requires { IsPlace place.now }
    ensures { Prints (spec.text_at (seen place.now) term) printer.old.failed printer.new.failed (K.view out.old) (K.view out.new) }
{
    match value_at(place, term) {
        Some(value) => put_text(value, printer, out),
        None => {}
    }
}

/// Writes a value that isn't an attached document.
pub fn put_plain<K: Sink>(
    term: Term,
    meanings: Meanings,
    value: &Value,
    printer: &mut Printer,
    out: &mut K,
)
    ensures { Prints (spec.plain term meanings value.now) printer.old.failed printer.new.failed (K.view out.old) (K.view out.new) }
{
    put_element(term, value, printer, out);
    put_sign(is_percentage(value), printer, out);
    put_meaning_of(meanings, value, printer, out);
}

fn put_element<K: Sink>(term: Term, value: &Value, printer: &mut Printer, out: &mut K)
    ensures { Prints (spec.element term (spec.value_text value.now)) printer.old.failed printer.new.failed (K.view out.old) (K.view out.new) }
{
    put_start(term, printer, out);
    put_text(value, printer, out);
    printer.put(out, b"</bdi>");
}

fn is_percentage(value: &Value) -> bool
    ensures { result ≡ spec.is_percentage value.now }
{
    match value {
        Value::Percent(_) => true,
        Value::Text(_) => false,
        Value::Identifier(_) => false,
        Value::Code(_) => false,
        Value::Amount(_) => false,
        Value::Quantity(_) => false,
        Value::Date(_) => false,
        Value::Base64(_) => false,
    }
}

fn put_sign<K: Sink>(is_percentage: bool, printer: &mut Printer, out: &mut K)
    ensures { Prints (spec.sign is_percentage) printer.old.failed printer.new.failed (K.view out.old) (K.view out.new) }
{
    if is_percentage {
        printer.put(out, b"\xC2\xA0%");
    }
}

fn put_meaning_of<K: Sink>(meanings: Meanings, value: &Value, printer: &mut Printer, out: &mut K)
    ensures { Prints (spec.meaning_text (spec.meaning_of meanings (spelled value.now))) printer.old.failed printer.new.failed
        (K.view out.old) (K.view out.new) }
{
    let mut buf = [0; 40];
    put_meaning(meaning_of(meanings, value.text(&mut buf)), printer, out);
}

fn put_meaning<K: Sink>(meaning: Option<&'static str>, printer: &mut Printer, out: &mut K)
    ensures { Prints (spec.meaning_text (option_map (λ text. text.now) meaning.entry)) printer.old.failed printer.new.failed (K.view out.old) (K.view out.new) }
{
    match meaning {
        Some(meaning) => {
            printer.put(out, b" <i>");
            printer.put(out, meaning.as_bytes());
            printer.put(out, b"</i>");
        }
        None => {}
    }
}

/// Writes a term's value in a place.
pub fn put_value<K: Sink>(
    place: &Place<'_>,
    term: Term,
    meanings: Meanings,
    printer: &mut Printer,
    out: &mut K,
)
    requires { IsPlace place.now }
    ensures { Prints (spec.value_of (seen place.now) term meanings) printer.old.failed printer.new.failed (K.view out.old) (K.view out.new) }
{
    match value_at(place, term) {
        Some(value) => put_shown(place, term, meanings, value, printer, out),
        None => {}
    }
}

pub(crate) fn put_shown<K: Sink>(
    place: &Place<'_>,
    term: Term,
    meanings: Meanings,
    value: &Value,
    printer: &mut Printer,
    out: &mut K,
)
    requires { IsPlace place.now }
    ensures { Prints (spec.shown (seen place.now) term meanings value.now) printer.old.failed printer.new.failed (K.view out.old) (K.view out.new) }
{
    match base64_in(value) {
        Some(text) => put_attached(place, text.as_str(), printer, out),
        None => put_plain(term, meanings, value, printer, out),
    }
}

/// The text of an attached document.
pub(crate) fn base64_in(value: &Value) -> Option<&Txt>
    ensures { option_copied result ≡ attachments.base64_in value.now }
{
    match value {
        Value::Base64(text) => Some(text),
        Value::Text(_) => None,
        Value::Identifier(_) => None,
        Value::Code(_) => None,
        Value::Amount(_) => None,
        Value::Quantity(_) => None,
        Value::Percent(_) => None,
        Value::Date(_) => None,
    }
}

// ---- attached documents

fn put_attached<K: Sink>(place: &Place<'_>, text: &str, printer: &mut Printer, out: &mut K)
    requires { IsPlace place.now }
    ensures { Prints (spec.attached (seen place.now) (chars text.now)) printer.old.failed printer.new.failed (K.view out.old) (K.view out.new) }
{
    match size_at(place) {
        None => put_not_base64(printer, out),
        Some(size) => put_sized(place, text, size, printer, out),
    }
}

fn put_not_base64<K: Sink>(printer: &mut Printer, out: &mut K)
    ensures { Prints spec.not_base64 printer.old.failed printer.new.failed (K.view out.old) (K.view out.new) }
{
    put_start(ATTACHED_DOCUMENT, printer, out);
    printer.put(out, b"not base64");
    printer.put(out, b"</bdi>");
}

fn put_sized<K: Sink>(
    place: &Place<'_>,
    text: &str,
    size: usize,
    printer: &mut Printer,
    out: &mut K,
)
    requires { IsPlace place.now }
    ensures { Prints (spec.sized (seen place.now) (chars text.now) size) printer.old.failed printer.new.failed (K.view out.old) (K.view out.new) }
{
    if has_saved_type(place) {
        put_saved(place, text, size, printer, out);
    } else {
        put_size_alone(size, printer, out);
    }
}

fn has_saved_type(place: &Place<'_>) -> bool
    requires { IsPlace place.now }
    ensures { result ≡ spec.is_saved_value (spec.media_type (seen place.now)) }
{
    match value_at(place, MEDIA_TYPE) {
        Some(value) => is_saved_value(value),
        None => false,
    }
}

fn is_saved_value(value: &Value) -> bool
    ensures { result ≡ spec.is_saved (spelled value.now) }
{
    let mut buf = [0; 40];
    is_saved(value.text(&mut buf))
}

fn put_saved<K: Sink>(
    place: &Place<'_>,
    text: &str,
    size: usize,
    printer: &mut Printer,
    out: &mut K,
)
    requires { IsPlace place.now }
    ensures { Prints (spec.saved (seen place.now) (chars text.now) size) printer.old.failed printer.new.failed (K.view out.old) (K.view out.new) }
{
    printer.put(out, b"<a title=\"");
    put_title(ATTACHED_DOCUMENT, printer, out);
    printer.put(out, b"\" download=\"");
    put_text_at(place, FILE_NAME, printer, out);
    put_link(place, text, size, printer, out);
}

/// Writes where the bytes of an attached document are, and how many.
fn put_link<K: Sink>(place: &Place<'_>, text: &str, size: usize, printer: &mut Printer, out: &mut K)
    requires { IsPlace place.now }
    ensures { Prints (spec.link (seen place.now) (chars text.now) size) printer.old.failed printer.new.failed (K.view out.old) (K.view out.new) }
{
    printer.put(out, b"\" href=\"data:");
    put_text_at(place, MEDIA_TYPE, printer, out);
    printer.put(out, b";base64,");
    put_bare(text, printer, out);
    printer.put(out, b"\">save</a> ");
    put_size(size, printer, out);
}

fn put_size_alone<K: Sink>(size: usize, printer: &mut Printer, out: &mut K)
    ensures { Prints (spec.size_alone size) printer.old.failed printer.new.failed (K.view out.old) (K.view out.new) }
{
    put_start(ATTACHED_DOCUMENT, printer, out);
    put_size(size, printer, out);
    printer.put(out, b"</bdi>");
}

fn put_size<K: Sink>(size: usize, printer: &mut Printer, out: &mut K)
    ensures { Prints (spec.size_text size) printer.old.failed printer.new.failed (K.view out.old) (K.view out.new) }
{
    let mut digits = Buffer::new();
    printer.put(out, digits.format(size).as_bytes());
    printer.put(out, b" bytes");
}
