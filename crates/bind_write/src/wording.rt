ghost use Rattle.std.specs.Prelude.{◌≡◌, ◌&&◌, ◌||◌, Option, Some, None, map, option_map, option_copied, take, chars, codes, bytes_eq, is_some, is_none, not};
ghost use Rattle.std.specs.Prelude.{nat_le, length, false};
ghost use Rattle.std.specs.List.{list_all};
ghost use Rattle.inv_decimal.specs.CivilDay.{IsDay};
ghost use Rattle.inv_decimal.specs.WrittenDay.{plain_day_text};
ghost use Rattle.term_table.specs.Runs.{IsInOrder};
ghost use Rattle.inv_terms.specs.Listing as listing;
ghost use Rattle.inv_terms.specs.Values as values;
ghost use Rattle.bind_meaning.specs.Writing as writing;
ghost use Rattle.bind_meaning.specs.Values as meaning;
ghost use Rattle.bind_write.specs.Sources as sources;
ghost use Rattle.bind_write.specs.Wordings as spec;

use crate::looking::value_of;
use crate::types::value_for;
use bind_meaning::form_for;
use bind_rows::{Content, Form, Row, Written};
use inv_base::{Txt, ascii_text};
use inv_decimal::Day;
use inv_decimal::laws::printed_texts_are_ascii;
use inv_terms::{Entry, Value};
use term_table::{Context, Term};

/// A code of BT-8 as UNTDID 2475 has it.
#[derive(Clone, Copy)]
pub(crate) enum DueDateType {
    Invoice,
    Delivery,
    Payment,
}

/// A text that is written whole.
#[derive(Clone, Copy)]
pub(crate) enum Plain<'a> {
    Value(&'a Value),
    /// A day without dashes.
    PlainDate(Day),
    DueDate(DueDateType),
    /// A constant or a placeholder.
    Text(&'a Txt),
}

/// What a row writes: a text, behind a subject code between two `#` if there is one.
#[derive(Clone, Copy)]
pub(crate) struct Wording<'a> {
    pub subject: Option<&'a Value>,
    pub text: Plain<'a>,
}

/// The subject code of a note, BT-21.
const SUBJECT: Term = Term {
    number: 21,
    part: 0,
};

/// Puts the day at the front of the buffer, in eight bytes.
fn put_day(day: Day, buf: &mut [u8; 40])
    ensures text { take 8 buf.new ≡ plain_day_text day }
    ensures exists { IsDay day }
{
    let mut text = [0; 8];
    day.print_plain(&mut text);
    buf[..8].copy_from_slice(&text);
}

fn day_text(day: Day, buf: &mut [u8; 40]) -> &str
    ensures { chars result.now ≡ plain_day_text day }
{
    printed_texts_are_ascii();
    put_day(day, buf);
    ascii_text(&buf[..8])
}

fn due_date_text(code: DueDateType) -> &'static str
    ensures { chars result.now ≡ spec.due_date_text code }
{
    match code {
        DueDateType::Invoice => "5",
        DueDateType::Delivery => "29",
        DueDateType::Payment => "72",
    }
}

/// The text. The buffer is for numbers and days.
pub(crate) fn text_of<'a>(plain: &'a Plain<'a>, buf: &'a mut [u8; 40]) -> &'a str
    ensures { chars result.now ≡ spec.plain_text plain.now }
{
    match plain {
        Plain::Value(value) => value.text(buf),
        Plain::PlainDate(day) => day_text(*day, buf),
        Plain::DueDate(code) => due_date_text(*code),
        Plain::Text(text) => text.as_str(),
    }
}

/// A value of BT-8 as UNTDID 2475 has it. Any other value as it is.
fn due_date<'a>(value: &'a Value) -> Plain<'a>
    ensures { spec.plain_text result ≡ writing.written_among meaning.images (values.spelled value.now) }
{
    let mut buf = [0; 40];
    let code = value.text(&mut buf);
    if is_word(code, "3") {
        return Plain::DueDate(DueDateType::Invoice);
    }
    if is_word(code, "35") {
        return Plain::DueDate(DueDateType::Delivery);
    }
    if is_word(code, "432") {
        return Plain::DueDate(DueDateType::Payment);
    }
    Plain::Value(value)
}

fn is_word(text: &str, word: &str) -> bool
    ensures { result ≡ bytes_eq (chars word.now) (chars text.now) }
{
    word == text
}

fn plain_date<'a>(value: &'a Value) -> Plain<'a>
    ensures { spec.plain_text result ≡ writing.plain_date value.now }
{
    match value {
        Value::Date(day) => Plain::PlainDate(*day),
        _ => Plain::Value(value),
    }
}

/// A value in the form of its row.
fn formed<'a>(form: Form, entries: &'a [Entry], context: Context, value: &'a Value) -> Wording<'a>
    requires { IsInOrder (map listing.seat_of entries.now) }
    ensures text { spec.wording_text result ≡ writing.formed form entries.now context value.now }
    ensures plain { sources.is_note form ≡ false → result.subject ≡ None }
{
    match form {
        Form::Model => Wording {
            subject: None,
            text: Plain::Value(value),
        },
        Form::PlainDate => Wording {
            subject: None,
            text: plain_date(value),
        },
        Form::DueDateTypeCode => Wording {
            subject: None,
            text: due_date(value),
        },
        Form::CodedNote => Wording {
            subject: value_of(entries, SUBJECT, context),
            text: Plain::Value(value),
        },
        Form::Typed(_) => Wording {
            subject: None,
            text: Plain::Value(value),
        },
        Form::TypedPlainDate => Wording {
            subject: None,
            text: plain_date(value),
        },
    }
}

fn is_upper(c: char) -> bool
    ensures { result ≡ writing.is_upper c }
{
    'A' <= c && c <= 'Z'
}

fn is_digit(c: char) -> bool
    ensures { result ≡ writing.is_digit c }
{
    '0' <= c && c <= '9'
}

/// Whether the text is an IBAN by its form: two letters, two digits, then 11 to 30 letters and digits.
fn is_iban_text(text: &str) -> bool
    ensures { result ≡ writing.is_iban (chars text.now) }
{
    let mut place = 0u8;
    'characters: for c in text.chars() {
        if !fits_iban(place, c) {
            return false;
        }
        place += 1;
    }
    15 <= place
}

/// Whether an IBAN may have the character at a place, from 0.
fn fits_iban(place: u8, c: char) -> bool
    ensures { result ≡ spec.fits_iban place c }
{
    match place {
        0 | 1 => is_upper(c),
        2 | 3 => is_digit(c),
        4..=33 => is_upper(c) || is_digit(c),
        _ => false,
    }
}

fn is_iban(wording: &Wording<'_>) -> bool
    ensures { result ≡ writing.is_iban (spec.wording_text wording.now) }
{
    if wording.subject.is_some() {
        return false;
    }
    let mut buf = [0; 40];
    is_iban_text(text_of(&wording.text, &mut buf))
}

fn stands(entries: &[Entry], term: Term, context: Context) -> bool
    requires { IsInOrder (map listing.seat_of entries.now) }
    ensures { result ≡ is_some (listing.value_in entries.now term context) }
{
    value_of(entries, term, context).is_some()
}

fn scheme_of(term: Term) -> Term
    ensures { result ≡ writing.scheme_of term }
{
    Term {
        number: term.number,
        part: 1,
    }
}

/// Whether a row that has a value writes it.
fn is_due(
    written: &Written,
    entries: &[Entry],
    term: Term,
    context: Context,
    wording: &Wording<'_>,
) -> bool
    requires { IsInOrder (map listing.seat_of entries.now) }
    ensures { writing.if_due written.now entries.now term context (spec.wording_text wording.now) ≡ writing.if_so result (spec.wording_text wording.now) }
{
    match written {
        Written::Always => true,
        Written::Never => false,
        Written::IfIban => is_iban(wording),
        Written::IfNotIban => !is_iban(wording),
        Written::IfScheme => stands(entries, scheme_of(term), context),
        Written::IfNoScheme => !stands(entries, scheme_of(term), context),
        Written::OrPlaceholder(_) => true,
        Written::VatTotal => true,
        Written::AccountingVatTotal => true,
    }
}

/// The placeholder of a row, where the term beside it stands.
fn placeholder<'a>(row: &'a Row, entries: &[Entry], context: Context) -> Option<Wording<'a>>
    requires { IsInOrder (map listing.seat_of entries.now) }
    ensures text { option_map spec.wording_text result ≡ writing.filled row.now.written entries.now context }
    ensures plain { spec.IsPlain result }
{
    match &row.written {
        Written::OrPlaceholder(placeholder) => {
            if stands(entries, placeholder.beside, context) {
                Some(Wording {
                    subject: None,
                    text: Plain::Text(&placeholder.text),
                })
            } else {
                None
            }
        }
        _ => None,
    }
}

/// What a row with a term writes in a context.
pub(crate) fn term_wording<'a>(
    row: &'a Row,
    entries: &'a [Entry],
    term: Term,
    context: Context,
) -> Option<Wording<'a>>
    requires { IsInOrder (map listing.seat_of entries.now) }
    ensures text { option_map spec.wording_text result ≡ writing.term_text row.now entries.now term context }
    ensures plain { sources.is_note row.now.form ≡ false → spec.IsPlain result }
{
    match value_for(row, entries, term, context) {
        None => placeholder(row, entries, context),
        Some(value) => value_wording(row, entries, term, context, value),
    }
}

fn value_wording<'a>(
    row: &'a Row,
    entries: &'a [Entry],
    term: Term,
    context: Context,
    value: &'a Value,
) -> Option<Wording<'a>>
    requires { IsInOrder (map listing.seat_of entries.now) }
    ensures text { option_map spec.wording_text result ≡ writing.if_due row.now.written entries.now term context
        (writing.formed (meaning.form_for row.now.form term) entries.now context value.now) }
    ensures plain { sources.is_note row.now.form ≡ false → spec.IsPlain result }
{
    let wording = formed(form_for(row.form, term), entries, context, value);
    if is_due(&row.written, entries, term, context, &wording) {
        Some(wording)
    } else {
        None
    }
}
