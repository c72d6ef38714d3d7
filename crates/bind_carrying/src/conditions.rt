ghost use Rattle.std.specs.Prelude.{◌≡◌, Some, chars, bytes_eq, nat_lt, true, option_copied};
ghost use Rattle.std.specs.List.{list_all};
ghost use Rattle.inv_terms.specs.Values as values;
ghost use Rattle.bind_meaning.specs.Values as meaning;
ghost use Rattle.bind_carrying.specs.Tables as tables;
ghost use Rattle.bind_carrying.specs.Carrying as spec;
ghost use Rattle.bind_carrying.specs.Notes as reading;

use crate::tables::{is_credit_note, is_ubl, is_word};
use bind_meaning::DocumentType;
use inv_base::is_white_space;
use inv_terms::{Entry, Invoice, Value};
use term_table::{ROOT, Term};

/// What has to hold of each entry so that a table can carry the invoice, in the order in which it is asked.
#[derive(Clone, Copy)]
pub(crate) enum Condition {
    /// A part that is written as an attribute stands beside its main term.
    Part,
    /// No scheme in UBL is the one that marks a creditor identifier.
    Creditor,
    /// No purchase order reference in UBL is the placeholder beside a sales order reference.
    Placeholder,
    /// In UBL subject codes are three of A-Z and 0-9, and no other note looks like one with a code.
    Note,
    /// The type is one of the table's documents, and the code of BT-8 has an image.
    Code,
    /// In UBL a term whose only place is a PaymentMeans has one.
    Means,
    /// A VAT total in the accounting currency stands beside such a currency.
    Currency,
}

const fn bt(number: u16) -> Term
    ensures { result ≡ spec.bt number }
{
    Term { number, part: 0 }
}

fn is_bt(number: u16, part: u8, term: Term) -> bool
    ensures { result ≡ spec.is_bt number part term }
{
    term.number == number && term.part == part
}

fn has_text(e: &Entry, word: &str) -> bool
    requires { list_all (λ b. nat_lt b 128) word.now ≡ true }
    ensures { result ≡ spec.has_text e.now word.now }
{
    let mut buf = [0; 40];
    is_word(e.value.text(&mut buf), word)
}

fn stands(i: &Invoice, number: u16) -> bool
    ensures { result ≡ spec.stands i.now number }
{
    i.value(bt(number), ROOT).is_some()
}

fn is_first_part(number: u16) -> bool
    ensures { result ≡ spec.is_first_part number }
{
    matches!(number, 30 | 34 | 46 | 47 | 49 | 60 | 61 | 71 | 125 | 157)
}

fn is_part(ubl: bool, term: Term) -> bool
    ensures { result ≡ spec.is_part ubl term }
{
    term.part == 1
        && (is_first_part(term.number) || ubl && (term.number == 18 || term.number == 128))
        || is_bt(125, 2, term)
}

/// The term at whose element a part is written as an attribute.
fn main_term(ubl: bool, term: Term) -> Option<Term>
    ensures { result ≡ spec.main_term ubl term }
{
    if is_part(ubl, term) {
        return Some(bt(term.number));
    }
    if is_bt(150, 0, term) {
        return Some(bt(149));
    }
    if ubl && is_bt(82, 0, term) {
        return Some(bt(81));
    }
    None
}

fn stands_alone(table: DocumentType, i: &Invoice, e: &Entry) -> bool
    ensures { result ≡ spec.stands_alone table i.now e.now }
{
    match main_term(is_ubl(table), e.term) {
        None => false,
        Some(main) => i.value(main, e.context).is_none(),
    }
}

fn marks_creditor(table: DocumentType, e: &Entry) -> bool
    ensures { result ≡ spec.marks_creditor table e.now }
{
    is_ubl(table) && (is_bt(29, 1, e.term) || is_bt(60, 1, e.term)) && has_text(e, "SEPA")
}

fn is_placeholder(table: DocumentType, i: &Invoice, e: &Entry) -> bool
    ensures { result ≡ spec.is_placeholder table i.now e.now }
{
    is_ubl(table) && is_bt(13, 0, e.term) && has_text(e, "NA") && stands(i, 14)
}

fn is_subject_character(c: char) -> bool
    ensures { result ≡ meaning.is_subject_character c }
{
    'A' <= c && c <= 'Z' || '0' <= c && c <= '9'
}

fn fits_subject(place: u8, c: char) -> bool
    ensures { result ≡ reading.fits_subject place c }
{
    place < 3 && is_subject_character(c)
}

/// Whether the text is three of A-Z and 0-9.
fn is_subject(text: &str) -> bool
    ensures { result ≡ spec.is_subject (chars text.now) }
{
    let mut place = 0u8;
    'characters: for c in text.chars() {
        if !fits_subject(place, c) {
            return false;
        }
        place += 1;
    }
    place == 3
}

/// Whether a note with a subject code may have the character at a place, from 0. Behind its second `#` it may have any.
fn fits_note(place: u8, c: char) -> bool
    ensures { result ≡ reading.fits_note place c }
{
    match place {
        0 | 4 => c == '#',
        1 | 2 | 3 => is_subject_character(c),
        _ => true,
    }
}

/// The place behind a character. All that stand behind the second `#` have one.
fn next_place(place: u8) -> u8
    ensures { result ≡ reading.next_place place }
{
    if place < 5 { place + 1 } else { place }
}

/// Whether the note behind the code isn't blank, once a character has come.
fn full_at(place: u8, is_full: bool, c: char) -> bool
    ensures { result ≡ reading.full_at place is_full c }
{
    is_full || 5 <= place && !is_white_space(c)
}

/// Whether a note without a subject code would be read as one with a code.
fn is_coded_note(text: &str) -> bool
    ensures { result ≡ spec.is_coded_note (chars text.now) }
{
    let mut place = 0u8;
    let mut is_full = false;
    'characters: for c in text.chars() {
        if !fits_note(place, c) {
            return false;
        }
        is_full = full_at(place, is_full, c);
        place = next_place(place);
    }
    is_full
}

fn is_subject_value(value: &Value) -> bool
    ensures { result ≡ spec.is_subject (values.spelled value.now) }
{
    let mut buf = [0; 40];
    is_subject(value.text(&mut buf))
}

fn is_coded_note_value(value: &Value) -> bool
    ensures { result ≡ spec.is_coded_note (values.spelled value.now) }
{
    let mut buf = [0; 40];
    is_coded_note(value.text(&mut buf))
}

fn is_bad_note(table: DocumentType, i: &Invoice, e: &Entry) -> bool
    ensures { result ≡ spec.is_bad_note table i.now e.now }
{
    if !is_ubl(table) {
        return false;
    }
    is_bt(21, 0, e.term) && !is_subject_value(&e.value)
        || is_bt(22, 0, e.term)
            && i.value(bt(21), e.context).is_none()
            && is_coded_note_value(&e.value)
}

fn is_other_type(table: DocumentType, code: &str) -> bool
    ensures { result ≡ spec.is_other_type table (chars code.now) }
{
    match table {
        DocumentType::Invoice => is_credit_note(code),
        DocumentType::CreditNote => !is_credit_note(code),
        DocumentType::Cii => false,
    }
}

fn is_other_type_value(table: DocumentType, value: &Value) -> bool
    ensures { result ≡ spec.is_other_type table (values.spelled value.now) }
{
    let mut buf = [0; 40];
    is_other_type(table, value.text(&mut buf))
}

fn has_image(code: &str) -> bool
    ensures { result ≡ spec.has_image (chars code.now) }
{
    is_word(code, "3") || is_word(code, "35") || is_word(code, "432")
}

fn has_image_value(value: &Value) -> bool
    ensures { result ≡ spec.has_image (values.spelled value.now) }
{
    let mut buf = [0; 40];
    has_image(value.text(&mut buf))
}

fn has_bad_code(table: DocumentType, e: &Entry) -> bool
    ensures { result ≡ spec.has_bad_code table e.now }
{
    is_bt(3, 0, e.term) && is_other_type_value(table, &e.value)
        || is_bt(8, 0, e.term) && !has_image_value(&e.value)
}

fn is_payment_term(number: u16) -> bool
    ensures { result ≡ spec.is_payment_term number }
{
    matches!(number, 82 | 83 | 87 | 88 | 89 | 91)
}

fn needs_means(table: DocumentType, term: Term) -> bool
    ensures { result ≡ spec.needs_means table term }
{
    match table {
        DocumentType::Invoice => term.part == 0 && is_payment_term(term.number),
        DocumentType::CreditNote => term.part == 0
            && (is_payment_term(term.number) || term.number == 9),
        DocumentType::Cii => false,
    }
}

fn lacks_means(table: DocumentType, i: &Invoice, e: &Entry) -> bool
    ensures { result ≡ spec.lacks_means table i.now e.now }
{
    needs_means(table, e.term) && !stands(i, 81)
}

fn are_equal(a: &str, b: &str) -> bool
    ensures { result ≡ bytes_eq (chars a.now) (chars b.now) }
{
    a == b
}

fn is_same_text(a: &Value, b: &Value) -> bool
    ensures { result ≡ spec.same_text (Some a.now) (Some b.now) }
{
    let mut buf = [0; 40];
    let mut other = [0; 40];
    are_equal(a.text(&mut buf), b.text(&mut other))
}

fn have_same_text(a: Option<&Value>, b: Option<&Value>) -> bool
    ensures { result ≡ spec.same_text (option_copied a.entry) (option_copied b.entry) }
{
    match a {
        None => false,
        Some(a) => match b {
            None => false,
            Some(b) => is_same_text(a, b),
        },
    }
}

fn has_no_currency(i: &Invoice, e: &Entry) -> bool
    ensures { result ≡ spec.has_no_currency i.now e.now }
{
    is_bt(111, 0, e.term)
        && (!stands(i, 6) || have_same_text(i.value(bt(6), ROOT), i.value(bt(5), ROOT)))
}

impl Condition {
    /// Whether it fails at an entry of the invoice.
    fn fails_at(self, table: DocumentType, i: &Invoice, e: &Entry) -> bool
        ensures { result ≡ spec.fails self table i.now e.now }
    {
        match self {
            Condition::Part => stands_alone(table, i, e),
            Condition::Creditor => marks_creditor(table, e),
            Condition::Placeholder => is_placeholder(table, i, e),
            Condition::Note => is_bad_note(table, i, e),
            Condition::Code => has_bad_code(table, e),
            Condition::Means => lacks_means(table, i, e),
            Condition::Currency => has_no_currency(i, e),
        }
    }

    /// Its number.
    pub(crate) fn number(self) -> u8
        ensures { result ≡ spec.number_of self }
    {
        match self {
            Condition::Part => 1,
            Condition::Creditor => 2,
            Condition::Placeholder => 3,
            Condition::Note => 4,
            Condition::Code => 5,
            Condition::Means => 6,
            Condition::Currency => 7,
        }
    }
}

/// The term of the first entry at which the condition fails.
pub(crate) fn first_at(condition: Condition, table: DocumentType, i: &Invoice) -> Option<Term>
    ensures { result ≡ spec.first_term (spec.first_at condition table i.now) }
{
    let entries = i.entries();
    'entries: for e in entries {
        if condition.fails_at(table, i, e) {
            return Some(e.term);
        }
    }
    None
}
