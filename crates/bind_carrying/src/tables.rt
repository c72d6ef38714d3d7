ghost use Rattle.std.specs.Prelude.{◌≡◌, Some, true, bytes_eq, chars, nat_lt};
ghost use Rattle.std.specs.List.{list_all};
ghost use Rattle.bind_carrying.specs.Tables as spec;

use bind_meaning::{DocumentType, Syntax};
use bind_rows::Namespace;
use bind_table::Binding;
use inv_terms::{Invoice, Value};
use term_table::{ROOT, Term};

/// The type of the invoice, BT-3.
const INVOICE_TYPE: Term = Term { number: 3, part: 0 };

fn table_of(root: Namespace) -> DocumentType
    ensures { result ≡ spec.table_of (Some root) }
{
    match root {
        Namespace::UblInvoice => DocumentType::Invoice,
        Namespace::UblCreditNote => DocumentType::CreditNote,
        _ => DocumentType::Cii,
    }
}

/// Which of the three tables it is, by its root.
pub(crate) fn document_type_of(b: &Binding) -> DocumentType
    ensures { result ≡ spec.document_type_of b.now }
{
    match b.lines().first() {
        Some(line) => table_of(line.step.name.namespace),
        None => DocumentType::Cii,
    }
}

/// Whether the table is one of UBL.
pub(crate) fn is_ubl(table: DocumentType) -> bool
    ensures { result ≡ spec.is_ubl table }
{
    match table {
        DocumentType::Invoice | DocumentType::CreditNote => true,
        DocumentType::Cii => false,
    }
}

/// Whether the text is this word of ASCII.
pub(crate) fn is_word(text: &str, word: &str) -> bool
    requires { list_all (λ b. nat_lt b 128) word.now ≡ true }
    ensures { result ≡ bytes_eq word.now (chars text.now) }
{
    word == text
}

/// Whether the code is the type of a credit note (UNTDID 1001).
pub(crate) fn is_credit_note(code: &str) -> bool
    ensures { result ≡ spec.is_credit_note (chars code.now) }
{
    is_word(code, "381") || is_word(code, "396")
}

fn is_credit_note_value(value: &Value) -> bool
    ensures { result ≡ spec.is_credit_note_value (Some value.now) }
{
    let mut buf = [0; 40];
    is_credit_note(value.text(&mut buf))
}

/// The table by which an invoice is written in a syntax: in UBL as a credit note exactly where its type, BT-3, is 381 or 396.
pub fn target(i: &Invoice, syntax: Syntax) -> DocumentType
    ensures { result ≡ spec.target i.now syntax }
{
    match syntax {
        Syntax::Cii => DocumentType::Cii,
        Syntax::Ubl => match i.value(INVOICE_TYPE, ROOT) {
            None => DocumentType::Invoice,
            Some(value) => {
                if is_credit_note_value(value) {
                    DocumentType::CreditNote
                } else {
                    DocumentType::Invoice
                }
            }
        },
    }
}
