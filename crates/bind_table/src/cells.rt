ghost use Rattle.std.specs.Prelude.{◌≡◌, IfOk};
ghost use Rattle.bind_table.specs.Items as spec;

use bind_rows::{Check, Content, Form, Placeholder, Repeats, Written};
use inv_base::Txt;
use std::alloc::{AllocError, Global};
use term_table::Term;

/// What stands at an element or at an attribute. Terms are told by their numbers, and one with a part by two: BT-18-1
/// is 18 and 1.
#[derive(Clone, Copy)]
pub enum Cell {
    /// A term, once in its context.
    Bt(u16),
    /// A part of a term.
    Part(u16, u8),
    /// A text that is written and not read.
    Constant(&'static str),
    /// A date without dashes, whose element may have `format="102"`.
    PlainDate(u16),
    /// A term that is written in each of the elements that repeat, and has one value in all of them.
    Spread(u16),
    /// The same for a date without dashes.
    SpreadPlainDate(u16),
    /// The same for the code of BT-8, as UNTDID 2475 has it.
    SpreadDueDateTypeCode(u16),
    /// A term that may be read several times with one value.
    Agreeing(u16),
    /// The same for one that isn't written here.
    AgreeingUnwritten(u16),
    /// A note behind its subject code.
    CodedNote(u16),
    /// A term that has a text in its place where it is absent and the other one stands.
    Filled(u16, &'static str, u16),
    /// An account that is written here where it is an IBAN.
    Iban(u16),
    /// An account that is written here where it is none.
    OtherAccount(u16),
    /// An identifier that is written here where it has no scheme.
    Unschemed(u16),
    /// An identifier that is written here where it has a scheme. Its element has to have one.
    Schemed(u16),
    /// An identifier whose element has to have a scheme.
    AlwaysSchemed(u16),
    /// The invoice's VAT total.
    VatTotal(u16),
    /// The VAT total in the accounting currency.
    AccountingVatTotal(u16),
    /// The constant that tells an allowance from a charge, whose amount is the term.
    Indicator(&'static str, u16),
}

const fn bt(number: u16) -> Term
    ensures { result ≡ spec.bt number }
{
    Term { number, part: 0 }
}

/// What the row has.
pub(crate) fn content_of(alloc: Global, cell: &Cell) -> Result<Content, AllocError>
    ensures { IfOk result (λ content. content ≡ spec.content_of cell.now) }
{
    match cell {
        Cell::Part(number, part) => Ok(Content::Term(Term {
            number: *number,
            part: *part,
        })),
        Cell::Constant(text) => Ok(Content::Constant(Txt::of(alloc, text)?)),
        Cell::Indicator(text, _) => Ok(Content::Constant(Txt::of(alloc, text)?)),
        Cell::Bt(number)
        | Cell::PlainDate(number)
        | Cell::Spread(number)
        | Cell::SpreadPlainDate(number)
        | Cell::SpreadDueDateTypeCode(number)
        | Cell::Agreeing(number)
        | Cell::AgreeingUnwritten(number)
        | Cell::CodedNote(number)
        | Cell::Filled(number, _, _)
        | Cell::Iban(number)
        | Cell::OtherAccount(number)
        | Cell::Unschemed(number)
        | Cell::Schemed(number)
        | Cell::AlwaysSchemed(number)
        | Cell::VatTotal(number)
        | Cell::AccountingVatTotal(number) => Ok(Content::Term(bt(*number))),
    }
}

pub(crate) fn form_of(cell: &Cell) -> Form
    ensures { result ≡ spec.form_of cell.now }
{
    match cell {
        Cell::PlainDate(_) | Cell::SpreadPlainDate(_) => Form::PlainDate,
        Cell::SpreadDueDateTypeCode(_) => Form::DueDateTypeCode,
        Cell::CodedNote(_) => Form::CodedNote,
        _ => Form::Model,
    }
}

pub(crate) fn repeats_of(cell: &Cell) -> Repeats
    ensures { result ≡ spec.repeats_of cell.now }
{
    match cell {
        Cell::Spread(_) | Cell::SpreadPlainDate(_) | Cell::SpreadDueDateTypeCode(_) => {
            Repeats::Spread
        }
        Cell::Agreeing(_) | Cell::AgreeingUnwritten(_) => Repeats::Agreeing,
        _ => Repeats::Once,
    }
}

pub(crate) fn written_of(alloc: Global, cell: &Cell) -> Result<Written, AllocError>
    ensures { IfOk result (λ written. written ≡ spec.written_of cell.now) }
{
    match cell {
        Cell::AgreeingUnwritten(_) => Ok(Written::Never),
        Cell::Filled(_, text, beside) => Ok(Written::OrPlaceholder(Placeholder {
            text: Txt::of(alloc, text)?,
            beside: bt(*beside),
        })),
        Cell::Iban(_) => Ok(Written::IfIban),
        Cell::OtherAccount(_) => Ok(Written::IfNotIban),
        Cell::Unschemed(_) => Ok(Written::IfNoScheme),
        Cell::Schemed(_) => Ok(Written::IfScheme),
        Cell::VatTotal(_) => Ok(Written::VatTotal),
        Cell::AccountingVatTotal(_) => Ok(Written::AccountingVatTotal),
        _ => Ok(Written::Always),
    }
}

pub(crate) fn check_of(cell: &Cell) -> Check
    ensures { result ≡ spec.check_of cell.now }
{
    match cell {
        Cell::PlainDate(_) | Cell::SpreadPlainDate(_) => Check::Format,
        Cell::Schemed(_) | Cell::AlwaysSchemed(_) => Check::Scheme,
        Cell::Indicator(_, amount) => Check::Indicator(bt(*amount)),
        _ => Check::Nothing,
    }
}
