//! The totals of invoices beside what is computed.

use crate::cases::{Case, answers, answers_number, case_of, printing};
use crate::invoice_cases::INVOICE;
use crate::texts::columns;
use invoice_cli::Status;
use std::alloc::{AllocError, Global};
use std::test::Fail;
use test_rows::{Holds, expect, expect_rows};

/// The small invoice states no VAT total and no rate.
const DIFFERENCES: &str = "\
BT-110 stated - computed 2\n\
BT-112 stated 12.00 computed 10\n\
BG-23[1] BT-117 stated 2.00 computed 0\n\
differ 3\n";

fn is_compared(alloc: Global, words: &str) -> Result<bool, AllocError> {
    let case = printing(case_of(words, INVOICE.as_bytes()), DIFFERENCES);
    answers(alloc, &case, Status::Findings)
}

#[test]
fn totals_are_compared(rt: HostRuntime) -> Result<(), Fail> {
    expect(is_compared(rt.alloc(), "totals f")?, "totals f")?;
    expect(
        is_compared(rt.alloc(), "totals --codes eur f")?,
        "totals --codes",
    )
}

/// Of each row the rate of the breakdown, that of the line, the number of the status, and the one difference, if there
/// is one. The invoice states a VAT total of 2.00.
const RATES: &str = "\
20|20|0|
20|20.00|0|
20.04|20.04|0|
20.05|20.05|1|BG-23[1] BT-117 stated 2.00 computed 2.01
19|19|1|BG-23[1] BT-117 stated 2.00 computed 1.9
20|0|1|BG-23[1] BT-116 stated 10.00 computed 0";

fn put_rate(text: &mut String, piece: &str, rate: &str) -> Result<(), AllocError> {
    write!(
        text,
        "<cbc:Percent>{rate}</cbc:Percent><cac:TaxScheme>{piece}"
    )
}

/// Puts the invoice with a rate in its two categories behind a text.
fn put_rated(
    text: &mut String,
    whole: &str,
    breakdown: &str,
    line: &str,
) -> Result<(), AllocError> {
    let (front, behind) = whole.split_once("<cac:TaxScheme>").unwrap_or((whole, ""));
    let (middle, back) = behind.split_once("<cac:TaxScheme>").unwrap_or((behind, ""));
    text.push_str(front)?;
    put_rate(text, middle, breakdown)?;
    put_rate(text, back, line)
}

/// Puts the invoice with a VAT total and such rates behind a text.
fn put_invoice(text: &mut String, breakdown: &str, line: &str) -> Result<(), AllocError> {
    let (front, back) = INVOICE.split_once("<cac:TaxSubtotal>").unwrap_or(("", ""));
    text.push_str(front)?;
    text.push_str("<cbc:TaxAmount currencyID=\"EUR\">2.00</cbc:TaxAmount><cac:TaxSubtotal>")?;
    put_rated(text, back, breakdown, line)
}

struct Rates;

/// Whether the one difference, or none, is listed of a file.
fn lists<'a>(
    alloc: Global,
    file: &'a str,
    number: &str,
    told: &'a str,
) -> Result<bool, AllocError> {
    let counted = if told.is_empty() {
        "differ 0\n"
    } else {
        "\ndiffer 1\n"
    };
    let case = Case {
        out: [told, counted, ""],
        ..case_of("totals f", file.as_bytes())
    };
    answers_number(alloc, &case, number)
}

impl Holds for Rates {
    fn holds(&self, alloc: Global, row: &'static str) -> Result<bool, Fail> {
        let [breakdown, line, number, told, _] = columns(row, '|');
        let mut text = String::new(alloc);
        put_invoice(&mut text, breakdown, line)?;
        Ok(lists(alloc, text.as_str(), number, told)?)
    }
}

#[test]
fn rates_are_compared_by_their_values(rt: HostRuntime) -> Result<(), Fail> {
    expect_rows(rt.alloc(), &Rates, RATES)
}
