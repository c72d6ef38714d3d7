//! Validations over files and outputs in memory, beside lines that were written by hand.

use crate::cases::{
    Answer, Case, Written, answer_to, answers_number, case_of, in_pieces, output_of, printing,
};
use crate::failing_cases::{fails_reads, fails_writes};
use crate::texts::columns;
use code_lists::{CodeLists, List};
use held_rules::ready_rules;
use invoice_cli::Status;
use rule_texts::{cii_rules, code_lists_text, ubl_rules};
use std::alloc::{AllocError, Global};
use std::test::Fail;
use test_rows::{Holds, expect, expect_rows};

/// An invoice with which nothing is wrong.
const INVOICE: &str = r#"<?xml version="1.0" encoding="UTF-8"?>
<Invoice xmlns="urn:oasis:names:specification:ubl:schema:xsd:Invoice-2"
  xmlns:cac="urn:oasis:names:specification:ubl:schema:xsd:CommonAggregateComponents-2"
  xmlns:cbc="urn:oasis:names:specification:ubl:schema:xsd:CommonBasicComponents-2">
 <cbc:CustomizationID>urn:cen.eu:en16931:2017</cbc:CustomizationID>
 <cbc:ID>A1</cbc:ID>
 <cbc:IssueDate>2024-05-01</cbc:IssueDate>
 <cbc:DueDate>2024-06-01</cbc:DueDate>
 <cbc:InvoiceTypeCode>380</cbc:InvoiceTypeCode>
 <cbc:DocumentCurrencyCode>EUR</cbc:DocumentCurrencyCode>
 <cac:AccountingSupplierParty><cac:Party>
  <cac:PostalAddress><cac:Country><cbc:IdentificationCode>DE</cbc:IdentificationCode></cac:Country></cac:PostalAddress>
  <cac:PartyTaxScheme><cbc:CompanyID>DE1</cbc:CompanyID><cac:TaxScheme><cbc:ID>VAT</cbc:ID></cac:TaxScheme></cac:PartyTaxScheme>
  <cac:PartyLegalEntity><cbc:RegistrationName>Seller</cbc:RegistrationName></cac:PartyLegalEntity>
 </cac:Party></cac:AccountingSupplierParty>
 <cac:AccountingCustomerParty><cac:Party><cac:PostalAddress><cac:Country>
   <cbc:IdentificationCode>FR</cbc:IdentificationCode>
  </cac:Country></cac:PostalAddress>
  <cac:PartyLegalEntity><cbc:RegistrationName>Buyer</cbc:RegistrationName></cac:PartyLegalEntity>
 </cac:Party></cac:AccountingCustomerParty>
 <cac:TaxTotal>
  <cbc:TaxAmount currencyID="EUR">2.00</cbc:TaxAmount>
  <cac:TaxSubtotal>
   <cbc:TaxableAmount currencyID="EUR">10.00</cbc:TaxableAmount>
   <cbc:TaxAmount currencyID="EUR">2.00</cbc:TaxAmount>
   <cac:TaxCategory><cbc:ID>S</cbc:ID><cbc:Percent>20</cbc:Percent><cac:TaxScheme><cbc:ID>VAT</cbc:ID></cac:TaxScheme></cac:TaxCategory>
  </cac:TaxSubtotal>
 </cac:TaxTotal>
 <cac:LegalMonetaryTotal>
  <cbc:LineExtensionAmount currencyID="EUR">10.00</cbc:LineExtensionAmount>
  <cbc:TaxExclusiveAmount currencyID="EUR">10.00</cbc:TaxExclusiveAmount>
  <cbc:TaxInclusiveAmount currencyID="EUR">12.00</cbc:TaxInclusiveAmount>
  <cbc:PayableAmount currencyID="EUR">12.00</cbc:PayableAmount>
 </cac:LegalMonetaryTotal>
 <cac:InvoiceLine><cbc:ID>1</cbc:ID><cbc:InvoicedQuantity unitCode="C62">1</cbc:InvoicedQuantity>
  <cbc:LineExtensionAmount currencyID="EUR">10.00</cbc:LineExtensionAmount>
  <cac:Item>
   <cbc:Name>Pen</cbc:Name>
   <cac:ClassifiedTaxCategory><cbc:ID>S</cbc:ID><cbc:Percent>20</cbc:Percent><cac:TaxScheme><cbc:ID>VAT</cbc:ID></cac:TaxScheme></cac:ClassifiedTaxCategory>
  </cac:Item>
  <cac:Price><cbc:PriceAmount currencyID="EUR">10.00</cbc:PriceAmount></cac:Price>
 </cac:InvoiceLine>
</Invoice>"#;

/// Of each row the words; the lines of the invoice that are others, each behind its number; the number of the status; and
/// what is told. `§` stands for the location of the root element, `†` and `‡` for the namespaces of basic and of aggregate
/// components in a location, and `␊` for LF.
const VALIDATIONS: &str =
    r#"validate f→→0→faults 0, passed over 0, unread 0, misplaced 0, failed 0, reported 0, errors 0, minor 0␊
validate f→33=  <cbc:PayableAmount currencyID="USD">twelve</cbc:PayableAmount>→1→fault BadValue BT-115 §/*:LegalMonetaryTotal‡[1]/*:PayableAmount†[1] at 33:3 "Amount due for payment"␊failed BR-15 § at 2:1 "An invoice must have the amount due for payment (BT-115)."␊failed BR-DEC-18 §/*:LegalMonetaryTotal‡[1]/*:PayableAmount†[1] at 33:3 "The amount due for payment (BT-115) must be a number of at most two decimals: twelve isn't."␊faults 1, passed over 0, unread 0, misplaced 0, failed 2, reported 0, errors 0, minor 0␊
validate f→22=  <cbc:TaxAmount currencyID="EUR">2.01</cbc:TaxAmount>;25=   <cbc:TaxAmount currencyID="EUR">2.01</cbc:TaxAmount>;32=  <cbc:TaxInclusiveAmount currencyID="EUR">12.01</cbc:TaxInclusiveAmount>;33=  <cbc:PayableAmount currencyID="EUR">12.01</cbc:PayableAmount>→0→warning BR-CO-17-exact §/*:TaxTotal‡[1]/*:TaxSubtotal‡[1] at 23:3 "The tax amount of a VAT breakdown (BT-117), here 2.01, differs by less than 1 from its taxable amount (BT-116) times its rate (BT-119) / 100, rounded to two decimals, which the standard asks for: unrounded that is 2."␊warning BR-S-09-exact §/*:TaxTotal‡[1]/*:TaxSubtotal‡[1] at 23:3 "The tax amount (BT-117) of a VAT breakdown (BG-23) of the VAT category S, standard rated (BT-118), here 2.01, differs by less than 1 from its taxable amount (BT-116) times its rate (BT-119) / 100, rounded to two decimals, which the standard asks for."␊faults 0, passed over 0, unread 0, misplaced 0, failed 0, reported 0, errors 0, minor 2␊
validate --codes usd f→→1→fault CodeNotListed BT-5 §/*:DocumentCurrencyCode†[1] at 10:2 "Invoice currency code"␊faults 1, passed over 0, unread 0, misplaced 0, failed 0, reported 0, errors 0, minor 0␊
validate --codes eur f→17=   <cbc:IdentificationCode>XX</cbc:IdentificationCode>→1→failed BR-CL-14 §/*:AccountingCustomerParty‡[1]/*:Party‡[1]/*:PostalAddress‡[1]/*:Country‡[1]/*:IdentificationCode†[1] at 17:4 "A country code (BT-40, BT-55, BT-69, BT-80) must be one of ISO 3166-1: XX isn't."␊faults 0, passed over 0, unread 0, misplaced 0, failed 1, reported 0, errors 0, minor 0␊
validate f→38=   <cbc:Name>Pen</cbc:Name><cbc:BrandName>B</cbc:BrandName>→0→passed over §/*:InvoiceLine‡[1]/*:Item‡[1]/*:BrandName†[1] at 38:28␊faults 0, passed over 1, unread 0, misplaced 0, failed 0, reported 0, errors 0, minor 0␊
validate --extension brand f→38=   <cbc:Name>Pen</cbc:Name><cbc:BrandName>B</cbc:BrandName>→0→faults 0, passed over 0, unread 0, misplaced 0, failed 0, reported 0, errors 0, minor 0␊"#;

/// The same of an invoice with several faults, an element that holds no term, and findings of two rules.
const SEVERAL: &str =
    r#"validate f→7= <cbc:IssueDate>01.05.2024</cbc:IssueDate>;17=   <cbc:IdentificationCode>XX</cbc:IdentificationCode>;38=   <cbc:Unknown><cbc:Name>Pen</cbc:Name></cbc:Unknown>→1→fault BadValue BT-2 §/*:IssueDate†[1] at 7:2 "Invoice issue date"␊fault CodeNotListed BT-55 §/*:AccountingCustomerParty‡[1]/*:Party‡[1]/*:PostalAddress‡[1]/*:Country‡[1]/*:IdentificationCode†[1] at 17:4 "Buyer country code"␊fault Missing BT-153 §/*:InvoiceLine‡[1] at 35:2 "Item name"␊passed over §/*:InvoiceLine‡[1]/*:Item‡[1]/*:Unknown†[1] at 38:4␊failed BR-CL-14 §/*:AccountingCustomerParty‡[1]/*:Party‡[1]/*:PostalAddress‡[1]/*:Country‡[1]/*:IdentificationCode†[1] at 17:4 "A country code (BT-40, BT-55, BT-69, BT-80) must be one of ISO 3166-1: XX isn't."␊failed BR-25 §/*:InvoiceLine‡[1] at 35:2 "An invoice line (BG-25) must have the name of the item (BT-153)."␊faults 3, passed over 1, unread 0, misplaced 0, failed 2, reported 0, errors 0, minor 0␊"#;

/// The same in SVRL, up to the first rule that is built in.
const SVRL: &str =
    r#"validate --svrl f→7= <cbc:IssueDate>01.05.2024</cbc:IssueDate>;17=   <cbc:IdentificationCode>XX</cbc:IdentificationCode>;38=   <cbc:Unknown><cbc:Name>Pen</cbc:Name></cbc:Unknown>→1→<?xml version="1.0" encoding="UTF-8"?>␊<svrl:schematron-output xmlns:svrl="http://purl.oclc.org/dsdl/svrl"><svrl:active-pattern id="reading"/><svrl:fired-rule context="/"/><svrl:failed-assert test="BadValue" location="§/*:IssueDate†[1]" id="BT-2" flag="fatal"><svrl:text>Invoice issue date</svrl:text></svrl:failed-assert><svrl:failed-assert test="CodeNotListed" location="§/*:AccountingCustomerParty‡[1]/*:Party‡[1]/*:PostalAddress‡[1]/*:Country‡[1]/*:IdentificationCode†[1]" id="BT-55" flag="fatal"><svrl:text>Buyer country code</svrl:text></svrl:failed-assert><svrl:failed-assert test="Missing" location="§/*:InvoiceLine‡[1]" id="BT-153" flag="fatal"><svrl:text>Item name</svrl:text></svrl:failed-assert><svrl:active-pattern id="integrity"/><svrl:fired-rule context="/*"/>"#;

const ROOT: &str =
    "/*:Invoice[namespace-uri()='urn:oasis:names:specification:ubl:schema:xsd:Invoice-2'][1]";

const BASIC: &str =
    "[namespace-uri()='urn:oasis:names:specification:ubl:schema:xsd:CommonBasicComponents-2']";

const AGGREGATE: &str =
    "[namespace-uri()='urn:oasis:names:specification:ubl:schema:xsd:CommonAggregateComponents-2']";

/// What a text of a row stands for.
fn expanded(alloc: Global, row: &str) -> Result<String, AllocError> {
    let mut text = String::new(alloc);
    for c in row.chars() {
        match c {
            '§' => text.push_str(ROOT)?,
            '†' => text.push_str(BASIC)?,
            '‡' => text.push_str(AGGREGATE)?,
            '␊' => text.push('\n')?,
            _ => text.push(c)?,
        }
    }
    Ok(text)
}

/// The line of this number, or the one that stands in its place.
fn line_of<'a>(number: usize, line: &'a str, edits: &'a str) -> &'a str {
    for edit in edits.split(';') {
        let (place, other) = edit.split_once('=').unwrap_or((edit, ""));
        if place.parse() == Ok(number) {
            return other;
        }
    }
    line
}

/// Puts an invoice with other lines behind a text.
fn push_edited(text: &mut String, invoice: &str, edits: &str) -> Result<(), AllocError> {
    let mut number = 0usize;
    for line in invoice.lines() {
        number = number.saturating_add(1);
        text.push_str(line_of(number, line, edits))?;
        text.push_str("\n")?;
    }
    Ok(())
}

/// The case with much room.
fn roomy<'a>(words: &'a str, file: &'a str) -> Case<'a> {
    Case {
        room: 100_000,
        ..case_of(words, file.as_bytes())
    }
}

/// How a case is tried.
#[derive(Clone, Copy)]
enum Way {
    /// As it is.
    Whole,
    /// In pieces of few bytes.
    Pieces,
    /// Its text is but the front of the output.
    Front,
    /// With each write failing in turn, and the output that it has where none does.
    Writes,
}

fn answers_in_pieces(alloc: Global, case: &Case<'_>, number: &str) -> Result<bool, AllocError> {
    let one = answers_number(alloc, &in_pieces(case, 1), number)?;
    Ok(one & answers_number(alloc, &in_pieces(case, 7), number)?)
}

fn answers_front(alloc: Global, case: &Case<'_>) -> Result<bool, AllocError> {
    let wanted = Answer {
        status: Status::Findings,
        out: Written::More,
        err: Written::Whole,
    };
    Ok(answer_to(alloc, case)? == wanted)
}

fn fails_each_write(alloc: Global, case: &Case<'_>, number: &str) -> Result<bool, AllocError> {
    let out = output_of(alloc, case)?;
    fails_writes(alloc, &printing(*case, out.as_str()), number)
}

fn holds_so(alloc: Global, way: Way, case: &Case<'_>, number: &str) -> Result<bool, AllocError> {
    match way {
        Way::Whole => answers_number(alloc, case, number),
        Way::Pieces => answers_in_pieces(alloc, case, number),
        Way::Front => answers_front(alloc, case),
        Way::Writes => fails_each_write(alloc, case, number),
    }
}

fn row_holds(alloc: Global, way: Way, row: &str) -> Result<bool, AllocError> {
    let [words, edits, number, out, _] = columns(row, '→');
    let mut file = String::new(alloc);
    push_edited(&mut file, INVOICE, edits)?;
    let case = printing(roomy(words, file.as_str()), out);
    holds_so(alloc, way, &case, number)
}

#[derive(Clone, Copy)]
struct Validations {
    way: Way,
}

impl Holds for Validations {
    fn holds(&self, alloc: Global, row: &'static str) -> Result<bool, Fail> {
        let text = expanded(alloc, row)?;
        Ok(row_holds(alloc, self.way, text.as_str())?)
    }
}

fn expect_by(alloc: Global, way: Way, rows: &'static str) -> Result<(), Fail> {
    expect_rows(alloc, &Validations { way }, rows)
}

#[test]
fn all_that_is_wrong_is_told(rt: HostRuntime) -> Result<(), Fail> {
    expect_by(rt.alloc(), Way::Whole, VALIDATIONS)?;
    expect_by(rt.alloc(), Way::Whole, SEVERAL)?;
    expect_by(rt.alloc(), Way::Pieces, SEVERAL)
}

#[test]
fn all_that_is_wrong_is_told_in_svrl(rt: HostRuntime) -> Result<(), Fail> {
    expect_by(rt.alloc(), Way::Front, SVRL)
}

#[test]
fn each_call_of_a_validation_may_fail(rt: HostRuntime) -> Result<(), Fail> {
    let words = "validate --svrl --extension brand --codes eur f";
    let failed = fails_reads(
        rt.alloc(),
        case_of(words, INVOICE.as_bytes()),
        "eur brand f",
    )?;
    expect(failed, words)?;
    let right = case_of("validate f", INVOICE.as_bytes());
    let nothing =
        "faults 0, passed over 0, unread 0, misplaced 0, failed 0, reported 0, errors 0, minor 0\n";
    let failed = fails_writes(rt.alloc(), &printing(right, nothing), "0")?;
    expect(failed, "writes")
}

#[test]
fn writes_of_longer_validations_may_fail(rt: HostRuntime) -> Result<(), Fail> {
    expect_by(rt.alloc(), Way::Writes, SEVERAL)?;
    expect_by(rt.alloc(), Way::Writes, SVRL)
}

/// Whether a text that is built in says something as a rule file.
fn is_ready(alloc: Global, text: &str) -> Result<bool, AllocError> {
    match ready_rules(alloc, text.as_bytes())? {
        Some(ready) => {
            drop(ready);
            Ok(true)
        }
        None => Ok(false),
    }
}

fn lists_euro(lists: &CodeLists) -> bool {
    lists.allows(List::Currency, "EUR") & !lists.allows(List::Currency, "EURO")
}

/// Whether the lists that are built in are lists of codes.
fn are_lists(alloc: Global) -> bool {
    match CodeLists::from_toml(alloc, code_lists_text().as_bytes()) {
        Ok(lists) => {
            let held = lists_euro(&lists);
            drop(lists);
            held
        }
        Err(fault) => {
            drop(fault);
            false
        }
    }
}

#[test]
fn rules_and_lists_are_built_in(rt: HostRuntime) -> Result<(), Fail> {
    expect(is_ready(rt.alloc(), ubl_rules())?, "ubl")?;
    expect(is_ready(rt.alloc(), cii_rules())?, "cii")?;
    expect(are_lists(rt.alloc()), "lists")
}
