//! The commands on invoices over files and outputs in memory.

use crate::cases::{Case, answers, answers_number, case_of, printing, telling, with_file};
use crate::failing_cases::fails_reads;
use crate::texts::columns;
use invoice_cli::Status;
use std::alloc::{AllocError, Global};
use std::test::Fail;
use test_rows::{Holds, expect, expect_rows};

/// A small invoice in UBL.
pub(crate) const INVOICE: &str = "\
<Invoice xmlns=\"urn:oasis:names:specification:ubl:schema:xsd:Invoice-2\" xmlns:cac=\"urn:oasis:names:specification:ubl:schema:xsd:CommonAggregateComponents-2\" xmlns:cbc=\"urn:oasis:names:specification:ubl:schema:xsd:CommonBasicComponents-2\">\
<cbc:CustomizationID>urn:cen.eu:en16931:2017</cbc:CustomizationID><cbc:ID>A1</cbc:ID>\
<cbc:IssueDate>2024-05-01</cbc:IssueDate><cbc:InvoiceTypeCode>380</cbc:InvoiceTypeCode>\
<cbc:DocumentCurrencyCode>EUR</cbc:DocumentCurrencyCode><cac:AccountingSupplierParty><cac:Party>\
<cac:PostalAddress><cac:Country><cbc:IdentificationCode>DE</cbc:IdentificationCode></cac:Country>\
</cac:PostalAddress><cac:PartyLegalEntity><cbc:RegistrationName>Seller</cbc:RegistrationName>\
</cac:PartyLegalEntity></cac:Party></cac:AccountingSupplierParty><cac:AccountingCustomerParty>\
<cac:Party><cac:PostalAddress><cac:Country><cbc:IdentificationCode>FR</cbc:IdentificationCode>\
</cac:Country></cac:PostalAddress><cac:PartyLegalEntity><cbc:RegistrationName>Buyer\
</cbc:RegistrationName></cac:PartyLegalEntity></cac:Party></cac:AccountingCustomerParty>\
<cac:TaxTotal><cac:TaxSubtotal><cbc:TaxableAmount currencyID=\"EUR\">10.00</cbc:TaxableAmount>\
<cbc:TaxAmount currencyID=\"EUR\">2.00</cbc:TaxAmount><cac:TaxCategory><cbc:ID>S</cbc:ID>\
<cac:TaxScheme><cbc:ID>VAT</cbc:ID></cac:TaxScheme></cac:TaxCategory></cac:TaxSubtotal>\
</cac:TaxTotal><cac:LegalMonetaryTotal><cbc:LineExtensionAmount currencyID=\"EUR\">10.00\
</cbc:LineExtensionAmount><cbc:TaxExclusiveAmount currencyID=\"EUR\">10.00</cbc:TaxExclusiveAmount>\
<cbc:TaxInclusiveAmount currencyID=\"EUR\">12.00</cbc:TaxInclusiveAmount>\
<cbc:PayableAmount currencyID=\"EUR\">12.00</cbc:PayableAmount></cac:LegalMonetaryTotal>\
<cac:InvoiceLine><cbc:ID>1</cbc:ID><cbc:InvoicedQuantity unitCode=\"C62\">1</cbc:InvoicedQuantity>\
<cbc:LineExtensionAmount currencyID=\"EUR\">10.00</cbc:LineExtensionAmount><cac:Item><cbc:Name>Pen\
</cbc:Name><cac:ClassifiedTaxCategory><cbc:ID>S</cbc:ID><cac:TaxScheme><cbc:ID>VAT</cbc:ID>\
</cac:TaxScheme></cac:ClassifiedTaxCategory></cac:Item><cac:Price>\
<cbc:PriceAmount currencyID=\"EUR\">10.00</cbc:PriceAmount></cac:Price></cac:InvoiceLine></Invoice>";

/// What `show` lists of it.
const LISTING: &str = "\
BT-1 \"A1\"\n\
BT-2 \"2024-05-01\"\n\
BT-3 \"380\"\n\
BT-5 \"EUR\"\n\
BT-24 \"urn:cen.eu:en16931:2017\"\n\
BT-27 \"Seller\"\n\
BT-40 \"DE\"\n\
BT-44 \"Buyer\"\n\
BT-55 \"FR\"\n\
BT-106 \"10.00\"\n\
BT-109 \"10.00\"\n\
BT-112 \"12.00\"\n\
BT-115 \"12.00\"\n\
BG-23[1] BT-116 \"10.00\"\n\
BG-23[1] BT-117 \"2.00\"\n\
BG-23[1] BT-118 \"S\"\n\
BG-25[1] BT-126 \"1\"\n\
BG-25[1] BT-129 \"1\"\n\
BG-25[1] BT-130 \"C62\"\n\
BG-25[1] BT-131 \"10.00\"\n\
BG-25[1] BT-146 \"10.00\"\n\
BG-25[1] BT-151 \"S\"\n\
BG-25[1] BT-153 \"Pen\"\n\
passed over 0\n";

/// A job over the invoice with a text in the place of another.
pub(crate) fn changed<'a>(words: &'a str, old: &str, new: &'a str) -> Case<'a> {
    let (before, behind) = INVOICE.split_once(old).unwrap_or(("", ""));
    with_file(case_of(words, b""), before, new, behind)
}

fn is_listed(alloc: Global, words: &str) -> Result<bool, AllocError> {
    let case = printing(case_of(words, INVOICE.as_bytes()), LISTING);
    answers(alloc, &case, Status::Done)
}

#[test]
fn invoices_are_listed(rt: HostRuntime) -> Result<(), Fail> {
    expect(is_listed(rt.alloc(), "show f")?, "show f")?;
    expect(is_listed(rt.alloc(), "show --codes eur f")?, "show --codes")?;
    let extended = is_listed(rt.alloc(), "show --extension brand f")?;
    expect(extended, "show --extension")
}

/// Whether the invoice is written as it stands here.
fn is_converted(alloc: Global, words: &str) -> Result<bool, AllocError> {
    let case = Case {
        out: [
            "<?xml version=\"1.0\" encoding=\"UTF-8\"?>\n",
            INVOICE,
            "\n",
        ],
        ..case_of(words, INVOICE.as_bytes())
    };
    answers(alloc, &case, Status::Done)
}

#[test]
fn invoices_are_converted(rt: HostRuntime) -> Result<(), Fail> {
    let plain = is_converted(rt.alloc(), "convert --to ubl f")?;
    expect(plain, "convert")?;
    let listed = is_converted(rt.alloc(), "convert --codes eur --to ubl f")?;
    expect(listed, "convert --codes")?;
    let whole = is_converted(rt.alloc(), "convert --whole --to ubl f")?;
    expect(whole, "convert --whole")?;
    let extended = is_converted(rt.alloc(), "convert --extension brand --to ubl f")?;
    expect(extended, "convert --extension")
}

/// Of each row the words, the number of the status, the line on the error output, and what stands in the invoice in the
/// place of what.
const REFUSALS: &str = "\
show f|3|f: BadValue BT-2 at 323|2024-05-01|2024-5-01
show f|3|f: ElementInValue BT-1 at 304|A1<|A1<x>9</x><
show f|3|f: CurrencyDiffers BT-116 at 1086|TaxableAmount currencyID=\"EUR\"|TaxableAmount currencyID=\"USD\"
show f|3|f: BadValue BT-146 at 2010|10.00</cbc:PriceAmount>|1000000000000000000.00</cbc:PriceAmount>
show f|3|f: Excess BT-1 at 323|A1</cbc:ID>|A1</cbc:ID><cbc:ID>A2</cbc:ID>
show f|3|f: Missing BT-55 at 0|FR|
show f|3|f: Mismatched at 314|A1</cbc:ID>|A1</cbc:Id>
show --codes usd f|3|f: CodeNotListed BT-5 at 410|A1|A1
show --codes money f|4|money: NotALists money|A1|A1
show --codes spaced f|4|spaced: BadCode currency|A1|A1
show --codes f f|4|f: NotToml|A1|A1
show --codes absent f|6|absent: read fault|A1|A1
show --extension eur f|4|eur: NotAnExtension lists|A1|A1
show --extension text f|4|text: NotToml|A1|A1
totals --extension named f|4|named: Ambiguous EXT-7|A1|A1
show --extension named --codes spaced f|4|spaced: BadCode currency|A1|A1
convert --to ubl --extension absent f|6|absent: read fault|A1|A1
extract --extension brand 1 f|2|bad word 2|A1|A1
show absent|6|absent: read fault|A1|A1
convert --whole --to cii f|3|f: BadValue BT-2 at 323|2024-05-01|2024-5-01
convert --whole --to cii f|5|lost at 304 @schemeID|<cbc:ID>A1|<cbc:ID schemeID=\"x\">A1
convert --to cii --whole f|5|lost at 304 UBLVersionID|<cbc:ID>A1|<cbc:UBLVersionID>2.1</cbc:UBLVersionID><cbc:ID>A1
convert --whole --to cii f|5|lost at 0 Invoice|<cbc:ID>A1|beside<cbc:ID>A1
convert --whole f|2|bad word 3|A1|A1
convert --to ubl f|5|condition 6 BT-83|<cac:TaxTotal>|<cac:PaymentMeans><cbc:PaymentID>x</cbc:PaymentID></cac:PaymentMeans><cac:TaxTotal>
extract 1 f|5|attachment 1: NoSuch|A1|A1
show f g|2|bad word 3|A1|A1
convert f|2|bad word 2|A1|A1
convert --to pdf f|2|bad word 3|A1|A1
extract 0 f|2|bad word 2|A1|A1";

struct Refusals;

impl Holds for Refusals {
    fn holds(&self, alloc: Global, row: &'static str) -> Result<bool, Fail> {
        let [words, number, told, old, new] = columns(row, '|');
        let case = telling(changed(words, old, new), told);
        Ok(answers_number(alloc, &case, number)?)
    }
}

#[test]
fn invoices_are_refused(rt: HostRuntime) -> Result<(), Fail> {
    expect_rows(rt.alloc(), &Refusals, REFUSALS)
}

/// The calls that open the lists, read them and find their end, those of the extension terms, and those of the invoice.
#[test]
fn each_failing_call_is_told(rt: HostRuntime) -> Result<(), Fail> {
    let words = "convert --to cii --extension brand --codes eur f";
    let job = case_of(words, INVOICE.as_bytes());
    expect(fails_reads(rt.alloc(), job, "eur brand f")?, words)
}
