//! What stands where on the page: the layouts of its sections and of the cells of its tables.
use crate::forms::{Form, Item, Meanings, Section};
use crate::macros::*;
use term_table::{Group, Term};

const FACT_ROWS: [Item; 7] = [
    row!("Issue date": (2)),
    row!("Due date": (9)),
    row!("Delivery date": (72)),
    row!("Invoicing period": (73) ("to", 74)),
    row!("Buyer reference": (10)),
    row!("Purchase order": (13)),
    row!("Contract": (12)),
];

/// What a reader asks first.
pub const FACTS: Section = ("facts", "", &FACT_ROWS);

const SELLER: [Item; 18] = [
    paragraph!("name": (27)),
    paragraph!("": (28)),
    paragraph!("": (35)),
    paragraph!("": (36)),
    paragraph!("": (162)),
    paragraph!("": (38) (37)),
    paragraph!("": (39)),
    paragraph!("": (40)),
    row!("VAT identifier": (31)),
    row!("Tax number": (32)),
    row!("Registration": (30) (30-1)),
    rows_in!(SellerIdentifier, "Identifier": (29)),
    rows_in!(SellerSchemedIdentifier, "Identifier": (29) (29-1)),
    row!("Electronic address": (34) (34-1)),
    row!("Contact": (41)),
    row!("Telephone": (42)),
    row!("Email": (43)),
    row!("Legal information": (33)),
];

const BUYER: [Item; 16] = [
    paragraph!("name": (44)),
    paragraph!("": (45)),
    paragraph!("": (50)),
    paragraph!("": (51)),
    paragraph!("": (163)),
    paragraph!("": (53) (52)),
    paragraph!("": (54)),
    paragraph!("": (55)),
    row!("VAT identifier": (48)),
    row!("Registration": (47) (47-1)),
    row!("Identifier": (46) (46-1)),
    row!("Electronic address": (49) (49-1)),
    row!("Contact": (56)),
    row!("Telephone": (57)),
    row!("Email": (58)),
    row!("Accounting reference": (19)),
];

const PAYEE: [Item; 3] = [
    paragraph!("name": (59)),
    row!("Registration": (61) (61-1)),
    row!("Identifier": (60) (60-1)),
];

const TAX_REPRESENTATIVE: [Item; 8] = [
    paragraph!("name": (62)),
    paragraph!("": (64)),
    paragraph!("": (65)),
    paragraph!("": (164)),
    paragraph!("": (67) (66)),
    paragraph!("": (68)),
    paragraph!("": (69)),
    row!("VAT identifier": (63)),
];

const DELIVERY: [Item; 8] = [
    paragraph!("name": (70)),
    paragraph!("": (75)),
    paragraph!("": (76)),
    paragraph!("": (165)),
    paragraph!("": (78) (77)),
    paragraph!("": (79)),
    paragraph!("": (80)),
    row!("Location": (71) (71-1)),
];

/// Who sells, buys, is paid and receives: sections that stand side by side.
pub const PARTIES: [Section; 5] = [
    ("", "Seller", &SELLER),
    ("", "Buyer", &BUYER),
    ("", "Payee", &PAYEE),
    ("", "Tax representative", &TAX_REPRESENTATIVE),
    ("", "Delivery", &DELIVERY),
];

/// What a line is about.
pub(crate) const ITEM: [Item; 18] = [
    paragraph!("name": (153)),
    paragraph!("": (154)),
    row!("Seller's number": (155)),
    row!("Buyer's number": (156)),
    row!("Standard number": (157) (157-1)),
    rows_in!(ItemClassification, "Classification": (158) (158-1) (158-2)),
    rows_of!(ItemAttribute, 160: (161)),
    row!("Origin": (159)),
    row!("Period": (134) ("to", 135)),
    row!("Order line": (132)),
    row!("Object": (128) (128-1)),
    row!("Accounting reference": (133)),
    row!("Gross price": (148)),
    row!("Price discount": (147)),
    rows_in!(LineAllowance, "Allowance": (136) (138) ("of", 137) (139) (140)),
    rows_in!(LineCharge, "Charge": (141) (143) ("of", 142) (144) (145)),
    row!("Note": (127)),
    added!(),
];

/// What a unit of it costs.
pub(crate) const NET_PRICE: [Item; 2] = [
    paragraph!("": (146)),
    paragraph!("": ("per", 149) (150 + Unit)),
];

/// The category of a VAT breakdown.
pub(crate) const VAT_CATEGORY: [Item; 3] = [
    paragraph!("": (118 + Category)),
    paragraph!("": (120)),
    paragraph!("": (121)),
];

const TOTAL_ROWS: [Item; 10] = [
    row!("Sum of lines": (106)),
    row!("Less allowances": (107)),
    row!("Plus charges": (108)),
    row!("Total without VAT": (109)),
    row!("VAT": (110)),
    row!("VAT in accounting currency": (111) (6)),
    row!("Total with VAT": (112)),
    row!("Less paid": (113)),
    row!("Plus rounding": (114)),
    row!("Amount due": (115) (5)),
];

/// The totals of the document.
pub const TOTALS: Section = ("sums", "Totals", &TOTAL_ROWS);

/// The class and the heading of the section of totals that differ.
pub const DIFFERING: (&str, &str) = ("differ", "Totals that differ");

const PAYMENT: [Item; 9] = [
    row!("Means": (81 + Means)),
    row!("Means in words": (82)),
    row!("Remittance information": (83)),
    rows_in!(CreditTransfer, "Account": (84) (85) (86)),
    row!("Card": (87) (88)),
    row!("Mandate": (89)),
    row!("Creditor": (90)),
    row!("Debited account": (91)),
    row!("Terms": (20)),
];

const NOTES: [Item; 1] = [paragraphs_in!(InvoiceNote, "": (22) (21))];

const REFERENCES: [Item; 7] = [
    rows_in!(PrecedingInvoice, "Preceding invoice": (25) ("of", 26)),
    row!("Sales order": (14)),
    row!("Project": (11)),
    row!("Receiving advice": (15)),
    row!("Despatch advice": (16)),
    row!("Tender or lot": (17)),
    row!("Object": (18) (18-1)),
];

const SUPPORTING_DOCUMENTS: [Item; 1] = [
    rows_of!(SupportingDocument, 122: (123) (124) (125-2) (125-1) (125)),
];

const OTHER: [Item; 6] = [
    row!("Type code": (3)),
    row!("VAT point date": (7)),
    row!("VAT point": (8 + Point)),
    row!("Process": (23)),
    row!("Specification": (24)),
    added!(),
];

/// The sections behind the totals.
pub const REST: [Section; 5] = [
    ("", "Payment", &PAYMENT),
    ("", "Notes", &NOTES),
    ("", "References", &REFERENCES),
    ("", "Supporting documents", &SUPPORTING_DOCUMENTS),
    ("", "Other", &OTHER),
];
