ghost use Rattle.std.specs.Prelude.{◌≡◌, slice_get};
ghost use Rattle.term_table.specs.SemanticModel.{same_term, terms, is_extension};

use crate::groups::Group;
use code_lists::List;

/// The number of a business term: BT-18-1 is 18 and 1, BT-18 is 18 and 0.
#[derive(Clone, Copy, PartialEq, Eq)]
pub struct Term {
    /// The number behind `BT-`.
    pub number: u16,
    /// The number behind its dash, 0 where there is none.
    pub part: u8,
}

impl Term {
    /// Whether both are the same term.
    pub fn is_same(self, other: Term) -> bool
        ensures { result ≡ same_term self other }
    {
        self.number == other.number && self.part == other.part
    }

    /// Whether it is one that a user's table adds: EXT-1 is 1001 and 0, EXT-99 is 1099 and 0.
    pub fn is_extension(self) -> bool
        ensures { result ≡ is_extension self }
    {
        self.part == 0 && 1001 <= self.number && self.number <= 1099
    }
}

/// The type of a term's value, by its initial.
#[derive(Clone, Copy, PartialEq, Eq)]
pub enum DataType {
    /// Text.
    T,
    /// Identifier, document reference.
    I,
    /// Code.
    C,
    /// Amount, unit price amount.
    A,
    /// Quantity.
    Q,
    /// Percentage.
    P,
    /// Date.
    D,
    /// Binary object, as base64.
    B,
}

/// Whether a term has to stand in its group.
#[derive(Clone, Copy, PartialEq, Eq)]
pub enum Mark {
    /// It is mandatory in its group.
    One,
    /// It may be absent.
    Optional,
    /// It is mandatory where the term stands whose number it has and whose part is 0.
    After,
}

/// What EN 16931-1 says of a term in a group.
#[derive(Clone, Copy, PartialEq, Eq)]
pub struct TermRow {
    pub term: Term,
    /// The group that it stands in.
    pub group: Group,
    /// The type of its value.
    pub data_type: DataType,
    /// Whether it has to stand there.
    pub mark: Mark,
    /// The list from which a code comes.
    pub list: Option<List>,
}

macro_rules! row {
    ($number:literal, $part:literal, $group:ident, $data_type:ident, $mark:ident) => {
        TermRow {
            term: Term {
                number: $number,
                part: $part,
            },
            group: Group::$group,
            data_type: DataType::$data_type,
            mark: Mark::$mark,
            list: None,
        }
    };
    ($number:literal, $part:literal, $group:ident, $data_type:ident, $mark:ident, $list:ident) => {
        TermRow {
            term: Term {
                number: $number,
                part: $part,
            },
            group: Group::$group,
            data_type: DataType::$data_type,
            mark: Mark::$mark,
            list: Some(List::$list),
        }
    };
}

/// The business terms in the order in which they are listed.
pub(crate) const TERMS: [TermRow; 181] = [
    row!(1, 0, Root, I, One),
    row!(2, 0, Root, D, One),
    row!(3, 0, Root, C, One, InvoiceType),
    row!(5, 0, Root, C, One, Currency),
    row!(6, 0, Root, C, Optional, Currency),
    row!(7, 0, Root, D, Optional),
    row!(8, 0, Root, C, Optional, Point),
    row!(9, 0, Root, D, Optional),
    row!(10, 0, Root, T, Optional),
    row!(11, 0, Root, I, Optional),
    row!(12, 0, Root, I, Optional),
    row!(13, 0, Root, I, Optional),
    row!(14, 0, Root, I, Optional),
    row!(15, 0, Root, I, Optional),
    row!(16, 0, Root, I, Optional),
    row!(17, 0, Root, I, Optional),
    row!(18, 0, Root, I, Optional),
    row!(18, 1, Root, C, Optional, Object),
    row!(19, 0, Root, T, Optional),
    row!(20, 0, Root, T, Optional),
    row!(21, 0, InvoiceNote, C, Optional, Subject),
    row!(22, 0, InvoiceNote, T, One),
    row!(23, 0, ProcessControl, T, Optional),
    row!(24, 0, ProcessControl, I, One),
    row!(25, 0, PrecedingInvoice, I, One),
    row!(26, 0, PrecedingInvoice, D, Optional),
    row!(27, 0, Seller, T, One),
    row!(28, 0, Seller, T, Optional),
    row!(30, 0, Seller, I, Optional),
    row!(30, 1, Seller, C, Optional, Scheme),
    row!(31, 0, Seller, I, Optional),
    row!(32, 0, Seller, I, Optional),
    row!(33, 0, Seller, T, Optional),
    row!(34, 0, Seller, I, Optional),
    row!(34, 1, Seller, C, After, Endpoint),
    row!(29, 0, SellerIdentifier, I, One),
    row!(29, 0, SellerSchemedIdentifier, I, One),
    row!(29, 1, SellerSchemedIdentifier, C, One, Scheme),
    row!(35, 0, SellerAddress, T, Optional),
    row!(36, 0, SellerAddress, T, Optional),
    row!(162, 0, SellerAddress, T, Optional),
    row!(37, 0, SellerAddress, T, Optional),
    row!(38, 0, SellerAddress, T, Optional),
    row!(39, 0, SellerAddress, T, Optional),
    row!(40, 0, SellerAddress, C, One, Country),
    row!(41, 0, SellerContact, T, Optional),
    row!(42, 0, SellerContact, T, Optional),
    row!(43, 0, SellerContact, T, Optional),
    row!(44, 0, Buyer, T, One),
    row!(45, 0, Buyer, T, Optional),
    row!(46, 0, Buyer, I, Optional),
    row!(46, 1, Buyer, C, Optional, Scheme),
    row!(47, 0, Buyer, I, Optional),
    row!(47, 1, Buyer, C, Optional, Scheme),
    row!(48, 0, Buyer, I, Optional),
    row!(49, 0, Buyer, I, Optional),
    row!(49, 1, Buyer, C, After, Endpoint),
    row!(50, 0, BuyerAddress, T, Optional),
    row!(51, 0, BuyerAddress, T, Optional),
    row!(163, 0, BuyerAddress, T, Optional),
    row!(52, 0, BuyerAddress, T, Optional),
    row!(53, 0, BuyerAddress, T, Optional),
    row!(54, 0, BuyerAddress, T, Optional),
    row!(55, 0, BuyerAddress, C, One, Country),
    row!(56, 0, BuyerContact, T, Optional),
    row!(57, 0, BuyerContact, T, Optional),
    row!(58, 0, BuyerContact, T, Optional),
    row!(59, 0, Payee, T, One),
    row!(60, 0, Payee, I, Optional),
    row!(60, 1, Payee, C, Optional, Scheme),
    row!(61, 0, Payee, I, Optional),
    row!(61, 1, Payee, C, Optional, Scheme),
    row!(62, 0, TaxRepresentative, T, One),
    row!(63, 0, TaxRepresentative, I, One),
    row!(64, 0, TaxRepresentativeAddress, T, Optional),
    row!(65, 0, TaxRepresentativeAddress, T, Optional),
    row!(164, 0, TaxRepresentativeAddress, T, Optional),
    row!(66, 0, TaxRepresentativeAddress, T, Optional),
    row!(67, 0, TaxRepresentativeAddress, T, Optional),
    row!(68, 0, TaxRepresentativeAddress, T, Optional),
    row!(69, 0, TaxRepresentativeAddress, C, One, Country),
    row!(70, 0, Delivery, T, Optional),
    row!(71, 0, Delivery, I, Optional),
    row!(71, 1, Delivery, C, Optional, Scheme),
    row!(72, 0, Delivery, D, Optional),
    row!(73, 0, InvoicingPeriod, D, Optional),
    row!(74, 0, InvoicingPeriod, D, Optional),
    row!(75, 0, DeliveryAddress, T, Optional),
    row!(76, 0, DeliveryAddress, T, Optional),
    row!(165, 0, DeliveryAddress, T, Optional),
    row!(77, 0, DeliveryAddress, T, Optional),
    row!(78, 0, DeliveryAddress, T, Optional),
    row!(79, 0, DeliveryAddress, T, Optional),
    row!(80, 0, DeliveryAddress, C, One, Country),
    row!(81, 0, PaymentInstructions, C, One, Means),
    row!(82, 0, PaymentInstructions, T, Optional),
    row!(83, 0, PaymentInstructions, T, Optional),
    row!(84, 0, CreditTransfer, I, One),
    row!(85, 0, CreditTransfer, T, Optional),
    row!(86, 0, CreditTransfer, I, Optional),
    row!(87, 0, PaymentCard, T, One),
    row!(88, 0, PaymentCard, T, Optional),
    row!(89, 0, DirectDebit, I, Optional),
    row!(90, 0, DirectDebit, I, Optional),
    row!(91, 0, DirectDebit, I, Optional),
    row!(92, 0, DocumentAllowance, A, One),
    row!(93, 0, DocumentAllowance, A, Optional),
    row!(94, 0, DocumentAllowance, P, Optional),
    row!(95, 0, DocumentAllowance, C, One, Category),
    row!(96, 0, DocumentAllowance, P, Optional),
    row!(97, 0, DocumentAllowance, T, Optional),
    row!(98, 0, DocumentAllowance, C, Optional, Allowance),
    row!(99, 0, DocumentCharge, A, One),
    row!(100, 0, DocumentCharge, A, Optional),
    row!(101, 0, DocumentCharge, P, Optional),
    row!(102, 0, DocumentCharge, C, One, Category),
    row!(103, 0, DocumentCharge, P, Optional),
    row!(104, 0, DocumentCharge, T, Optional),
    row!(105, 0, DocumentCharge, C, Optional, Charge),
    row!(106, 0, DocumentTotals, A, One),
    row!(107, 0, DocumentTotals, A, Optional),
    row!(108, 0, DocumentTotals, A, Optional),
    row!(109, 0, DocumentTotals, A, One),
    row!(110, 0, DocumentTotals, A, Optional),
    row!(111, 0, DocumentTotals, A, Optional),
    row!(112, 0, DocumentTotals, A, One),
    row!(113, 0, DocumentTotals, A, Optional),
    row!(114, 0, DocumentTotals, A, Optional),
    row!(115, 0, DocumentTotals, A, One),
    row!(116, 0, VatBreakdown, A, One),
    row!(117, 0, VatBreakdown, A, One),
    row!(118, 0, VatBreakdown, C, One, Category),
    row!(119, 0, VatBreakdown, P, Optional),
    row!(120, 0, VatBreakdown, T, Optional),
    row!(121, 0, VatBreakdown, C, Optional, Exemption),
    row!(122, 0, SupportingDocument, I, One),
    row!(123, 0, SupportingDocument, T, Optional),
    row!(124, 0, SupportingDocument, T, Optional),
    row!(125, 0, SupportingDocument, B, Optional),
    row!(125, 1, SupportingDocument, C, After, Mime),
    row!(125, 2, SupportingDocument, T, After),
    row!(126, 0, InvoiceLine, I, One),
    row!(127, 0, InvoiceLine, T, Optional),
    row!(128, 0, InvoiceLine, I, Optional),
    row!(128, 1, InvoiceLine, C, Optional, Object),
    row!(129, 0, InvoiceLine, Q, One),
    row!(130, 0, InvoiceLine, C, One, UnitOfMeasure),
    row!(131, 0, InvoiceLine, A, One),
    row!(132, 0, InvoiceLine, I, Optional),
    row!(133, 0, InvoiceLine, T, Optional),
    row!(134, 0, LinePeriod, D, Optional),
    row!(135, 0, LinePeriod, D, Optional),
    row!(136, 0, LineAllowance, A, One),
    row!(137, 0, LineAllowance, A, Optional),
    row!(138, 0, LineAllowance, P, Optional),
    row!(139, 0, LineAllowance, T, Optional),
    row!(140, 0, LineAllowance, C, Optional, Allowance),
    row!(141, 0, LineCharge, A, One),
    row!(142, 0, LineCharge, A, Optional),
    row!(143, 0, LineCharge, P, Optional),
    row!(144, 0, LineCharge, T, Optional),
    row!(145, 0, LineCharge, C, Optional, Charge),
    row!(146, 0, PriceDetails, A, One),
    row!(147, 0, PriceDetails, A, Optional),
    row!(148, 0, PriceDetails, A, Optional),
    row!(149, 0, PriceDetails, Q, Optional),
    row!(150, 0, PriceDetails, C, Optional, UnitOfMeasure),
    row!(151, 0, LineVat, C, One, Category),
    row!(152, 0, LineVat, P, Optional),
    row!(153, 0, ItemInformation, T, One),
    row!(154, 0, ItemInformation, T, Optional),
    row!(155, 0, ItemInformation, I, Optional),
    row!(156, 0, ItemInformation, I, Optional),
    row!(157, 0, ItemInformation, I, Optional),
    row!(157, 1, ItemInformation, C, After, Scheme),
    row!(159, 0, ItemInformation, C, Optional, Country),
    row!(158, 0, ItemClassification, I, One),
    row!(158, 1, ItemClassification, C, One, Classification),
    row!(158, 2, ItemClassification, T, Optional),
    row!(160, 0, ItemAttribute, T, One),
    row!(161, 0, ItemAttribute, T, One),
];

/// The business terms in the order in which they are listed.
pub fn term_rows() -> &'static [TermRow]
    ensures { result.now ≡ terms }
{
    &TERMS
}

/// The k-th business term, from 0, in the order in which they are listed. None behind the last one.
pub fn term_row(k: usize) -> Option<TermRow>
    ensures { result ≡ slice_get terms k }
{
    row_at(&TERMS, k)
}

/// The number of rows, which no term has as its row.
const NO_ROW: u8 = 181;

/// Where the rows of the terms of each number begin, from number 0 on. The rows of one number stand together, at most
/// three of them.
pub(crate) const FIRST_ROWS: [u8; 166] = [
    NO_ROW, 0, 1, 2, NO_ROW, 3, 4, 5, 6, 7, 8, 9, 10, 11, 12, 13, 14, 15, 16, 18, 19, 20, 21, 22,
    23, 24, 25, 26, 27, 35, 28, 30, 31, 32, 33, 38, 39, 41, 42, 43, 44, 45, 46, 47, 48, 49, 50, 52,
    54, 55, 57, 58, 60, 61, 62, 63, 64, 65, 66, 67, 68, 70, 72, 73, 74, 75, 77, 78, 79, 80, 81, 82,
    84, 85, 86, 87, 88, 90, 91, 92, 93, 94, 95, 96, 97, 98, 99, 100, 101, 102, 103, 104, 105, 106,
    107, 108, 109, 110, 111, 112, 113, 114, 115, 116, 117, 118, 119, 120, 121, 122, 123, 124, 125,
    126, 127, 128, 129, 130, 131, 132, 133, 134, 135, 136, 137, 138, 141, 142, 143, 145, 146, 147,
    148, 149, 150, 151, 152, 153, 154, 155, 156, 157, 158, 159, 160, 161, 162, 163, 164, 165, 166,
    167, 168, 169, 170, 171, 172, 173, 176, 175, 179, 180, 40, 59, 76, 89,
];

fn row_at(rows: &[TermRow], k: usize) -> Option<TermRow>
    ensures { result ≡ slice_get rows.now k }
{
    rows.get(k).copied()
}
