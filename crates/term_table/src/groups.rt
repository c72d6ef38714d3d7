ghost use Rattle.std.specs.Prelude.{◌≡◌, ◌<◌};
ghost use Rattle.term_table.specs.Groups.{parent_of, occurrence_of, is_repeated, label_of, name_of, number_of, same_group};
ghost use Rattle.term_table.specs.Contexts.{outer_group, inner_group};

/// The groups of business terms of EN 16931-1, the invoice itself, and three groups of this program for the terms
/// that the standard lets stand several times by themselves (BT-29 and BT-158).
#[derive(Clone, Copy, PartialEq, Eq)]
pub enum Group {
    /// The invoice itself, which is no group of the standard.
    Root,
    /// BG-1.
    InvoiceNote,
    /// BG-2.
    ProcessControl,
    /// BG-3.
    PrecedingInvoice,
    /// BG-4.
    Seller,
    /// P-29: a seller identifier (BT-29) without a scheme.
    SellerIdentifier,
    /// P-29S: a seller identifier (BT-29) with its scheme.
    SellerSchemedIdentifier,
    /// BG-5.
    SellerAddress,
    /// BG-6.
    SellerContact,
    /// BG-7.
    Buyer,
    /// BG-8.
    BuyerAddress,
    /// BG-9.
    BuyerContact,
    /// BG-10.
    Payee,
    /// BG-11.
    TaxRepresentative,
    /// BG-12.
    TaxRepresentativeAddress,
    /// BG-13.
    Delivery,
    /// BG-14.
    InvoicingPeriod,
    /// BG-15.
    DeliveryAddress,
    /// BG-16.
    PaymentInstructions,
    /// BG-17.
    CreditTransfer,
    /// BG-18.
    PaymentCard,
    /// BG-19.
    DirectDebit,
    /// BG-20.
    DocumentAllowance,
    /// BG-21.
    DocumentCharge,
    /// BG-22.
    DocumentTotals,
    /// BG-23.
    VatBreakdown,
    /// BG-24.
    SupportingDocument,
    /// BG-25.
    InvoiceLine,
    /// BG-26.
    LinePeriod,
    /// BG-27.
    LineAllowance,
    /// BG-28.
    LineCharge,
    /// BG-29.
    PriceDetails,
    /// BG-30.
    LineVat,
    /// BG-31.
    ItemInformation,
    /// P-158: an item classification (BT-158).
    ItemClassification,
    /// BG-32.
    ItemAttribute,
}

/// How often a group stands in the one around it.
#[derive(Clone, Copy, PartialEq, Eq)]
pub enum Occurrence {
    /// 1: it is always there.
    Once,
    /// 0..1.
    AtMostOnce,
    /// 0..n.
    AnyNumber,
    /// 1..n.
    AtLeastOnce,
}

impl Group {
    /// The group around this one. The invoice is around itself.
    #[tactic(auto, unfolding(crate::specs::Groups::parent_of))]
    pub fn parent(self) -> Group
        ensures { result ≡ parent_of self }
    {
        match self {
            Group::SellerIdentifier
            | Group::SellerSchemedIdentifier
            | Group::SellerAddress
            | Group::SellerContact => Group::Seller,
            Group::BuyerAddress | Group::BuyerContact => Group::Buyer,
            Group::TaxRepresentativeAddress => Group::TaxRepresentative,
            Group::InvoicingPeriod | Group::DeliveryAddress => Group::Delivery,
            Group::CreditTransfer | Group::PaymentCard | Group::DirectDebit => {
                Group::PaymentInstructions
            }
            Group::LinePeriod
            | Group::LineAllowance
            | Group::LineCharge
            | Group::PriceDetails
            | Group::LineVat
            | Group::ItemInformation => Group::InvoiceLine,
            Group::ItemClassification | Group::ItemAttribute => Group::ItemInformation,
            _ => Group::Root,
        }
    }

    /// How often it stands in the group around it.
    #[tactic(auto, unfolding(crate::specs::Groups::occurrence_of))]
    pub fn occurrence(self) -> Occurrence
        ensures { result ≡ occurrence_of self }
    {
        match self {
            Group::VatBreakdown | Group::InvoiceLine => Occurrence::AtLeastOnce,
            Group::InvoiceNote
            | Group::PrecedingInvoice
            | Group::SellerIdentifier
            | Group::SellerSchemedIdentifier
            | Group::CreditTransfer
            | Group::DocumentAllowance
            | Group::DocumentCharge
            | Group::SupportingDocument
            | Group::LineAllowance
            | Group::LineCharge
            | Group::ItemClassification
            | Group::ItemAttribute => Occurrence::AnyNumber,
            Group::SellerContact
            | Group::BuyerContact
            | Group::Payee
            | Group::TaxRepresentative
            | Group::Delivery
            | Group::InvoicingPeriod
            | Group::DeliveryAddress
            | Group::PaymentInstructions
            | Group::PaymentCard
            | Group::DirectDebit
            | Group::LinePeriod => Occurrence::AtMostOnce,
            _ => Occurrence::Once,
        }
    }

    /// Whether it may stand several times, so that its occurrences are contexts.
    pub fn is_repeated(self) -> bool
        ensures { result ≡ is_repeated self }
    {
        match self.occurrence() {
            Occurrence::AnyNumber | Occurrence::AtLeastOnce => true,
            Occurrence::Once | Occurrence::AtMostOnce => false,
        }
    }

    /// A number of its own, below 104.
    pub fn number(self) -> u32
        ensures value { result ≡ number_of self }
        ensures below { result < 104 }
    {
        match self {
            Group::Root => 0,
            Group::InvoiceNote => 1,
            Group::ProcessControl => 2,
            Group::PrecedingInvoice => 3,
            Group::Seller => 4,
            Group::SellerAddress => 5,
            Group::SellerContact => 6,
            Group::Buyer => 7,
            Group::BuyerAddress => 8,
            Group::BuyerContact => 9,
            Group::Payee => 10,
            Group::TaxRepresentative => 11,
            Group::TaxRepresentativeAddress => 12,
            Group::Delivery => 13,
            Group::InvoicingPeriod => 14,
            Group::DeliveryAddress => 15,
            Group::PaymentInstructions => 16,
            Group::CreditTransfer => 17,
            Group::PaymentCard => 18,
            Group::DirectDebit => 19,
            Group::DocumentAllowance => 20,
            Group::DocumentCharge => 21,
            Group::DocumentTotals => 22,
            Group::VatBreakdown => 23,
            Group::SupportingDocument => 24,
            Group::InvoiceLine => 25,
            Group::LinePeriod => 26,
            Group::LineAllowance => 27,
            Group::LineCharge => 28,
            Group::PriceDetails => 29,
            Group::LineVat => 30,
            Group::ItemInformation => 31,
            Group::ItemAttribute => 32,
            Group::SellerIdentifier => 101,
            Group::SellerSchemedIdentifier => 102,
            Group::ItemClassification => 103,
        }
    }

    /// Whether both are the same group.
    pub fn is_same(self, other: Group) -> bool
        ensures { result ≡ same_group self other }
    {
        self == other
    }

    /// The group of the outer slot in the contexts of its terms, if they have one.
    #[tactic(auto, unfolding(crate::specs::Groups::parent_of, crate::specs::Groups::occurrence_of))]
    pub fn outer(self) -> Option<Group>
        ensures { result ≡ outer_group self }
    {
        match self {
            Group::LinePeriod
            | Group::LineAllowance
            | Group::LineCharge
            | Group::PriceDetails
            | Group::LineVat
            | Group::ItemInformation
            | Group::ItemClassification
            | Group::ItemAttribute => Some(Group::InvoiceLine),
            _ => { if self.is_repeated() { Some(self) } else { None } }
        }
    }

    /// The group of the inner slot in the contexts of its terms, if they have one.
    #[tactic(auto, unfolding(crate::specs::Groups::parent_of, crate::specs::Groups::occurrence_of))]
    pub fn inner(self) -> Option<Group>
        ensures { result ≡ inner_group self }
    {
        match self {
            Group::LineAllowance
            | Group::LineCharge
            | Group::ItemClassification
            | Group::ItemAttribute => Some(self),
            _ => None,
        }
    }

    /// How it is printed: `BG-25`, `P-29S`; the invoice itself, which no line names, as `invoice`.
    pub fn label(self) -> &'static str
        ensures { result.now ≡ label_of self }
    {
        match self {
            Group::Root => "invoice",
            Group::InvoiceNote => "BG-1",
            Group::ProcessControl => "BG-2",
            Group::PrecedingInvoice => "BG-3",
            Group::Seller => "BG-4",
            Group::SellerIdentifier => "P-29",
            Group::SellerSchemedIdentifier => "P-29S",
            Group::SellerAddress => "BG-5",
            Group::SellerContact => "BG-6",
            Group::Buyer => "BG-7",
            Group::BuyerAddress => "BG-8",
            Group::BuyerContact => "BG-9",
            Group::Payee => "BG-10",
            Group::TaxRepresentative => "BG-11",
            Group::TaxRepresentativeAddress => "BG-12",
            Group::Delivery => "BG-13",
            Group::InvoicingPeriod => "BG-14",
            Group::DeliveryAddress => "BG-15",
            Group::PaymentInstructions => "BG-16",
            Group::CreditTransfer => "BG-17",
            Group::PaymentCard => "BG-18",
            Group::DirectDebit => "BG-19",
            Group::DocumentAllowance => "BG-20",
            Group::DocumentCharge => "BG-21",
            Group::DocumentTotals => "BG-22",
            Group::VatBreakdown => "BG-23",
            Group::SupportingDocument => "BG-24",
            Group::InvoiceLine => "BG-25",
            Group::LinePeriod => "BG-26",
            Group::LineAllowance => "BG-27",
            Group::LineCharge => "BG-28",
            Group::PriceDetails => "BG-29",
            Group::LineVat => "BG-30",
            Group::ItemInformation => "BG-31",
            Group::ItemClassification => "P-158",
            Group::ItemAttribute => "BG-32",
        }
    }

    /// Its name, after the standard; of this program's own groups, what stands in them: `Seller postal address`.
    pub fn name(self) -> &'static str
        ensures { result.now ≡ name_of self }
    {
        match self {
            Group::Root => "Invoice",
            Group::InvoiceNote => "Invoice note",
            Group::ProcessControl => "Process control",
            Group::PrecedingInvoice => "Preceding invoice reference",
            Group::Seller => "Seller",
            Group::SellerIdentifier => "Seller identifier without a scheme",
            Group::SellerSchemedIdentifier => "Seller identifier with its scheme",
            Group::SellerAddress => "Seller postal address",
            Group::SellerContact => "Seller contact",
            Group::Buyer => "Buyer",
            Group::BuyerAddress => "Buyer postal address",
            Group::BuyerContact => "Buyer contact",
            Group::Payee => "Payee",
            Group::TaxRepresentative => "Seller tax representative",
            Group::TaxRepresentativeAddress => "Tax representative postal address",
            Group::Delivery => "Delivery information",
            Group::InvoicingPeriod => "Invoicing period",
            Group::DeliveryAddress => "Deliver to address",
            Group::PaymentInstructions => "Payment instructions",
            Group::CreditTransfer => "Credit transfer",
            Group::PaymentCard => "Payment card information",
            Group::DirectDebit => "Direct debit",
            Group::DocumentAllowance => "Document level allowances",
            Group::DocumentCharge => "Document level charges",
            Group::DocumentTotals => "Document totals",
            Group::VatBreakdown => "VAT breakdown",
            Group::SupportingDocument => "Additional supporting documents",
            Group::InvoiceLine => "Invoice line",
            Group::LinePeriod => "Invoice line period",
            Group::LineAllowance => "Invoice line allowances",
            Group::LineCharge => "Invoice line charges",
            Group::PriceDetails => "Price details",
            Group::LineVat => "Line VAT information",
            Group::ItemInformation => "Item information",
            Group::ItemClassification => "Item classification",
            Group::ItemAttribute => "Item attributes",
        }
    }
}
