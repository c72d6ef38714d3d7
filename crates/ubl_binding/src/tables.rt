ghost use Rattle.std.specs.Prelude.{◌≡◌, IfOk};
ghost use Rattle.ubl_binding.specs.Tables.{invoice_rows, credit_note_rows};

use crate::conditions::*;
use bind_rows::Namespace;
use bind_table::Cell::*;
use bind_table::{Binding, TableItem, listed, table_items};
use std::alloc::{AllocError, Global};
use term_table::Group;

// An address: lines 1, 2 and 3, city, post code, country subdivision, country.
macro_rules! address {
    ($spaces:tt $done:tt ($a:literal $b:literal $c:literal $d:literal $e:literal $f:literal $g:literal) $($rest:tt)*) => {
        table_items!(@ $spaces $done
            StreetName = Bt($a);
            AdditionalStreetName = Bt($b);
            CityName = Bt($d);
            PostalZone = Bt($e);
            CountrySubentity = Bt($f);
            AddressLine { Line = Bt($c); }
            Country { IdentificationCode = Bt($g); }
            $($rest)*)
    };
}

// The VAT as the scheme of a tax.
macro_rules! vat {
    ($spaces:tt $done:tt () $($rest:tt)*) => {
        table_items!(@ $spaces $done TaxScheme { ID = Constant("VAT"); } $($rest)*)
    };
}

// The indicator, amount, base amount, percentage, reason and reason code of an allowance or a charge.
macro_rules! sums {
    ($spaces:tt $done:tt ($indicator:literal $a:literal $b:literal $p:literal $t:literal $k:literal) $($rest:tt)*) => {
        table_items!(@ $spaces $done
            ChargeIndicator = Indicator($indicator, $a);
            AllowanceChargeReasonCode = Bt($k);
            AllowanceChargeReason = Bt($t);
            MultiplierFactorNumeric = Bt($p);
            Amount = Bt($a);
            BaseAmount = Bt($b);
            $($rest)*)
    };
}

const INVOICE: &[TableItem] = table_items!({UblAggregate UblBasic}
    begin UblInvoice: Invoice;
);

const CREDIT_NOTE: &[TableItem] = table_items!({UblAggregate UblBasic}
    begin UblCreditNote: CreditNote;
);

const END: &[TableItem] = table_items!({UblAggregate UblBasic}
    end;
);

const OPENING: &[TableItem] = table_items!({UblAggregate UblBasic}
    CustomizationID = Bt(24);
    ProfileID = Bt(23);
    ID = Bt(1);
    IssueDate = Bt(2);
);

const INVOICE_TYPE: &[TableItem] = table_items!({UblAggregate UblBasic}
    DueDate = Bt(9);
    InvoiceTypeCode = Bt(3);
    Note for InvoiceNote = CodedNote(22);
    TaxPointDate = Bt(7);
);

const CREDIT_NOTE_TYPE: &[TableItem] = table_items!({UblAggregate UblBasic}
    TaxPointDate = Bt(7);
    CreditNoteTypeCode = Bt(3);
    Note for InvoiceNote = CodedNote(22);
);

const REFERENCES: &[TableItem] = table_items!({UblAggregate UblBasic}
    DocumentCurrencyCode = Bt(5);
    TaxCurrencyCode = Bt(6);
    AccountingCost = Bt(19);
    BuyerReference = Bt(10);
    InvoicePeriod {
        StartDate = Bt(73);
        EndDate = Bt(74);
        DescriptionCode = Bt(8);
    }
    OrderReference {
        ID = Filled(13, "NA", 14);
        SalesOrderID = Bt(14);
    }
    BillingReference for PrecedingInvoice {
        InvoiceDocumentReference {
            ID = Bt(25);
            IssueDate = Bt(26);
        }
    }
    DespatchDocumentReference {
        ID = Bt(16);
    }
    ReceiptDocumentReference {
        ID = Bt(15);
    }
);

const ORIGINATOR: &[TableItem] = table_items!({UblAggregate UblBasic}
    OriginatorDocumentReference {
        ID = Bt(17);
    }
);

const CONTRACT: &[TableItem] = table_items!({UblAggregate UblBasic}
    ContractDocumentReference {
        ID = Bt(12);
    }
    AdditionalDocumentReference if TYPE_IS_130 {
        ID = Bt(18), @ schemeID = Part(18, 1);
        DocumentTypeCode = Constant("130");
    }
);

const INVOICE_DOCUMENTS: &[TableItem] = table_items!({UblAggregate UblBasic}
    AdditionalDocumentReference for SupportingDocument if TYPE_IS_NOT_130 {
        ID = Bt(122);
        DocumentDescription = Bt(123);
        Attachment {
            EmbeddedDocumentBinaryObject = Bt(125), @ mimeCode = Part(125, 1), @ filename = Part(125, 2);
            ExternalReference {
                URI = Bt(124);
            }
        }
    }
    ProjectReference {
        ID = Bt(11);
    }
);

const CREDIT_NOTE_DOCUMENTS: &[TableItem] = table_items!({UblAggregate UblBasic}
    AdditionalDocumentReference if TYPE_IS_50 {
        ID = Bt(11);
        DocumentTypeCode = Constant("50");
    }
    AdditionalDocumentReference for SupportingDocument if TYPE_IS_NOT_130_OR_50 {
        ID = Bt(122);
        DocumentDescription = Bt(123);
        Attachment {
            EmbeddedDocumentBinaryObject = Bt(125), @ mimeCode = Part(125, 1), @ filename = Part(125, 2);
            ExternalReference {
                URI = Bt(124);
            }
        }
    }
);

const SELLER: &[TableItem] = table_items!({UblAggregate UblBasic}
    AccountingSupplierParty {
        Party {
            EndpointID = Bt(34), @ schemeID = Part(34, 1);
            PartyIdentification for SellerIdentifier if HAS_NO_SCHEME {
                ID = Bt(29);
            }
            PartyIdentification for SellerSchemedIdentifier if HAS_SCHEME if SCHEME_IS_NOT_SEPA {
                ID = Bt(29), @ schemeID = Part(29, 1);
            }
            PartyIdentification if SCHEME_IS_SEPA {
                ID = Agreeing(90), @ schemeID = Constant("SEPA");
            }
            PartyName {
                Name = Bt(28);
            }
            PostalAddress { address!(35 36 162 37 38 39 40); }
            PartyTaxScheme if TAX_SCHEME_IS_VAT {
                CompanyID = Bt(31);
                vat!();
            }
            PartyTaxScheme if TAX_SCHEME_IS_NOT_VAT {
                CompanyID = Bt(32);
                TaxScheme {
                    ID = Constant("TAX");
                }
            }
            PartyLegalEntity {
                RegistrationName = Bt(27);
                CompanyID = Bt(30), @ schemeID = Part(30, 1);
                CompanyLegalForm = Bt(33);
            }
            Contact {
                Name = Bt(41);
                Telephone = Bt(42);
                ElectronicMail = Bt(43);
            }
        }
    }
);

const BUYER: &[TableItem] = table_items!({UblAggregate UblBasic}
    AccountingCustomerParty {
        Party {
            EndpointID = Bt(49), @ schemeID = Part(49, 1);
            PartyIdentification {
                ID = Bt(46), @ schemeID = Part(46, 1);
            }
            PartyName {
                Name = Bt(45);
            }
            PostalAddress { address!(50 51 163 52 53 54 55); }
            PartyTaxScheme if TAX_SCHEME_IS_VAT {
                CompanyID = Bt(48);
                vat!();
            }
            PartyLegalEntity {
                RegistrationName = Bt(44);
                CompanyID = Bt(47), @ schemeID = Part(47, 1);
            }
            Contact {
                Name = Bt(56);
                Telephone = Bt(57);
                ElectronicMail = Bt(58);
            }
        }
    }
);

const OTHER_PARTIES: &[TableItem] = table_items!({UblAggregate UblBasic}
    PayeeParty {
        PartyIdentification if SCHEME_IS_SEPA {
            ID = AgreeingUnwritten(90);
        }
        PartyIdentification if SCHEME_IS_NOT_SEPA {
            ID = Bt(60), @ schemeID = Part(60, 1);
        }
        PartyName {
            Name = Bt(59);
        }
        PartyLegalEntity {
            CompanyID = Bt(61), @ schemeID = Part(61, 1);
        }
    }
    TaxRepresentativeParty {
        PartyName {
            Name = Bt(62);
        }
        PostalAddress { address!(64 65 164 66 67 68 69); }
        PartyTaxScheme {
            CompanyID = Bt(63);
            vat!();
        }
    }
    Delivery {
        ActualDeliveryDate = Bt(72);
        DeliveryLocation {
            ID = Bt(71), @ schemeID = Part(71, 1);
            Address { address!(75 76 165 77 78 79 80); }
        }
        DeliveryParty {
            PartyName {
                Name = Bt(70);
            }
        }
    }
);

const PAYMENT: &[TableItem] = table_items!({UblAggregate UblBasic}
    begin PaymentMeans for CreditTransfer;
    PaymentMeansCode = Spread(81), @ name = Spread(82);
);

const PAYMENT_DUE_DATE: &[TableItem] = table_items!({UblAggregate UblBasic}
    PaymentDueDate = Spread(9);
);

const ACCOUNTS: &[TableItem] = table_items!({UblAggregate UblBasic}
    PaymentID = Spread(83);
    CardAccount {
        PrimaryAccountNumberID = Spread(87);
        NetworkID = Constant("NA");
        HolderName = Spread(88);
    }
    PayeeFinancialAccount {
        ID = Bt(84);
        Name = Bt(85);
        FinancialInstitutionBranch {
            ID = Bt(86);
        }
    }
    PaymentMandate {
        ID = Spread(89);
        PayerFinancialAccount {
            ID = Spread(91);
        }
    }
    end;
);

const TOTALS: &[TableItem] = table_items!({UblAggregate UblBasic}
    PaymentTerms {
        Note = Bt(20);
    }
    AllowanceCharge for DocumentAllowance if IS_NO_CHARGE {
        sums!("false" 92 93 94 97 98);
        TaxCategory {
            ID = Bt(95);
            Percent = Bt(96);
            vat!();
        }
    }
    AllowanceCharge for DocumentCharge if IS_CHARGE {
        sums!("true" 99 100 101 104 105);
        TaxCategory {
            ID = Bt(102);
            Percent = Bt(103);
            vat!();
        }
    }
    TaxTotal {
        TaxAmount = VatTotal(110);
        TaxSubtotal for VatBreakdown {
            TaxableAmount = Bt(116);
            TaxAmount = Bt(117);
            TaxCategory {
                ID = Bt(118);
                Percent = Bt(119);
                TaxExemptionReasonCode = Bt(121);
                TaxExemptionReason = Bt(120);
                vat!();
            }
        }
    }
    TaxTotal {
        TaxAmount = AccountingVatTotal(111);
    }
    LegalMonetaryTotal {
        LineExtensionAmount = Bt(106);
        TaxExclusiveAmount = Bt(109);
        TaxInclusiveAmount = Bt(112);
        AllowanceTotalAmount = Bt(107);
        ChargeTotalAmount = Bt(108);
        PrepaidAmount = Bt(113);
        PayableRoundingAmount = Bt(114);
        PayableAmount = Bt(115);
    }
);

const INVOICE_LINE: &[TableItem] = table_items!({UblAggregate UblBasic}
    begin InvoiceLine for InvoiceLine;
    ID = Bt(126);
    Note = Bt(127);
    InvoicedQuantity = Bt(129), @ unitCode = Bt(130);
);

const CREDIT_NOTE_LINE: &[TableItem] = table_items!({UblAggregate UblBasic}
    begin CreditNoteLine for InvoiceLine;
    ID = Bt(126);
    Note = Bt(127);
    CreditedQuantity = Bt(129), @ unitCode = Bt(130);
);

const LINE: &[TableItem] = table_items!({UblAggregate UblBasic}
    LineExtensionAmount = Bt(131);
    AccountingCost = Bt(133);
    InvoicePeriod {
        StartDate = Bt(134);
        EndDate = Bt(135);
    }
    OrderLineReference {
        LineID = Bt(132);
    }
    DocumentReference if TYPE_IS_130 {
        ID = Bt(128), @ schemeID = Part(128, 1);
        DocumentTypeCode = Constant("130");
    }
    AllowanceCharge for LineAllowance if IS_NO_CHARGE {
        sums!("false" 136 137 138 139 140);
    }
    AllowanceCharge for LineCharge if IS_CHARGE {
        sums!("true" 141 142 143 144 145);
    }
);

const ITEM: &[TableItem] = table_items!({UblAggregate UblBasic}
    Item {
        Description = Bt(154);
        Name = Bt(153);
        BuyersItemIdentification {
            ID = Bt(156);
        }
        SellersItemIdentification {
            ID = Bt(155);
        }
        StandardItemIdentification {
            ID = Bt(157), @ schemeID = Part(157, 1);
        }
        OriginCountry {
            IdentificationCode = Bt(159);
        }
        CommodityClassification for ItemClassification {
            ItemClassificationCode = Bt(158), @ listID = Part(158, 1), @ listVersionID = Part(158, 2);
        }
        ClassifiedTaxCategory {
            ID = Bt(151);
            Percent = Bt(152);
            vat!();
        }
        AdditionalItemProperty for ItemAttribute {
            Name = Bt(160);
            Value = Bt(161);
        }
    }
    Price {
        PriceAmount = Bt(146);
        BaseQuantity = Bt(149), @ unitCode = Bt(150);
        AllowanceCharge {
            ChargeIndicator = Constant("false");
            Amount = Bt(147);
            BaseAmount = Bt(148);
        }
    }
    end;
);

/// The table of an invoice (CEN/TS 16931-3-2, `Invoice`).
pub fn invoice(alloc: Global) -> Result<Binding, AllocError>
    ensures { IfOk result (λ table. table ≡ invoice_rows) }
{
    listed(
        alloc,
        &[
            INVOICE,
            OPENING,
            INVOICE_TYPE,
            REFERENCES,
            ORIGINATOR,
            CONTRACT,
            INVOICE_DOCUMENTS,
            SELLER,
            BUYER,
            OTHER_PARTIES,
            PAYMENT,
            ACCOUNTS,
            TOTALS,
            INVOICE_LINE,
            LINE,
            ITEM,
            END,
        ],
    )
}

/// The table of a credit note (CEN/TS 16931-3-2, `CreditNote`).
pub fn credit_note(alloc: Global) -> Result<Binding, AllocError>
    ensures { IfOk result (λ table. table ≡ credit_note_rows) }
{
    listed(
        alloc,
        &[
            CREDIT_NOTE,
            OPENING,
            CREDIT_NOTE_TYPE,
            REFERENCES,
            CONTRACT,
            CREDIT_NOTE_DOCUMENTS,
            ORIGINATOR,
            SELLER,
            BUYER,
            OTHER_PARTIES,
            PAYMENT,
            PAYMENT_DUE_DATE,
            ACCOUNTS,
            TOTALS,
            CREDIT_NOTE_LINE,
            LINE,
            ITEM,
            END,
        ],
    )
}
