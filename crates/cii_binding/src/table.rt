ghost use Rattle.std.specs.Prelude.{◌≡◌, IfOk};
ghost use Rattle.cii_binding.specs.Table.{cii_rows};

use crate::conditions::*;
use bind_rows::Namespace;
use bind_table::Cell::*;
use bind_table::{Binding, TableItem, listed, table_items};
use std::alloc::{AllocError, Global};
use term_table::Group;

// A date without dashes.
macro_rules! date {
    ($spaces:tt $done:tt ($number:literal) $($rest:tt)*) => {
        table_items!(@ $spaces $done
            CiiUnqualified: DateTimeString = PlainDate($number), @ format = Constant("102");
            $($rest)*)
    };
}

// An identifier, without a scheme in one element and with it in another.
macro_rules! identifiers {
    ($spaces:tt $done:tt ($number:literal) $($rest:tt)*) => {
        table_items!(@ $spaces $done
            ID = Unschemed($number);
            GlobalID = Schemed($number), @ schemeID = Part($number, 1);
            $($rest)*)
    };
}

// An address: lines 1, 2 and 3, city, post code, country subdivision, country.
macro_rules! address {
    ($spaces:tt $done:tt ($a:literal $b:literal $c:literal $d:literal $e:literal $f:literal $g:literal) $($rest:tt)*) => {
        table_items!(@ $spaces $done
            PostcodeCode = Bt($e);
            LineOne = Bt($a);
            LineTwo = Bt($b);
            LineThree = Bt($c);
            CityName = Bt($d);
            CountryID = Bt($g);
            CountrySubDivisionName = Bt($f);
            $($rest)*)
    };
}

// The indicator, amount, base amount, percentage, reason and reason code of an allowance or a charge.
macro_rules! sums {
    ($spaces:tt $done:tt ($indicator:literal $a:literal $b:literal $p:literal $t:literal $k:literal) $($rest:tt)*) => {
        table_items!(@ $spaces $done
            ChargeIndicator { CiiUnqualified: Indicator = Indicator($indicator, $a); }
            CalculationPercent = Bt($p);
            BasisAmount = Bt($b);
            ActualAmount = Bt($a);
            ReasonCode = Bt($k);
            Reason = Bt($t);
            $($rest)*)
    };
}

const INVOICE: &[TableItem] = table_items!({CiiAggregate CiiAggregate}
    begin CiiInvoice: CrossIndustryInvoice;
);

const DOCUMENT: &[TableItem] = table_items!({CiiAggregate CiiAggregate}
    CiiInvoice: ExchangedDocumentContext {
        BusinessProcessSpecifiedDocumentContextParameter {
            ID = Bt(23);
        }
        GuidelineSpecifiedDocumentContextParameter {
            ID = Bt(24);
        }
    }
    CiiInvoice: ExchangedDocument {
        ID = Bt(1);
        TypeCode = Bt(3);
        IssueDateTime {
            date!(2);
        }
        IncludedNote for InvoiceNote {
            Content = Bt(22);
            SubjectCode = Bt(21);
        }
    }
);

const TRANSACTION: &[TableItem] = table_items!({CiiAggregate CiiAggregate}
    begin CiiInvoice: SupplyChainTradeTransaction;
);

const LINE_ITEM: &[TableItem] = table_items!({CiiAggregate CiiAggregate}
    begin IncludedSupplyChainTradeLineItem for InvoiceLine;
    AssociatedDocumentLineDocument {
        LineID = Bt(126);
        IncludedNote {
            Content = Bt(127);
        }
    }
    SpecifiedTradeProduct {
        GlobalID = AlwaysSchemed(157), @ schemeID = Part(157, 1);
        SellerAssignedID = Bt(155);
        BuyerAssignedID = Bt(156);
        Name = Bt(153);
        Description = Bt(154);
        ApplicableProductCharacteristic for ItemAttribute {
            Description = Bt(160);
            Value = Bt(161);
        }
        DesignatedProductClassification for ItemClassification {
            ClassCode = Bt(158), @ listID = Part(158, 1), @ listVersionID = Part(158, 2);
        }
        OriginTradeCountry {
            ID = Bt(159);
        }
    }
);

const LINE_TERMS: &[TableItem] = table_items!({CiiAggregate CiiAggregate}
    SpecifiedLineTradeAgreement {
        BuyerOrderReferencedDocument {
            LineID = Bt(132);
        }
        GrossPriceProductTradePrice {
            ChargeAmount = Bt(148);
            AppliedTradeAllowanceCharge {
                ChargeIndicator {
                    CiiUnqualified: Indicator = Constant("false");
                }
                ActualAmount = Bt(147);
            }
        }
        NetPriceProductTradePrice {
            ChargeAmount = Bt(146);
            BasisQuantity = Bt(149), @ unitCode = Bt(150);
        }
    }
    SpecifiedLineTradeDelivery {
        BilledQuantity = Bt(129), @ unitCode = Bt(130);
    }
);

const LINE_SETTLEMENT: &[TableItem] = table_items!({CiiAggregate CiiAggregate}
    SpecifiedLineTradeSettlement {
        ApplicableTradeTax {
            TypeCode = Constant("VAT");
            CategoryCode = Bt(151);
            RateApplicablePercent = Bt(152);
        }
        BillingSpecifiedPeriod {
            StartDateTime {
                date!(134);
            }
            EndDateTime {
                date!(135);
            }
        }
        SpecifiedTradeAllowanceCharge for LineAllowance if IS_NO_CHARGE {
            sums!("false" 136 137 138 139 140);
        }
        SpecifiedTradeAllowanceCharge for LineCharge if IS_CHARGE {
            sums!("true" 141 142 143 144 145);
        }
        SpecifiedTradeSettlementLineMonetarySummation {
            LineTotalAmount = Bt(131);
        }
        AdditionalReferencedDocument if TYPE_IS_130 {
            IssuerAssignedID = Bt(128);
            TypeCode = Constant("130");
            ReferenceTypeCode = Part(128, 1);
        }
        ReceivableSpecifiedTradeAccountingAccount {
            ID = Bt(133);
        }
    }
    end;
);

const SELLER: &[TableItem] = table_items!({CiiAggregate CiiAggregate}
    begin ApplicableHeaderTradeAgreement;
    BuyerReference = Bt(10);
    SellerTradeParty {
        ID for SellerIdentifier = Bt(29);
        GlobalID for SellerSchemedIdentifier = AlwaysSchemed(29), @ schemeID = Part(29, 1);
        Name = Bt(27);
        Description = Bt(33);
        SpecifiedLegalOrganization {
            ID = Bt(30), @ schemeID = Part(30, 1);
            TradingBusinessName = Bt(28);
        }
        DefinedTradeContact {
            PersonName = Bt(41);
            TelephoneUniversalCommunication {
                CompleteNumber = Bt(42);
            }
            EmailURIUniversalCommunication {
                URIID = Bt(43);
            }
        }
        PostalTradeAddress { address!(35 36 162 37 38 39 40); }
        URIUniversalCommunication {
            URIID = Bt(34), @ schemeID = Part(34, 1);
        }
        SpecifiedTaxRegistration if SCHEME_IS_VA { ID = Bt(31), @ schemeID = Constant("VA"); }
        SpecifiedTaxRegistration if SCHEME_IS_FC { ID = Bt(32), @ schemeID = Constant("FC"); }
    }
);

const BUYER: &[TableItem] = table_items!({CiiAggregate CiiAggregate}
    BuyerTradeParty {
        identifiers!(46);
        Name = Bt(44);
        SpecifiedLegalOrganization {
            ID = Bt(47), @ schemeID = Part(47, 1);
            TradingBusinessName = Bt(45);
        }
        DefinedTradeContact {
            PersonName = Bt(56);
            TelephoneUniversalCommunication {
                CompleteNumber = Bt(57);
            }
            EmailURIUniversalCommunication {
                URIID = Bt(58);
            }
        }
        PostalTradeAddress { address!(50 51 163 52 53 54 55); }
        URIUniversalCommunication {
            URIID = Bt(49), @ schemeID = Part(49, 1);
        }
        SpecifiedTaxRegistration if SCHEME_IS_VA { ID = Bt(48), @ schemeID = Constant("VA"); }
    }
    SellerTaxRepresentativeTradeParty {
        Name = Bt(62);
        PostalTradeAddress { address!(64 65 164 66 67 68 69); }
        SpecifiedTaxRegistration if SCHEME_IS_VA { ID = Bt(63), @ schemeID = Constant("VA"); }
    }
);

const REFERENCES: &[TableItem] = table_items!({CiiAggregate CiiAggregate}
    SellerOrderReferencedDocument {
        IssuerAssignedID = Bt(14);
    }
    BuyerOrderReferencedDocument {
        IssuerAssignedID = Bt(13);
    }
    ContractReferencedDocument {
        IssuerAssignedID = Bt(12);
    }
    AdditionalReferencedDocument for SupportingDocument if TYPE_IS_916 {
        IssuerAssignedID = Bt(122);
        URIID = Bt(124);
        TypeCode = Constant("916");
        Name = Bt(123);
        AttachmentBinaryObject = Bt(125), @ mimeCode = Part(125, 1), @ filename = Part(125, 2);
    }
    AdditionalReferencedDocument if TYPE_IS_50 {
        IssuerAssignedID = Bt(17);
        TypeCode = Constant("50");
    }
    AdditionalReferencedDocument if TYPE_IS_130 {
        IssuerAssignedID = Bt(18);
        TypeCode = Constant("130");
        ReferenceTypeCode = Part(18, 1);
    }
    SpecifiedProcuringProject {
        ID = Bt(11);
        Name = Constant("Project reference");
    }
    end;
);

const DELIVERY: &[TableItem] = table_items!({CiiAggregate CiiAggregate}
    + ApplicableHeaderTradeDelivery {
        ShipToTradeParty {
            identifiers!(71);
            Name = Bt(70);
            PostalTradeAddress { address!(75 76 165 77 78 79 80); }
        }
        ActualDeliverySupplyChainEvent {
            OccurrenceDateTime {
                date!(72);
            }
        }
        DespatchAdviceReferencedDocument {
            IssuerAssignedID = Bt(16);
        }
        ReceivingAdviceReferencedDocument {
            IssuerAssignedID = Bt(15);
        }
    }
);

const PAYMENT: &[TableItem] = table_items!({CiiAggregate CiiAggregate}
    begin ApplicableHeaderTradeSettlement;
    CreditorReferenceID = Bt(90);
    PaymentReference = Bt(83);
    TaxCurrencyCode = Bt(6);
    InvoiceCurrencyCode = Bt(5);
    PayeeTradeParty {
        identifiers!(60);
        Name = Bt(59);
        SpecifiedLegalOrganization {
            ID = Bt(61), @ schemeID = Part(61, 1);
        }
    }
    SpecifiedTradeSettlementPaymentMeans for CreditTransfer {
        TypeCode = Spread(81);
        Information = Spread(82);
        ApplicableTradeSettlementFinancialCard {
            ID = Spread(87);
            CardholderName = Spread(88);
        }
        PayerPartyDebtorFinancialAccount {
            IBANID = Spread(91);
        }
        PayeePartyCreditorFinancialAccount {
            IBANID = Iban(84);
            AccountName = Bt(85);
            ProprietaryID = OtherAccount(84);
        }
        PayeeSpecifiedCreditorFinancialInstitution {
            BICID = Bt(86);
        }
    }
);

const TAXES: &[TableItem] = table_items!({CiiAggregate CiiAggregate}
    ApplicableTradeTax for VatBreakdown {
        CalculatedAmount = Bt(117);
        TypeCode = Constant("VAT");
        ExemptionReason = Bt(120);
        BasisAmount = Bt(116);
        CategoryCode = Bt(118);
        ExemptionReasonCode = Bt(121);
        TaxPointDate {
            CiiUnqualified: DateString = SpreadPlainDate(7), @ format = Constant("102");
        }
        DueDateTypeCode = SpreadDueDateTypeCode(8);
        RateApplicablePercent = Bt(119);
    }
    BillingSpecifiedPeriod {
        StartDateTime {
            date!(73);
        }
        EndDateTime {
            date!(74);
        }
    }
    SpecifiedTradeAllowanceCharge for DocumentAllowance if IS_NO_CHARGE {
        sums!("false" 92 93 94 97 98);
        CategoryTradeTax {
            TypeCode = Constant("VAT");
            CategoryCode = Bt(95);
            RateApplicablePercent = Bt(96);
        }
    }
    SpecifiedTradeAllowanceCharge for DocumentCharge if IS_CHARGE {
        sums!("true" 99 100 101 104 105);
        CategoryTradeTax {
            TypeCode = Constant("VAT");
            CategoryCode = Bt(102);
            RateApplicablePercent = Bt(103);
        }
    }
);

const TOTALS: &[TableItem] = table_items!({CiiAggregate CiiAggregate}
    SpecifiedTradePaymentTerms {
        Description = Bt(20);
        DueDateDateTime {
            date!(9);
        }
        DirectDebitMandateID = Bt(89);
    }
    SpecifiedTradeSettlementHeaderMonetarySummation {
        LineTotalAmount = Bt(106);
        ChargeTotalAmount = Bt(108);
        AllowanceTotalAmount = Bt(107);
        TaxBasisTotalAmount = Bt(109);
        TaxTotalAmount = VatTotal(110);
        TaxTotalAmount = AccountingVatTotal(111);
        RoundingAmount = Bt(114);
        GrandTotalAmount = Bt(112);
        TotalPrepaidAmount = Bt(113);
        DuePayableAmount = Bt(115);
    }
    InvoiceReferencedDocument for PrecedingInvoice {
        IssuerAssignedID = Bt(25);
        FormattedIssueDateTime {
            CiiQualified: DateTimeString = PlainDate(26), @ format = Constant("102");
        }
    }
    ReceivableSpecifiedTradeAccountingAccount {
        ID = Bt(19);
    }
    end;
);

const END: &[TableItem] = table_items!({CiiAggregate CiiAggregate}
    end;
    end;
);

/// The table of CII (CEN/TS 16931-3-3, `CrossIndustryInvoice` of D16B).
pub fn cii(alloc: Global) -> Result<Binding, AllocError>
    ensures { IfOk result (λ table. table ≡ cii_rows) }
{
    listed(
        alloc,
        &[
            INVOICE,
            DOCUMENT,
            TRANSACTION,
            LINE_ITEM,
            LINE_TERMS,
            LINE_SETTLEMENT,
            SELLER,
            BUYER,
            REFERENCES,
            DELIVERY,
            PAYMENT,
            TAXES,
            TOTALS,
            END,
        ],
    )
}
