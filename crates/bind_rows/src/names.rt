use crate::words::Word;
use inv_base::Txt;

/// The namespaces in which UBL 2.1 and CII D16B declare their elements.
#[derive(Clone, Copy, PartialEq, Eq)]
pub enum Namespace {
    /// `urn:oasis:names:specification:ubl:schema:xsd:Invoice-2`
    UblInvoice,
    /// `urn:oasis:names:specification:ubl:schema:xsd:CreditNote-2`
    UblCreditNote,
    /// `urn:oasis:names:specification:ubl:schema:xsd:CommonAggregateComponents-2`
    UblAggregate,
    /// `urn:oasis:names:specification:ubl:schema:xsd:CommonBasicComponents-2`
    UblBasic,
    /// `urn:un:unece:uncefact:data:standard:CrossIndustryInvoice:100`
    CiiInvoice,
    /// `urn:un:unece:uncefact:data:standard:ReusableAggregateBusinessInformationEntity:100`
    CiiAggregate,
    /// `urn:un:unece:uncefact:data:standard:UnqualifiedDataType:100`
    CiiUnqualified,
    /// `urn:un:unece:uncefact:data:standard:QualifiedDataType:100`
    CiiQualified,
}

/// The expanded name of an element.
pub struct ElementName {
    pub namespace: Namespace,
    pub local: Word,
}

impl Drop for ElementName {
    fn drop(self) {
        let ElementName {
            namespace: _,
            local,
        } = self;
        drop(local);
    }
}

/// Where a path ends: at its last element, or at an attribute of it. Attributes have no namespace.
#[derive(Drop)]
pub enum Leaf {
    Element,
    Attribute(Txt),
}
