ghost use Rattle.std.specs.Prelude.{◌≡◌};
ghost use Rattle.bind_rows.specs.Namespaces as spec;

use crate::Namespace;

/// The name of a namespace.
pub fn uri_of(namespace: Namespace) -> &'static str
    ensures { result.now ≡ spec.uri_of namespace }
{
    match namespace {
        Namespace::UblInvoice => "urn:oasis:names:specification:ubl:schema:xsd:Invoice-2",
        Namespace::UblCreditNote => "urn:oasis:names:specification:ubl:schema:xsd:CreditNote-2",
        Namespace::UblAggregate => {
            "urn:oasis:names:specification:ubl:schema:xsd:CommonAggregateComponents-2"
        }
        Namespace::UblBasic => {
            "urn:oasis:names:specification:ubl:schema:xsd:CommonBasicComponents-2"
        }
        Namespace::CiiInvoice => "urn:un:unece:uncefact:data:standard:CrossIndustryInvoice:100",
        Namespace::CiiAggregate => {
            "urn:un:unece:uncefact:data:standard:ReusableAggregateBusinessInformationEntity:100"
        }
        Namespace::CiiUnqualified => "urn:un:unece:uncefact:data:standard:UnqualifiedDataType:100",
        Namespace::CiiQualified => "urn:un:unece:uncefact:data:standard:QualifiedDataType:100",
    }
}

/// The prefix with which its names are written. The namespaces of UBL's roots are written without one, as the default
/// namespace.
pub fn prefix_of(namespace: Namespace) -> &'static str
    ensures { result.now ≡ spec.prefix_of namespace }
{
    match namespace {
        Namespace::UblInvoice | Namespace::UblCreditNote => "",
        Namespace::UblAggregate => "cac",
        Namespace::UblBasic => "cbc",
        Namespace::CiiInvoice => "rsm",
        Namespace::CiiAggregate => "ram",
        Namespace::CiiUnqualified => "udt",
        Namespace::CiiQualified => "qdt",
    }
}

const INVOICE: [Namespace; 3] = [
    Namespace::UblInvoice,
    Namespace::UblAggregate,
    Namespace::UblBasic,
];

const CREDIT_NOTE: [Namespace; 3] = [
    Namespace::UblCreditNote,
    Namespace::UblAggregate,
    Namespace::UblBasic,
];

const CII: [Namespace; 4] = [
    Namespace::CiiInvoice,
    Namespace::CiiAggregate,
    Namespace::CiiUnqualified,
    Namespace::CiiQualified,
];

/// The namespaces that a root in a namespace declares, in the order in which it does. None, where no root of a binding
/// is in it.
pub fn declared_by(root: Namespace) -> &'static [Namespace]
    ensures { result.now ≡ spec.declared_by root }
{
    match root {
        Namespace::UblInvoice => &INVOICE,
        Namespace::UblCreditNote => &CREDIT_NOTE,
        Namespace::CiiInvoice => &CII,
        _ => &[],
    }
}
