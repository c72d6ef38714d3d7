use bind_rows::Namespace;
use bind_table::{Asked, Condition, Tag};

const DOCUMENT_TYPE: &[Tag] = &[Tag {
    namespace: Namespace::UblBasic,
    local: "DocumentTypeCode",
}];

const IDENTIFIER: &[Tag] = &[Tag {
    namespace: Namespace::UblBasic,
    local: "ID",
}];

const TAX_SCHEME: &[Tag] = &[
    Tag {
        namespace: Namespace::UblAggregate,
        local: "TaxScheme",
    },
    Tag {
        namespace: Namespace::UblBasic,
        local: "ID",
    },
];

const CHARGE_INDICATOR: &[Tag] = &[Tag {
    namespace: Namespace::UblBasic,
    local: "ChargeIndicator",
}];

macro_rules! text {
    ($path:ident, $asked:expr) => {
        Condition {
            path: $path,
            attribute: None,
            asked: $asked,
        }
    };
}

macro_rules! scheme {
    ($asked:expr) => {
        Condition {
            path: IDENTIFIER,
            attribute: Some("schemeID"),
            asked: $asked,
        }
    };
}

pub(crate) const TYPE_IS_130: Condition = text!(DOCUMENT_TYPE, Asked::OneOf(&["130"]));

pub(crate) const TYPE_IS_50: Condition = text!(DOCUMENT_TYPE, Asked::OneOf(&["50"]));

pub(crate) const TYPE_IS_NOT_130: Condition = text!(DOCUMENT_TYPE, Asked::NoneOf(&["130"]));

pub(crate) const TYPE_IS_NOT_130_OR_50: Condition = text!(
    DOCUMENT_TYPE,
    Asked::NoneOf(&["130", "50"])
);

pub(crate) const HAS_SCHEME: Condition = scheme!(Asked::Present);

pub(crate) const HAS_NO_SCHEME: Condition = scheme!(Asked::Absent);

pub(crate) const SCHEME_IS_SEPA: Condition = scheme!(Asked::OneOf(&["SEPA"]));

pub(crate) const SCHEME_IS_NOT_SEPA: Condition = scheme!(Asked::NoneOf(&["SEPA"]));

pub(crate) const TAX_SCHEME_IS_VAT: Condition = text!(TAX_SCHEME, Asked::OneOf(&["VAT"]));

pub(crate) const TAX_SCHEME_IS_NOT_VAT: Condition = text!(TAX_SCHEME, Asked::NoneOf(&["VAT"]));

pub(crate) const IS_CHARGE: Condition = text!(CHARGE_INDICATOR, Asked::OneOf(&["true", "1"]));

pub(crate) const IS_NO_CHARGE: Condition = text!(CHARGE_INDICATOR, Asked::NoneOf(&["true", "1"]));
