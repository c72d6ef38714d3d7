use bind_rows::Namespace;
use bind_table::{Asked, Condition, Tag};

const TYPE_CODE: &[Tag] = &[Tag {
    namespace: Namespace::CiiAggregate,
    local: "TypeCode",
}];

const CHARGE_INDICATOR: &[Tag] = &[
    Tag {
        namespace: Namespace::CiiAggregate,
        local: "ChargeIndicator",
    },
    Tag {
        namespace: Namespace::CiiUnqualified,
        local: "Indicator",
    },
];

macro_rules! text {
    ($path:ident, $asked:expr) => {
        Condition {
            path: $path,
            attribute: None,
            asked: $asked,
        }
    };
}

macro_rules! scheme {
    ($word:literal) => {
        Condition {
            path: &[Tag {
                namespace: Namespace::CiiAggregate,
                local: "ID",
            }],
            attribute: Some("schemeID"),
            asked: Asked::OneOf(&[$word]),
        }
    };
}

pub(crate) const TYPE_IS_916: Condition = text!(TYPE_CODE, Asked::OneOf(&["916"]));

pub(crate) const TYPE_IS_50: Condition = text!(TYPE_CODE, Asked::OneOf(&["50"]));

pub(crate) const TYPE_IS_130: Condition = text!(TYPE_CODE, Asked::OneOf(&["130"]));

pub(crate) const SCHEME_IS_VA: Condition = scheme!("VA");

pub(crate) const SCHEME_IS_FC: Condition = scheme!("FC");

pub(crate) const IS_CHARGE: Condition = text!(CHARGE_INDICATOR, Asked::OneOf(&["true", "1"]));

pub(crate) const IS_NO_CHARGE: Condition = text!(CHARGE_INDICATOR, Asked::NoneOf(&["true", "1"]));
