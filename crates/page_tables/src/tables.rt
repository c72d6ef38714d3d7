//! The tables of the page: their columns, and a row for each occurrence of a group.
use crate::forms::{Align, Holds, Meanings, Table};
use crate::layouts::{ITEM, NET_PRICE, VAT_CATEGORY};
use crate::macros::*;
use term_table::{Group, Term};

macro_rules! words {
    ($words:literal) => {
        (Align::Texts, Holds::Words, $words, &[], &[])
    };
}

macro_rules! cell {
    ($align:ident: $(($($part:tt)*))+) => {
        (Align::$align, Holds::Parts, "", &[$(part!($($part)*)),+], &[])
    };
}

macro_rules! layout {
    ($align:ident: $layout:ident) => {
        (Align::$align, Holds::Layout, "", &[], &$layout)
    };
}

/// The lines of the invoice.
pub const LINES: Table = (
    "lines",
    "Lines",
    &[
        (Align::Texts, "Line"),
        (Align::Texts, "Item"),
        (Align::Numbers, "Quantity"),
        (Align::Numbers, "Net price"),
        (Align::Numbers, "VAT"),
        (Align::Numbers, "Net amount"),
    ],
    &[(
        Group::InvoiceLine,
        &[
            cell!(Texts: (126)),
            layout!(Texts: ITEM),
            cell!(Numbers: (129) (130 + Unit)),
            layout!(Numbers: NET_PRICE),
            cell!(Numbers: (152) (151)),
            cell!(Numbers: (131)),
        ],
    )],
);

/// The allowances and charges of the document.
pub const EXTRAS: Table = (
    "extras",
    "Allowances and charges",
    &[
        (Align::Texts, "Kind"),
        (Align::Texts, "Reason"),
        (Align::Numbers, "Basis"),
        (Align::Numbers, "VAT"),
        (Align::Numbers, "Amount"),
    ],
    &[
        (
            Group::DocumentAllowance,
            &[
                words!("Allowance"),
                cell!(Texts: (97) (98)),
                cell!(Numbers: (94) ("of", 93)),
                cell!(Numbers: (96) (95)),
                cell!(Numbers: (92)),
            ],
        ),
        (
            Group::DocumentCharge,
            &[
                words!("Charge"),
                cell!(Texts: (104) (105)),
                cell!(Numbers: (101) ("of", 100)),
                cell!(Numbers: (103) (102)),
                cell!(Numbers: (99)),
            ],
        ),
    ],
);

/// The VAT breakdowns.
pub const VAT: Table = (
    "tax",
    "VAT",
    &[
        (Align::Texts, "VAT category"),
        (Align::Numbers, "Rate"),
        (Align::Numbers, "Taxable amount"),
        (Align::Numbers, "VAT amount"),
    ],
    &[(
        Group::VatBreakdown,
        &[
            layout!(Texts: VAT_CATEGORY),
            cell!(Numbers: (119)),
            cell!(Numbers: (116)),
            cell!(Numbers: (117)),
        ],
    )],
);
