//! What codes mean, in words. A code that isn't here stands alone.

/// VAT categories (UNTDID 5305), of BT-118.
pub const CATEGORIES: [(&str, &str); 10] = [
    ("S", "standard rate"),
    ("Z", "zero rate"),
    ("E", "exempt"),
    ("AE", "reverse charge"),
    ("K", "intra-community supply"),
    ("G", "export"),
    ("O", "not subject to VAT"),
    ("L", "IGIC"),
    ("M", "IPSI"),
    ("B", "split payment"),
];

/// Means of payment (UNTDID 4461), of BT-81.
pub const MEANS: [(&str, &str); 12] = [
    ("10", "cash"),
    ("20", "cheque"),
    ("30", "credit transfer"),
    ("42", "payment to bank account"),
    ("48", "bank card"),
    ("49", "direct debit"),
    ("54", "credit card"),
    ("55", "debit card"),
    ("57", "standing agreement"),
    ("58", "SEPA credit transfer"),
    ("59", "SEPA direct debit"),
    ("97", "clearing between partners"),
];

/// Units of measure (UN/ECE recommendations 20 and 21), of BT-130 and BT-150.
pub const UNITS: [(&str, &str); 22] = [
    ("ANN", "years"),
    ("C62", "units"),
    ("DAY", "days"),
    ("EA", "pieces"),
    ("GRM", "g"),
    ("H87", "pieces"),
    ("HUR", "hours"),
    ("KGM", "kg"),
    ("KMT", "km"),
    ("LS", "lump sum"),
    ("LTR", "l"),
    ("MIN", "minutes"),
    ("MON", "months"),
    ("MTK", "m²"),
    ("MTQ", "m³"),
    ("MTR", "m"),
    ("PR", "pairs"),
    ("TNE", "t"),
    ("WEE", "weeks"),
    ("XBX", "boxes"),
    ("XPK", "packages"),
    ("XPP", "pieces"),
];

/// Points at which VAT is due (UNTDID 2475), of BT-8.
pub const POINTS: [(&str, &str); 3] = [
    ("3", "invoice date"),
    ("35", "delivery date"),
    ("432", "payment date"),
];

/// What kinds of document invoice types are (UNTDID 1001), of BT-3.
pub const KINDS: [(&str, &str); 11] = [
    ("380", "Invoice"),
    ("381", "Credit note"),
    ("384", "Corrected invoice"),
    ("326", "Partial invoice"),
    ("386", "Prepayment invoice"),
    ("389", "Self-billed invoice"),
    ("261", "Self-billed credit note"),
    ("383", "Debit note"),
    ("393", "Factored invoice"),
    ("396", "Factored credit note"),
    ("751", "Invoice for accounting"),
];

/// What a document of any other type is.
pub const OTHER_KIND: &str = "Document";

/// The media types of attached documents that a reader can save from the page.
pub const SAVED_TYPES: [&str; 6] = [
    "application/pdf",
    "image/png",
    "image/jpeg",
    "text/csv",
    "application/vnd.openxmlformats-officedocument.spreadsheetml.sheet",
    "application/vnd.oasis.opendocument.spreadsheet",
];
