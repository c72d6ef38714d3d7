ghost use Rattle.std.specs.Prelude.{◌≡◌, codes, chars, encode_utf8_all};
ghost use Rattle.code_lists.specs.ListNames.{name_of, list_named};

/// The lists that EN 16931-1 has its codes from.
#[derive(Clone, Copy, PartialEq, Eq, Hash)]
pub enum List {
    /// Reasons of allowances: UNTDID 5189.
    Allowance,
    /// Categories of value added tax: of UNTDID 5305.
    Category,
    /// Reasons of charges: UNTDID 7161.
    Charge,
    /// Schemes of item classifications: UNTDID 7143.
    Classification,
    /// Countries: ISO 3166-1 alpha-2.
    Country,
    /// Currencies: ISO 4217.
    Currency,
    /// Schemes of electronic addresses: the EAS list.
    Endpoint,
    /// Reasons of exemption from value added tax: the VATEX list.
    Exemption,
    /// Types of invoice: of UNTDID 1001.
    InvoiceType,
    /// Means of payment: UNTDID 4461.
    Means,
    /// Media types of attached documents.
    Mime,
    /// Schemes of invoiced objects: UNTDID 1153.
    Object,
    /// Points at which value added tax is due: of UNTDID 2005.
    Point,
    /// Schemes of identifiers: ISO/IEC 6523.
    Scheme,
    /// Subjects of notes: UNTDID 4451.
    Subject,
    /// Units of measure: UN/ECE Recommendations 20 and 21.
    UnitOfMeasure,
}

// The lists that a file may give: all but the two that are built in.
const FROM_FILE: [List; 14] = [
    List::Allowance,
    List::Charge,
    List::Classification,
    List::Country,
    List::Currency,
    List::Endpoint,
    List::Exemption,
    List::Means,
    List::Mime,
    List::Object,
    List::Scheme,
    List::Subject,
    List::InvoiceType,
    List::UnitOfMeasure,
];

impl List {
    /// The key under which a file gives the list.
    pub fn name(self) -> &'static str
        ensures { result.now ≡ name_of self }
    {
        match self {
            List::Allowance => "allowance",
            List::Category => "category",
            List::Charge => "charge",
            List::Classification => "classification",
            List::Country => "country",
            List::Currency => "currency",
            List::Endpoint => "endpoint",
            List::Exemption => "exemption",
            List::InvoiceType => "type",
            List::Means => "means",
            List::Mime => "mime",
            List::Object => "object",
            List::Point => "point",
            List::Scheme => "scheme",
            List::Subject => "subject",
            List::UnitOfMeasure => "unit",
        }
    }

    /// The list that a file may give under this key, if there is one.
    pub(crate) fn named(key: &str) -> Option<List>
        ensures { result ≡ list_named key.now }
    {
        FROM_FILE.iter().copied().find(|list| list.name() == key)
    }
}
