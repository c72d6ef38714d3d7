use bind_rows::ElementName;
use inv_base::Many;
use term_table::DataType;

/// Where a term of an extension stands.
#[derive(Clone, Copy, PartialEq, Eq)]
pub enum ExtPlace {
    /// In the invoice itself.
    Root,
    /// In each invoice line.
    Line,
}

/// The path of a term's element in each syntax that has it, from below the root element, or from below the element of
/// the line.
pub struct Paths {
    /// In a UBL 2.1 Invoice.
    pub ubl: Option<Many<ElementName>>,
    /// In a UBL 2.1 CreditNote.
    pub credit_note: Option<Many<ElementName>>,
    /// In UN/CEFACT CII D16B.
    pub cii: Option<Many<ElementName>>,
}

impl Drop for Paths {
    fn drop(self) {
        let Paths {
            ubl,
            credit_note,
            cii,
        } = self;
        drop(ubl);
        drop(credit_note);
        drop(cii);
    }
}

/// A term that an extension adds. It is optional in its place.
pub struct ExtTerm {
    /// From 1 to 99.
    pub number: u8,
    pub place: ExtPlace,
    /// The type of its value.
    pub data_type: DataType,
    pub paths: Paths,
}

impl Drop for ExtTerm {
    fn drop(self) {
        let ExtTerm {
            number: _,
            place: _,
            data_type: _,
            paths,
        } = self;
        drop(paths);
    }
}
