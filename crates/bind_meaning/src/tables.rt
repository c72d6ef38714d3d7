/// The syntaxes in which invoices are written.
#[derive(Clone, Copy, PartialEq, Eq)]
pub enum Syntax {
    /// UBL 2.1
    Ubl,
    /// UN/CEFACT CII D16B
    Cii,
}
