/// The three binding tables.
#[derive(Clone, Copy, PartialEq, Eq)]
pub enum DocumentType {
    /// UBL 2.1 Invoice
    Invoice,
    /// UBL 2.1 CreditNote
    CreditNote,
    /// UN/CEFACT CII D16B
    Cii,
}
