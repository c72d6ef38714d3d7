//! Documents as invoices: which table a document is read by, and the invoice that it is, its first fault or all its faults; the
//! three tables with the terms that a user adds. Beside them stands what writes invoices.
#![tactic(auto)]

mod extensions;
mod faults;
mod gathering;
mod judging;
mod laws;
mod reading;
mod roots;
mod tables;

pub use bind_carrying::{NotCarried, carries, target};
pub use bind_meaning::{BindFault, BindKind, DocumentType, Syntax};
pub use bind_walk::Losses;
pub use bind_write::write;
pub use extensions::{BadRow, ExtendFault};
pub use faults::{ReadingReport, faults_of_document};
pub use laws::invoices_of_documents_are_valid;
pub use reading::{ReadInvoice, WholeRead, read, read_document, read_document_whole};
pub use roots::binding_of;
pub use tables::{KeptTables, Tables, tables_are_laid};
