//! A job that reads files one after another and ends with an answer: the files loaded or taken, the one line of each refusal, and the
//! statuses.
#![tactic(auto)]

mod documents;
mod files;
mod formats;
mod libraries;
mod status;
mod telling;

pub use documents::{Placed, load_document, load_placed};
pub use files::{take_file, take_lists};
pub use formats::ReportFormat;
pub use libraries::load_library;
pub use status::{Status, exit_number};
pub use telling::{tell_bad_word, tell_document_fault, tell_read_fault};
