//! Jobs on an invoice: its terms, its page, its totals compared, the invoice in a syntax, and what is attached to it; with laws of what is
//! read and of what is converted.
#![tactic(auto)]

mod comparison;
mod conversions;
mod formats;
mod invoices;
mod pages;
mod refusals;
mod sources;

pub use comparison::totals;
pub use conversions::{
    accepted_terms_are_good, carried_texts_are_read_exactly, converted_texts_are_documents,
    done_conversions_are_documents, read_files_are_valid_invoices,
};
pub use formats::AnswerFormat;
pub use invoices::{convert, convert_whole, extract, refuse_invoice, show};
pub use pages::view;
pub use sources::{Extended, NO_SOURCES, ReadingProfile, Sources, load_extended};
