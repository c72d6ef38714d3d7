//! What the tables of tests ask of documents.

use crate::documents::document;
use bumpalo::Bump;
use node_arena::Doc;
use std::alloc::Global;
use std::test::Fail;
use test_rows::{Shown, expect_shown};

/// What is asked of a document.
pub(crate) trait Asked {
    /// The answer of a document to what a row gives.
    fn answer(&self, alloc: Global, doc: &Doc<'_>, given: &'static str) -> Result<String, Fail>;
}

fn answer_in<A: Asked>(
    alloc: Global,
    bump: &Bump,
    asked: &A,
    text: &str,
    given: &'static str,
) -> Result<String, Fail> {
    let doc = document(alloc, bump, text)?;
    let answer = asked.answer(alloc, &doc, given);
    drop(doc);
    answer
}

/// The answer of the document of a text.
pub(crate) fn answer_of<A: Asked>(
    alloc: Global,
    asked: &A,
    text: &str,
    given: &'static str,
) -> Result<String, Fail> {
    let bump = Bump::new(alloc);
    let answer = answer_in(alloc, &bump, asked, text, given);
    drop(bump);
    answer
}

/// What is asked of a document, or of the one that a row gives.
#[derive(Drop)]
struct Asking<'a, A> {
    document: Option<&'static str>,
    asked: &'a A,
}

impl<A: Asked> Shown for Asking<'_, A> {
    fn shown(&self, alloc: Global, given: &'static str) -> Result<String, Fail> {
        answer_of(alloc, self.asked, self.document.unwrap_or(given), given)
    }
}

/// Fails with the first row whose document doesn't answer what stands behind the bar.
pub(crate) fn expect_documents<A: Asked>(
    alloc: Global,
    asked: &A,
    rows: &'static str,
) -> Result<(), Fail> {
    let asking = Asking {
        document: None,
        asked,
    };
    expect_shown(alloc, &asking, " | ", rows)
}

/// Fails with the first row to which the document doesn't answer what stands behind the arrow.
pub(crate) fn expect_answers<A: Asked>(
    alloc: Global,
    asked: &A,
    document: &'static str,
    rows: &'static str,
) -> Result<(), Fail> {
    let asking = Asking {
        document: Some(document),
        asked,
    };
    expect_shown(alloc, &asking, " -> ", rows)
}
