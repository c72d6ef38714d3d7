//! Canonical text: how `einv` writes XML, straight to a sink and without memory, and how it measures what it doesn't write.
//!
//! `specs/Canonical.antt` says what the canonical text of a document is, `specs/Calls.antt` what each call of a pen appends, and
//! a law of this crate that the calls of a document append its canonical text. `specs/Sizes.antt` says how large the text is, and
//! what a gauge measures behind the same calls; `Writer` is what a pen and a gauge have in common.
#![tactic(auto)]

mod escape;
mod gauge;
mod laws;
mod pen;
mod writer;
mod writing;

pub use gauge::Gauge;
pub use laws::{
    bytes_are_escaped_as_characters, calls_append_canonical_text, gauged_calls_are_sizes,
    texts_are_joined,
};
pub use pen::{Pen, PenState};
pub use writer::{Nowhere, Writer};
pub use writing::WriteFault;
