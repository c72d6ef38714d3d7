//! JSON text (RFC 8259), written to a sink as it comes, without memory.
//!
//! `specs/Json.antt` says what data is written, `specs/Layout.antt` what its text is, `specs/Calls.antt` what each call of a pen
//! appends, and a law of this crate that the calls of a value append its text.
#![tactic(auto)]

mod laws;
mod pen;
mod state;
mod strings;

pub use laws::calls_append_the_layout;
pub use pen::JsonPen;
pub use state::{Container, DEEPEST, JsonPlace, JsonState};
