//! What begins at a place of a document's bytes: a token, a bad token, or nothing yet (XML 1.0, fifth edition).
//!
//! A token is the byte order mark, the declaration, a comment, a processing instruction, a CDATA section, a tag, a
//! reference, a line end or one character. Whether it may stand where it stands is no matter of this crate.
#![tactic(auto)]

mod ascii;
mod asides;
mod beginning;
mod comments;
mod declaration;
mod encoding;
mod extents;
mod greatest;
mod instructions;
mod kind;
mod literals;
mod markup;
mod names;
mod plain_tags;
mod references;
mod run;
mod scanning;
mod search;
mod spelling;
mod tags;
mod token;
mod values;

pub use asides::{ClosedAside, OpenAside};
pub use beginning::{Beginning, Position, what_begins};
pub use greatest::GREATEST_TAG;
pub use kind::XmlKind;
pub use plain_tags::{PlainKind, PlainTag, plain_tag};
pub use run::run_at_front;
pub use search::Search;
pub use token::{Attribute, Section, StartTag, Token, Value};
