//! What a row of a binding table says: where a business term of an electronic invoice stands in a syntax, and how its
//! value is spelled there (CEN/TS 16931-3-2 for UBL 2.1, CEN/TS 16931-3-3 for CII D16B); and the namespaces in which both
//! declare their elements.
#![tactic(auto)]

mod added;
mod copies;
mod guards;
mod names;
mod namespaces;
mod rows;
mod same;
mod tables;
mod words;

pub use added::{data_type_of_form, is_added, is_typed};
pub use copies::Copied;
pub use guards::{Guard, Place, Test};
pub use inv_base::Many;
pub use names::{ElementName, Leaf, Namespace};
pub use namespaces::{declared_by, prefix_of, uri_of};
pub use rows::{Check, Content, Form, Placeholder, Repeats, Row, Step, Written};
pub use same::{Same, are_same, is_same_or_none};
pub use tables::DocumentType;
pub use words::Word;
