//! The page of an invoice as tables that a designer can change: what stands where, under which label, in which order, what
//! codes mean, and the style sheet. They are data alone; invoice_page says what becomes of them.
#![tactic(auto)]

mod forms;
mod laws;
mod layouts;
mod macros;
mod meanings;
mod style;
mod tables;

pub use forms::{Align, Cell, Column, Form, Holds, Item, Meanings, Part, Row, Section, Table};
pub use laws::each_term_stands_once;
pub use layouts::{DIFFERING, FACTS, PARTIES, REST, TOTALS};
pub use meanings::{CATEGORIES, KINDS, MEANS, OTHER_KIND, POINTS, SAVED_TYPES, UNITS};
pub use style::STYLE;
pub use tables::{EXTRAS, LINES, VAT};
