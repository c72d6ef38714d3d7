//! Binding tables: the rows that say where each business term stands in a syntax, the same rows as a tree of lines with
//! the laws of both, the checker that says of any table whether it is well formed, and the notation in which tables are
//! listed, an element with what stands in it, line by line, as the standards list their syntaxes.
#![tactic(auto)]

mod adding;
mod binding;
mod cells;
mod conditions;
mod crossings;
mod extending;
mod growing;
mod items;
mod judging;
pub mod laws;
mod lines;
mod listing;
mod notation;
mod parting;

pub use bind_rows::{
    Check, Content, ElementName, Form, Guard, Leaf, Namespace, Placeholder, Repeats, Row, Step,
    Test, Written,
};
pub use binding::{Binding, well_formed};
pub use cells::Cell;
pub use conditions::{Asked, Condition, Tag};
pub use extending::AddedTerm;
pub use items::{Head, TableItem};
pub use judging::{TableFault, TableKind};
pub use lines::Line;
pub use listing::listed;
