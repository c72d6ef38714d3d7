//! Laws of addresses: the document of an invoice is the tree of its leaves, each at the address that its entry and its row
//! give.
#![tactic(auto)]

mod laws;

pub use laws::{
    documents_are_trees_of_leaves, documents_by_the_tables_are_trees_of_leaves,
    entries_have_their_leaves, other_tables_may_differ, samples_are_trees_of_leaves,
    tables_are_addressed,
};
