//! What rules are judged over.

use node_arena::Doc;
use node_locations::Ordinals;
use std::alloc::Global;

/// A document, and the ordinals of its nodes, which locations are told by.
#[derive(Clone, Copy)]
pub(crate) struct JudgingInput<'r, 'a> {
    pub(crate) alloc: Global,
    pub(crate) doc: &'r Doc<'a>,
    pub(crate) ordinals: &'r Ordinals,
}
