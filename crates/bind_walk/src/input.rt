//! What a table is looked up in.

use node_arena::Doc;
use std::alloc::Global;

/// A document, and the memory to look into it.
#[derive(Clone, Copy)]
pub struct WalkInput<'s, 'd> {
    pub alloc: Global,
    pub doc: &'s Doc<'d>,
}
