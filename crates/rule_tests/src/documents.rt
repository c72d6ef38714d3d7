//! A document in memory, for its nodes.

use bumpalo::Bump;
use inv_base::MemShelf;
use node_arena::Doc;
use std::alloc::Global;
use xml_document::{LoadFault, load};
use xml_state::Limits;

const LIMITS: Limits = Limits {
    bytes: 1000,
    nodes: 100,
    depth: 10,
    attributes: 10,
    name: 10,
    names: 10,
};

/// The document of a text, its texts placed in the arena.
pub(crate) fn document<'a>(
    alloc: Global,
    bump: &'a Bump,
    text: &str,
) -> Result<Doc<'a>, LoadFault> {
    let mut shelf = MemShelf::new(alloc);
    shelf.add("document", text.as_bytes())?;
    load(alloc, bump, &mut shelf, "document", LIMITS)
}
