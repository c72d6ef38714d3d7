//! Documents in memory, loaded from a shelf that has their text.

use bumpalo::Bump;
use inv_base::MemShelf;
use node_arena::Doc;
use std::alloc::Global;
use xml_document::{LoadFault, load};
use xml_state::Limits;

/// What documents of tests may have.
pub(crate) const LIMITS: Limits = Limits {
    bytes: 1000,
    nodes: 100,
    depth: 10,
    attributes: 10,
    name: 10,
    names: 20,
};

/// The document of a text, its texts placed in the arena.
pub(crate) fn document<'a>(
    alloc: Global,
    bump: &'a Bump,
    text: &str,
) -> Result<Doc<'a>, LoadFault> {
    let mut shelf = MemShelf::new(alloc);
    shelf.add("document", text.as_bytes())?;
    load(alloc, bump, &mut shelf, "document", LIMITS)
}
