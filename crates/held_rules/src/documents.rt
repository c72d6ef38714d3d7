//! Texts in memory as documents.
ghost use Rattle.std.specs.Prelude.{◌≡◌, ◌∷◌, [], IfOk, option_map};
ghost use Rattle.node_arena.specs.Moves.{tree_nodes};
ghost use Rattle.held_rules.specs.Texts.{nodes_in};

use bumpalo::Bump;
use inv_base::MemShelf;
use node_arena::Doc;
use std::alloc::{AllocError, Global};
use xml_document::{LoadFault, load};
use xml_state::DOCUMENT_LIMITS;

/// The name under which a document is held in memory.
const HELD: &str = "held";

/// Bytes as a file in memory.
fn held(alloc: Global, bytes: &[u8]) -> Result<MemShelf, AllocError>
    ensures { IfOk result (λ shelf. shelf.files ≡ (HELD.now, bytes.now) ∷ []) }
{
    let mut shelf = MemShelf::new(alloc);
    shelf.add(HELD, bytes)?;
    Ok(shelf)
}

/// The document that bytes are, under the limits of documents; none where they are refused.
pub fn document_in<'a>(
    alloc: Global,
    bump: &'a Bump,
    bytes: &[u8],
) -> Result<Option<Doc<'a>>, AllocError>
    ensures { IfOk result (λ doc. option_map tree_nodes doc ≡ nodes_in bytes.now) }
{
    let mut shelf = held(alloc, bytes)?;
    match load(alloc, bump, &mut shelf, HELD, DOCUMENT_LIMITS) {
        Ok(doc) => Ok(Some(doc)),
        Err(LoadFault::Refused(_)) => Ok(None),
        Err(LoadFault::Read) | Err(LoadFault::Memory) => Err(AllocError),
    }
}
