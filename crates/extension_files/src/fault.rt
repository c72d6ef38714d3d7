ghost use Rattle.extension_files.specs.declared.fault.ExtFault.TheVariants.{Memory};
ghost use Rattle.std.specs.Prelude.{◌≡◌};

use inv_base::Txt;
use std::alloc::{AllocError, AllocFailed};
use thiserror::Error;

/// Why a file gives no extension terms.
#[derive(Debug, Drop, Error)]
pub enum ExtFault {
    /// The file isn't UTF-8, or is no TOML document.
    #[error("not a TOML document")]
    NotToml,
    /// The key is none that a file of extension terms has, or `term`, where no array of tables stands under it.
    #[error("not a file of extension terms")]
    NotAnExtension(Txt),
    /// The table at this place, counted from 1, is the first that isn't a term.
    #[error("a table that isn't an extension term")]
    BadTerm(u32),
    #[error("out of memory")]
    Memory,
}

impl From<AllocError> for ExtFault {
    ghost from_gives = { λ _ e. e ≡ Memory };

    fn from(_e: AllocError) -> ExtFault {
        ExtFault::Memory
    }
}

impl<T: Drop> From<AllocFailed<T>> for ExtFault {
    ghost from_gives = { λ _ e. e ≡ Memory };

    fn from(_e: AllocFailed<T>) -> ExtFault {
        ExtFault::Memory
    }
}
