ghost use Rattle.code_lists.specs.declared.fault.ListFault.TheVariants.{Memory};
ghost use Rattle.std.specs.Prelude.{◌≡◌};

use inv_base::Txt;
use std::alloc::{AllocError, AllocFailed};
use thiserror::Error;

/// Why a file gives no code lists.
#[derive(Debug, Drop, Error)]
pub enum ListFault {
    /// The file isn't UTF-8, or is no TOML document.
    #[error("not a TOML document")]
    NotToml,
    /// The key is none that a file of code lists has there, or holds no value of the kind.
    #[error("not a file of code lists")]
    NotALists(Txt),
    /// The list under the key has a member that is no code.
    #[error("a list with a member that is no code")]
    BadCode(Txt),
    #[error("out of memory")]
    Memory,
}

impl From<AllocError> for ListFault {
    ghost from_gives = { λ _ e. e ≡ Memory };

    fn from(_e: AllocError) -> ListFault {
        ListFault::Memory
    }
}

impl<T: Drop> From<AllocFailed<T>> for ListFault {
    ghost from_gives = { λ _ e. e ≡ Memory };

    fn from(_e: AllocFailed<T>) -> ListFault {
        ListFault::Memory
    }
}
