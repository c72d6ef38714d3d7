ghost use Rattle.std.specs.Prelude.{◌≡◌};
ghost use Rattle.xpath_items.specs.declared.fault.Fault.TheVariants.{Memory, Error};

use crate::outcome::DynError;
use std::alloc::{AllocError, AllocFailed};

/// Why no value was made: want of memory, or an error of evaluation.
#[derive(Clone, Copy, PartialEq, Eq)]
pub enum Fault {
    Memory,
    Error(DynError),
}

impl From<AllocError> for Fault {
    ghost from_gives = { λ _ f. f ≡ Memory };

    fn from(_e: AllocError) -> Fault {
        Fault::Memory
    }
}

impl<T: Drop> From<AllocFailed<T>> for Fault {
    ghost from_gives = { λ _ f. f ≡ Memory };

    fn from(_e: AllocFailed<T>) -> Fault {
        Fault::Memory
    }
}

impl From<DynError> for Fault {
    ghost from_gives = { λ e f. f ≡ Error e };

    fn from(e: DynError) -> Fault {
        Fault::Error(e)
    }
}
