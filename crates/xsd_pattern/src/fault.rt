ghost use Rattle.std.specs.Prelude.{◌≡◌};
ghost use Rattle.xsd_pattern.specs.declared.fault.PatternFault.TheVariants.{Memory};

use std::alloc::{AllocError, AllocFailed};

/// Why a text isn't taken as a pattern. `Bad` counts before `TooLarge`.
#[derive(Clone, Copy)]
pub enum PatternFault {
    /// No pattern is spelled so.
    Bad,
    /// With each repeat written out the pattern has more than 2,000 characters.
    TooLarge,
    /// Memory ran out.
    Memory,
}

impl From<AllocError> for PatternFault {
    ghost from_gives = { λ _ e. e ≡ Memory };

    fn from(_e: AllocError) -> PatternFault {
        PatternFault::Memory
    }
}

impl<T: Drop> From<AllocFailed<T>> for PatternFault {
    ghost from_gives = { λ _ e. e ≡ Memory };

    fn from(_e: AllocFailed<T>) -> PatternFault {
        PatternFault::Memory
    }
}
