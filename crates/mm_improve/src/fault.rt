//! Why a proof that is found for a goal is not made.

ghost use Rattle.std.specs.Prelude.{◌≡◌};
ghost use Rattle.mm_improve.specs.declared.fault.ImproveFault.TheVariants.{Memory};

use std::alloc::AllocError;
use thiserror::Error;

/// Why the proof of a goal is not made.
#[derive(Clone, Copy, Debug, PartialEq, Eq, Error)]
pub enum ImproveFault {
    /// It has more than 1,000,000 steps.
    #[error("too many steps")]
    TooManySteps,
    /// It has more than 2,000 levels.
    #[error("too deep")]
    TooDeep,
    /// Memory ran out.
    #[error("out of memory")]
    Memory,
}

impl From<AllocError> for ImproveFault {
    ghost from_gives = { λ _ e. e ≡ Memory };

    fn from(_e: AllocError) -> ImproveFault {
        ImproveFault::Memory
    }
}
