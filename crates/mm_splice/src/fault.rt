//! Why a proof is not replaced.

ghost use Rattle.std.specs.Prelude.{◌≡◌};
ghost use Rattle.mm_splice.specs.declared.fault.SpliceFault.TheVariants.{Memory};

use std::alloc::AllocError;
use thiserror::Error;

/// Why a proof is not replaced.
#[derive(Clone, Copy, Debug, PartialEq, Eq, Error)]
pub enum SpliceFault {
    /// The database would have more than 134,217,728 bytes.
    #[error("too long")]
    TooLong,
    /// Memory ran out.
    #[error("out of memory")]
    Memory,
}

impl From<AllocError> for SpliceFault {
    ghost from_gives = { λ _ e. e ≡ Memory };

    fn from(_e: AllocError) -> SpliceFault {
        SpliceFault::Memory
    }
}
