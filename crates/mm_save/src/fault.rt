//! Why a proof is not saved.

ghost use Rattle.std.specs.Prelude.{◌≡◌};
ghost use Rattle.mm_save.specs.declared.fault.SaveFault.TheVariants.{Memory};

use std::alloc::AllocError;
use thiserror::Error;

/// Why a proof is not saved.
#[derive(Clone, Copy, Debug, PartialEq, Eq, Error)]
pub enum SaveFault {
    /// The database would have more than 134,217,728 bytes.
    #[error("too long")]
    TooLong,
    /// Memory ran out.
    #[error("out of memory")]
    Memory,
}

impl From<AllocError> for SaveFault {
    ghost from_gives = { λ _ e. e ≡ Memory };

    fn from(_e: AllocError) -> SaveFault {
        SaveFault::Memory
    }
}
