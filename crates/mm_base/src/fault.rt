ghost use Rattle.std.specs.Prelude.{◌≡◌};
ghost use Rattle.mm_base.specs.declared.fault.FilesFault.TheVariants.{Memory};

use std::alloc::{AllocError, AllocFailed};
use thiserror::Error;

/// The outside has failed.
#[derive(Clone, Copy, Debug, PartialEq, Eq, Error)]
#[error("the outside has failed")]
pub struct Failed;

/// A sink has failed when it had taken the first bytes of a piece, but not all.
#[derive(Clone, Copy, Debug, PartialEq, Eq, Error)]
#[error("the sink has failed after {taken} bytes")]
pub struct ShortWrite {
    /// How many bytes of the piece it has taken.
    pub taken: usize,
}

impl From<ShortWrite> for Failed {
    fn from(_: ShortWrite) -> Self {
        Failed
    }
}

/// Why a call of the files gave no answer.
#[derive(Clone, Copy, Debug, PartialEq, Eq, Error)]
pub enum FilesFault {
    /// The files have failed.
    #[error("the files have failed")]
    Failed,
    /// There is no memory for the answer.
    #[error("out of memory")]
    Memory,
}

impl From<AllocError> for FilesFault {
    ghost from_gives = { λ _ e. e ≡ Memory };

    fn from(_: AllocError) -> Self {
        FilesFault::Memory
    }
}

impl<T: Drop> From<AllocFailed<T>> for FilesFault {
    ghost from_gives = { λ _ e. e ≡ Memory };

    fn from(_: AllocFailed<T>) -> Self {
        FilesFault::Memory
    }
}
