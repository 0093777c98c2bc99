//! Why a string is not made.

ghost use Rattle.std.specs.Prelude.{◌≡◌};
ghost use Rattle.mm_subst.specs.declared.fault.TooLongOrMemory.TheVariants.{Memory};
ghost use Rattle.mm_subst.specs.declared.fault.ParseFault.TheVariants.{Memory as no_memory};

use std::alloc::{AllocError, AllocFailed};
use thiserror::Error;

/// Why a substitution is not applied to a string.
#[derive(Clone, Copy, Debug, PartialEq, Eq, Error)]
pub enum TooLongOrMemory {
    /// The result has more than 32,768 symbols.
    #[error("too many symbols")]
    TooLong,
    /// Memory ran out.
    #[error("out of memory")]
    Memory,
}

impl From<AllocError> for TooLongOrMemory {
    ghost from_gives = { λ _ e. e ≡ Memory };

    fn from(_e: AllocError) -> TooLongOrMemory {
        TooLongOrMemory::Memory
    }
}

/// Why a text is no string; the faults are tried in this order.
#[derive(Clone, Copy, Debug, PartialEq, Eq, Error)]
pub enum ParseFault {
    /// A token, counted from 1, that is neither an active symbol nor a work variable in use.
    #[error("no symbol in token {0}")]
    BadSymbol(u64),
    /// There is no token.
    #[error("no symbol")]
    Empty,
    /// There are more than 32,768 tokens.
    #[error("too many symbols")]
    TooLong,
    /// Memory ran out.
    #[error("out of memory")]
    Memory,
}

impl From<AllocError> for ParseFault {
    ghost from_gives = { λ _ e. e ≡ no_memory };

    fn from(_e: AllocError) -> ParseFault {
        ParseFault::Memory
    }
}

impl<T: Drop> From<AllocFailed<T>> for ParseFault {
    ghost from_gives = { λ _ e. e ≡ no_memory };

    fn from(_e: AllocFailed<T>) -> ParseFault {
        ParseFault::Memory
    }
}
