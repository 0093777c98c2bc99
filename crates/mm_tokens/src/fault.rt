//! What is wrong with a list of bytes that has no tokens.

ghost use Rattle.std.specs.Prelude.{◌≡◌};
ghost use Rattle.mm_tokens.specs.declared.fault.TokenFault.TheVariants.{Memory};

use std::alloc::AllocFailed;
use thiserror::Error;

/// Why a list of bytes has no token list.
#[derive(Clone, Copy, Debug, PartialEq, Eq, Error)]
pub enum TokenFault {
    /// The byte at this place, counted from 0, is neither 33 to 126 nor white space. In comments too.
    #[error("a byte that no database may have at byte {0}")]
    BadByte(u64),
    /// The comment whose `$(` stands at this place, counted from 0, is not ended.
    #[error("a comment that is not ended at byte {0}")]
    CommentOpen(u64),
    /// There was not enough memory.
    #[error("out of memory")]
    Memory,
}

impl<T: Drop> From<AllocFailed<T>> for TokenFault {
    ghost from_gives = { λ _ fault. fault ≡ Memory };

    fn from(_failed: AllocFailed<T>) -> TokenFault {
        TokenFault::Memory
    }
}
