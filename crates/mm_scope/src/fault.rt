//! Why a database is not read.

ghost use Rattle.std.specs.Prelude.{◌≡◌};
ghost use Rattle.mm_scope.specs.Faults.{number_of, place_of};
ghost use Rattle.mm_scope.specs.declared.fault.ReadFault.TheVariants.{Memory};

use std::alloc::{AllocError, AllocFailed};
use thiserror::Error;

/// The first fault of a database, with its place in bytes, counted from 0 (Metamath book, section 4.1).
#[derive(Clone, Copy, Debug, PartialEq, Eq, Error)]
pub enum ReadFault {
    /// Database fault 1: a byte that is neither printable ASCII nor white space.
    #[error("bad byte at {0}")]
    BadByte(u64),
    /// Database fault 2: the `$(` of a comment that is not ended.
    #[error("comment open at {0}")]
    CommentOpen(u64),
    /// Database fault 4: a token that begins with `$` and is no keyword.
    #[error("unknown keyword at {0}")]
    UnknownKeyword(u64),
    /// Database fault 5: `$[` or `$]`; files are not included.
    #[error("file inclusion at {0}")]
    FileInclusion(u64),
    /// Database fault 6: a label with a byte other than letters, digits, `-`, `_` and `.`.
    #[error("bad label at {0}")]
    BadLabel(u64),
    /// Database fault 7: a symbol that holds `$` after its first byte.
    #[error("bad symbol at {0}")]
    BadSymbol(u64),
    /// Database fault 8: a symbol that may not be declared again, or is a label.
    #[error("redeclared at {0}")]
    Redeclared(u64),
    /// Database fault 9: a token that is no active symbol.
    #[error("not active at {0}")]
    NotActive(u64),
    /// Database fault 10: a `$c` in a block.
    #[error("constant in block at {0}")]
    ConstantInBlock(u64),
    /// Database fault 11: a label that is used, or is a symbol.
    #[error("label used at {0}")]
    LabelUsed(u64),
    /// Database fault 12: a `$f`, `$e`, `$a` or `$p` without a label.
    #[error("label missing at {0}")]
    LabelMissing(u64),
    /// Database fault 13: a keyword that takes no label, directly after one.
    #[error("label not wanted at {0}")]
    LabelNotWanted(u64),
    /// Database fault 14: any other token that does not fit.
    #[error("wrong form at {0}")]
    WrongForm(u64),
    /// Database fault 15: a second active `$f` of a variable.
    #[error("float repeated at {0}")]
    FloatRepeated(u64),
    /// Database fault 16: a variable without an active `$f`.
    #[error("no float at {0}")]
    NoFloat(u64),
    /// Database fault 17: a `$d` of fewer than two variables, of a repeated one, or of a constant.
    #[error("distinct form at {0}")]
    DistinctForm(u64),
    /// Database fault 18: a `$}` with no open block.
    #[error("block not open at {0}")]
    BlockNotOpen(u64),
    /// Database fault 19: the last `${` that is open at the end.
    #[error("block open at {0}")]
    BlockOpen(u64),
    /// Database fault 20: a statement without its end.
    #[error("not closed at {0}")]
    NotClosed(u64),
    /// Database fault 21: a file, a statement or a label that is too long.
    #[error("too long at {0}")]
    TooLong(u64),
    /// Want of memory.
    #[error("out of memory")]
    Memory,
}

impl ReadFault {
    /// The number of the database fault; 0 for want of memory, which is no fault of a database.
    pub fn number(&self) -> u8
        ensures { result ≡ number_of self.now }
    {
        match *self {
            ReadFault::BadByte(_) => 1,
            ReadFault::CommentOpen(_) => 2,
            ReadFault::UnknownKeyword(_) => 4,
            ReadFault::FileInclusion(_) => 5,
            ReadFault::BadLabel(_) => 6,
            ReadFault::BadSymbol(_) => 7,
            ReadFault::Redeclared(_) => 8,
            ReadFault::NotActive(_) => 9,
            ReadFault::ConstantInBlock(_) => 10,
            ReadFault::LabelUsed(_) => 11,
            ReadFault::LabelMissing(_) => 12,
            ReadFault::LabelNotWanted(_) => 13,
            ReadFault::WrongForm(_) => 14,
            ReadFault::FloatRepeated(_) => 15,
            ReadFault::NoFloat(_) => 16,
            ReadFault::DistinctForm(_) => 17,
            ReadFault::BlockNotOpen(_) => 18,
            ReadFault::BlockOpen(_) => 19,
            ReadFault::NotClosed(_) => 20,
            ReadFault::TooLong(_) => 21,
            ReadFault::Memory => 0,
        }
    }

    /// Its place in the database, in bytes, counted from 0; 0 for want of memory.
    pub fn place(&self) -> u64
        ensures { result ≡ place_of self.now }
    {
        match *self {
            ReadFault::BadByte(place)
            | ReadFault::CommentOpen(place)
            | ReadFault::UnknownKeyword(place)
            | ReadFault::FileInclusion(place)
            | ReadFault::BadLabel(place)
            | ReadFault::BadSymbol(place)
            | ReadFault::Redeclared(place)
            | ReadFault::NotActive(place)
            | ReadFault::ConstantInBlock(place)
            | ReadFault::LabelUsed(place)
            | ReadFault::LabelMissing(place)
            | ReadFault::LabelNotWanted(place)
            | ReadFault::WrongForm(place)
            | ReadFault::FloatRepeated(place)
            | ReadFault::NoFloat(place)
            | ReadFault::DistinctForm(place)
            | ReadFault::BlockNotOpen(place)
            | ReadFault::BlockOpen(place)
            | ReadFault::NotClosed(place)
            | ReadFault::TooLong(place) => place,
            ReadFault::Memory => 0,
        }
    }
}

impl From<AllocError> for ReadFault {
    ghost from_gives = { λ _ e. e ≡ Memory };

    fn from(_e: AllocError) -> ReadFault {
        ReadFault::Memory
    }
}

impl<T: Drop> From<AllocFailed<T>> for ReadFault {
    ghost from_gives = { λ _ e. e ≡ Memory };

    fn from(_e: AllocFailed<T>) -> ReadFault {
        ReadFault::Memory
    }
}
