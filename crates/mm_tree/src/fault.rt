//! Why a tree does not grow.

ghost use Rattle.std.specs.Prelude.{◌≡◌};
ghost use Rattle.mm_tree.specs.declared.fault.BindFault.TheVariants as b;
ghost use Rattle.mm_tree.specs.declared.fault.GraftFault.TheVariants.{Memory};
ghost use Rattle.mm_tree.specs.declared.fault.ReplaceFault.TheVariants as r;

use std::alloc::AllocError;
use thiserror::Error;

/// Why a tree does not grow.
#[derive(Clone, Copy, Debug, PartialEq, Eq, Error)]
pub enum GraftFault {
    /// The result would have more than 1,000,000 steps.
    #[error("too many steps")]
    TooManySteps,
    /// The result would have more than 2,000 levels.
    #[error("too deep")]
    TooDeep,
    /// Memory ran out.
    #[error("out of memory")]
    Memory,
}

impl From<AllocError> for GraftFault {
    ghost from_gives = { λ _ e. e ≡ Memory };

    fn from(_e: AllocError) -> GraftFault {
        GraftFault::Memory
    }
}

/// Why no substitution is applied to a tree.
#[derive(Clone, Copy, Debug, PartialEq, Eq, Error)]
pub enum BindFault {
    /// The string, the source or a value of this step, the first such, would have more than 32,768 symbols.
    #[error("too many symbols")]
    TooLong(u32),
    /// Memory ran out.
    #[error("out of memory")]
    Memory,
}

impl From<AllocError> for BindFault {
    ghost from_gives = { λ _ e. e ≡ b.Memory };

    fn from(_e: AllocError) -> BindFault {
        BindFault::Memory
    }
}

/// Why a step does not name another statement.
#[derive(Clone, Copy, Debug, PartialEq, Eq, Error)]
pub enum ReplaceFault {
    /// A string of this step would have more than 32,768 symbols.
    #[error("too many symbols")]
    TooLong(u32),
    /// The result would have more than 1,000,000 steps.
    #[error("too many steps")]
    TooManySteps,
    /// The result would have more than 2,000 levels.
    #[error("too deep")]
    TooDeep,
    /// Memory ran out.
    #[error("out of memory")]
    Memory,
}

impl From<AllocError> for ReplaceFault {
    ghost from_gives = { λ _ e. e ≡ r.Memory };

    fn from(_e: AllocError) -> ReplaceFault {
        ReplaceFault::Memory
    }
}

/// A work variable with a number above 4,000,000,000 would be drawn.
#[derive(Clone, Copy, Debug, PartialEq, Eq, Error)]
#[error("no work variable is left")]
pub struct WorkSpent;
