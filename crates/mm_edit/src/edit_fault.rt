//! Why a proof is not edited.

ghost use Rattle.std.specs.Prelude.{◌≡◌};
ghost use Rattle.mm_edit.specs.Edited.{edit_fault_of, graft_fault_of, improve_fault_of, replace_fault_of};
ghost use Rattle.mm_edit.specs.declared.edit_fault.EditFault.TheVariants.{Memory, WorkSpent};

use mm_improve::ImproveFault;
use mm_tree::{BindFault, GraftFault, ReplaceFault, WorkSpent};
use std::alloc::AllocError;
use thiserror::Error;

/// Why a proof is not edited.
#[derive(Clone, Copy, Debug, PartialEq, Eq, Error)]
pub enum EditFault {
    /// The statement is an assertion that is not earlier than the theorem.
    #[error("the statement is not earlier than the theorem")]
    NotEarlier,
    /// The statement is a hypothesis that is not active at the theorem.
    #[error("the hypothesis is not active at the theorem")]
    HypothesisNotActive,
    /// No step has the number.
    #[error("no such step")]
    NoSuchStep,
    /// The step names a statement.
    #[error("the step is known")]
    StepKnown,
    /// The step names no statement.
    #[error("the step is unknown")]
    StepUnknown,
    /// The step has work variables.
    #[error("the step has work variables")]
    HasWork,
    /// The step's target is its source.
    #[error("the step is not pending")]
    NotPending,
    /// The value of a work variable holds this work variable.
    #[error("the work variable occurs in its own value")]
    OccursInValue,
    /// The edit would change nothing.
    #[error("nothing changed")]
    NothingChanged,
    /// The proof would have more than 1,000,000 steps.
    #[error("too many steps")]
    TooManySteps,
    /// The proof would have more than 2,000 levels.
    #[error("too deep")]
    TooDeep,
    /// A work variable with a number above 4,000,000,000 would be drawn.
    #[error("work variables are spent")]
    WorkSpent,
    /// The two strings have no unifier.
    #[error("no unifier")]
    NoUnifier,
    /// The search for unifiers ended with the trials.
    #[error("the trials are spent")]
    TrialsSpent,
    /// The search for unifiers ended at a value of more than 32,768 symbols.
    #[error("a value of a unifier is too long")]
    LengthSpent,
    /// The two strings have so many unifiers.
    #[error("{0} unifiers")]
    Ambiguous(u32),
    /// So many unifiers were found, which are fewer than the number of the one that was chosen.
    #[error("{0} unifiers, and none with the number")]
    NoSuchChoice(u32),
    /// A string of the step with this number would have more than 32,768 symbols.
    #[error("a string of step {0} is too long")]
    TooLong(u32),
    /// Memory ran out.
    #[error("out of memory")]
    Memory,
}

impl From<AllocError> for EditFault {
    ghost from_gives = { λ _ e. e ≡ Memory };

    fn from(_e: AllocError) -> EditFault {
        EditFault::Memory
    }
}

impl From<BindFault> for EditFault {
    ghost from_gives = { λ b e. e ≡ edit_fault_of b };

    fn from(fault: BindFault) -> EditFault {
        match fault {
            BindFault::TooLong(step) => EditFault::TooLong(step),
            BindFault::Memory => EditFault::Memory,
        }
    }
}

impl From<GraftFault> for EditFault {
    ghost from_gives = { λ g e. e ≡ graft_fault_of g };

    fn from(fault: GraftFault) -> EditFault {
        match fault {
            GraftFault::TooManySteps => EditFault::TooManySteps,
            GraftFault::TooDeep => EditFault::TooDeep,
            GraftFault::Memory => EditFault::Memory,
        }
    }
}

impl From<ReplaceFault> for EditFault {
    ghost from_gives = { λ r e. e ≡ replace_fault_of r };

    fn from(fault: ReplaceFault) -> EditFault {
        match fault {
            ReplaceFault::TooLong(step) => EditFault::TooLong(step),
            ReplaceFault::TooManySteps => EditFault::TooManySteps,
            ReplaceFault::TooDeep => EditFault::TooDeep,
            ReplaceFault::Memory => EditFault::Memory,
        }
    }
}

impl From<ImproveFault> for EditFault {
    ghost from_gives = { λ i e. e ≡ improve_fault_of i };

    fn from(fault: ImproveFault) -> EditFault {
        match fault {
            ImproveFault::TooManySteps => EditFault::TooManySteps,
            ImproveFault::TooDeep => EditFault::TooDeep,
            ImproveFault::Memory => EditFault::Memory,
        }
    }
}

impl From<WorkSpent> for EditFault {
    ghost from_gives = { λ _ e. e ≡ WorkSpent };

    fn from(_e: WorkSpent) -> EditFault {
        EditFault::WorkSpent
    }
}
