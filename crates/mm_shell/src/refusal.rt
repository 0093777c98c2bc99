ghost use Rattle.std.specs.Prelude.{◌≡◌};
ghost use Rattle.mm_shell.specs.declared.refusal.Refusal.TheVariants.{OutOfMemory};

use crate::choices::Choices;
use crate::word::Word;
use mm_command::LineFault;
use mm_scope::ReadFault;
use std::alloc::{AllocError, AllocFailed};

/// Why a command is refused. Its number and its words stand in one table, `refusal_text`.
#[derive(Drop)]
pub enum Refusal<'a> {
    /// A word of the line doesn't fit.
    WrongWord(LineFault),
    LineTooLong,
    NoDatabase,
    AlreadyRead,
    /// There is no file of this name.
    NoFile(Word<'a>),
    /// The file has this fault.
    BadDatabase(ReadFault),
    /// There is no statement with this label.
    NoStatement(Word<'a>),
    NotTheorem(Word<'a>),
    /// The statement with this label is guarded.
    Guarded(Word<'a>),
    ProofOpen,
    NoProofOpen,
    /// The proof of the theorem with this label has no tree.
    NoTree(Word<'a>),
    TooManySteps,
    TooDeep,
    NoStep,
    /// The step with this number is known.
    StepKnown(u32),
    /// The step with this number is unknown.
    StepUnknown(u32),
    NotEarlier(Word<'a>),
    NotActive(Word<'a>),
    /// The two strings of the step with this number have no unifier.
    NoUnifier(u32),
    TooLong,
    /// A search for unifiers spent its trials; the choices that it found are told first.
    TrialsSpent(Choices),
    /// A search for unifiers came to a value that is too long; the choices that it found are told first.
    LengthSpent(Choices),
    /// The step with this number has so many unifiers, which are the choices that are told first.
    SeveralUnifiers(Choices, u32, u32),
    /// The step with this number is not pending.
    NotPending(u32),
    /// For the step with this number there are so many choices, and none with the number that was asked for.
    NoChoice(u32, u32),
    /// The word of a text with this number, counted from 1, is no symbol.
    BadSymbol(u64),
    /// The work variable with this number occurs in its own value.
    OccursInValue(u32),
    NothingChanged,
    /// The step with this number has work variables.
    HasWork(u32),
    NotComplete,
    /// The step with this number is pending.
    NotUnified(u32),
    /// The step with this number needs two variables that are distinct.
    NotDistinct(u32, Word<'a>, Word<'a>),
    NothingToUndo,
    NothingToRedo,
    ProofNotSaved,
    NotWritten,
    NoLog,
    FileFault,
    OutOfMemory,
    WorkSpent,
    LogKept,
    NotBuilt,
}

impl<'a> From<AllocError> for Refusal<'a> {
    ghost from_gives = { λ _ r. r ≡ OutOfMemory };

    fn from(_e: AllocError) -> Refusal<'a> {
        Refusal::OutOfMemory
    }
}

impl<'a, T: Drop> From<AllocFailed<T>> for Refusal<'a> {
    ghost from_gives = { λ _ r. r ≡ OutOfMemory };

    fn from(_e: AllocFailed<T>) -> Refusal<'a> {
        Refusal::OutOfMemory
    }
}
