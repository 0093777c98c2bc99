//! What comes of a proof.

use mm_proof::ProofFault;
use mm_scope::Sym;

/// Why a proof does not prove its theorem. Steps are counted from 1.
#[derive(Clone, Copy, Debug, PartialEq, Eq)]
pub enum StackFault {
    /// The text spells no steps.
    Proof(ProofFault),
    /// The step wants more entries than there are.
    Underflow(u64),
    /// An entry has another typecode than the `$f` hypothesis that it stands for.
    FloatMismatch(u64),
    /// An entry differs from the instance of the `$e` hypothesis that it stands for.
    EssentialMismatch(u64),
    /// The step needs two variables to differ, and they are this one.
    SameVariable(u64, Sym),
    /// The step needs these two variables to differ, and no active `$d` of the theorem says so.
    MissingDistinct(u64, Sym, Sym),
    /// At the end there are this many entries, and not one.
    LeftOver(u64),
    /// The one entry at the end is another statement than the theorem.
    WrongResult,
    /// The step's instance has over 32,768 symbols.
    TooLong(u64),
}

/// What comes of a proof.
#[derive(Clone, Copy, Debug, PartialEq, Eq)]
pub enum Verdict {
    /// It proves its theorem.
    Accepted,
    /// It has a step `?`, and no fault before it.
    Incomplete,
    /// Its first fault.
    Faulty(StackFault),
}
