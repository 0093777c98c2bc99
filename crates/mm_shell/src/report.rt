use crate::checks::Checks;
use crate::statements::Statements;
use crate::word::{DatabaseRef, ProofRef, Word};

/// What a command that isn't refused reports.
#[derive(Drop)]
pub enum Report<'a> {
    Nothing,
    /// A database was read: how many labelled statements, axioms and theorems it has.
    Loaded(u32, u32, u32),
    /// What became of the proofs of theorems of the database.
    Verified(DatabaseRef<'a>, Checks),
    /// Statements of the database.
    Listed(DatabaseRef<'a>, Statements),
    /// The steps of a proof; where this is so, the unknown ones alone.
    Steps(ProofRef<'a>, bool),
    /// The database was written into the file of this name.
    Wrote(Word<'a>),
    LogOpened,
    LogClosed,
    /// How many steps the open proof has, and how many of them are unknown and pending.
    Counts(u32, u32, u32),
    Undone,
    Redone,
    /// How many versions a history keeps.
    UndoDepth(u32),
    /// How many trials a search for unifiers has.
    Trials(u32),
    /// Whether unifiers must keep brackets in pairs.
    Brackets(bool),
    /// Work variables stand for no empty string.
    NoEmptyStrings,
    /// The proof of the theorem with this label was saved: whether some step is unknown, and how many steps there are.
    Saved(Word<'a>, bool, u32),
}
