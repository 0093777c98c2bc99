//! What commands do, as data.

use crate::open_proof::OpenProof;
use crate::report::Report;
use mm_scope::{Database, StmtId};
use mm_undo::Rings;

/// A save: the database with the proof in it, the theorem whose proof it is, and whether each of its steps is known.
#[derive(Drop)]
pub struct Saving {
    pub database: Database,
    pub theorem: StmtId,
    pub complete: bool,
}

/// What a command changes in the state.
#[derive(Drop)]
pub enum Change {
    Stays,
    /// This is the database.
    Loads(Database),
    /// This is the open proof: one that begins, or the open one after an edit.
    Opens(OpenProof),
    /// The open proof is saved.
    Saves(Saving),
    /// The open proof goes back to what it was before the last edit.
    Undoes,
    /// The open proof goes forward to what was undone last.
    Redoes,
    /// Histories keep as many versions as these rings hold, and that of the open proof moves into them.
    SetsUndo(Rings),
    /// Searches for unifiers have so many trials.
    SetsTrials(u32),
    /// Whether unifiers must keep brackets in pairs.
    SetsBrackets(bool),
    /// The database is written.
    Writes,
    /// The open proof is left.
    Leaves,
    /// A log is opened. Its name stands in the line.
    OpensLog,
    /// The log is closed.
    ClosesLog,
    /// The session ends.
    Ends,
}

/// What a command does: what it reports, and what it changes.
#[derive(Drop)]
pub struct Done<'a> {
    pub report: Report<'a>,
    pub change: Change,
}
