ghost use Rattle.std.specs.Prelude.{◌≡◌};
ghost use Rattle.mm_shell.specs.Changes.{new_state};

use crate::open_proof::OpenProof;
use mm_scope::Database;
use mm_unify::{Rule, Settings};

/// How many trials a search for unifiers has until SET UNIFICATION_TIMEOUT.
pub const FIRST_TRIALS: u32 = 100_000;

/// Whether unifiers must keep brackets in pairs until SET BRACKETS.
pub const FIRST_BRACKETS: bool = true;

/// How many versions a history keeps until SET UNDO.
pub const FIRST_UNDO_DEPTH: u32 = 20;

/// What a session keeps from command to command.
#[derive(Drop)]
pub struct State {
    /// The database, if one was read.
    pub database: Option<Database>,
    /// The open proof, if there is one.
    pub open_proof: Option<OpenProof>,
    /// How unifiers are searched for.
    pub settings: Settings,
    /// How many versions the history of a proof keeps.
    pub undo_depth: u32,
    /// Whether the database was changed after WRITE SOURCE put it into a file last.
    pub unwritten: bool,
    /// Whether a log is open.
    pub log_open: bool,
    /// Whether EXIT has ended the session.
    pub ended: bool,
}

impl State {
    /// The state in which a session begins: without a database, without an open proof and
    /// without a log.
    pub fn new() -> State
        ensures { result ≡ new_state }
    {
        State {
            database: None,
            open_proof: None,
            settings: Settings {
                rule: Rule {
                    brackets: FIRST_BRACKETS,
                },
                trials: FIRST_TRIALS,
            },
            undo_depth: FIRST_UNDO_DEPTH,
            unwritten: false,
            log_open: false,
            ended: false,
        }
    }
}
