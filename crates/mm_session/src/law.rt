ghost use Rattle.std.specs.Prelude.{◌≡◌, List, ℕ, take};
ghost use Rattle.mm_lines.specs.Limits.{most_kept};
ghost use Rattle.mm_step.specs.Asked.{asked_of};
ghost use Rattle.mm_session.specs.Session.{shown};
ghost use Rattle.mm_session.specs.Laws.{SaysAccepted, AcceptedIsSaid, RefusedChangesNothing, SessionIsSound, ReadIsWhole};
ghost use Rattle.mm_session.specs.Saves.{DatabasesAreFromFiles, OnlySavesChange, PutsTheDatabase, SavedTheoremsHold, WrittenTheoremsHold};
ghost use Rattle.mm_session.specs.Undos.{EditsAreUndone, RedosAreAccepted, RedosLeadForward, UndosAreAccepted, UndosLeadBack};

/// Of a line that is too long, as much as a line reader keeps of it is as good as all of it.
pub fn kept_is_enough()
    ensures meaning { (line : List ℕ) → asked_of (take most_kept line) ≡ asked_of line }
    ensures echo { (line : List ℕ) → shown (take most_kept line) ≡ shown line }
{}

/// A command says that a proof is accepted exactly where the database that was read accepts it.
pub fn accepted_is_proved()
    ensures accepted { SaysAccepted }
    ensures said { AcceptedIsSaid }
{}

/// After any number of commands the database was read without a fault, and a proof in hand is valid for its theorem: each
/// known step is an instance of the statement that it names.
pub fn proofs_in_hand_are_valid()
    ensures { SessionIsSound }
{}

/// A command that is refused, that finds no memory or whose call on the files fails leaves the database, the proof in hand
/// and all else of the state as they were, and puts nothing into the files.
pub fn refused_commands_change_nothing()
    ensures { RefusedChangesNothing }
{}

/// What is read is the whole of a file that has no fault.
pub fn read_is_whole()
    ensures { ReadIsWhole }
{}

/// A theorem whose last save was complete is accepted in the database after any number of commands, and in every file
/// written since.
pub fn saved_theorems_are_accepted()
    ensures database { SavedTheoremsHold }
    ensures written { WrittenTheoremsHold }
{}

/// A database is what it was, with the proofs saved since in their places and nothing else: the bytes of the file that was
/// read, with all that were saved. And what is written is the database.
pub fn only_saves_change_a_database()
    ensures change { OnlySavesChange }
    ensures origin { DatabasesAreFromFiles }
    ensures put { PutsTheDatabase }
{}

/// As many UNDOs as edits were accepted since a proof was in hand give that proof again, where SET UNDO keeps so many,
/// whatever else was asked between. UNDO is accepted where there is a past, and REDO where there is a future: they take no
/// memory. Each leads one proof back or forward.
pub fn edits_are_undone()
    ensures undone { EditsAreUndone }
    ensures back { UndosLeadBack }
    ensures forward { RedosLeadForward }
    ensures undo_accepted { UndosAreAccepted }
    ensures redo_accepted { RedosAreAccepted }
{}
