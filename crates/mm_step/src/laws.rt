//! What holds of every line, however it ends.

ghost use Rattle.mm_step.specs.Histories.{HistoriesBegin, HistoriesMove, RedosAreAccepted, RedosAreFree, RedosLeadForward, UndosAreAccepted, UndosAreFree, UndosLeadBack};
ghost use Rattle.mm_step.specs.Laws.{DatabasesComeByReading, EndsSilently, LogsChange, OnlySavesChange, PutsTheDatabase, RefusedChangesNothing, ReportsHold, SavesCanBeMade, SavedTheoremsHold, StaysSound};

/// The database is always one that is read, and the open proof is a valid proof of a theorem of it, as is each proof that it
/// was and each that was undone.
pub fn states_stay_sound()
    ensures { StaysSound }
{}

/// A line that is refused, starved or met by a file fault changes nothing and puts nothing into the files.
pub fn refused_lines_change_nothing()
    ensures { RefusedChangesNothing }
{}

/// A line that ends the session has no text.
pub fn ends_are_silent()
    ensures { EndsSilently }
{}

/// A log is opened by OPEN LOG alone, and closed by CLOSE LOG alone, where they aren't refused; with every other line it stays.
pub fn logs_change_by_their_commands()
    ensures { LogsChange }
{}

/// What VERIFY PROOF tells of a proof is what comes of it in the database.
pub fn reports_are_true()
    ensures { ReportsHold }
{}

/// A database comes by READ alone.
pub fn databases_come_by_reading()
    ensures { DatabasesComeByReading }
{}

/// A database changes by saves alone, and a theorem whose last save was complete is accepted in it. What WRITE SOURCE puts
/// into the files is the database.
pub fn saved_theorems_hold()
    ensures change { OnlySavesChange }
    ensures saved { SavedTheoremsHold }
    ensures made { SavesCanBeMade }
    ensures put { PutsTheDatabase }
{}

/// An accepted edit appends the old proof to the past, drops the oldest beyond the depth and empties the future. UNDO puts the
/// last of the past in hand, and the proof that was in hand to the front of the future; REDO does the reverse. SET UNDO n keeps
/// the newest n of the past and empties the future. No other command changes the history of a proof that stays open, and
/// PROVE begins with an empty one. UNDO and REDO are accepted where there is a past, and a future; they take no memory, and
/// the proof stays open.
pub fn histories_move()
    ensures moved { HistoriesMove }
    ensures begun { HistoriesBegin }
    ensures undone { UndosAreAccepted }
    ensures redone { RedosAreAccepted }
    ensures undone_free { UndosAreFree }
    ensures redone_free { RedosAreFree }
    ensures back { UndosLeadBack }
    ensures forward { RedosLeadForward }
{}
