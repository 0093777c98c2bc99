//! What holds of each answer that fits a state, whatever command gave it.

ghost use Rattle.mm_shell.specs.Fitting.{EndsSilently, FittingStaysSound, LoadsTheOrigin, ReportsHold, OnlySavesChange, RefusedStays, SavedTheoremsHold, SavesCanBeMade};

/// A sound state stays sound: the database is one that is read, and the open proof is a valid proof of a theorem of it, as
/// is each proof that it was and each that was undone. A refused command changes nothing, and one that ends the session has no text.
/// What is reported of a proof is what comes of it.
pub fn fitting_answers_keep_states_sound()
    ensures sound { FittingStaysSound }
    ensures refused { RefusedStays }
    ensures ends { EndsSilently }
    ensures reports { ReportsHold }
{}

/// A database changes by saves alone, and comes from where the command has it. A theorem whose last save was complete is
/// accepted.
pub fn fitting_saves_keep_theorems()
    ensures change { OnlySavesChange }
    ensures come { LoadsTheOrigin }
    ensures saved { SavedTheoremsHold }
    ensures made { SavesCanBeMade }
{}
