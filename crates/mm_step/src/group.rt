ghost use Rattle.std.specs.Prelude.{◌≡◌};
ghost use Rattle.mm_command.specs.Meanings.{meaning_of};
ghost use Rattle.mm_step.specs.Groups.{group_of};

use mm_command::Command;

/// The groups of commands; one function runs each.
#[derive(Clone, Copy, Debug, PartialEq, Eq)]
pub enum Group {
    /// The database, what is shown of it, and its file.
    Database,
    /// Settings and logs.
    Settings,
    /// Edits of the proof in hand.
    Edits,
    /// The proof in hand as a whole, its history, and the session.
    Session,
}

/// The group of a command.
pub fn group_of(command: Command<'_>) -> Group
    ensures { result ≡ group_of (meaning_of command.entry) }
{
    match command {
        Command::Read { .. }
        | Command::VerifyProof { .. }
        | Command::VerifyMarkup { .. }
        | Command::ShowStatement { .. }
        | Command::ShowPage { .. }
        | Command::ShowTraceBack { .. }
        | Command::ShowUsage { .. }
        | Command::WriteSource { .. } => Group::Database,
        Command::SetUndo { .. }
        | Command::SetTrials { .. }
        | Command::SetBrackets { .. }
        | Command::SetEmpty { .. }
        | Command::OpenLog { .. }
        | Command::CloseLog => Group::Settings,
        Command::Assign { .. }
        | Command::Replace { .. }
        | Command::LetVariable { .. }
        | Command::LetStep { .. }
        | Command::UnifyStep { .. }
        | Command::UnifyAll
        | Command::InitializeStep { .. }
        | Command::InitializeAll
        | Command::DeleteStep { .. }
        | Command::DeleteAll
        | Command::DeleteFloats
        | Command::Improve { .. }
        | Command::ImproveAll { .. }
        | Command::Minimize { .. } => Group::Edits,
        Command::Nothing
        | Command::ShowNewProof { .. }
        | Command::Prove { .. }
        | Command::Demo { .. }
        | Command::Undo
        | Command::Redo
        | Command::Save { .. }
        | Command::Exit { .. } => Group::Session,
    }
}
