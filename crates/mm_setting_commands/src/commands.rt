ghost use Rattle.std.specs.Prelude.{◌≡◌};
ghost use Rattle.mm_command.specs.Meanings.{meaning_of};
ghost use Rattle.mm_shell.specs.Answers.{Answers};
ghost use Rattle.mm_setting_commands.specs.Commands.{setting_answer};

use crate::close_log::close_log;
use crate::open_log::open_log;
use crate::set_brackets::set_brackets;
use crate::set_empty::set_empty;
use crate::set_trials::set_trials;
use crate::set_undo::set_undo;
use mm_command::Command;
use mm_shell::{Done, Refusal, State};
use std::alloc::Global;

/// The answer to a command on settings and logs: one arm for each. It changes nothing. SET UNDO alone takes memory.
#[tactic(auto, unfolding(crate::specs::Commands::setting_answer))]
pub fn answer<'a>(
    alloc: Global,
    state: &'a State,
    command: Command<'a>,
) -> Result<Done<'a>, Refusal<'a>>
    ensures { Answers (setting_answer (meaning_of command.entry) state.now) result }
{
    match command {
        Command::SetUndo { n } => set_undo(alloc, n),
        Command::SetTrials { n } => Ok(set_trials(n)),
        Command::SetBrackets { on } => Ok(set_brackets(on)),
        Command::SetEmpty { on } => set_empty(on),
        Command::OpenLog { .. } => open_log(state),
        Command::CloseLog => close_log(state),
        _ => Err(Refusal::NotBuilt),
    }
}
