ghost use Rattle.std.specs.Prelude.{◌≡◌};
ghost use Rattle.mm_shell.specs.Answers.{Answers};
ghost use Rattle.mm_setting_commands.specs.Commands.{open_log};

use mm_shell::{Change, Done, Refusal, Report, State};

/// Opens a log, where none is kept.
#[tactic(auto, unfolding(mm_shell::specs::Answers::unless))]
pub fn open_log<'a>(state: &'a State) -> Result<Done<'a>, Refusal<'a>>
    ensures { Answers (open_log state.now) result }
{
    if state.log_open {
        return Err(Refusal::LogKept);
    }
    Ok(Done {
        report: Report::LogOpened,
        change: Change::OpensLog,
    })
}
