ghost use Rattle.std.specs.Prelude.{◌≡◌};
ghost use Rattle.mm_shell.specs.Answers.{Answers};
ghost use Rattle.mm_setting_commands.specs.Commands.{close_log};

use mm_shell::{Change, Done, Refusal, Report, State};

/// Closes the log, where one is kept.
#[tactic(auto, unfolding(mm_shell::specs::Answers::unless))]
pub fn close_log<'a>(state: &'a State) -> Result<Done<'a>, Refusal<'a>>
    ensures { Answers (close_log state.now) result }
{
    if !state.log_open {
        return Err(Refusal::NoLog);
    }
    Ok(Done {
        report: Report::LogClosed,
        change: Change::ClosesLog,
    })
}
