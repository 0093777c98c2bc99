ghost use Rattle.std.specs.Prelude.{◌≡◌};
ghost use Rattle.mm_shell.specs.Answers.{Answers};
ghost use Rattle.mm_setting_commands.specs.Commands.{set_empty};

use mm_shell::{Change, Done, Refusal, Report};

/// Lets work variables stand for no empty string, as they always do.
#[tactic(auto, unfolding(mm_shell::specs::Answers::unless))]
pub fn set_empty<'a>(on: bool) -> Result<Done<'a>, Refusal<'a>>
    ensures { Answers (set_empty on) result }
{
    if on {
        return Err(Refusal::NotBuilt);
    }
    Ok(Done {
        report: Report::NoEmptyStrings,
        change: Change::Stays,
    })
}
