ghost use Rattle.std.specs.Prelude.{◌≡◌, Ok};
ghost use Rattle.mm_setting_commands.specs.Commands.{set_trials};

use mm_shell::{Change, Done, Report};

/// Sets how many trials a search for unifiers has.
pub fn set_trials<'a>(n: u32) -> Done<'a>
    ensures { Ok result ≡ set_trials n }
{
    Done {
        report: Report::Trials(n),
        change: Change::SetsTrials(n),
    }
}
