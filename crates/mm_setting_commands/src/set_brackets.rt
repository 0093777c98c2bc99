ghost use Rattle.std.specs.Prelude.{◌≡◌, Ok};
ghost use Rattle.mm_setting_commands.specs.Commands.{set_brackets};

use mm_shell::{Change, Done, Report};

/// Sets whether unifiers must keep brackets in pairs.
pub fn set_brackets<'a>(on: bool) -> Done<'a>
    ensures { Ok result ≡ set_brackets on }
{
    Done {
        report: Report::Brackets(on),
        change: Change::SetsBrackets(on),
    }
}
