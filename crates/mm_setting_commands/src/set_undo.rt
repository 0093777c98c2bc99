ghost use Rattle.std.specs.Prelude.{◌≡◌};
ghost use Rattle.mm_shell.specs.Answers.{Answers};
ghost use Rattle.mm_setting_commands.specs.Commands.{set_undo};

use mm_shell::{Change, Done, Refusal, Report};
use mm_undo::Rings;
use std::alloc::Global;

/// Sets how many versions a history keeps. The memory for it is taken here.
pub fn set_undo<'a>(alloc: Global, n: u32) -> Result<Done<'a>, Refusal<'a>>
    ensures { Answers (set_undo n) result }
{
    let rings = Rings::new(alloc, n)?;
    Ok(Done {
        report: Report::UndoDepth(n),
        change: Change::SetsUndo(rings),
    })
}
