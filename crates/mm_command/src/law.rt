//! What holds of each line.

ghost use Rattle.std.specs.Prelude.{◌≡◌, Ok};
ghost use Rattle.mm_command.specs.Table.{line_said};
ghost use Rattle.mm_command.specs.Spelled.{spelled};
ghost use Rattle.mm_command.specs.Meanings.{meaning_of};

use crate::command::Command;

/// A line spells at most one command: two that it spells are one, wherever their words stand.
pub fn lines_spell_one_command(line: &[u8], one: Command<'_>, other: Command<'_>)
    ensures { line_said line.now ≡ Ok (spelled one.entry) → line_said line.now ≡ Ok (spelled other.entry) → meaning_of one.entry ≡ meaning_of other.entry }
{
    let _ = line;
    let _ = one;
    let _ = other;
}
