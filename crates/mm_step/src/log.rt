ghost use Rattle.std.specs.Prelude.{◌≡◌};
ghost use Rattle.mm_command.specs.Meanings.{meaning_of};
ghost use Rattle.mm_step.specs.Asked.{Asks, asked_of};
ghost use Rattle.mm_step.specs.Logs.{log_asked};

use mm_command::{Command, MOST_LINE, read_command};

/// The name of the log that a line asks to be opened; no byte where it asks for something else.
pub fn log_name(line: &[u8]) -> &[u8]
    ensures { result.now ≡ log_asked (asked_of line.now) }
{
    if line.len() > MOST_LINE {
        return &[];
    }
    match read_command(line) {
        Ok(command) => name_in(command),
        Err(_) => &[],
    }
}

fn name_in<'a>(command: Command<'a>) -> &'a [u8]
    ensures { result.now ≡ log_asked (Asks (meaning_of command.entry)) }
{
    match command {
        Command::OpenLog { file } => file,
        _ => &[],
    }
}
