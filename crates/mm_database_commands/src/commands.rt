ghost use Rattle.std.specs.Prelude.{◌≡◌};
ghost use Rattle.mm_command.specs.Meanings.{meaning_of};
ghost use Rattle.mm_database_commands.specs.Commands.{HasName, Plans, PutsUnderName, database_plan};

use crate::call::Call;
use crate::read::read;
use crate::trace::{trace_back, usage};
use crate::verify::verify;
use crate::write::write;
use mm_command::Command;
use mm_shell::{Refusal, State};
use std::alloc::Global;

/// The plan of a command on the database: one arm for each. It changes nothing and makes no call on the files.
#[tactic(auto, unfolding(crate::specs::Commands::database_plan))]
pub fn plan<'a>(
    alloc: Global,
    state: &'a State,
    command: Command<'a>,
) -> Result<Call<'a>, Refusal<'a>>
    requires { HasName (meaning_of command) }
    ensures plan { Plans (database_plan (meaning_of command.entry) state.now) result }
    ensures name { PutsUnderName result }
{
    match command {
        Command::Read { file } => read(state, file),
        Command::VerifyProof { pattern } => Ok(Call::Does(verify(alloc, state, pattern)?)),
        Command::ShowTraceBack { label, axioms } => {
            Ok(Call::Does(trace_back(alloc, state, label, axioms)?))
        }
        Command::ShowUsage { label, recursive } => {
            Ok(Call::Does(usage(alloc, state, label, recursive)?))
        }
        Command::WriteSource { file } => write(state, file),
        _ => Err(Refusal::NotBuilt),
    }
}
