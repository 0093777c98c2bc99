ghost use Rattle.std.specs.Prelude.{◌≡◌};
ghost use Rattle.mm_command.specs.Meanings.{meaning_of};
ghost use Rattle.mm_shell.specs.Answers.{Answers};
ghost use Rattle.mm_shell.specs.Sound.{IsSound};
ghost use Rattle.mm_proof_commands.specs.Commands.{proof_answer};

use crate::exit::exit;
use crate::prove::prove;
use crate::redo::redo;
use crate::save::save;
use crate::show_proof::show_proof;
use crate::undo::undo;
use mm_base::Steps;
use mm_command::Command;
use mm_shell::{Change, Done, Refusal, Report, State};
use std::alloc::Global;
use std::sync::ledger::Ledger;

/// The answer to a command on the open proof or on the session: one arm for each. It changes nothing. The
/// nodes that PROVE makes are counted in `steps`.
#[tactic(auto, unfolding(crate::specs::Commands::proof_answer))]
pub fn answer<'a, L: Ledger>(
    alloc: Global,
    state: &'a State,
    command: Command<'a>,
    steps: &mut Steps<L>,
) -> Result<Done<'a>, Refusal<'a>>
    requires { IsSound state.now }
    ensures { Answers (proof_answer (meaning_of command.entry) state.now) result }
{
    match command {
        Command::Nothing => Ok(Done {
            report: Report::Nothing,
            change: Change::Stays,
        }),
        Command::ShowNewProof { unknown } => show_proof(state, unknown),
        Command::Prove { label, guarded_too } => prove(alloc, state, label, guarded_too, steps),
        Command::Save {
            normal: _,
            compressed,
            guarded_too,
        } => save(alloc, state, compressed, guarded_too),
        Command::Undo => undo(state),
        Command::Redo => redo(state),
        Command::Exit { force } => exit(state, force),
        _ => Err(Refusal::NotBuilt),
    }
}
