ghost use Rattle.std.specs.Prelude.{◌≡◌};
ghost use Rattle.mm_shell.specs.Answers.{Answers};
ghost use Rattle.mm_proof_commands.specs.Commands.{exit};

use mm_shell::{Change, Done, Refusal, Report, State};

/// Leaves the open proof, or ends the session where there is none.
#[tactic(auto, unfolding(mm_shell::specs::Answers::unless))]
pub fn exit<'a>(state: &'a State, force: bool) -> Result<Done<'a>, Refusal<'a>>
    ensures { Answers (exit state.now force) result }
{
    let change = match &state.open_proof {
        Some(proof) => {
            if proof.changed() && !force {
                return Err(Refusal::ProofNotSaved);
            }
            Change::Leaves
        }
        None => {
            if state.unwritten && !force {
                return Err(Refusal::NotWritten);
            }
            Change::Ends
        }
    };
    Ok(Done {
        report: Report::Nothing,
        change,
    })
}
