ghost use Rattle.std.specs.Prelude.{◌≡◌};
ghost use Rattle.mm_shell.specs.Answers.{Answers};
ghost use Rattle.mm_proof_commands.specs.Commands.{redo};

use mm_shell::{Change, Done, Refusal, Report, State};

/// Does the edit again that was taken back last.
#[tactic(auto, unfolding(mm_shell::specs::Answers::unless, mm_shell::specs::Answers::given))]
pub fn redo<'a>(state: &'a State) -> Result<Done<'a>, Refusal<'a>>
    ensures { Answers (redo state.now) result }
{
    let Some(proof) = &state.open_proof else {
        return Err(Refusal::NoProofOpen);
    };
    if proof.future_count() == 0 {
        return Err(Refusal::NothingToRedo);
    }
    Ok(Done {
        report: Report::Redone,
        change: Change::Redoes,
    })
}
