ghost use Rattle.std.specs.Prelude.{◌≡◌};
ghost use Rattle.mm_shell.specs.Answers.{Answers};
ghost use Rattle.mm_proof_commands.specs.Commands.{undo};

use mm_shell::{Change, Done, Refusal, Report, State};

/// Takes the last edit of the open proof back.
#[tactic(auto, unfolding(mm_shell::specs::Answers::unless, mm_shell::specs::Answers::given))]
pub fn undo<'a>(state: &'a State) -> Result<Done<'a>, Refusal<'a>>
    ensures { Answers (undo state.now) result }
{
    let Some(proof) = &state.open_proof else {
        return Err(Refusal::NoProofOpen);
    };
    if proof.past_count() == 0 {
        return Err(Refusal::NothingToUndo);
    }
    Ok(Done {
        report: Report::Undone,
        change: Change::Undoes,
    })
}
