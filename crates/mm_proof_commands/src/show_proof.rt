ghost use Rattle.std.specs.Prelude.{◌≡◌};
ghost use Rattle.mm_shell.specs.Answers.{Answers};
ghost use Rattle.mm_shell.specs.Sound.{IsOpenIn, IsSound};
ghost use Rattle.mm_proof_commands.specs.Commands.{show_proof};

use mm_scope::Database;
use mm_shell::{Change, Done, OpenProof, ProofRef, Refusal, Report, State, find_proof};

/// Shows the steps of the open proof, or the unknown ones alone.
#[tactic(auto, unfolding(mm_shell::specs::Answers::given))]
pub fn show_proof<'a>(state: &'a State, only_unknown: bool) -> Result<Done<'a>, Refusal<'a>>
    requires { IsSound state.now }
    ensures { Answers (show_proof state.now only_unknown) result }
{
    let (database, proof) = find_proof(state)?;
    Ok(Done {
        report: Report::Steps(shown(database, proof), only_unknown),
        change: Change::Stays,
    })
}

// An open proof with its database, as a report speaks of it.
#[tactic(auto, using(mm_shell::proofs::FindLemmas::own_labels))]
fn shown<'a>(database: &'a Database, proof: &'a OpenProof) -> ProofRef<'a>
    requires { IsOpenIn database.now proof.now }
    ensures { result ≡ (database.now, proof.now.proof.plain) }
{
    ProofRef::new(database, proof.tree())
}
