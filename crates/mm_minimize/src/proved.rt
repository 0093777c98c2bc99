//! Whether a statement's own proof is whole.

ghost use Rattle.std.specs.Prelude.{◌≡◌, ◌<◌, IfOk, length};
ghost use Rattle.std.specs.List.{list_any};
ghost use Rattle.mm_scope.specs.Contents.{labels_of};
ghost use Rattle.mm_proof.specs.Decoding.{Decodes};
ghost use Rattle.mm_minimize.specs.Candidates.{is_proved, is_unknown, is_whole};

use mm_proof::{ProofFault, ProofStep, ProofSteps, StepKind, decode};
use mm_scope::{Database, Kind, StmtId};
use std::alloc::{AllocError, Global};

/// Whether a step is `?`.
fn is_unknown(kind: StepKind) -> bool
    ensures { result ≡ is_unknown kind }
{
    match kind {
        StepKind::Unknown => true,
        StepKind::Hyp(_) | StepKind::Apply(_) | StepKind::Back(_) => false,
    }
}

/// Whether some step is `?`.
fn some_unknown(steps: &[ProofStep]) -> bool
    ensures { result ≡ list_any (λ s. is_unknown s.kind) steps.now }
{
    steps.iter().any(|s| is_unknown(s.kind))
}

/// Whether a proof, as it was decoded, is whole.
fn is_whole(proof: Result<ProofSteps, ProofFault>) -> Result<bool, AllocError>
    ensures { (read : _) → Decodes proof read → IfOk result (λ b. b ≡ is_whole read) }
{
    match proof {
        Ok(steps) => Ok(!some_unknown(steps.steps())),
        Err(ProofFault::Memory) => Err(AllocError),
        Err(_) => Ok(false),
    }
}

/// Whether a statement is no theorem, or one whose proof decodes and has no `?`.
#[tactic(auto, unfolding(crate::specs::Candidates::is_proved))]
pub fn is_proved(alloc: Global, db: &Database, id: StmtId) -> Result<bool, AllocError>
    requires { id.0 < length (labels_of db.now) }
    ensures { IfOk result (λ b. b ≡ is_proved db.now id.0) }
{
    match db.kind(id) {
        Kind::Theorem => is_whole(decode(alloc, db, id)),
        _ => Ok(true),
    }
}
