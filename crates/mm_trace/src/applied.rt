//! What a theorem's proof applies.

ghost use Rattle.std.specs.Prelude.{◌≡◌, ◌<◌, ◌++◌, ◌==◌, IfOk, OnOk, length};
ghost use Rattle.std.specs.List.{list_any};
ghost use Rattle.mm_scope.specs.Contents.{labels_of};
ghost use Rattle.mm_proof.specs.Decoding.{Decodes};
ghost use Rattle.mm_trace.specs.Uses.{applied, applied_by, applied_in, assertion_of, uses};

use mm_proof::{ProofFault, ProofStep, ProofSteps, StepKind, decode};
use mm_scope::{Database, Kind, StmtId};
use std::alloc::{AllocError, Global};

/// Appends the assertion that a step applies, if it applies one.
fn push_assertion(applied: &mut Vec<u32>, kind: StepKind) -> Result<(), AllocError>
    ensures { OnOk result (applied.new.items ≡ applied.old.items ++ assertion_of kind) }
{
    if let StepKind::Apply(assertion) = kind {
        applied.push(assertion.0)?;
    }
    Ok(())
}

/// The assertions that steps apply.
fn applied_by(alloc: Global, steps: &[ProofStep]) -> Result<Vec<u32>, AllocError>
    ensures { IfOk result (λ v. v.items ≡ applied_by steps.now) }
{
    let mut applied = Vec::new(alloc);
    for step in steps {
        push_assertion(&mut applied, step.kind)?;
    }
    Ok(applied)
}

/// The assertions that a proof applies, as it was decoded.
fn applied_in(alloc: Global, proof: Result<ProofSteps, ProofFault>) -> Result<Vec<u32>, AllocError>
    ensures { (read : _) → Decodes proof read → IfOk result (λ v. v.items ≡ applied_in read) }
{
    match proof {
        Ok(steps) => applied_by(alloc, steps.steps()),
        Err(ProofFault::Memory) => Err(AllocError),
        Err(_) => Ok(Vec::new(alloc)),
    }
}

/// The assertions that a theorem's proof applies, one for each step that applies one: none where the proof doesn't decode,
/// and none of a statement that is no theorem.
#[tactic(auto, unfolding(crate::specs::Uses::applied))]
pub(crate) fn applied(alloc: Global, db: &Database, id: StmtId) -> Result<Vec<u32>, AllocError>
    requires { id.0 < length (labels_of db.now) }
    ensures { IfOk result (λ v. v.items ≡ applied db.now id.0) }
{
    match db.kind(id) {
        Kind::Theorem => applied_in(alloc, decode(alloc, db, id)),
        _ => Ok(Vec::new(alloc)),
    }
}

/// Whether a statement uses an assertion: its proof decodes, and applies it.
pub fn uses(alloc: Global, db: &Database, id: StmtId, on: StmtId) -> Result<bool, AllocError>
    requires { id.0 < length (labels_of db.now) }
    ensures { IfOk result (λ b. b ≡ uses db.now id.0 on.0) }
{
    let applied = applied(alloc, db, id)?;
    Ok(applied.as_slice().iter().any(|m| *m == on.0))
}
