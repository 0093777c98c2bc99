//! How many trees a step takes.

ghost use Rattle.std.specs.Prelude.{◌≡◌, ◌+◌, ◌<◌, ◌≤◌, length};
ghost use Rattle.mm_scope.specs.Contents.{labels_of};
ghost use Rattle.mm_proof.specs.Steps.{IsOwn};
ghost use Rattle.mm_proof.specs.Arities.{takes};
ghost use Rattle.mm_proof.specs.Forests.{arity_of};

use crate::step::StepKind;
use mm_scope::{Database, Kind, StmtId};

/// How many trees a statement's label takes.
#[tactic(auto, unfolding(crate::specs::Forests::arity_of))]
pub(crate) fn arity_of(db: &Database, id: StmtId) -> usize
    requires { id.0 < length (labels_of db.now) }
    ensures { result ≡ arity_of db.now (id.0 + 1) }
{
    match db.kind(id) {
        Kind::Float | Kind::Essential => 0,
        Kind::Axiom | Kind::Theorem => db.frame(id).mandatory.as_slice().len(),
    }
}

/// How many trees a step takes.
pub(crate) fn takes(db: &Database, kind: StepKind) -> usize
    requires { IsOwn db.now kind }
    ensures { result ≡ takes db.now kind }
{
    match kind {
        StepKind::Hyp(id) | StepKind::Apply(id) => arity_of(db, id),
        StepKind::Back(_) | StepKind::Unknown => 0,
    }
}
