//! The mandatory variables of a statement.

ghost use Rattle.std.specs.Prelude.{◌≡◌, ◌<◌, IfOk, length, All};
ghost use Rattle.mm_scope.specs.Contents.{labels_of, stated_at};
ghost use Rattle.mm_stated.specs.Stated.{variable_of};
ghost use Rattle.mm_plain.specs.Premises.{variables_for};
ghost use Rattle.mm_plain.specs.Variables.{variables_among};

use mm_scope::{Database, Kind, StmtId};
use std::alloc::{AllocError, Global};

/// The variable of a `$f`; `None` of another statement.
fn variable_of(db: &Database, id: StmtId) -> Option<u32>
    requires { id.0 < length (labels_of db.now) }
    ensures { result ≡ variable_of (stated_at db.now id.0) }
{
    match db.kind(id) {
        Kind::Float => db.frame(id).conclusion.as_slice().get(1).copied(),
        Kind::Essential | Kind::Axiom | Kind::Theorem => None,
    }
}

/// The variables of the `$f` among hypotheses.
fn variables_among(alloc: Global, db: &Database, ids: &[u32]) -> Result<Vec<u32>, AllocError>
    requires { All (λ m. m < length (labels_of db.now)) ids.now }
    ensures { IfOk result (λ v. v.items ≡ variables_among db.now ids.now) }
{
    let mut variables = Vec::new(alloc);
    for id in ids {
        if let Some(variable) = variable_of(db, StmtId(*id)) {
            variables.push(variable)?;
        }
    }
    Ok(variables)
}

/// The mandatory variables of a statement, in order.
#[tactic(auto, unfolding(crate::specs::Premises::variables_for, mm_stated::specs::Mandatory::variables_of))]
pub fn variables_for(alloc: Global, db: &Database, id: StmtId) -> Result<Vec<u32>, AllocError>
    requires { id.0 < length (labels_of db.now) }
    ensures { IfOk result (λ v. v.items ≡ variables_for db.now id.0) }
{
    match db.kind(id) {
        Kind::Float | Kind::Essential => Ok(Vec::new(alloc)),
        Kind::Axiom | Kind::Theorem => {
            variables_among(alloc, db, db.frame(id).mandatory.as_slice())
        }
    }
}
