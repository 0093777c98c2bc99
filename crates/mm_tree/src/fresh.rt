//! Fresh work variables for the variables of a statement.

ghost use Rattle.std.specs.Prelude.{◌≡◌, ◌+◌, ◌<◌, ◌≤◌, All, IfOk, OnOk, filter_map, length};
ghost use Rattle.mm_scope.specs.Contents.{labels_of, stated_at};
ghost use Rattle.mm_scope.specs.Laws.{AllDiffer};
ghost use Rattle.mm_stated.specs.Stated.{variable_of};
ghost use Rattle.mm_plain.specs.Drawing.{fresh_for, fresh_from};
ghost use Rattle.mm_plain.specs.Premises.{premise_ids, variables_for};
ghost use Rattle.mm_plain.specs.Valid.{most_works};

use crate::premises::premises;
use mm_scope::{Database, Kind, StmtId, mandatory_variables_differ};
use mm_subst::{Subst, WStr, WSym};
use std::alloc::{AllocError, Global};

/// The variable of a `$f`; `None` of another statement.
pub fn variable_of(db: &Database, id: StmtId) -> Option<u32>
    requires { id.0 < length (labels_of db.now) }
    ensures { result ≡ variable_of (stated_at db.now id.0) }
{
    match db.kind(id) {
        Kind::Float => db.frame(id).conclusion.as_slice().get(1).copied(),
        Kind::Essential | Kind::Axiom | Kind::Theorem => None,
    }
}

/// The variables of the `$f` among hypotheses.
fn variables_among(alloc: Global, db: &Database, ids: &[u32]) -> Result<Vec<u32>, AllocError>
    requires { All (λ m. m < length (labels_of db.now)) ids.now }
    ensures { IfOk result (λ v. v.items ≡ filter_map (λ id. variable_of (stated_at db.now id)) ids.now) }
{
    let mut variables = Vec::new(alloc);
    for id in ids {
        if let Some(variable) = variable_of(db, StmtId(*id)) {
            variables.push(variable)?;
        }
    }
    Ok(variables)
}

/// How many variables the `$f` among hypotheses have.
fn count_among(db: &Database, ids: &[u32]) -> usize
    requires { All (λ m. m < length (labels_of db.now)) ids.now }
    ensures { result ≡ length (filter_map (λ id. variable_of (stated_at db.now id)) ids.now) }
{
    let mut count = 0;
    for id in ids {
        if variable_of(db, StmtId(*id)).is_some() {
            count += 1;
        }
    }
    count
}

/// How many mandatory variables a statement has.
pub fn count_variables(db: &Database, id: StmtId) -> usize
    requires { id.0 < length (labels_of db.now) }
    ensures { result ≡ length (variables_for db.now id.0) }
{
    count_among(db, premises(db, id))
}

/// The mandatory variables of a statement, in the order of their `$f`.
pub fn variables_for(alloc: Global, db: &Database, id: StmtId) -> Result<Vec<u32>, AllocError>
    requires { id.0 < length (labels_of db.now) }
    ensures { IfOk result (λ v. v.items ≡ variables_for db.now id.0) }
{
    variables_among(alloc, db, premises(db, id))
}

/// A work variable for each of some variables, by numbers from one on.
pub fn fresh_from(alloc: Global, variables: &[u32], first: u32) -> Result<Subst, AllocError>
    requires differ { AllDiffer variables.now }
    requires drawn { first + length variables.now ≤ most_works + 1 }
    ensures { IfOk result (λ s. s ≡ fresh_from first variables.now) }
{
    let mut sigma = Subst::new(alloc);
    let mut number = first;
    for variable in variables {
        let value = WStr::new(alloc, &[WSym::Work(number)])?;
        sigma.put(alloc, WSym::Var(*variable), value)?;
        number += 1;
    }
    Ok(sigma)
}

/// Work variables for the mandatory variables of a statement, the last of those below a number; these are then taken.
pub fn last_fresh(
    alloc: Global,
    db: &Database,
    id: StmtId,
    end: &mut u32,
) -> Result<Subst, AllocError>
    requires own { id.0 < length (labels_of db.now) }
    requires drawn { length (variables_for db.now id.0) ≤ end.old }
    requires below { end.old ≤ most_works + 1 }
    ensures values { IfOk result (λ s. s ≡ fresh_for db.now end.new id.0) }
    ensures taken { OnOk result (end.new + length (variables_for db.now id.0) ≡ end.old) }
{
    mandatory_variables_differ(db.bytes());
    let variables = variables_for(alloc, db, id)?;
    let first = *end - variables.len() as u32;
    *end = first;
    fresh_from(alloc, variables.as_slice(), first)
}
