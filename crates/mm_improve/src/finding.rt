//! Proofs at a depth: chosen ones, and above depth 0 those by assertions with `$e` hypotheses.

ghost use Rattle.std.specs.Prelude.{◌≡◌, ◌<◌, ℕ, List, length, true};
ghost use Rattle.mm_scope.specs.Contents.{labels_of};
ghost use Rattle.mm_subst.specs.declared.symbol.WSym.{WSym};
ghost use Rattle.mm_plain.specs.Valid.{IsString, first_setting};
ghost use Rattle.mm_tree.specs.Plans.{IsPlan};
ghost use Rattle.mm_improve.specs.Finding.{HasStrings, IsOwnUse, LaysTrees, kids_at, serves_at};
ghost use Rattle.mm_improve.specs.Laying.{IsCounted, IsReady, LaysFound};
ghost use Rattle.mm_improve.specs.Proving.{premise_proof, proof_by, proof_of};
ghost use Rattle.mm_improve.specs.Searches.{terms};

use crate::database::is_essential;
use crate::fault::ImproveFault;
use crate::first_use::{premise_goal, serving_use};
use crate::laying::{chosen_size, has_chosen, lay_chosen};
use crate::matching::Use;
use crate::prover::Prover;
use mm_scope::{Database, StmtId};
use mm_subst::{Subst, WStr};
use mm_tree::{MOST_STEPS, Plan, hypotheses};
use std::alloc::Global;

/// How many steps the proof of a goal at a depth has, where there is one.
///
/// # Errors
/// `TooManySteps` where they are more than 1,000,000.
#[cycle(size)]
pub fn found_size(
    alloc: Global,
    db: &Database,
    prover: &Prover,
    goal: &WStr,
    depth: u32,
) -> Result<u64, ImproveFault>
    requires ready { IsReady db.now prover.now }
    requires string { IsString (first_setting db.now prover.now.search.at.0) goal.now }
    ensures { IsCounted (proof_of (terms db.now prover.now.search) depth goal.now) result }
{
    if has_chosen(alloc, db, prover, goal)? {
        return chosen_size(alloc, db, prover, goal);
    }
    if depth == 0 {
        return Ok(0);
    }
    match serving_use(alloc, db, prover, goal, depth - 1)? {
        Some(used) => use_size(alloc, db, prover, &used, depth - 1),
        None => Ok(0),
    }
}

/// How many steps the proof by a use that serves has.
#[cycle(size)]
fn use_size(
    alloc: Global,
    db: &Database,
    prover: &Prover,
    used: &Use,
    depth: u32,
) -> Result<u64, ImproveFault>
    requires ready { IsReady db.now prover.now }
    requires own { IsOwnUse (terms db.now prover.now.search) used.now }
    requires serves { serves_at (terms db.now prover.now.search) depth used.now ≡ true }
    ensures { (g : List WSym) → IsCounted (proof_by (terms db.now prover.now.search) (proof_of (terms db.now prover.now.search) depth) g used.now) result }
{
    let mut steps = 1;
    for premise in hypotheses(db, used.id) {
        steps += premise_size(alloc, db, prover, StmtId(*premise), &used.sigma, depth)?;
        if steps > MOST_STEPS {
            return Err(ImproveFault::TooManySteps);
        }
    }
    Ok(steps)
}

/// How many steps the proof of the goal of a hypothesis has, where there is one.
#[cycle(size)]
fn premise_size(
    alloc: Global,
    db: &Database,
    prover: &Prover,
    id: StmtId,
    sigma: &Subst,
    depth: u32,
) -> Result<u64, ImproveFault>
    requires ready { IsReady db.now prover.now }
    requires own { id.0 < length (labels_of db.now) }
    requires values { HasStrings db.now prover.now.search.at.0 sigma.now }
    ensures { IsCounted (premise_proof (terms db.now prover.now.search) (proof_of (terms db.now prover.now.search) depth) sigma.now id.0) result }
{
    let Some(goal) = premise_goal(alloc, db, id, sigma)? else {
        return Ok(0);
    };
    if is_essential(db, id) {
        found_size(alloc, db, prover, &goal, depth)
    } else if has_chosen(alloc, db, prover, &goal)? {
        chosen_size(alloc, db, prover, &goal)
    } else {
        Ok(0)
    }
}

/// Lays the proof of a goal at a depth behind the trees of a plan, and answers whether there is one.
///
/// # Errors
/// `TooManySteps` only where the trees have more than 1,000,000 steps with it, and `TooDeep` only where it has more levels
/// than are left.
#[cycle(lay)]
pub fn lay_found(
    alloc: Global,
    db: &Database,
    prover: &Prover,
    goal: &WStr,
    depth: u32,
    left: u32,
    plan: &mut Plan,
) -> Result<bool, ImproveFault>
    requires ready { IsReady db.now prover.now }
    requires string { IsString (first_setting db.now prover.now.search.at.0) goal.now }
    requires plan { IsPlan plan.old }
    ensures { LaysFound plan.old (proof_of (terms db.now prover.now.search) depth goal.now) left result plan.new }
{
    if lay_chosen(alloc, db, prover, goal, left, plan)? {
        return Ok(true);
    }
    if depth == 0 {
        return Ok(false);
    }
    match serving_use(alloc, db, prover, goal, depth - 1)? {
        Some(used) => lay_use(alloc, db, prover, goal, used, depth - 1, left, plan),
        None => Ok(false),
    }
}

/// Lays the proof of a goal by a use that serves.
#[cycle(lay)]
fn lay_use(
    alloc: Global,
    db: &Database,
    prover: &Prover,
    goal: &WStr,
    used: Use,
    depth: u32,
    left: u32,
    plan: &mut Plan,
) -> Result<bool, ImproveFault>
    requires ready { IsReady db.now prover.now }
    requires own { IsOwnUse (terms db.now prover.now.search) used }
    requires serves { serves_at (terms db.now prover.now.search) depth used ≡ true }
    requires plan { IsPlan plan.old }
    ensures { LaysFound plan.old (proof_by (terms db.now prover.now.search) (proof_of (terms db.now prover.now.search) depth) goal.now used) left result plan.new }
{
    let Some(left) = left.checked_sub(1) else {
        return Err(ImproveFault::TooDeep);
    };
    let takes = hypotheses(db, used.id).len();
    lay_premises(alloc, db, prover, &used, depth, left, plan)?;
    if plan.steps() >= MOST_STEPS {
        return Err(ImproveFault::TooManySteps);
    }
    plan.push(alloc, goal.copy(alloc)?, used.id, used.sigma, takes)?;
    Ok(true)
}

/// Lays the proofs of the goals of all hypotheses by a use that serves.
#[cycle(lay)]
fn lay_premises(
    alloc: Global,
    db: &Database,
    prover: &Prover,
    used: &Use,
    depth: u32,
    left: u32,
    plan: &mut Plan,
) -> Result<(), ImproveFault>
    requires ready { IsReady db.now prover.now }
    requires own { IsOwnUse (terms db.now prover.now.search) used.now }
    requires serves { serves_at (terms db.now prover.now.search) depth used.now ≡ true }
    requires plan { IsPlan plan.old }
    ensures { LaysTrees plan.old (kids_at (terms db.now prover.now.search) depth used.now) left result plan.new }
{
    for premise in hypotheses(db, used.id) {
        let id = StmtId(*premise);
        lay_premise(alloc, db, prover, id, &used.sigma, depth, left, plan)?;
    }
    Ok(())
}

/// Lays the proof of the goal of a hypothesis, and answers whether there is one.
#[cycle(lay)]
fn lay_premise(
    alloc: Global,
    db: &Database,
    prover: &Prover,
    id: StmtId,
    sigma: &Subst,
    depth: u32,
    left: u32,
    plan: &mut Plan,
) -> Result<bool, ImproveFault>
    requires ready { IsReady db.now prover.now }
    requires own { id.0 < length (labels_of db.now) }
    requires values { HasStrings db.now prover.now.search.at.0 sigma.now }
    requires plan { IsPlan plan.old }
    ensures { LaysFound plan.old (premise_proof (terms db.now prover.now.search) (proof_of (terms db.now prover.now.search) depth) sigma.now id.0) left result plan.new }
{
    let Some(goal) = premise_goal(alloc, db, id, sigma)? else {
        return Ok(false);
    };
    if is_essential(db, id) {
        lay_found(alloc, db, prover, &goal, depth, left, plan)
    } else {
        lay_chosen(alloc, db, prover, &goal, left, plan)
    }
}
