//! The first use of an assertion with `$e` hypotheses that serves.

ghost use Rattle.std.specs.Prelude.{◌≡◌, ◌<◌, ℕ, IfOk, IfSome, MatchOption, length, true};
ghost use Rattle.mm_scope.specs.Contents.{labels_of};
ghost use Rattle.mm_subst.specs.Statements.{statement_of};
ghost use Rattle.mm_subst.specs.Substitutions.{applied};
ghost use Rattle.mm_plain.specs.Lengths.{is_long};
ghost use Rattle.mm_plain.specs.Valid.{IsString, first_setting};
ghost use Rattle.mm_improve.specs.Assertions.{matches};
ghost use Rattle.mm_improve.specs.Finding.{HasStrings, IsOwnUse, may_serve, serves_at};
ghost use Rattle.mm_improve.specs.Laying.{IsReady};
ghost use Rattle.mm_chart.specs.Options.{first, is_there};
ghost use Rattle.mm_improve.specs.Proving.{essential_uses, premise_proof, proof_of};
ghost use Rattle.mm_improve.specs.Searches.{terms};

use crate::database::{Search, has_essential, is_essential, may_be_used};
use crate::laying::has_chosen;
use crate::matching::{Use, matches_of};
use crate::prover::Prover;
use mm_scope::{Database, StmtId};
use mm_subst::{Memory, Subst, TooLongOrMemory, WStr, apply, statement};
use mm_tree::hypotheses;
use std::alloc::Global;

/// A hypothesis under a substitution; `None` where it has too many symbols.
pub fn premise_goal(
    alloc: Global,
    db: &Database,
    id: StmtId,
    sigma: &Subst,
) -> Result<Option<WStr>, Memory>
    requires { id.0 < length (labels_of db.now) }
    ensures goal { IfOk result (λ o. MatchOption o (is_long (applied sigma.now (statement_of db.now id.0)) ≡ true) (λ g. g ≡ applied sigma.now (statement_of db.now id.0))) }
    ensures string { IfOk result (λ o. IfSome o (λ g. (at : ℕ) → HasStrings db.now at sigma.now → IsString (first_setting db.now at) g)) }
{
    let hypothesis = statement(alloc, db, id)?;
    match apply(alloc, sigma, &hypothesis) {
        Ok(goal) => Ok(Some(goal)),
        Err(TooLongOrMemory::TooLong) => Ok(None),
        Err(TooLongOrMemory::Memory) => Err(Memory),
    }
}

/// Whether a statement is an assertion with `$e` that may be used.
fn may_serve(alloc: Global, db: &Database, id: StmtId, search: Search) -> Result<bool, Memory>
    requires { id.0 < length (labels_of db.now) }
    ensures { IfOk result (λ b. b ≡ may_serve (terms db.now search) id.0) }
{
    if has_essential(db, id) {
        may_be_used(alloc, db, id, search)
    } else {
        Ok(false)
    }
}

/// Whether a goal has a proof at a depth.
#[cycle(serving)]
fn has_found(
    alloc: Global,
    db: &Database,
    prover: &Prover,
    goal: &WStr,
    depth: u32,
) -> Result<bool, Memory>
    requires ready { IsReady db.now prover.now }
    requires string { IsString (first_setting db.now prover.now.search.at.0) goal.now }
    ensures { IfOk result (λ b. b ≡ is_there (proof_of (terms db.now prover.now.search) depth goal.now)) }
{
    if has_chosen(alloc, db, prover, goal)? {
        return Ok(true);
    }
    if depth == 0 {
        return Ok(false);
    }
    let found = serving_use(alloc, db, prover, goal, depth - 1)?;
    Ok(found.is_some())
}

/// The first use of an assertion with `$e` for which the goals of all hypotheses have a proof, at a depth below.
#[cycle(serving)]
pub fn serving_use(
    alloc: Global,
    db: &Database,
    prover: &Prover,
    goal: &WStr,
    depth: u32,
) -> Result<Option<Use>, Memory>
    requires ready { IsReady db.now prover.now }
    requires string { IsString (first_setting db.now prover.now.search.at.0) goal.now }
    ensures first { IfOk result (λ o. o ≡ first (serves_at (terms db.now prover.now.search) depth) (essential_uses (terms db.now prover.now.search) goal.now)) }
    ensures own { IfOk result (λ o. IfSome o (IsOwnUse (terms db.now prover.now.search))) }
{
    for number in 0..prover.search.at.0 {
        let id = StmtId(number);
        if may_serve(alloc, db, id, prover.search)? {
            if let Some(sigma) = serving_match(alloc, db, prover, goal, id, depth)? {
                return Ok(Some(Use { id, sigma }));
            }
        }
    }
    Ok(None)
}

/// The first match with an assertion that serves.
#[cycle(serving)]
fn serving_match(
    alloc: Global,
    db: &Database,
    prover: &Prover,
    goal: &WStr,
    id: StmtId,
    depth: u32,
) -> Result<Option<Subst>, Memory>
    requires ready { IsReady db.now prover.now }
    requires string { IsString (first_setting db.now prover.now.search.at.0) goal.now }
    requires own { id.0 < length (labels_of db.now) }
    requires usable { may_serve (terms db.now prover.now.search) id.0 ≡ true }
    ensures first { IfOk result (λ o. o ≡ first (λ s. serves_at (terms db.now prover.now.search) depth (record { id = id.0; sigma = s })) (matches (terms db.now prover.now.search) goal.now id.0)) }
    ensures values { IfOk result (λ o. IfSome o (HasStrings db.now prover.now.search.at.0)) }
{
    let matches = matches_of(alloc, db, prover, goal, id)?;
    for sigma in &matches {
        if serves(alloc, db, prover, id, sigma, depth)? {
            let sigma = sigma.copy(alloc)?;
            return Ok(Some(sigma));
        }
    }
    Ok(None)
}

/// Whether the goals of all hypotheses of an assertion have a proof.
#[cycle(serving)]
fn serves(
    alloc: Global,
    db: &Database,
    prover: &Prover,
    id: StmtId,
    sigma: &Subst,
    depth: u32,
) -> Result<bool, Memory>
    requires ready { IsReady db.now prover.now }
    requires own { id.0 < length (labels_of db.now) }
    requires values { HasStrings db.now prover.now.search.at.0 sigma.now }
    ensures { IfOk result (λ b. b ≡ serves_at (terms db.now prover.now.search) depth (record { id = id.0; sigma = sigma.now })) }
{
    for premise in hypotheses(db, id) {
        if !has_premise(alloc, db, prover, StmtId(*premise), sigma, depth)? {
            return Ok(false);
        }
    }
    Ok(true)
}

/// Whether the goal of a hypothesis has a proof.
#[cycle(serving)]
fn has_premise(
    alloc: Global,
    db: &Database,
    prover: &Prover,
    id: StmtId,
    sigma: &Subst,
    depth: u32,
) -> Result<bool, Memory>
    requires ready { IsReady db.now prover.now }
    requires own { id.0 < length (labels_of db.now) }
    requires values { HasStrings db.now prover.now.search.at.0 sigma.now }
    ensures { IfOk result (λ b. b ≡ is_there (premise_proof (terms db.now prover.now.search) (proof_of (terms db.now prover.now.search) depth) sigma.now id.0)) }
{
    let Some(goal) = premise_goal(alloc, db, id, sigma)? else {
        return Ok(false);
    };
    if is_essential(db, id) {
        has_found(alloc, db, prover, &goal, depth)
    } else {
        has_chosen(alloc, db, prover, &goal)
    }
}
