//! Assigning a statement to an unknown step.

ghost use Rattle.std.specs.Prelude.{◌≡◌, ◌∷◌, ◌+◌, ◌<◌, ◌≤◌, ◌^◌, IfOk, MatchResult, None, OnErr, [], false, length, true};
ghost use Rattle.mm_base.specs.Refusals.{unless};
ghost use Rattle.mm_scope.specs.Contents.{labels_of};
ghost use Rattle.mm_subst.specs.Statements.{statement_of};
ghost use Rattle.mm_subst.specs.Substitutions.{applied};
ghost use Rattle.mm_plain.specs.Premises.{may_stand, premises_of};
ghost use Rattle.mm_plain.specs.Shape.{depth_at, height_of, size_of, step_at, target_of};
ghost use Rattle.mm_plain.specs.Sources.{label_of};
ghost use Rattle.mm_tree.specs.Versions.{BeginsAlike, HasNoDrafts, KeepsMarks};
ghost use Rattle.mm_edit.specs.Applying.{applying_only};
ghost use Rattle.mm_edit.specs.Assigning.{assigned, draws, listed_named, named};
ghost use Rattle.mm_edit.specs.Edited.{IsDone, IsListing, IsTried, KeepsSettled};
ghost use Rattle.mm_edit.specs.Keeping.{IsProofOf};
ghost use Rattle.mm_edit.specs.Listed.{has_none, listed, only_unifier};
ghost use Rattle.mm_edit.specs.Steps.{is_spent, not_standing};
ghost use Rattle.mm_edit.specs.declared.edit_fault.EditFault.TheVariants.{NoUnifier, WorkSpent};

use crate::checks::{has_step, is_unknown};
use crate::edit_fault::EditFault;
use crate::fresh::draw;
use crate::going_back::back_where_refused;
use crate::listing::{apply_only, has_none, list};
use mm_base::Steps;
use mm_scope::{Database, Kind, StmtId};
use mm_subst::{Subst, TooLongOrMemory, WStr, apply, statement};
use mm_tree::Tree;
use mm_unify::{Listing, Settings};
use std::alloc::{AllocError, Global};
use std::sync::ledger::Ledger;

/// Whether a step of the proof of a theorem may name a statement.
#[tactic(auto, unfolding(mm_plain::specs::Premises::may_stand))]
pub fn check_standing(db: &Database, at: StmtId, id: StmtId) -> Result<(), EditFault>
    requires at { at.0 < length (labels_of db.now) }
    requires own { id.0 < length (labels_of db.now) }
    ensures { MatchResult result (λ _. may_stand db.now at.0 id.0 ≡ true) (λ f. (may_stand db.now at.0 id.0 ≡ false) × (f ≡ not_standing db.now id.0)) }
{
    match db.kind(id) {
        Kind::Float | Kind::Essential => {
            if db.is_active(id, at) {
                Ok(())
            } else {
                Err(EditFault::HypothesisNotActive)
            }
        }
        Kind::Axiom | Kind::Theorem => {
            if id.0 < at.0 {
                Ok(())
            } else {
                Err(EditFault::NotEarlier)
            }
        }
    }
}

/// What a statement says under a substitution.
fn source_under(alloc: Global, db: &Database, id: StmtId, sigma: &Subst) -> Result<WStr, AllocError>
    requires own { id.0 < length (labels_of db.now) }
    requires short { length (applied sigma.now (statement_of db.now id.0)) ≤ 32768 }
    ensures { IfOk result (λ s. s ≡ applied sigma.now (statement_of db.now id.0)) }
{
    let statement = statement(alloc, db, id)?;
    match apply(alloc, sigma, &statement) {
        Ok(source) => Ok(source),
        Err(TooLongOrMemory::TooLong) => unreachable!(),
        Err(TooLongOrMemory::Memory) => Err(AllocError),
    }
}

/// The unifiers of the target of a step with what a statement says under a substitution.
pub fn list_named(
    alloc: Global,
    tree: &Tree,
    db: &Database,
    set: &Settings,
    step: u32,
    id: StmtId,
    sigma: &Subst,
) -> Result<Listing, AllocError>
    requires exists { (1 ≤ step) × (step ≤ size_of tree.now.proof.plain) }
    requires own { id.0 < length (labels_of db.now) }
    requires short { length (applied sigma.now (statement_of db.now id.0)) ≤ 32768 }
    ensures listing { IfOk result (λ t. IsListing t (listed db.now set.now (target_of (step_at tree.now.proof.plain step)) (applied sigma.now (statement_of db.now id.0)))) }
    ensures few { IfOk result (λ t. length t.found.items < 2 ^ 32) }
{
    let target = tree.target(alloc, step)?;
    let source = source_under(alloc, db, id, sigma)?;
    list(alloc, db, set, &target, &source)
}

/// Makes an unknown step name a statement, over fresh work variables, and applies the only unifier of its target and its
/// source, where there is one.
fn name_and_unify<L: Ledger>(
    alloc: Global,
    tree: &mut Tree,
    db: &Database,
    at: StmtId,
    set: &Settings,
    step: u32,
    id: StmtId,
    steps: &mut Steps<L>,
) -> Result<(), EditFault>
    requires at { at.0 < length (labels_of db.now) }
    requires own { id.0 < length (labels_of db.now) }
    requires valid { IsProofOf db.now at.0 (target_of tree.old.proof.plain) tree.old.proof }
    requires stands { may_stand db.now at.0 id.0 ≡ true }
    requires exists { (1 ≤ step) × (step ≤ size_of tree.old.proof.plain) }
    requires unknown { label_of (step_at tree.old.proof.plain step) ≡ None }
    requires few { size_of (named db.now tree.old.proof step id.0).plain ≤ 1000000 }
    requires low { height_of (named db.now tree.old.proof step id.0).plain ≤ 2000 }
    ensures tried { IsTried (unless ((is_spent tree.old.proof (draws db.now id.0), WorkSpent) ∷ (has_none (listed_named db.now set.now tree.old.proof step id.0), NoUnifier) ∷ []) (applying_only db.now (only_unifier (listed_named db.now set.now tree.old.proof step id.0)) (named db.now tree.old.proof step id.0))) result tree.new.proof }
    ensures marks { KeepsMarks tree.old.versions tree.new.versions }
    ensures begun { BeginsAlike tree.old.versions tree.new.versions }
    ensures cost { steps.new ≤ steps.old + (depth_at tree.old.proof.plain step + 1 + length (premises_of db.now id.0)) }
{
    let _ = at;
    let sigma = draw(alloc, tree, db, id)?;
    let listing = list_named(alloc, tree, db, set, step, id, &sigma)?;
    if has_none(&listing) {
        return Err(EditFault::NoUnifier);
    }
    tree.place(alloc, db, step, id, &sigma, steps)?;
    apply_only(alloc, tree, db, &listing)
}

/// Assigns a statement to an unknown step, as drafts: it is made known over fresh work variables and an unknown step for each
/// mandatory hypothesis of the statement, and the only unifier of its target and its source is applied to the whole tree.
/// Where there are several, or the search does not end, the step stays pending. Where the edit is refused the proof is as
/// before.
#[tactic(auto, unfolding(mm_base::specs::Refusals::unless, crate::specs::Assigning::assigned))]
pub fn assign<L: Ledger>(
    alloc: Global,
    tree: &mut Tree,
    db: &Database,
    at: StmtId,
    set: &Settings,
    step: u32,
    id: StmtId,
    steps: &mut Steps<L>,
) -> Result<(), EditFault>
    requires at { at.0 < length (labels_of db.now) }
    requires own { id.0 < length (labels_of db.now) }
    requires valid { IsProofOf db.now at.0 (target_of tree.old.proof.plain) tree.old.proof }
    ensures done { IsDone (assigned db.now at.0 set.now tree.old.proof step id.0) result tree.old.proof tree.new.proof }
    ensures marks { KeepsSettled tree.old.versions tree.new.versions }
    ensures begun { HasNoDrafts tree.old.versions → BeginsAlike tree.old.versions tree.new.versions }
    ensures drafts { HasNoDrafts tree.old.versions → OnErr result (HasNoDrafts tree.new.versions) }
    ensures cost { steps.new ≤ steps.old + (depth_at tree.old.proof.plain step + 1 + length (premises_of db.now id.0)) }
{
    check_standing(db, at, id)?;
    if !has_step(tree, step) {
        return Err(EditFault::NoSuchStep);
    }
    if !is_unknown(tree, step) {
        return Err(EditFault::StepKnown);
    }
    tree.room(db, step, id)?;
    let before = tree.mark();
    let tried = name_and_unify(alloc, tree, db, at, set, step, id, steps);
    back_where_refused(tree, before, tried)
}
