//! A known step that names another statement.

ghost use Rattle.std.specs.Prelude.{◌≡◌, ◌+◌, ◌*◌, ◌<◌, ◌≤◌, ◌^◌, IfOk, OnErr, false, length, true};
ghost use Rattle.mm_scope.specs.Contents.{labels_of};
ghost use Rattle.mm_plain.specs.Premises.{may_stand, premises_of};
ghost use Rattle.mm_plain.specs.Shape.{depth_at, size_of, target_of};
ghost use Rattle.mm_tree.specs.Versions.{BeginsAlike, HasNoDrafts, KeepsMarks};
ghost use Rattle.mm_edit.specs.Edited.{IsDone, IsTried, KeepsSettled, answer_in};
ghost use Rattle.mm_edit.specs.Keeping.{IsProofOf};
ghost use Rattle.mm_edit.specs.Listed.{only_unifier};
ghost use Rattle.mm_edit.specs.Replacing.{only_or_none, renamed, replaced};
ghost use Rattle.mm_edit.specs.Steps.{is_unknown};

use crate::assign_step::{check_standing, list_named};
use crate::checks::{has_step, is_unknown};
use crate::edit_fault::EditFault;
use crate::fresh::draw;
use crate::going_back::back_where_refused;
use crate::listing::{has_none, only};
use mm_base::Steps;
use mm_scope::{Database, StmtId};
use mm_subst::Subst;
use mm_tree::{MOST_PREMISES, Tree, hypotheses};
use mm_unify::{Listing, Settings};
use std::alloc::{AllocError, Global};
use std::sync::ledger::Ledger;

/// The only unifier of a listing; where there is none such, the substitution that changes nothing.
fn only_or_none(alloc: Global, listing: &Listing) -> Result<Subst, AllocError>
    requires { length listing.now.found.items < 2 ^ 32 }
    ensures { IfOk result (λ s. s ≡ only_or_none (only_unifier (answer_in listing.now))) }
{
    match only(listing) {
        Ok(theta) => theta.copy(alloc),
        Err(_) => Ok(Subst::new(alloc)),
    }
}

/// Makes a known step name another statement, over fresh work variables, and gives its new children what fits.
fn rename<L: Ledger>(
    alloc: Global,
    tree: &mut Tree,
    db: &Database,
    at: StmtId,
    set: &Settings,
    step: u32,
    id: StmtId,
    steps: &mut Steps<L>,
) -> Result<(), EditFault>
    requires at { at.0 < length (labels_of db.now) }
    requires own { id.0 < length (labels_of db.now) }
    requires valid { IsProofOf db.now at.0 (target_of tree.old.proof.plain) tree.old.proof }
    requires stands { may_stand db.now at.0 id.0 ≡ true }
    requires exists { (1 ≤ step) × (step ≤ size_of tree.old.proof.plain) }
    ensures tried { IsTried (renamed db.now set.now tree.old.proof step id.0) result tree.new.proof }
    ensures marks { KeepsMarks tree.old.versions tree.new.versions }
    ensures begun { BeginsAlike tree.old.versions tree.new.versions }
    ensures cost { steps.new ≤ steps.old + 2 * (depth_at tree.old.proof.plain step + 1 + length (premises_of db.now id.0)) }
{
    let _ = at;
    // There is no memory for so many steps.
    if hypotheses(db, id).len() > MOST_PREMISES {
        return Err(EditFault::Memory);
    }
    let sigma = draw(alloc, tree, db, id)?;
    let listing = list_named(alloc, tree, db, set, step, id, &sigma)?;
    if has_none(&listing) {
        return Err(EditFault::NoUnifier);
    }
    let theta = only_or_none(alloc, &listing)?;
    tree.replace(alloc, db, step, id, &sigma, &theta, steps)?;
    Ok(())
}

/// Makes a known step name another statement, as drafts: over fresh work variables, and a child for each mandatory hypothesis
/// of the statement. The only unifier of its target and its source is applied to the whole tree, and to the trees of its old
/// children; then each new child takes the first of these trees that proves its target, or is an unknown step. Where the edit
/// is refused the proof is as before.
#[tactic(auto, unfolding(mm_base::specs::Refusals::unless, crate::specs::Replacing::replaced))]
pub fn replace<L: Ledger>(
    alloc: Global,
    tree: &mut Tree,
    db: &Database,
    at: StmtId,
    set: &Settings,
    step: u32,
    id: StmtId,
    steps: &mut Steps<L>,
) -> Result<(), EditFault>
    requires at { at.0 < length (labels_of db.now) }
    requires own { id.0 < length (labels_of db.now) }
    requires valid { IsProofOf db.now at.0 (target_of tree.old.proof.plain) tree.old.proof }
    ensures done { IsDone (replaced db.now at.0 set.now tree.old.proof step id.0) result tree.old.proof tree.new.proof }
    ensures marks { KeepsSettled tree.old.versions tree.new.versions }
    ensures begun { HasNoDrafts tree.old.versions → BeginsAlike tree.old.versions tree.new.versions }
    ensures drafts { HasNoDrafts tree.old.versions → OnErr result (HasNoDrafts tree.new.versions) }
    ensures cost { steps.new ≤ steps.old + 2 * (depth_at tree.old.proof.plain step + 1 + length (premises_of db.now id.0)) }
{
    check_standing(db, at, id)?;
    if !has_step(tree, step) {
        return Err(EditFault::NoSuchStep);
    }
    if is_unknown(tree, step) {
        return Err(EditFault::StepUnknown);
    }
    let before = tree.mark();
    let tried = rename(alloc, tree, db, at, set, step, id, steps);
    back_where_refused(tree, before, tried)
}
