//! Applying only unifiers, as long as a pending step has one.

ghost use Rattle.std.specs.Prelude.{◌≡◌, ◌<◌, ◌≤◌, IfOk, OnErr, OnOk, None, length, true};
ghost use Rattle.mm_scope.specs.Contents.{labels_of};
ghost use Rattle.mm_plain.specs.Numbers.{HasOwnLabels};
ghost use Rattle.mm_plain.specs.Shape.{size_of, step_at, steps_of, target_of};
ghost use Rattle.mm_plain.specs.Sources.{is_pending};
ghost use Rattle.mm_tree.specs.Versions.{BeginsAlike, HasNoDrafts, KeepsMarks};
ghost use Rattle.mm_edit.specs.Edited.{IsDone, IsTried, KeepsSettled};
ghost use Rattle.mm_edit.specs.Keeping.{IsProofOf};
ghost use Rattle.mm_edit.specs.Quiet.{AreQuiet};
ghost use Rattle.mm_edit.specs.Unifying.{all_unified, first_unifier, unified_in, unifier_at};

use crate::edit_fault::EditFault;
use crate::going_back::back_where_refused;
use crate::listing::{apply_to_tree, only};
use crate::quiet::Quiet;
use crate::unification::list_at;
use mm_base::Steps;
use mm_scope::{Database, StmtId};
use mm_subst::Subst;
use mm_tree::Tree;
use mm_unify::Settings;
use std::alloc::{AllocError, Global};
use std::sync::ledger::Ledger;

/// The only unifier of a pending step. Nothing is searched where it is known that there is none.
fn only_at(
    alloc: Global,
    tree: &Tree,
    db: &Database,
    set: &Settings,
    step: u32,
    quiet: &mut Quiet,
) -> Result<Option<Subst>, AllocError>
    requires exists { (1 ≤ step) × (step ≤ size_of tree.now.proof.plain) }
    requires pending { is_pending db.now (step_at tree.now.proof.plain step) ≡ true }
    requires own { HasOwnLabels db.now tree.now.proof.plain }
    requires quiet { AreQuiet db.now set.now tree.now.proof.plain quiet.old }
    ensures only { IfOk result (λ o. o ≡ unifier_at db.now set.now (step_at tree.now.proof.plain step)) }
    ensures quiet { OnOk result (AreQuiet db.now set.now tree.now.proof.plain quiet.new) }
{
    if quiet.has(step) {
        return Ok(None);
    }
    let listing = list_at(alloc, tree, db, set, step)?;
    if let Ok(theta) = only(&listing) {
        return Ok(Some(theta.copy(alloc)?));
    }
    quiet.add(step)?;
    Ok(None)
}

/// The only unifier of the first pending step that has one.
fn first_unifier(
    alloc: Global,
    tree: &Tree,
    db: &Database,
    set: &Settings,
    quiet: &mut Quiet,
) -> Result<Option<Subst>, AllocError>
    requires own { HasOwnLabels db.now tree.now.proof.plain }
    requires quiet { AreQuiet db.now set.now tree.now.proof.plain quiet.old }
    ensures first { IfOk result (λ o. o ≡ first_unifier db.now set.now (steps_of tree.now.proof.plain)) }
    ensures quiet { OnOk result (AreQuiet db.now set.now tree.now.proof.plain quiet.new) }
{
    let pending = tree.pending_steps(alloc, db)?;
    for step in &pending {
        if let Some(theta) = only_at(alloc, tree, db, set, *step, quiet)? {
            return Ok(Some(theta));
        }
    }
    Ok(None)
}

/// Applies so many unifiers at most, each that of the first step that then has one.
fn unify_in(
    alloc: Global,
    tree: &mut Tree,
    db: &Database,
    at: StmtId,
    set: &Settings,
    most: usize,
    quiet: &mut Quiet,
) -> Result<(), EditFault>
    requires at { at.0 < length (labels_of db.now) }
    requires valid { IsProofOf db.now at.0 (target_of tree.old.proof.plain) tree.old.proof }
    requires quiet { AreQuiet db.now set.now tree.old.proof.plain quiet.old }
    ensures tried { IsTried (unified_in most db.now set.now tree.old.proof) result tree.new.proof }
    ensures marks { KeepsMarks tree.old.versions tree.new.versions }
    ensures begun { BeginsAlike tree.old.versions tree.new.versions }
{
    let _ = at;
    let mut left = most;
    while left > 0 {
        let Some(theta) = first_unifier(alloc, tree, db, set, quiet)? else {
            return Ok(());
        };
        quiet.forget(alloc, tree, db, &theta)?;
        apply_to_tree(alloc, tree, db, &theta)?;
        left -= 1;
    }
    Ok(())
}

/// Applies, as long as some pending step has an only unifier, that of the first such step, as drafts. Where there is none at
/// the start, or a string would get too long, the proof is as before.
#[tactic(auto, unfolding(mm_base::specs::Refusals::unless, crate::specs::Unifying::all_unified))]
pub fn unify_all<L: Ledger>(
    alloc: Global,
    tree: &mut Tree,
    db: &Database,
    at: StmtId,
    set: &Settings,
    steps: &mut Steps<L>,
) -> Result<(), EditFault>
    requires at { at.0 < length (labels_of db.now) }
    requires valid { IsProofOf db.now at.0 (target_of tree.old.proof.plain) tree.old.proof }
    ensures done { IsDone (all_unified db.now set.now tree.old.proof) result tree.old.proof tree.new.proof }
    ensures marks { KeepsSettled tree.old.versions tree.new.versions }
    ensures begun { HasNoDrafts tree.old.versions → BeginsAlike tree.old.versions tree.new.versions }
    ensures drafts { HasNoDrafts tree.old.versions → OnErr result (HasNoDrafts tree.new.versions) }
    ensures cost { steps.new ≡ steps.old }
{
    let _ = steps;
    let pending = tree.pending_steps(alloc, db)?;
    let mut quiet = Quiet::new(alloc);
    let first = first_unifier(alloc, tree, db, set, &mut quiet)?;
    if first.is_none() {
        return Err(EditFault::NothingChanged);
    }
    let before = tree.mark();
    let tried = unify_in(alloc, tree, db, at, set, pending.len(), &mut quiet);
    back_where_refused(tree, before, tried)
}
