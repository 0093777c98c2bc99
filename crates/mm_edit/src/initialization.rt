//! Fresh work variables for the known steps of a part.

ghost use Rattle.std.specs.Prelude.{◌≡◌, ◌+◌, ◌<◌, ◌≤◌, OnErr, length, min};
ghost use Rattle.mm_scope.specs.Contents.{labels_of};
ghost use Rattle.mm_plain.specs.Drawing.{draws_of};
ghost use Rattle.mm_plain.specs.Numbers.{HasOwnLabels};
ghost use Rattle.mm_plain.specs.Shape.{depth_at, size_of, step_at, target_of};
ghost use Rattle.mm_plain.specs.Valid.{most_works};
ghost use Rattle.mm_tree.specs.Versions.{BeginsAlike, HasNoDrafts, KeepsMarks};
ghost use Rattle.mm_edit.specs.Edited.{IsDone, IsTried, KeepsSettled};
ghost use Rattle.mm_edit.specs.Initializing.{all_initialized, drawn_anew, initialized, part_initialized};
ghost use Rattle.mm_edit.specs.Keeping.{IsProofOf};

use crate::checks::{has_step, is_unknown};
use crate::edit_fault::EditFault;
use crate::going_back::back_where_refused;
use mm_base::Steps;
use mm_scope::{Database, StmtId};
use mm_tree::Tree;
use mm_unify::Settings;
use std::alloc::Global;
use std::sync::ledger::Ledger;

/// Draws so many work variables, and gives them to the known steps of the part at a step.
#[tactic(auto, unfolding(mm_base::specs::Refusals::unless))]
fn draw_anew<L: Ledger>(
    alloc: Global,
    tree: &mut Tree,
    db: &Database,
    step: u32,
    needed: u32,
    steps: &mut Steps<L>,
) -> Result<(), EditFault>
    requires exists { (1 ≤ step) × (step ≤ size_of tree.old.proof.plain) }
    requires own { HasOwnLabels db.now tree.old.proof.plain }
    requires needed { needed ≡ min (draws_of db.now (step_at tree.old.proof.plain step)) (most_works + 1) }
    requires first { 1 ≤ tree.old.proof.next }
    ensures tried { IsTried (drawn_anew db.now tree.old.proof step) result tree.new.proof }
    ensures marks { KeepsMarks tree.old.versions tree.new.versions }
    ensures begun { BeginsAlike tree.old.versions tree.new.versions }
    ensures cost { steps.new ≤ steps.old + (depth_at tree.old.proof.plain step + size_of (step_at tree.old.proof.plain step)) }
{
    tree.fresh(needed)?;
    tree.renew(alloc, db, step, steps)?;
    Ok(())
}

/// Gives fresh work variables to the known steps of the part at a step, where there are any that need some.
#[tactic(auto, unfolding(mm_base::specs::Refusals::unless))]
fn initialize_part<L: Ledger>(
    alloc: Global,
    tree: &mut Tree,
    db: &Database,
    at: StmtId,
    step: u32,
    steps: &mut Steps<L>,
) -> Result<(), EditFault>
    requires at { at.0 < length (labels_of db.now) }
    requires valid { IsProofOf db.now at.0 (target_of tree.old.proof.plain) tree.old.proof }
    requires exists { (1 ≤ step) × (step ≤ size_of tree.old.proof.plain) }
    ensures done { IsDone (part_initialized db.now tree.old.proof step) result tree.old.proof tree.new.proof }
    ensures marks { KeepsSettled tree.old.versions tree.new.versions }
    ensures begun { HasNoDrafts tree.old.versions → BeginsAlike tree.old.versions tree.new.versions }
    ensures drafts { HasNoDrafts tree.old.versions → OnErr result (HasNoDrafts tree.new.versions) }
    ensures cost { steps.new ≤ steps.old + (depth_at tree.old.proof.plain step + size_of (step_at tree.old.proof.plain step)) }
{
    let _ = at;
    let needed = tree.draws(db, step);
    if needed == 0 {
        return Err(EditFault::NothingChanged);
    }
    let before = tree.mark();
    let tried = draw_anew(alloc, tree, db, step, needed, steps);
    back_where_refused(tree, before, tried)
}

/// Gives fresh work variables to the known steps of the part at a known step, as drafts: for the mandatory variables of what
/// each of them names, in postorder. The targets of their children follow; the target of the step stays. Where the edit is
/// refused the proof is as before.
#[tactic(auto, unfolding(mm_base::specs::Refusals::unless, crate::specs::Initializing::initialized))]
pub fn initialize<L: Ledger>(
    alloc: Global,
    tree: &mut Tree,
    db: &Database,
    at: StmtId,
    set: &Settings,
    step: u32,
    steps: &mut Steps<L>,
) -> Result<(), EditFault>
    requires at { at.0 < length (labels_of db.now) }
    requires valid { IsProofOf db.now at.0 (target_of tree.old.proof.plain) tree.old.proof }
    ensures done { IsDone (initialized db.now tree.old.proof step) result tree.old.proof tree.new.proof }
    ensures marks { KeepsSettled tree.old.versions tree.new.versions }
    ensures begun { HasNoDrafts tree.old.versions → BeginsAlike tree.old.versions tree.new.versions }
    ensures drafts { HasNoDrafts tree.old.versions → OnErr result (HasNoDrafts tree.new.versions) }
    ensures cost { steps.new ≤ steps.old + (depth_at tree.old.proof.plain step + size_of (step_at tree.old.proof.plain step)) }
{
    let _ = set;
    if !has_step(tree, step) {
        return Err(EditFault::NoSuchStep);
    }
    if is_unknown(tree, step) {
        return Err(EditFault::StepUnknown);
    }
    initialize_part(alloc, tree, db, at, step, steps)
}

/// Gives fresh work variables to all known steps, as drafts. Where the edit is refused the proof is as before.
pub fn initialize_all<L: Ledger>(
    alloc: Global,
    tree: &mut Tree,
    db: &Database,
    at: StmtId,
    set: &Settings,
    steps: &mut Steps<L>,
) -> Result<(), EditFault>
    requires at { at.0 < length (labels_of db.now) }
    requires valid { IsProofOf db.now at.0 (target_of tree.old.proof.plain) tree.old.proof }
    ensures done { IsDone (all_initialized db.now tree.old.proof) result tree.old.proof tree.new.proof }
    ensures marks { KeepsSettled tree.old.versions tree.new.versions }
    ensures begun { HasNoDrafts tree.old.versions → BeginsAlike tree.old.versions tree.new.versions }
    ensures drafts { HasNoDrafts tree.old.versions → OnErr result (HasNoDrafts tree.new.versions) }
    ensures cost { steps.new ≤ steps.old + size_of tree.old.proof.plain }
{
    let _ = set;
    initialize_part(alloc, tree, db, at, tree.size(), steps)
}
