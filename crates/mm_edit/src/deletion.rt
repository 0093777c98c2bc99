//! Making steps unknown.

ghost use Rattle.std.specs.Prelude.{◌≡◌, ◌+◌, ◌<◌, ◌≤◌, OnErr, length};
ghost use Rattle.mm_scope.specs.Contents.{labels_of};
ghost use Rattle.mm_plain.specs.Shape.{depth_at, size_of, target_of};
ghost use Rattle.mm_tree.specs.Versions.{BeginsAlike, HasNoDrafts};
ghost use Rattle.mm_edit.specs.Deleting.{deleted, floats_deleted};
ghost use Rattle.mm_edit.specs.Edited.{IsDone, KeepsSettled};
ghost use Rattle.mm_edit.specs.Keeping.{IsProofOf};

use crate::checks::{has_step, is_unknown};
use crate::edit_fault::EditFault;
use mm_base::Steps;
use mm_scope::{Database, StmtId};
use mm_tree::Tree;
use mm_unify::Settings;
use std::alloc::Global;
use std::sync::ledger::Ledger;

/// Makes a known step unknown, as a draft. Where that is refused the tree is as before.
#[tactic(auto, unfolding(mm_base::specs::Refusals::unless, crate::specs::Deleting::deleted))]
pub fn delete<L: Ledger>(
    alloc: Global,
    tree: &mut Tree,
    db: &Database,
    at: StmtId,
    set: &Settings,
    step: u32,
    steps: &mut Steps<L>,
) -> Result<(), EditFault>
    ensures done { IsDone (deleted tree.old.proof step) result tree.old.proof tree.new.proof }
    ensures marks { KeepsSettled tree.old.versions tree.new.versions }
    ensures begun { HasNoDrafts tree.old.versions → BeginsAlike tree.old.versions tree.new.versions }
    ensures drafts { HasNoDrafts tree.old.versions → OnErr result (HasNoDrafts tree.new.versions) }
    ensures cost { steps.new ≤ steps.old + (depth_at tree.old.proof.plain step + 1) }
{
    let _ = db;
    let _ = at;
    let _ = set;
    if !has_step(tree, step) {
        return Err(EditFault::NoSuchStep);
    }
    if is_unknown(tree, step) {
        return Err(EditFault::StepUnknown);
    }
    tree.clear(alloc, step, steps)?;
    Ok(())
}

/// Makes each child that stands for a `$f` unknown, as a draft. Where that is refused the tree is as before.
#[tactic(auto, unfolding(mm_base::specs::Refusals::unless, crate::specs::Deleting::floats_deleted))]
pub fn delete_floats<L: Ledger>(
    alloc: Global,
    tree: &mut Tree,
    db: &Database,
    at: StmtId,
    set: &Settings,
    steps: &mut Steps<L>,
) -> Result<(), EditFault>
    requires at { at.0 < length (labels_of db.now) }
    requires valid { IsProofOf db.now at.0 (target_of tree.old.proof.plain) tree.old.proof }
    ensures done { IsDone (floats_deleted db.now tree.old.proof) result tree.old.proof tree.new.proof }
    ensures marks { KeepsSettled tree.old.versions tree.new.versions }
    ensures begun { HasNoDrafts tree.old.versions → BeginsAlike tree.old.versions tree.new.versions }
    ensures drafts { HasNoDrafts tree.old.versions → OnErr result (HasNoDrafts tree.new.versions) }
    ensures cost { steps.new ≤ steps.old + size_of tree.old.proof.plain }
{
    let _ = at;
    let _ = set;
    if !tree.has_float(db) {
        return Err(EditFault::NothingChanged);
    }
    tree.clear_floats(alloc, db, steps)?;
    Ok(())
}
