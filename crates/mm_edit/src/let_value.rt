//! Letting a string stand for a work variable, or for what a step proves.

ghost use Rattle.std.specs.Prelude.{◌≡◌, ◌<◌, ◌∷◌, [], IfOk, OnErr, length};
ghost use Rattle.mm_scope.specs.Contents.{labels_of};
ghost use Rattle.mm_subst.specs.declared.symbol.WSym.TheVariants.{Work};
ghost use Rattle.mm_plain.specs.Occurring.{holds};
ghost use Rattle.mm_plain.specs.Shape.{target_of};
ghost use Rattle.mm_tree.specs.Versions.{BeginsAlike, HasNoDrafts};
ghost use Rattle.mm_edit.specs.Edited.{IsDone, KeepsSettled};
ghost use Rattle.mm_edit.specs.Keeping.{IsProofOf};
ghost use Rattle.mm_edit.specs.Letting.{step_let, variable_let};

use crate::checks::has_step;
use crate::edit_fault::EditFault;
use crate::listing::{apply_to_tree, list, only};
use mm_base::Steps;
use mm_scope::{Database, StmtId};
use mm_subst::{Subst, WStr, WSym};
use mm_tree::Tree;
use mm_unify::Settings;
use std::alloc::{AllocError, Global};
use std::sync::ledger::Ledger;

/// Applies the only unifier of the target of a step with a text, as a draft. Where that is refused the tree is as before.
#[tactic(auto, unfolding(mm_base::specs::Refusals::unless, mm_base::specs::Refusals::given, crate::specs::Letting::step_let))]
pub fn let_step<L: Ledger>(
    alloc: Global,
    tree: &mut Tree,
    db: &Database,
    at: StmtId,
    set: &Settings,
    step: u32,
    value: &WStr,
    steps: &mut Steps<L>,
) -> Result<(), EditFault>
    requires at { at.0 < length (labels_of db.now) }
    requires valid { IsProofOf db.now at.0 (target_of tree.old.proof.plain) tree.old.proof }
    ensures done { IsDone (step_let db.now set.now tree.old.proof step value.now) result tree.old.proof tree.new.proof }
    ensures marks { KeepsSettled tree.old.versions tree.new.versions }
    ensures begun { HasNoDrafts tree.old.versions → BeginsAlike tree.old.versions tree.new.versions }
    ensures drafts { HasNoDrafts tree.old.versions → OnErr result (HasNoDrafts tree.new.versions) }
    ensures cost { steps.new ≡ steps.old }
{
    let _ = at;
    let _ = steps;
    if !has_step(tree, step) {
        return Err(EditFault::NoSuchStep);
    }
    let target = tree.target(alloc, step)?;
    let listing = list(alloc, db, set, &target, value)?;
    let theta = only(&listing)?;
    apply_to_tree(alloc, tree, db, theta)
}

/// Whether a string has the work variable with a number.
fn holds(value: &WStr, number: u32) -> bool
    ensures { result ≡ holds number value.now }
{
    value
        .symbols()
        .iter()
        .any(|symbol| WSym::Work(number).is_same(*symbol))
}

/// The substitution of a string for one work variable.
fn one_pair(alloc: Global, number: u32, value: &WStr) -> Result<Subst, AllocError>
    ensures { IfOk result (λ s. s ≡ (Work number, value.now) ∷ []) }
{
    let mut theta = Subst::new(alloc);
    theta.put(alloc, WSym::Work(number), value.copy(alloc)?)?;
    Ok(theta)
}

/// Puts a string for each occurrence of a work variable, as a draft. Where that is refused the tree is as before.
#[tactic(auto, unfolding(mm_base::specs::Refusals::unless, crate::specs::Letting::variable_let))]
pub fn let_variable<L: Ledger>(
    alloc: Global,
    tree: &mut Tree,
    db: &Database,
    at: StmtId,
    set: &Settings,
    number: u32,
    value: &WStr,
    steps: &mut Steps<L>,
) -> Result<(), EditFault>
    requires at { at.0 < length (labels_of db.now) }
    requires valid { IsProofOf db.now at.0 (target_of tree.old.proof.plain) tree.old.proof }
    ensures done { IsDone (variable_let db.now tree.old.proof number value.now) result tree.old.proof tree.new.proof }
    ensures marks { KeepsSettled tree.old.versions tree.new.versions }
    ensures begun { HasNoDrafts tree.old.versions → BeginsAlike tree.old.versions tree.new.versions }
    ensures drafts { HasNoDrafts tree.old.versions → OnErr result (HasNoDrafts tree.new.versions) }
    ensures cost { steps.new ≡ steps.old }
{
    let _ = at;
    let _ = set;
    let _ = steps;
    if holds(value, number) {
        return Err(EditFault::OccursInValue);
    }
    if !tree.occurs(alloc, number)? {
        return Err(EditFault::NothingChanged);
    }
    let theta = one_pair(alloc, number, value)?;
    apply_to_tree(alloc, tree, db, &theta)
}
