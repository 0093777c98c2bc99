//! The tree of a proof whose steps have the strings that the steps below them give, laid out in one pass over its own steps.

ghost use Rattle.std.specs.Prelude.{◌≡◌, ◌+◌, ◌-◌, ◌<◌, ◌≤◌, ◌++◌, ◌∷◌, [], All, IfNone, IfOk, IfSome, List, OnOk, drop, get_or, length, true, ℕ};
ghost use Rattle.std.specs.List.{AllByRecursion, sum_by};
ghost use Rattle.mm_scope.specs.Contents.{labels_of};
ghost use Rattle.mm_proof.specs.Steps.{IsOwn};
ghost use Rattle.mm_unify.specs.Forbidden.{heeded};
ghost use Rattle.mm_plain.specs.LabelTrees.{MayStand};
ghost use Rattle.mm_plain.specs.Numbers.{IsOwnLabel};
ghost use Rattle.mm_plain.specs.Shape.{size_of};
ghost use Rattle.mm_plain.specs.Valid.{most_steps, most_works};
ghost use Rattle.mm_tree.specs.Labelled.{FoldLow, draws_all};
ghost use Rattle.mm_tree.specs.Plans.{IsPlan, grove_of, no_tree};
ghost use Rattle.mm_tree.specs.Versions.{HasNoDrafts};
ghost use Rattle.mm_edit.specs.Built.{IsBuiltProof};
ghost use Rattle.mm_edit.specs.Laying.{HasOneMore, IsLaidPlan, IsWhole, begin_of};

use crate::laying::{heeded, lay_again, lay_known};
use mm_base::Steps;
use mm_proof::{ProofStep, StepKind};
use mm_scope::{Database, StmtId};
use mm_subst::{Brackets, Subst};
use mm_tree::{Plan, Tree, draws, is_source};
use mm_unify::Settings;
use std::alloc::{AllocError, Global};
use std::sync::ledger::Ledger;

/// Lays out a step that names a statement; false where the next label doesn't name it, or its strings don't fit.
fn lay_named(
    alloc: Global,
    db: &Database,
    at: StmtId,
    set: &Settings,
    pairs: &Option<Brackets>,
    labels: &[Option<u32>],
    begins: &[usize],
    plan: &mut Plan,
    id: StmtId,
) -> Result<bool, AllocError>
    requires own { id.0 < length (labels_of db.now) }
    requires pairs { pairs.now ≡ heeded db.now set.now.rule }
    requires stand { All (MayStand db.now at.0) labels.now }
    requires few { length labels.now ≤ most_steps }
    requires laid { IsLaidPlan db.now at.0 set.now labels.now begins.now plan.old }
    ensures { IfOk result (λ laid. laid ≡ true → HasOneMore db.now at.0 set.now labels.now begins.now plan.new) }
{
    let _ = at;
    let _ = begins;
    let next = plan.steps() as usize;
    if next >= labels.len() || labels[next] != Some(id.0) {
        return Ok(false);
    }
    lay_known(alloc, db, set, pairs, plan, id)
}

/// Lays out the tree of an earlier step once more, by the number of that step, counted from 1; false where there is no such
/// step, or the next labels are not those of its tree.
fn lay_back(
    db: &Database,
    at: StmtId,
    set: &Settings,
    labels: &[Option<u32>],
    begins: &[usize],
    plan: &mut Plan,
    number: u32,
) -> Result<bool, AllocError>
    requires few { length labels.now ≤ most_steps }
    requires laid { IsLaidPlan db.now at.0 set.now labels.now begins.now plan.old }
    ensures { IfOk result (λ laid. laid ≡ true → HasOneMore db.now at.0 set.now labels.now begins.now plan.new) }
{
    let _ = db;
    let _ = at;
    let _ = set;
    let step = (number as usize).saturating_sub(1);
    let Some(begin) = begins.get(step) else {
        return Ok(false);
    };
    lay_again(labels, plan, *begin, step)
}

/// Lays out a step; false where it is unknown, or it doesn't fit.
fn lay(
    alloc: Global,
    db: &Database,
    at: StmtId,
    set: &Settings,
    pairs: &Option<Brackets>,
    labels: &[Option<u32>],
    begins: &[usize],
    plan: &mut Plan,
    kind: StepKind,
) -> Result<bool, AllocError>
    requires own { IsOwn db.now kind }
    requires pairs { pairs.now ≡ heeded db.now set.now.rule }
    requires stand { All (MayStand db.now at.0) labels.now }
    requires few { length labels.now ≤ most_steps }
    requires laid { IsLaidPlan db.now at.0 set.now labels.now begins.now plan.old }
    ensures { IfOk result (λ laid. laid ≡ true → HasOneMore db.now at.0 set.now labels.now begins.now plan.new) }
{
    match kind {
        StepKind::Hyp(id) | StepKind::Apply(id) => {
            lay_named(alloc, db, at, set, pairs, labels, begins, plan, id)
        }
        StepKind::Back(number) => lay_back(db, at, set, labels, begins, plan, number),
        StepKind::Unknown => Ok(false),
    }
}

/// Appends where the labels of the last step's tree begin.
fn push_begin(plan: &Plan, begins: &mut Vec<usize>) -> Result<(), AllocError>
    requires plan { IsPlan plan.now }
    requires exists { length begins.old.items < length (grove_of plan.now).made }
    requires last { size_of (get_or (grove_of plan.now).made (length begins.old.items) no_tree) ≤ sum_by size_of (grove_of plan.now).standing }
    ensures { OnOk result (begins.new.items ≡ begins.old.items ++ begin_of (grove_of plan.now) (length begins.old.items) ∷ []) }
{
    let begin = plan.steps() - plan.steps_at(begins.len());
    begins.push(begin as usize)?;
    Ok(())
}

/// The plan of a proof's own steps; `None` where one is unknown or doesn't fit. The time is linear in the steps, their strings
/// and the labels.
fn plan_of(
    alloc: Global,
    db: &Database,
    at: StmtId,
    set: &Settings,
    steps: &[ProofStep],
    labels: &[Option<u32>],
) -> Result<Option<Plan>, AllocError>
    requires own { AllByRecursion (λ s. IsOwn db.now s.kind) steps.now }
    requires stand { All (MayStand db.now at.0) labels.now }
    requires few { length labels.now ≤ most_steps }
    ensures { IfOk result (λ p. IfSome p (λ plan. (begins : List ℕ) × IsLaidPlan db.now at.0 set.now labels.now begins plan)) }
{
    let pairs = heeded(db, set);
    let mut plan = Plan::new(alloc);
    let mut begins: Vec<usize> = Vec::new(alloc);
    for step in steps {
        let begun = begins.as_slice();
        if !lay(
            alloc, db, at, set, &pairs, labels, begun, &mut plan, step.kind,
        )? {
            return Ok(None);
        }
        push_begin(&plan, &mut begins)?;
    }
    Ok(Some(plan))
}

/// The number of the first work variable behind those that labels need; `None` where there is none.
fn next_work(db: &Database, labels: &[Option<u32>]) -> Option<u32>
    requires { All (IsOwnLabel db.now) labels.now }
    ensures { IfSome result (λ n. (n ≡ 1 + draws_all db.now labels.now) × (n ≤ most_works + 1)) }
{
    match draws(db, labels) {
        Ok(drawn) => Some(drawn + 1),
        Err(_) => None,
    }
}

/// Whether one tree stands, which has as many steps as there are labels and proves the theorem.
fn is_whole(alloc: Global, db: &Database, at: StmtId, labels: &[Option<u32>], plan: &Plan) -> bool
    requires own { at.0 < length (labels_of db.now) }
    requires plan { IsPlan plan.now }
    ensures { result ≡ true → IsWhole db.now at.0 labels.now (grove_of plan.now) }
{
    if plan.count() != 1 || plan.steps() != labels.len() as u64 {
        return false;
    }
    is_source(db, at, &Subst::new(alloc), plan.target(0).symbols())
}

/// The tree of a proof whose steps have the strings that the steps below them give; `None` where a step doesn't, or is unknown,
/// or more work variables are needed than there are. No node is counted where there is no such tree.
pub fn built<L: Ledger>(
    alloc: Global,
    db: &Database,
    at: StmtId,
    set: &Settings,
    spelled: &[ProofStep],
    labels: &[Option<u32>],
    steps: &mut Steps<L>,
) -> Result<Option<Tree>, AllocError>
    requires at { at.0 < length (labels_of db.now) }
    requires spelled { AllByRecursion (λ s. IsOwn db.now s.kind) spelled.now }
    requires labels { All (IsOwnLabel db.now) labels.now }
    requires stand { All (MayStand db.now at.0) labels.now }
    requires few { length labels.now ≤ most_steps }
    requires low { FoldLow db.now labels.now }
    ensures built { IfOk result (λ o. IfSome o (λ t. IsBuiltProof db.now at.0 set.now labels.now t.proof)) }
    ensures settled { IfOk result (λ o. IfSome o (λ t. HasNoDrafts t.versions)) }
    ensures none { IfOk result (λ o. IfNone o (steps.new ≡ steps.old)) }
    ensures cost { steps.new ≤ steps.old + length labels.now }
{
    let Some(next) = next_work(db, labels) else {
        return Ok(None);
    };
    let Some(plan) = plan_of(alloc, db, at, set, spelled, labels)? else {
        return Ok(None);
    };
    if !is_whole(alloc, db, at, labels, &plan) {
        return Ok(None);
    }
    let tree = plan.into_tree(alloc, next, steps)?;
    Ok(Some(tree))
}
