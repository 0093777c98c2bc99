//! The labels of the tree that the steps of a proof fold to, in postorder.

ghost use Rattle.std.specs.Prelude.{◌≡◌, ◌≤◌, ◌++◌, length, map, slice_range, All, IfOk, OnOk};
ghost use Rattle.std.specs.List.{AllByRecursion};
ghost use Rattle.mm_scope.specs.Contents.{labels_of};
ghost use Rattle.mm_proof.specs.Steps.{IsOwn};
ghost use Rattle.mm_proof.specs.Arities.{takes};
ghost use Rattle.mm_proof.specs.Flattening.{begin_at, Lays};
ghost use Rattle.mm_plain.specs.Numbers.{IsOwnLabel};
ghost use Rattle.mm_edit.specs.Labelling.{AreLabels, number_for};

use mm_proof::{ProofStep, StepKind};
use mm_scope::{Database, Kind};
use std::alloc::{AllocError, Global};
use std::marker::Model;

/// Where the labels of a tree stand.
#[derive(Drop)]
pub struct Stretch {
    begin: usize,
    end: usize,
}

impl Model for Stretch {
    ghost use Rattle.mm_proof.specs.declared.flat.Stretch.{Stretch};

    ghost Value = { Stretch };

    ghost view = { λ s. record { begin = s.begin; end = s.end } };
}

/// How many trees a step takes.
#[tactic(auto, unfolding(mm_proof::specs::Forests::arity_of))]
fn takes(db: &Database, kind: StepKind) -> usize
    requires { IsOwn db.now kind }
    ensures { result ≡ takes db.now kind }
{
    match kind {
        StepKind::Hyp(id) | StepKind::Apply(id) => match db.kind(id) {
            Kind::Float | Kind::Essential => 0,
            Kind::Axiom | Kind::Theorem => db.frame(id).mandatory.as_slice().len(),
        },
        StepKind::Back(_) | StepKind::Unknown => 0,
    }
}

/// Where the labels of a tree begin that takes the trees on the stack from one on.
fn begin_at(stack: &[usize], from: usize, end: usize) -> usize
    ensures { result ≡ begin_at stack.now from end }
{
    match stack.get(from) {
        Some(begin) => *begin,
        None => end,
    }
}

/// Appends some of the labels once more.
fn repeat(labels: &mut Vec<Option<u32>>, begin: usize, end: usize) -> Result<(), AllocError>
    requires { end ≤ length labels.old.items }
    ensures { OnOk result (labels.new.items ≡ labels.old.items ++ slice_range labels.old.items begin end) }
{
    let mut place = begin;
    while place < end {
        let label = labels[place];
        labels.push(label)?;
        place += 1;
    }
    Ok(())
}

/// Appends the labels of a step that are not there yet: its own, or those of the tree that it refers back to.
fn lay(labels: &mut Vec<Option<u32>>, trees: &[Stretch], kind: StepKind) -> Result<(), AllocError>
    ensures { OnOk result (Lays (map number_for labels.old.items) (map number_for labels.new.items) trees.now kind) }
{
    match kind {
        StepKind::Hyp(id) | StepKind::Apply(id) => labels.push(Some(id.0))?,
        StepKind::Unknown => labels.push(None)?,
        StepKind::Back(step) => {
            if let Some(tree) = trees.get((step as usize).saturating_sub(1)) {
                if tree.end <= labels.len() {
                    repeat(labels, tree.begin, tree.end)?;
                }
            }
        }
    }
    Ok(())
}

/// The labels of the one tree that steps fold to, in postorder. A step that refers back is a copy.
pub fn label_list(
    alloc: Global,
    db: &Database,
    steps: &[ProofStep],
) -> Result<Vec<Option<u32>>, AllocError>
    requires { AllByRecursion (λ s. IsOwn db.now s.kind) steps.now }
    ensures labels { IfOk result (λ v. AreLabels db.now steps.now v.items) }
    ensures own { IfOk result (λ v. All (IsOwnLabel db.now) v.items) }
{
    let mut labels: Vec<Option<u32>> = Vec::new(alloc);
    let mut trees: Vec<Stretch> = Vec::new(alloc);
    let mut stack: Vec<usize> = Vec::new(alloc);
    for step in steps {
        let from = stack.len().saturating_sub(takes(db, step.kind));
        let begin = begin_at(&stack, from, labels.len());
        lay(&mut labels, &trees, step.kind)?;
        let end = labels.len();
        stack.truncate(from);
        stack.push(begin)?;
        trees.push(Stretch { begin, end })?;
    }
    Ok(labels)
}
