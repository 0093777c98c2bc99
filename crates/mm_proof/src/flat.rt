//! The labels of a proof's tree in postorder.

ghost use Rattle.std.specs.Prelude.{◌≡◌, ◌≤◌, ◌+◌, ◌<◌, ◌++◌, length, slice_range, All, IfOk, OnOk};
ghost use Rattle.std.specs.List.{AllByRecursion};
ghost use Rattle.mm_scope.specs.Contents.{labels_of};
ghost use Rattle.mm_proof.specs.Steps.{IsOwn};
ghost use Rattle.mm_proof.specs.Encodes.{IsFlat};
ghost use Rattle.mm_proof.specs.Flattening.{begin_at, Lays};

use crate::arity::takes;
use crate::step::{ProofStep, StepKind};
use mm_scope::Database;
use std::alloc::{AllocError, Global};

/// Where the labels of a tree stand.
#[derive(Clone, Copy)]
pub struct Stretch {
    pub begin: usize,
    pub end: usize,
}

/// Where the labels of a tree begin that takes the trees on the stack from one on.
fn begin_at(stack: &[usize], from: usize, end: usize) -> usize
    ensures { result ≡ begin_at stack.now from end }
{
    match stack.get(from) {
        Some(begin) => *begin,
        None => end,
    }
}

/// Appends some of the labels once more.
fn repeat(labels: &mut Vec<u64>, begin: usize, end: usize) -> Result<(), AllocError>
    requires { end ≤ length labels.old.items }
    ensures { OnOk result (labels.new.items ≡ labels.old.items ++ slice_range labels.old.items begin end) }
{
    let mut place = begin;
    while place < end {
        let label = labels[place];
        labels.push(label)?;
        place += 1;
    }
    Ok(())
}

/// Appends the labels of a step that are not there yet: its own, or those of the tree that it refers back to.
fn lay(labels: &mut Vec<u64>, trees: &[Stretch], kind: StepKind) -> Result<(), AllocError>
    ensures { OnOk result (Lays labels.old.items labels.new.items trees.now kind) }
{
    match kind {
        StepKind::Hyp(id) | StepKind::Apply(id) => labels.push(id.0 as u64 + 1)?,
        StepKind::Unknown => labels.push(0)?,
        StepKind::Back(step) => {
            if let Some(tree) = trees.get((step as usize).saturating_sub(1)) {
                if tree.end <= labels.len() {
                    repeat(labels, tree.begin, tree.end)?;
                }
            }
        }
    }
    Ok(())
}

/// The labels of the one tree that steps fold to, in postorder, by their numbers. A step that refers back is a copy.
pub(crate) fn flat(
    alloc: Global,
    db: &Database,
    steps: &[ProofStep],
) -> Result<Vec<u64>, AllocError>
    requires { AllByRecursion (λ s. IsOwn db.now s.kind) steps.now }
    ensures flat { IfOk result (λ v. IsFlat db.now steps.now v.items) }
    ensures own { IfOk result (λ v. All (λ l. l < length (labels_of db.now) + 1) v.items) }
{
    let mut labels: Vec<u64> = Vec::new(alloc);
    let mut trees: Vec<Stretch> = Vec::new(alloc);
    let mut stack: Vec<usize> = Vec::new(alloc);
    for step in steps {
        let from = stack.len().saturating_sub(takes(db, step.kind));
        let begin = begin_at(&stack, from, labels.len());
        lay(&mut labels, &trees, step.kind)?;
        let end = labels.len();
        stack.truncate(from);
        stack.push(begin)?;
        trees.push(Stretch { begin, end })?;
    }
    Ok(labels)
}
