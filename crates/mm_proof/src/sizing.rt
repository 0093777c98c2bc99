//! The size of a proof's label tree.

ghost use Rattle.std.specs.Prelude.{◌≡◌, ◌-◌, IfOk, get_or};
ghost use Rattle.std.specs.List.{AllByRecursion};
ghost use Rattle.mm_proof.specs.Steps.{IsOwn};
ghost use Rattle.mm_proof.specs.Forests.{trees_in};
ghost use Rattle.mm_proof.specs.Shapes.{joined_shape, shape_by};
ghost use Rattle.mm_proof.specs.Shaping.{shape_at};

use crate::arity::takes;
use crate::extent::{MOST_TOLD, Shape};
use crate::step::{ProofStep, ProofSteps, StepKind};
use mm_scope::{Database, StmtId};
use std::alloc::{AllocError, Global};

/// The shape of a label over trees with these shapes.
fn joined(children: &[Shape]) -> Shape
    ensures { result ≡ joined_shape children.now }
{
    let mut steps: u64 = 1;
    let mut height: u64 = 0;
    for child in children {
        steps = steps.saturating_add(child.steps).min(MOST_TOLD);
        height = height.max(child.height);
    }
    Shape {
        steps,
        height: height.saturating_add(1).min(MOST_TOLD),
    }
}

/// The shape of a step's tree, over the trees that it takes; nothing where it refers back to no step.
fn shape_at(trees: &[Shape], children: &[Shape], kind: StepKind) -> Option<Shape>
    ensures { result ≡ shape_at trees.now children.now kind }
{
    match kind {
        StepKind::Back(step) => match trees.get((step as usize).saturating_sub(1)) {
            Some(shape) => Some(*shape),
            None => None,
        },
        StepKind::Hyp(_) | StepKind::Apply(_) | StepKind::Unknown => Some(joined(children)),
    }
}

/// The shape of the one label tree that steps fold to.
fn shape_of(alloc: Global, db: &Database, steps: &[ProofStep]) -> Result<Option<Shape>, AllocError>
    requires { AllByRecursion (λ s. IsOwn db.now s.kind) steps.now }
    ensures { IfOk result (λ s. s ≡ shape_by (trees_in db.now steps.now)) }
{
    let mut trees: Vec<Shape> = Vec::new(alloc);
    let mut stack: Vec<Shape> = Vec::new(alloc);
    for step in steps {
        let count = takes(db, step.kind);
        if count > stack.len() {
            return Ok(None);
        }
        let from = stack.len() - count;
        let Some(shape) = shape_at(&trees, &stack[from..], step.kind) else {
            return Ok(None);
        };
        stack.truncate(from);
        stack.push(shape)?;
        trees.push(shape)?;
    }
    if stack.len() != 1 {
        return Ok(None);
    }
    Ok(Some(stack[0]))
}

/// The shape of the one label tree that steps fold to; `None` exactly where they don't fold to one tree. No copy is made: the
/// time is linear in the steps.
pub fn shape(
    alloc: Global,
    db: &Database,
    id: StmtId,
    steps: &ProofSteps,
) -> Result<Option<Shape>, AllocError>
    requires { AllByRecursion (λ s. IsOwn db.now s.kind) steps.now }
    ensures { IfOk result (λ s. s ≡ shape_by (trees_in db.now steps.now)) }
{
    let _ = id;
    shape_of(alloc, db, steps.steps())
}
