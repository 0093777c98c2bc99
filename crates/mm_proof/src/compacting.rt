//! The steps that a compressed proof writes for a label tree.

ghost use Rattle.std.specs.Prelude.{◌≡◌, ◌<◌, ◌≤◌, ◌+◌, length, All, IfOk, None, if◌then◌else◌};
ghost use Rattle.mm_proof.specs.Compacting.{Compacts, named};
ghost use Rattle.mm_proof.specs.TreeNames.{place_at};
ghost use Rattle.mm_scope.specs.Contents.{labels_of};
ghost use Rattle.mm_proof.specs.Forests.{arity_of};
ghost use Rattle.mm_proof.specs.Parts.{Placed, Keeps, knows_all, start_of};

use crate::arity::arity_of;
use crate::table::{Part, Table, joined};
use crate::written::Step;
use mm_scope::{Database, StmtId};
use std::alloc::{AllocError, Global};

/// Whether no step is unknown, at a label with these children.
fn is_known(children: &[Part], label: u64) -> bool
    ensures { result ≡ knows_all label children.now }
{
    for part in children {
        if !part.known {
            return false;
        }
    }
    label != 0
}

/// The step with which the steps of a tree with these children begin, where so many are written.
fn start_of(children: &[Part], count: u64) -> u64
    ensures { result ≡ start_of count children.now }
{
    match children.first() {
        Some(part) => part.start,
        None => count,
    }
}

/// A label's step.
fn step_named(label: u64) -> Step
    ensures { result ≡ named label }
{
    if label == 0 {
        Step::Unknown
    } else {
        Step::Label(label)
    }
}

/// The step where a tree is written whole, if it has no unknown step.
fn place_of(table: &Table, known: bool, name: u64) -> Option<u64>
    ensures { result ≡ (if known then place_at table.now name else None) }
{
    if known { table.place(name) } else { None }
}

/// Keeps the step where a tree is written whole, if it has no unknown step.
fn keep(table: &mut Table, known: bool, name: u64, place: u64)
    ensures { Keeps known table.old table.new name place }
{
    if known {
        table.set_place(name, place);
    }
}

/// Writes the step of a label behind those of its children, or one back reference in their place.
fn placed(
    table: &mut Table,
    steps: &mut Vec<Step>,
    children: &[Part],
    label: u64,
) -> Result<Part, AllocError>
    ensures { IfOk result (Placed table.old table.new steps.old.items steps.new.items children.now label) }
{
    let name = joined(table, children, label)?;
    let known = is_known(children, label);
    let start = start_of(children, steps.len() as u64);
    if let Some(place) = place_of(table, known, name) {
        steps.truncate(start as usize);
        steps.push(Step::Back(place))?;
        return Ok(Part { name, start, known });
    }
    keep(table, known, name, steps.len() as u64);
    steps.push(step_named(label))?;
    Ok(Part { name, start, known })
}

/// How many trees a label takes.
fn arity(db: &Database, label: u64) -> usize
    requires { label ≤ length (labels_of db.now) }
    ensures { result ≡ arity_of db.now label }
{
    let count = db.count() as u64;
    if label == 0 || label > count {
        return 0;
    }
    arity_of(db, StmtId((label - 1) as u32))
}

/// The steps of the one tree that labels in postorder are, by their numbers. A subtree that was written before is written as
/// a back reference; a table tells it by its label and the numbers of its children.
pub(crate) fn compact(alloc: Global, db: &Database, labels: &[u64]) -> Result<Vec<Step>, AllocError>
    requires own { All (λ l. l < length (labels_of db.now) + 1) labels.now }
    ensures { IfOk result (λ v. Compacts (arity_of db.now) labels.now v.items) }
{
    let mut table = Table::new(alloc, db.count() as u64 + 1);
    let mut stack = Vec::new(alloc);
    let mut steps = Vec::new(alloc);
    for label in labels {
        let from = stack.len().saturating_sub(arity(db, *label));
        let part = placed(&mut table, &mut steps, &stack[from..], *label)?;
        stack.truncate(from);
        stack.push(part)?;
    }
    Ok(steps)
}
