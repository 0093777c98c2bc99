//! The rows of a tree, which follow from its labels, and the nodes that they make.

ghost use Rattle.std.specs.Prelude.{◌≡◌, ◌+◌, ◌-◌, ◌<◌, ◌≤◌, ◌^◌, ◌++◌, ◌∷◌, ℕ, [], List, Option, All, IfOk, OnOk, drop, get_or, length, map, reverse};
ghost use Rattle.mm_scope.specs.Contents.{labels_of};
ghost use Rattle.mm_subst.specs.Substitutions.{applied};
ghost use Rattle.mm_plain.specs.declared.plain.Plain.{Plain};
ghost use Rattle.mm_plain.specs.Drawing.{draws_by};
ghost use Rattle.mm_plain.specs.LabelTrees.{takes};
ghost use Rattle.mm_plain.specs.Numbers.{IsOwnLabel};
ghost use Rattle.mm_plain.specs.Premises.{premises_of};
ghost use Rattle.mm_plain.specs.Rows.{fresh_rows, tree_with, with_rows};
ghost use Rattle.mm_plain.specs.Valid.{most_steps, most_works};
ghost use Rattle.mm_tree.specs.Labelled.{draws_all};
ghost use Rattle.mm_tree.specs.View.{counts, values};
ghost use Rattle.mm_tree.specs.Written.{written};

use crate::fresh::last_fresh;
use crate::node::Node;
use crate::premises::{goal, premises, text, unknown_node};
use crate::timed::Values;
use mm_base::{Made, Steps};
use mm_scope::{Database, StmtId};
use mm_subst::{Subst, WStr};
use std::alloc::{AllocError, Global};
use std::marker::Model;
use std::rc::Rc;
use std::sync::ledger::Ledger;

/// What a step has besides its children: the string that it proves, what it names, and what stands for the variables of that.
#[derive(Drop)]
pub struct Row {
    target: WStr,
    label: Option<u32>,
    sigma: Subst,
}

impl Model for Row {
    ghost use Rattle.mm_plain.specs.Rows.{Row};

    ghost Value = { Row };

    ghost view = { λ r. record { target = r.target; label = r.label; sigma = r.sigma } };
}

/// Takes the last of some strings; the empty string where there is none.
fn pop_target(alloc: Global, targets: &mut Vec<WStr>) -> Result<WStr, AllocError>
    ensures target { IfOk result (λ t. t ≡ get_or (reverse targets.old.items) 0 []) }
    ensures rest { IfOk result (λ t. reverse targets.new.items ≡ drop 1 (reverse targets.old.items)) }
{
    match targets.pop() {
        Some(target) => Ok(target),
        None => WStr::new(alloc, &[]),
    }
}

/// Appends each premise of a statement under a substitution.
fn push_goals(
    alloc: Global,
    db: &Database,
    id: StmtId,
    sigma: &Subst,
    targets: &mut Vec<WStr>,
) -> Result<(), AllocError>
    requires own { id.0 < length (labels_of db.now) }
    requires short { All (λ h. length (applied sigma.now h) ≤ 32768) (premises_of db.now id.0) }
    ensures { OnOk result (targets.new.items ≡ targets.old.items ++ map (applied sigma.now) (premises_of db.now id.0)) }
{
    let premises = premises(db, id);
    for premise in premises {
        targets.push(goal(alloc, db, sigma, StmtId(*premise))?)?;
    }
    Ok(())
}

/// The row of a label, where rows are made from the last to the first: its target is the last of the targets, and its work
/// variables have the numbers before the next one.
fn row_before(
    alloc: Global,
    db: &Database,
    label: Option<u32>,
    targets: &mut Vec<WStr>,
    next: &mut u32,
) -> Result<Row, AllocError>
    requires own { IsOwnLabel db.now label }
    requires drawn { draws_by db.now label ≤ next.old }
    requires last { next.old ≤ most_works + 1 }
    ensures row { IfOk result (λ r. (os : List (Option ℕ)) → fresh_rows db.now next.old (reverse targets.old.items) (label ∷ os) ≡ r ∷ fresh_rows db.now next.new (reverse targets.new.items) os) }
    ensures next { IfOk result (λ r. next.new + draws_by db.now label ≡ next.old) }
{
    let target = pop_target(alloc, targets)?;
    match label {
        Some(id) => {
            let sigma = last_fresh(alloc, db, StmtId(id), next)?;
            push_goals(alloc, db, StmtId(id), &sigma, targets)?;
            Ok(Row {
                target,
                label,
                sigma,
            })
        }
        None => Ok(Row {
            target,
            label,
            sigma: Subst::new(alloc),
        }),
    }
}

/// The rows of a tree with these labels and fresh work variables, from the last to the first. The number after its work
/// variables is given.
pub fn fresh_rows(
    alloc: Global,
    db: &Database,
    target: WStr,
    labels: &[Option<u32>],
    next: u32,
) -> Result<Vec<Row>, AllocError>
    requires own { All (IsOwnLabel db.now) labels.now }
    requires drawn { draws_all db.now labels.now ≤ next }
    requires last { next ≤ most_works + 1 }
    ensures { IfOk result (λ v. v.items ≡ fresh_rows db.now next (target ∷ []) (reverse labels.now)) }
{
    let mut rows = Vec::with_capacity(alloc, labels.len())?;
    let mut targets = Vec::new(alloc);
    targets.push(target)?;
    let mut before = next;
    let mut left = labels.len();
    while left > 0 {
        left -= 1;
        rows.push(row_before(alloc, db, labels[left], &mut targets, &mut before)?)?;
    }
    Ok(rows)
}

/// How many trees a label takes.
fn takes(db: &Database, label: Option<u32>) -> usize
    requires { IsOwnLabel db.now label }
    ensures { result ≡ takes db.now label }
{
    match label {
        Some(id) => premises(db, StmtId(id)).len(),
        None => 0,
    }
}

/// The node of a row over its children.
fn node_over<L: Ledger>(
    alloc: Global,
    row: Row,
    kids: Vec<Rc<Node>>,
    steps: &mut Steps<L>,
) -> Result<Rc<Node>, AllocError>
    requires { counts kids.items < 2 ^ 63 }
    ensures node { IfOk result (λ r. (xs : List Plain) → values kids.items ≡ map (written 0) xs → r.value ≡ written 0 (tree_with row.target row.label row.sigma xs)) }
    ensures cost { steps.new ≤ steps.old + 1 }
{
    let target = text(alloc, 0, row.target)?;
    match row.label {
        Some(label) => {
            let pairs = row.sigma;
            let sigma = Rc::new(alloc, Values { birth: 0, pairs })?;
            let made = Made::new(steps);
            Ok(Rc::new(alloc, Node::known(target, label, sigma, kids, made))?)
        }
        None => unknown_node(alloc, target, steps),
    }
}

/// The nodes that stand after rows, which are given from the last to the first.
pub fn nodes_of<L: Ledger>(
    alloc: Global,
    db: &Database,
    rows: Vec<Row>,
    steps: &mut Steps<L>,
) -> Result<Vec<Rc<Node>>, AllocError>
    requires own { All (λ r. IsOwnLabel db.now r.label) rows.items }
    requires few { length rows.items ≤ most_steps }
    ensures nodes { IfOk result (λ v. values v.items ≡ map (written 0) (with_rows db.now [] (reverse rows.items))) }
    ensures cost { steps.new ≤ steps.old + length rows.items }
{
    let mut left = rows;
    let mut nodes: Vec<Rc<Node>> = Vec::new(alloc);
    while let Some(row) = left.pop() {
        let kept = nodes.len().saturating_sub(takes(db, row.label));
        let kids = nodes.split_off(kept)?;
        nodes.push(node_over(alloc, row, kids, steps)?)?;
    }
    Ok(nodes)
}
