//! The premises of a statement, and a known step over them.

ghost use Rattle.std.specs.Prelude.{◌≡◌, ◌+◌, ◌<◌, ◌≤◌, All, IfOk, length, map};
ghost use Rattle.mm_scope.specs.Contents.{labels_of};
ghost use Rattle.mm_subst.specs.Statements.{statement_of};
ghost use Rattle.mm_subst.specs.Substitutions.{applied};
ghost use Rattle.mm_plain.specs.Premises.{premise_ids, premises_of};
ghost use Rattle.mm_tree.specs.Meanings.{unknown_timed};
ghost use Rattle.mm_tree.specs.Placed.{levels_over, unknowns_timed, placed_timed};
ghost use Rattle.mm_tree.specs.View.{values};

use crate::node::Node;
use crate::timed::{Text, Values};
use mm_base::{Made, Steps};
use mm_scope::{Database, Kind, StmtId};
use mm_subst::{Subst, TooLongOrMemory, WStr, apply, statement};
use std::alloc::{AllocError, Global};
use std::rc::Rc;
use std::sync::ledger::Ledger;

/// The ids of the mandatory hypotheses of an assertion, in order; a hypothesis has none.
#[tactic(auto, unfolding(mm_plain::specs::Premises::premises_of, mm_plain::specs::Premises::premise_ids))]
pub fn premises(db: &Database, id: StmtId) -> &[u32]
    requires { id.0 < length (labels_of db.now) }
    ensures ids { result.now ≡ premise_ids db.now id.0 }
    ensures value { map (statement_of db.now) result.now ≡ premises_of db.now id.0 }
    ensures earlier { All (λ m. m < id.0) result.now }
{
    match db.kind(id) {
        Kind::Float | Kind::Essential => &[],
        Kind::Axiom | Kind::Theorem => db.frame(id).mandatory.as_slice(),
    }
}

/// How many levels a step over these premises has.
pub fn levels_over(premises: &[u32]) -> u64
    ensures { result ≡ levels_over (length premises.now) }
{
    if premises.is_empty() { 1 } else { 2 }
}

/// A premise under a substitution.
pub fn goal(
    alloc: Global,
    db: &Database,
    sigma: &Subst,
    premise: StmtId,
) -> Result<WStr, AllocError>
    requires own { premise.0 < length (labels_of db.now) }
    requires short { length (applied sigma.now (statement_of db.now premise.0)) ≤ 32768 }
    ensures { IfOk result (λ s. s ≡ applied sigma.now (statement_of db.now premise.0)) }
{
    let hypothesis = statement(alloc, db, premise)?;
    match apply(alloc, sigma, &hypothesis) {
        Ok(goal) => Ok(goal),
        Err(TooLongOrMemory::TooLong) => unreachable!(),
        Err(TooLongOrMemory::Memory) => Err(AllocError),
    }
}

/// An unknown step.
pub fn unknown_node<L: Ledger>(
    alloc: Global,
    target: Rc<Text>,
    steps: &mut Steps<L>,
) -> Result<Rc<Node>, AllocError>
    ensures node { IfOk result (λ r. r.value ≡ unknown_timed target.value) }
    ensures cost { steps.new ≤ steps.old + 1 }
{
    let made = Made::new(steps);
    Ok(Rc::new(alloc, Node::unknown(target, made))?)
}

/// A string with its birth.
pub fn text(alloc: Global, birth: usize, string: WStr) -> Result<Rc<Text>, AllocError>
    ensures { IfOk result (λ t. t.value ≡ record { birth = birth; string = string }) }
{
    Ok(Rc::new(alloc, Text { birth, string })?)
}

/// An unknown step for each premise.
fn children<L: Ledger>(
    alloc: Global,
    db: &Database,
    premises: &[u32],
    sigma: &Subst,
    birth: usize,
    steps: &mut Steps<L>,
) -> Result<Vec<Rc<Node>>, AllocError>
    requires own { All (λ m. m < length (labels_of db.now)) premises.now }
    requires short { All (λ m. length (applied sigma.now (statement_of db.now m)) ≤ 32768) premises.now }
    ensures nodes { IfOk result (λ v. values v.items ≡ unknowns_timed birth sigma.now (map (statement_of db.now) premises.now)) }
    ensures cost { steps.new ≤ steps.old + length premises.now }
{
    let mut nodes = Vec::new(alloc);
    for premise in premises {
        let goal = goal(alloc, db, sigma, StmtId(*premise))?;
        let target = text(alloc, birth, goal)?;
        nodes.push(unknown_node(alloc, target, steps)?)?;
    }
    Ok(nodes)
}

/// A known step over unknown ones, whose new strings have this birth.
pub fn known_over<L: Ledger>(
    alloc: Global,
    db: &Database,
    target: Rc<Text>,
    id: StmtId,
    sigma: &Subst,
    birth: usize,
    steps: &mut Steps<L>,
) -> Result<Rc<Node>, AllocError>
    requires own { id.0 < length (labels_of db.now) }
    requires short { All (λ h. length (applied sigma.now h) ≤ 32768) (premises_of db.now id.0) }
    requires few { length (premises_of db.now id.0) ≤ 2000000000 }
    ensures node { IfOk result (λ r. r.value ≡ placed_timed birth target.value id.0 sigma.now (premises_of db.now id.0)) }
    ensures cost { steps.new ≤ steps.old + 1 + length (premises_of db.now id.0) }
{
    let nodes = children(alloc, db, premises(db, id), sigma, birth, steps)?;
    let pairs = sigma.copy(alloc)?;
    let sigma = Rc::new(alloc, Values { birth, pairs })?;
    let made = Made::new(steps);
    Ok(Rc::new(alloc, Node::known(target, id.0, sigma, nodes, made))?)
}
