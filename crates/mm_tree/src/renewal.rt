//! A part of a tree made anew over fresh work variables.

ghost use Rattle.std.specs.Prelude.{◌≡◌, ◌+◌, ◌-◌, ◌<◌, ◌≤◌, ◌^◌, [], All, IfOk, OnOk, OnErr, get_or, length, map, min};
ghost use Rattle.mm_scope.specs.Contents.{labels_of};
ghost use Rattle.mm_subst.specs.Statements.{statement_of};
ghost use Rattle.mm_subst.specs.Substitutions.{applied};
ghost use Rattle.mm_plain.specs.Drawing.{draws_of, with_fresh};
ghost use Rattle.mm_plain.specs.Grafts.{grafted_in};
ghost use Rattle.mm_plain.specs.Numbers.{HasOwnLabels};
ghost use Rattle.mm_plain.specs.Shape.{depth_at, size_of, step_at, target_of};
ghost use Rattle.mm_plain.specs.Valid.{most_works};
ghost use Rattle.mm_tree.specs.Meanings.{count, known_timed, mean};
ghost use Rattle.mm_tree.specs.Versions.{BeginsAlike, KeepsMarks};
ghost use Rattle.mm_tree.specs.View.{counts, values};
ghost use Rattle.mm_tree.specs.Written.{written};

use crate::fresh::{count_variables, last_fresh};
use crate::line::replaced;
use crate::node::{Node, Step};
use crate::premises::{premises, text, unknown_node};
use crate::timed::Values;
use crate::tree::{MOST_WORKS, Tree};
use mm_base::{Made, Steps};
use mm_scope::{Database, StmtId};
use mm_subst::{Subst, WStr, statement};
use std::alloc::{AllocError, Global};
use std::rc::Rc;
use std::sync::ledger::Ledger;

/// How many work variables the known steps of a tree need; at most the bound is told.
fn draws_within(db: &Database, node: &Node, bound: u32) -> u32
    requires { HasOwnLabels db.now (mean node.now []) }
    ensures { result ≡ min (draws_of db.now (mean node.now [])) bound }
{
    match &node.step {
        Step::Known(_, label, _, kids) => {
            let mut needed = 0;
            for kid in kids {
                needed = sum_within(needed, u64::from(draws_within(db, kid, bound)), bound);
            }
            let own = count_variables(db, StmtId(*label)) as u64;
            sum_within(needed, own, bound)
        }
        Step::Unknown(_) => 0,
    }
}

/// The sum of two numbers; at most the bound is told.
fn sum_within(a: u32, b: u64, bound: u32) -> u32
    ensures { result ≡ min (a + b) bound }
{
    let bound = u64::from(bound);
    u64::from(a).saturating_add(b).min(bound) as u32
}

/// A premise under a substitution; the empty string where there is no such premise.
fn goal_at(
    alloc: Global,
    db: &Database,
    premises: &[u32],
    sigma: &Subst,
    at: usize,
) -> Result<WStr, AllocError>
    requires { All (λ m. m < length (labels_of db.now)) premises.now }
    ensures { IfOk result (λ s. s ≡ get_or (map (applied sigma.now) (map (statement_of db.now) premises.now)) at []) }
{
    let Some(premise) = premises.get(at) else {
        return Ok(WStr::from_vec(Vec::new(alloc)));
    };
    let hypothesis = statement(alloc, db, StmtId(*premise))?;
    replaced(alloc, sigma, &hypothesis)
}

/// A known step whose strings have this birth.
fn known_new<L: Ledger>(
    alloc: Global,
    birth: usize,
    target: WStr,
    label: u32,
    pairs: Subst,
    kids: Vec<Rc<Node>>,
    steps: &mut Steps<L>,
) -> Result<Rc<Node>, AllocError>
    requires { counts kids.items < 2 ^ 63 }
    ensures node { IfOk result (λ r. r.value ≡ known_timed (record { birth = birth; string = target }) label (record { birth = birth; pairs = pairs }) (values kids.items)) }
    ensures cost { steps.new ≤ steps.old + 1 }
{
    let target = text(alloc, birth, target)?;
    let sigma = Rc::new(alloc, Values { birth, pairs })?;
    let made = Made::new(steps);
    Ok(Rc::new(alloc, Node::known(target, label, sigma, kids, made))?)
}

/// A tree with fresh work variables, the last of those below a number, and with a target. The children are made from the last
/// one on, since a step has the numbers after those of its children.
fn renewed<L: Ledger>(
    alloc: Global,
    db: &Database,
    node: &Node,
    target: WStr,
    birth: usize,
    end: &mut u32,
    steps: &mut Steps<L>,
) -> Result<Rc<Node>, AllocError>
    requires few { count node.now < 2 ^ 62 }
    requires own { HasOwnLabels db.now (mean node.now []) }
    requires drawn { draws_of db.now (mean node.now []) ≤ end.old }
    requires below { end.old ≤ most_works + 1 }
    ensures node { IfOk result (λ r. r.value ≡ written birth (with_fresh db.now (mean node.now []) end.new target)) }
    ensures taken { OnOk result (end.new + draws_of db.now (mean node.now []) ≡ end.old) }
    ensures cost { steps.new ≤ steps.old + count node.now }
{
    match &node.step {
        Step::Known(_, label, _, kids) => {
            let premises = premises(db, StmtId(*label));
            let sigma = last_fresh(alloc, db, StmtId(*label), end)?;
            let mut nodes = Vec::with_capacity(alloc, kids.len())?;
            let mut at = kids.len();
            while at > 0 {
                at -= 1;
                let goal = goal_at(alloc, db, premises, &sigma, at)?;
                nodes.push(renewed(alloc, db, &kids[at], goal, birth, end, steps)?)?;
            }
            nodes.reverse();
            known_new(alloc, birth, target, *label, sigma, nodes, steps)
        }
        Step::Unknown(_) => {
            let target = text(alloc, birth, target)?;
            unknown_node(alloc, target, steps)
        }
    }
}

impl Tree {
    /// How many work variables the known steps of the part at a step need: one for each mandatory variable of the statement
    /// that each of them names. At most 4,000,000,001 is told, which is one more than there are.
    pub fn draws(&self, db: &Database, step: u32) -> u32
        requires exists { (1 ≤ step) × (step ≤ size_of self.now.proof.plain) }
        requires own { HasOwnLabels db.now self.now.proof.plain }
        ensures { result ≡ min (draws_of db.now (step_at self.now.proof.plain step)) (most_works + 1) }
    {
        draws_within(db, self.hand().at(u64::from(step)), MOST_WORKS + 1)
    }

    /// Makes the part at a step anew: its known steps have the work variables that were drawn last, for the mandatory
    /// variables of what they name, in postorder. The targets of their children follow; the target of the step stays. Where
    /// that is refused the tree is as before. Each mark that is alive stays alive.
    pub fn renew<L: Ledger>(
        &mut self,
        alloc: Global,
        db: &Database,
        step: u32,
        steps: &mut Steps<L>,
    ) -> Result<(), AllocError>
        requires exists { (1 ≤ step) × (step ≤ size_of self.old.proof.plain) }
        requires own { HasOwnLabels db.now self.old.proof.plain }
        requires drawn { draws_of db.now (step_at self.old.proof.plain step) ≤ self.old.proof.next }
        ensures ok { OnOk result (self.new.proof ≡ grafted_in self.old.proof step (with_fresh db.now (step_at self.old.proof.plain step) (self.old.proof.next - draws_of db.now (step_at self.old.proof.plain step)) (target_of (step_at self.old.proof.plain step)))) }
        ensures err { OnErr result (self.new ≡ self.old) }
        ensures marks { KeepsMarks self.old.versions self.new.versions }
        ensures begun { BeginsAlike self.old.versions self.new.versions }
        ensures cost { steps.new ≤ steps.old + (depth_at self.old.proof.plain step + size_of (step_at self.old.proof.plain step)) }
    {
        let target = self.target(alloc, step)?;
        let birth = self.length();
        let mut end = self.next_work();
        let part = self.root().at(u64::from(step));
        let node = renewed(alloc, db, part, target, birth, &mut end, steps)?;
        self.replace_step(alloc, step, node, steps)
    }
}
