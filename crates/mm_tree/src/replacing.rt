//! A known step that names another statement, and keeps what fits of the trees of its children.

ghost use Rattle.std.specs.Prelude.{◌≡◌, ◌+◌, ◌*◌, ◌<◌, ◌≤◌, ◌^◌, [], All, IfOk, OnOk, OnErr, length, map, is_some, true, None};
ghost use Rattle.std.specs.List.{list_any, sum_by};
ghost use Rattle.std.specs.Cmp.Lexicographic.{pointwise};
ghost use Rattle.mm_scope.specs.Contents.{labels_of};
ghost use Rattle.mm_subst.specs.Statements.{statement_of};
ghost use Rattle.mm_subst.specs.Substitutions.{applied};
ghost use Rattle.mm_subst.specs.Symbols.{is_same};
ghost use Rattle.mm_plain.specs.Binding.{HasWorkKeys, bound};
ghost use Rattle.mm_plain.specs.Children.{children_of};
ghost use Rattle.mm_plain.specs.Lengths.{first_long};
ghost use Rattle.mm_plain.specs.Numbers.{HasOwnLabels};
ghost use Rattle.mm_plain.specs.Premises.{premises_of};
ghost use Rattle.mm_plain.specs.Shape.{Each, depth_at, greatest, size_of, step_at, target_of};
ghost use Rattle.mm_plain.specs.Valid.{placed_in};
ghost use Rattle.mm_tree.specs.Lines.{Line};
ghost use Rattle.mm_tree.specs.Meanings.{count, known_timed, mean, means, youngest};
ghost use Rattle.mm_tree.specs.Replacing.{AreChildrenWith, IsChildWith, IsReplaced, long_step, replaced_in};
ghost use Rattle.mm_tree.specs.Versions.{BeginsAlike, KeepsMarks, hand_length, line_of};
ghost use Rattle.mm_tree.specs.View.{counts, values};

use crate::fault::ReplaceFault;
use crate::line::{Line, replaced};
use crate::node::{Node, Step, put};
use crate::premises::{known_over, premises, text, unknown_node};
use crate::sources::behind;
use crate::timed::{Text, Values};
use crate::tree::{MOST_LEVELS, MOST_STEPS, Tree};
use mm_base::{Made, Steps};
use mm_scope::{Database, StmtId};
use mm_subst::{Subst, WStr, WSym, statement};
use std::alloc::{AllocError, Global};
use std::rc::Rc;
use std::sync::ledger::Ledger;

/// The greatest number of mandatory hypotheses of a statement that a step is made to name.
pub const MOST_PREMISES: usize = 2_000_000_000;

/// Whether two strings are the same.
fn is_same_string(a: &[WSym], b: &[WSym]) -> bool
    ensures { result ≡ pointwise is_same a.now b.now }
{
    match behind(a, b) {
        Some(left) => left.is_empty(),
        None => false,
    }
}

/// The children of a node.
fn children(node: &Node) -> &[Rc<Node>]
    ensures trees { (line : Line) → means line (values result.now) ≡ children_of (mean node.now line) }
    ensures fewer { counts result.now < count node.now }
    ensures older { greatest (map youngest (values result.now)) ≤ youngest node.now }
{
    match &node.step {
        Step::Known(_, _, _, kids) => kids,
        Step::Unknown(_) => &[],
    }
}

/// The first of some trees that proves a goal, all under a substitution; else an unknown step for the goal.
fn child_with<L: Ledger>(
    alloc: Global,
    line: &Line<'_>,
    theta: &Subst,
    olds: &[Rc<Node>],
    goal: WStr,
    birth: usize,
    steps: &mut Steps<L>,
) -> Result<Rc<Node>, AllocError>
    requires { length line.now ≤ birth }
    ensures node { IfOk result (λ r. IsChildWith theta.now line.now (values olds.now) goal birth r.value) }
    ensures cost { steps.new ≤ steps.old + 1 }
{
    let wanted = replaced(alloc, theta, &goal)?;
    for old in olds {
        let kept = old.target(alloc, line)?;
        let target = replaced(alloc, theta, &kept)?;
        if is_same_string(target.symbols(), wanted.symbols()) {
            return Ok(old.clone()?);
        }
    }
    let target = text(alloc, birth, goal)?;
    unknown_node(alloc, target, steps)
}

/// The children of a step that names a statement: for each premise the first of some trees that proves it, all under a
/// substitution; else an unknown step.
fn children_with<L: Ledger>(
    alloc: Global,
    db: &Database,
    line: &Line<'_>,
    theta: &Subst,
    olds: &[Rc<Node>],
    premises: &[u32],
    sigma: &Subst,
    birth: usize,
    steps: &mut Steps<L>,
) -> Result<Vec<Rc<Node>>, AllocError>
    requires own { All (λ m. m < length (labels_of db.now)) premises.now }
    requires born { length line.now ≤ birth }
    requires few { counts olds.now < 1000000 }
    ensures nodes { IfOk result (λ v. AreChildrenWith theta.now line.now (values olds.now) (map (applied sigma.now) (map (statement_of db.now) premises.now)) birth (values v.items)) }
    ensures cost { steps.new ≤ steps.old + length premises.now }
{
    let mut nodes = Vec::with_capacity(alloc, premises.len())?;
    for premise in premises {
        let hypothesis = statement(alloc, db, StmtId(*premise))?;
        let goal = replaced(alloc, sigma, &hypothesis)?;
        nodes.push(child_with(alloc, line, theta, olds, goal, birth, steps)?)?;
    }
    Ok(nodes)
}

/// Whether a string of some tree gets too long under a substitution.
fn has_long(
    alloc: Global,
    db: &Database,
    line: &Line<'_>,
    theta: &Subst,
    trees: &[Rc<Node>],
) -> Result<bool, AllocError>
    requires few { counts trees.now < 1000000 }
    requires own { Each (HasOwnLabels db.now) (means line.now (values trees.now)) }
    requires keys { HasWorkKeys theta.now }
    requires short { Each (λ x. first_long db.now x ≡ None) (means line.now (values trees.now)) }
    ensures { IfOk result (λ b. b ≡ list_any (λ x. is_some (first_long db.now x)) (map (bound theta.now) (means line.now (values trees.now)))) }
{
    for tree in trees {
        if tree.first_long(alloc, db, line, theta, 1)?.is_some() {
            return Ok(true);
        }
    }
    Ok(false)
}

/// A known step over its children, with a substitution of this birth.
fn known_over_kept<L: Ledger>(
    alloc: Global,
    target: Rc<Text>,
    label: u32,
    sigma: &Subst,
    birth: usize,
    kids: Vec<Rc<Node>>,
    steps: &mut Steps<L>,
) -> Result<Rc<Node>, AllocError>
    requires { counts kids.items < 2 ^ 63 }
    ensures node { IfOk result (λ r. r.value ≡ known_timed target.value label (record { birth = birth; pairs = sigma.now }) (values kids.items)) }
    ensures cost { steps.new ≤ steps.old + 1 }
{
    let pairs = sigma.copy(alloc)?;
    let sigma = Rc::new(alloc, Values { birth, pairs })?;
    let made = Made::new(steps);
    Ok(Rc::new(alloc, Node::known(target, label, sigma, kids, made))?)
}

impl Tree {
    /// The first step with a string that gets too long under a substitution, once a step names a statement over unknown steps.
    fn first_long_over<L: Ledger>(
        &self,
        alloc: Global,
        db: &Database,
        step: u32,
        id: StmtId,
        sigma: &Subst,
        theta: &Subst,
        steps: &mut Steps<L>,
    ) -> Result<Option<u32>, AllocError>
        requires exists { (1 ≤ step) × (step ≤ size_of self.now.proof.plain) }
        requires own { id.0 < length (labels_of db.now) }
        requires few { length (premises_of db.now id.0) ≤ 2000000000 }
        requires goals { All (λ h. length (applied sigma.now h) ≤ 32768) (premises_of db.now id.0) }
        requires labels { HasOwnLabels db.now (placed_in db.now self.now.proof step id.0 sigma.now).plain }
        requires keys { HasWorkKeys theta.now }
        requires short { first_long db.now (placed_in db.now self.now.proof step id.0 sigma.now).plain ≡ None }
        ensures long { IfOk result (λ s. s ≡ first_long db.now (bound theta.now (placed_in db.now self.now.proof step id.0 sigma.now).plain)) }
        ensures cost { steps.new ≤ steps.old + (depth_at self.now.proof.plain step + 1 + length (premises_of db.now id.0)) }
    {
        let target = self.text(step)?;
        let born = self.length();
        let node = known_over(alloc, db, target, id, sigma, born, steps)?;
        let root = put(alloc, self.hand(), u64::from(step), node, steps)?;
        root.first_long(alloc, db, &self.line(), theta, 1)
    }

    /// The step with a string that gets too long: in the tree over unknown steps, or else in the tree of an old child.
    fn long_step<L: Ledger>(
        &self,
        alloc: Global,
        db: &Database,
        step: u32,
        id: StmtId,
        sigma: &Subst,
        theta: &Subst,
        steps: &mut Steps<L>,
    ) -> Result<Option<u32>, AllocError>
        requires exists { (1 ≤ step) × (step ≤ size_of self.now.proof.plain) }
        requires own { id.0 < length (labels_of db.now) }
        requires few { length (premises_of db.now id.0) ≤ 2000000000 }
        requires goals { All (λ h. length (applied sigma.now h) ≤ 32768) (premises_of db.now id.0) }
        requires labels { HasOwnLabels db.now (placed_in db.now self.now.proof step id.0 sigma.now).plain }
        requires old_labels { Each (HasOwnLabels db.now) (children_of (step_at self.now.proof.plain step)) }
        requires keys { HasWorkKeys theta.now }
        requires short { first_long db.now (placed_in db.now self.now.proof step id.0 sigma.now).plain ≡ None }
        requires old_short { Each (λ x. first_long db.now x ≡ None) (children_of (step_at self.now.proof.plain step)) }
        ensures long { IfOk result (λ s. s ≡ long_step db.now self.now.proof step id.0 sigma.now theta.now) }
        ensures cost { steps.new ≤ steps.old + (depth_at self.now.proof.plain step + 1 + length (premises_of db.now id.0)) }
    {
        let first = self.first_long_over(alloc, db, step, id, sigma, theta, steps)?;
        if first.is_some() {
            return Ok(first);
        }
        let part = self.hand().at(u64::from(step));
        if !has_long(alloc, db, &self.line(), theta, children(part))? {
            return Ok(None);
        }
        let cleared = u64::from(step) + 1 - part.size();
        Ok(Some(cleared as u32 + premises(db, id).len() as u32))
    }

    /// The tree whose step names a statement, over the trees of its old children that prove a premise, all under a
    /// substitution.
    fn refilled<L: Ledger>(
        &self,
        alloc: Global,
        db: &Database,
        step: u32,
        id: StmtId,
        sigma: &Subst,
        theta: &Subst,
        steps: &mut Steps<L>,
    ) -> Result<Rc<Node>, AllocError>
        requires exists { (1 ≤ step) × (step ≤ size_of self.now.proof.plain) }
        requires own { id.0 < length (labels_of db.now) }
        requires few { length (premises_of db.now id.0) ≤ 2000000000 }
        ensures tree { IfOk result (λ r. bound theta.now (mean r.value (line_of self.now.versions true)) ≡ (replaced_in db.now self.now.proof step id.0 sigma.now theta.now).plain) }
        ensures born { IfOk result (λ r. youngest r.value ≤ hand_length self.now.versions) }
        ensures cost { steps.new ≤ steps.old + (depth_at self.now.proof.plain step + 1 + length (premises_of db.now id.0)) }
    {
        let target = self.text(step)?;
        let birth = self.length();
        let line = self.line();
        let olds = children(self.hand().at(u64::from(step)));
        let premises = premises(db, id);
        let kids = children_with(alloc, db, &line, theta, olds, premises, sigma, birth, steps)?;
        let node = known_over_kept(alloc, target, id.0, sigma, birth, kids, steps)?;
        put(alloc, self.hand(), u64::from(step), node, steps)
    }

    /// Makes a known step name another statement, over a child for each of its mandatory hypotheses: the first old child that
    /// proves it, or an unknown step. A substitution for work variables is applied to the whole tree, all keys at once. The
    /// strings of the old children are measured too. Each mark that is alive stays alive.
    pub fn replace<L: Ledger>(
        &mut self,
        alloc: Global,
        db: &Database,
        step: u32,
        id: StmtId,
        sigma: &Subst,
        theta: &Subst,
        steps: &mut Steps<L>,
    ) -> Result<(), ReplaceFault>
        requires exists { (1 ≤ step) × (step ≤ size_of self.old.proof.plain) }
        requires own { id.0 < length (labels_of db.now) }
        requires few { length (premises_of db.now id.0) ≤ 2000000000 }
        requires goals { All (λ h. length (applied sigma.now h) ≤ 32768) (premises_of db.now id.0) }
        requires labels { HasOwnLabels db.now (placed_in db.now self.old.proof step id.0 sigma.now).plain }
        requires old_labels { Each (HasOwnLabels db.now) (children_of (step_at self.old.proof.plain step)) }
        requires keys { HasWorkKeys theta.now }
        requires short { first_long db.now (placed_in db.now self.old.proof step id.0 sigma.now).plain ≡ None }
        requires old_short { Each (λ x. first_long db.now x ≡ None) (children_of (step_at self.old.proof.plain step)) }
        ensures replaced { IsReplaced result self.new.proof (long_step db.now self.old.proof step id.0 sigma.now theta.now) (replaced_in db.now self.old.proof step id.0 sigma.now theta.now) }
        ensures marks { KeepsMarks self.old.versions self.new.versions }
        ensures begun { BeginsAlike self.old.versions self.new.versions }
        ensures cost { steps.new ≤ steps.old + 2 * (depth_at self.old.proof.plain step + 1 + length (premises_of db.now id.0)) }
    {
        if let Some(long) = self.long_step(alloc, db, step, id, sigma, theta, steps)? {
            return Err(ReplaceFault::TooLong(long));
        }
        let root = self.refilled(alloc, db, step, id, sigma, theta, steps)?;
        if root.size() > MOST_STEPS {
            return Err(ReplaceFault::TooManySteps);
        }
        if root.height() > MOST_LEVELS {
            return Err(ReplaceFault::TooDeep);
        }
        let theta = theta.copy(alloc)?;
        self.push_root(root)?;
        self.add_binding(theta)?;
        Ok(())
    }
}
