//! Nodes of proof trees, which versions share.

ghost use Rattle.std.specs.Prelude.{◌≡◌, ◌+◌, ◌<◌, ◌≤◌, ◌^◌, ◌++◌, ◌||◌, ℕ, [], max, map, is_none, None, IfOk, OnOk, MatchOption, length, drop};
ghost use Rattle.std.specs.List.{list_any, last_or, sum_by};
ghost use Rattle.mm_subst.specs.Symbols.{has_work};
ghost use Rattle.mm_plain.specs.Shape.{greatest, seat, size_of, depth_at, target_of, steps_of, step_at};
ghost use Rattle.mm_plain.specs.Sources.{label_of, is_pending, sigma_of, source_of};
ghost use Rattle.mm_subst.specs.Substitutions.{value_at};
ghost use Rattle.mm_subst.specs.declared.symbol.WSym.TheVariants.{Var};
ghost use Rattle.mm_plain.specs.Binding.{HasWorkKeys, bound};
ghost use Rattle.mm_plain.specs.Children.{children_of};
ghost use Rattle.mm_plain.specs.Lengths.{first_long, is_long_step};
ghost use Rattle.mm_plain.specs.Numbers.{first_from, labels_in, numbers_from, unknowns_among, HasOwnLabels};
ghost use Rattle.mm_tree.specs.Lines.{Line};
ghost use Rattle.mm_tree.specs.Meanings.{mean, means, text_now, youngest, count, tall, unknown_count, is_live, unknown_timed, known_timed, has_values_with_work};
ghost use Rattle.mm_tree.specs.View.{values, counts};
ghost use Rattle.mm_tree.specs.Paths.{IsChild, IsRoot, IsPut, IsRebuilt};

use crate::lengths::{is_long, is_long_known};
use crate::line::{Line, string_now};
use crate::sources::{fits, source, value_now};
use crate::timed::{Text, Values};
use mm_base::{Made, Steps};
use mm_scope::{Database, StmtId, Sym};
use mm_subst::{Subst, WStr, WSym, has_work};
use std::alloc::{AllocError, Global};
use std::marker::Model;
use std::rc::Rc;
use std::sync::ledger::Ledger;

/// A step with the steps below it. It is counted as it is made, and is never changed. It knows how many steps, levels and
/// unknown steps it has, and whether a string at or below it has a work variable.
#[cycle(node)]
#[derive(Drop)]
pub struct Node {
    made: Made,
    steps: u64,
    levels: u64,
    unknowns: u64,
    live: bool,
    pub step: Step,
}

/// A step over its children.
#[cycle(node)]
#[derive(Drop)]
pub enum Step {
    Unknown(Rc<Text>),
    Known(Rc<Text>, u32, Rc<Values>, Vec<Rc<Node>>),
}

impl Model for Node {
    ghost use Rattle.mm_tree.specs.declared.timed.TimedTree.{TimedTree};

    ghost Value = { TimedTree };

    ghost use Rattle.mm_tree.specs.contracts.timed.TimedTree as e;
    ghost use Rattle.std.specs.Coded.{codes};

    ghost coded = { Prim.hlevel (codes, e.the_row.coded) };

    ghost use Rattle.mm_tree.specs.View.{timed_of, IsNoted};

    ghost view = { λ a. timed_of a.step };

    ghost invariant = { λ a. IsNoted (timed_of a.step) a.steps a.levels a.unknowns a.live };

    ghost use Rattle.mm_tree.specs.Meanings.{count};

    ghost size = { count };

    ghost use Rattle.mm_tree.specs.Falls.{deep_le-count};
    ghost use Rattle.std.proofs.Common.{arith};

    ghost size_decreases = { λ a h. omega (arith, deep_le-count a.step) };
}

impl Node {
    /// An unknown step.
    pub fn unknown(target: Rc<Text>, made: Made) -> Node
        ensures { result ≡ unknown_timed target.value }
    {
        Node {
            made,
            steps: 1,
            levels: 1,
            unknowns: 1,
            live: has_work(&target.string),
            step: Step::Unknown(target),
        }
    }

    /// A known step over its children.
    pub fn known(
        target: Rc<Text>,
        label: u32,
        sigma: Rc<Values>,
        kids: Vec<Rc<Node>>,
        made: Made,
    ) -> Node
        requires { counts kids.items < 2 ^ 63 }
        ensures { result ≡ known_timed target.value label sigma.value (values kids.items) }
    {
        Node {
            made,
            steps: steps_over(kids.as_slice()),
            levels: levels_over(kids.as_slice()),
            unknowns: unknowns_over(kids.as_slice()),
            live: live_over(&target, &sigma, kids.as_slice()),
            step: Step::Known(target, label, sigma, kids),
        }
    }

    /// How many steps the tree has.
    pub fn size(&self) -> u64
        ensures { result ≡ count self.now }
    {
        self.steps
    }

    /// How many levels the tree has.
    pub fn height(&self) -> u64
        ensures { result ≡ tall self.now }
    {
        self.levels
    }

    /// How many steps are unknown.
    pub fn unknowns(&self) -> u64
        ensures { result ≡ unknown_count self.now }
    {
        self.unknowns
    }

    /// Whether a string has a work variable.
    pub fn is_live(&self) -> bool
        ensures { result ≡ is_live self.now }
    {
        self.live
    }

    /// The child that holds a step, and the step's number there; `None` where the step is the node's own.
    pub fn child(&self, step: u64) -> Option<(&Rc<Node>, u64)>
        requires { (1 ≤ step) × (step ≤ count self.now) }
        ensures { MatchOption result (IsRoot self.now step) (λ c. IsChild self.now c.0.now.value step c.1) }
    {
        match &self.step {
            Step::Unknown(_) => None,
            Step::Known(_, _, _, kids) => {
                let (i, left) = find(kids, step);
                if i < kids.len() {
                    Some((&kids[i], left))
                } else {
                    None
                }
            }
        }
    }

    /// How many steps there are in the children behind the first ones.
    pub fn steps_behind(&self, first: usize) -> u64
        requires { count self.now < 2 ^ 63 }
        ensures { (line : Line) → result ≡ sum_by size_of (drop first (children_of (mean self.now line))) }
    {
        match &self.step {
            Step::Known(_, _, _, kids) => steps_from(kids, first),
            Step::Unknown(_) => 0,
        }
    }

    /// The subtree at a step.
    pub fn at(&self, step: u64) -> &Node
        requires { (1 ≤ step) × (step ≤ count self.now) }
        ensures same { (line : Line) → mean result.now line ≡ step_at (mean self.now line) step }
        ensures born { youngest result.now ≤ youngest self.now }
    {
        match self.child(step) {
            Some((child, left)) => child.at(left),
            None => self,
        }
    }

    /// How many steps are above a step.
    pub fn depth(&self, step: u64) -> u64
        requires small { count self.now < 2 ^ 63 }
        requires exists { (1 ≤ step) × (step ≤ count self.now) }
        ensures depth { result ≡ depth_at (mean self.now []) step }
        ensures bound { result < count self.now }
    {
        match self.child(step) {
            Some((child, left)) => child.depth(left) + 1,
            None => 0,
        }
    }

    /// The string that the step proves, as it is kept.
    fn text(&self) -> &Rc<Text>
        ensures now { (line : Line) → text_now line result.now.value ≡ target_of (mean self.now line) }
        ensures born { result.now.value.birth ≤ youngest self.now }
    {
        match &self.step {
            Step::Known(target, _, _, _) => target,
            Step::Unknown(target) => target,
        }
    }

    /// The same string, shared.
    pub fn share_text(&self) -> Result<Rc<Text>, AllocError>
        ensures now { IfOk result (λ t. (line : Line) → text_now line t.value ≡ target_of (mean self.now line)) }
        ensures born { IfOk result (λ t. t.value.birth ≤ youngest self.now) }
    {
        Ok(self.text().clone()?)
    }

    /// The string that the step proves, in a version.
    pub fn target(&self, alloc: Global, line: &Line<'_>) -> Result<WStr, AllocError>
        ensures { IfOk result (λ t. t ≡ target_of (mean self.now line.now)) }
    {
        let text = self.text();
        string_now(alloc, line, text.birth, &text.string)
    }

    /// The id of the statement that the step names; `None` where it is unknown.
    pub fn label(&self) -> Option<u32>
        ensures { (line : Line) → result ≡ label_of (mean self.now line) }
    {
        match &self.step {
            Step::Known(_, label, _, _) => Some(*label),
            Step::Unknown(_) => None,
        }
    }

    /// What the statement that the step names says in a version, under the step's substitution; `None` where it is unknown.
    pub fn source(
        &self,
        alloc: Global,
        db: &Database,
        line: &Line<'_>,
    ) -> Result<Option<WStr>, AllocError>
        requires { HasOwnLabels db.now (mean self.now line.now) }
        ensures { IfOk result (λ s. s ≡ source_of db.now (mean self.now line.now)) }
    {
        match &self.step {
            Step::Known(_, label, sigma, _) => {
                let source = source(alloc, db, line, StmtId(*label), sigma)?;
                Ok(Some(source))
            }
            Step::Unknown(_) => Ok(None),
        }
    }

    /// The value of a variable under the step's substitution, in a version; `None` where it has none.
    pub fn value(&self, alloc: Global, line: &Line<'_>, v: Sym) -> Result<Option<WStr>, AllocError>
        ensures { IfOk result (λ s. s ≡ value_at (sigma_of (mean self.now line.now)) (Var v.0)) }
    {
        match &self.step {
            Step::Known(_, _, sigma, _) => value_now(alloc, line, sigma, WSym::Var(v.0)),
            Step::Unknown(_) => Ok(None),
        }
    }

    /// Whether the step is known, and its string in a version is not what its statement says there.
    pub fn is_pending(
        &self,
        alloc: Global,
        db: &Database,
        line: &Line<'_>,
    ) -> Result<bool, AllocError>
        requires { HasOwnLabels db.now (mean self.now line.now) }
        ensures { IfOk result (λ b. b ≡ is_pending db.now (mean self.now line.now)) }
    {
        match &self.step {
            Step::Known(target, label, sigma, _) => {
                let source = fits(alloc, db, line, target, StmtId(*label), sigma)?;
                Ok(!source)
            }
            Step::Unknown(_) => Ok(false),
        }
    }

    /// Appends what each step names, in order.
    pub fn labels(&self, into: &mut Vec<Option<u32>>) -> Result<(), AllocError>
        ensures { OnOk result (into.new.items ≡ into.old.items ++ labels_in (mean self.now [])) }
    {
        match &self.step {
            Step::Known(_, label, _, kids) => {
                for kid in kids {
                    kid.labels(into)?;
                }
                into.push(Some(*label))?;
            }
            Step::Unknown(_) => into.push(None)?,
        }
        Ok(())
    }

    /// The number of the last unknown step, where the first step has the number `first`; `None` where there is none. Of the
    /// children only those from the last one that has unknown steps on are looked at.
    pub fn last_unknown(&self, first: u32) -> Option<u32>
        requires { first + count self.now < 2 ^ 32 }
        ensures { result ≡ last_or None (numbers_from is_none first (labels_in (mean self.now []))) }
    {
        match &self.step {
            Step::Known(_, _, _, kids) => {
                let mut number = first + self.steps as u32 - 1;
                let mut at = kids.len();
                while at > 0 {
                    at -= 1;
                    let kid = &kids[at];
                    number -= kid.size() as u32;
                    if kid.unknowns() > 0 {
                        return kid.last_unknown(number);
                    }
                }
                None
            }
            Step::Unknown(_) => Some(first),
        }
    }

    /// Appends the numbers of the pending steps of a version, in order, where the first step has the number `first`.
    pub fn pending(
        &self,
        alloc: Global,
        db: &Database,
        line: &Line<'_>,
        first: u32,
        into: &mut Vec<u32>,
    ) -> Result<(), AllocError>
        requires few { first + count self.now < 2 ^ 32 }
        requires own { HasOwnLabels db.now (mean self.now line.now) }
        ensures { OnOk result (into.new.items ≡ into.old.items ++ numbers_from (is_pending db.now) first (steps_of (mean self.now line.now))) }
    {
        if let Step::Known(target, label, sigma, kids) = &self.step {
            let mut next = first;
            for kid in kids {
                kid.pending(alloc, db, line, next, into)?;
                next += kid.size() as u32;
            }
            if !fits(alloc, db, line, target, StmtId(*label), sigma)? {
                into.push(next)?;
            }
        }
        Ok(())
    }

    /// The number of the first step of a version of which a string, the source or a value gets too long under a substitution,
    /// where the first step has the number `first`; `None` where there is none. Nothing is looked at where no string has a
    /// work variable.
    pub fn first_long(
        &self,
        alloc: Global,
        db: &Database,
        line: &Line<'_>,
        theta: &Subst,
        first: u32,
    ) -> Result<Option<u32>, AllocError>
        requires few { first + count self.now < 2 ^ 32 }
        requires own { HasOwnLabels db.now (mean self.now line.now) }
        requires keys { HasWorkKeys theta.now }
        requires short { first_long db.now (mean self.now line.now) ≡ None }
        ensures { IfOk result (λ s. s ≡ first_from (is_long_step db.now) first (steps_of (bound theta.now (mean self.now line.now)))) }
    {
        if !self.live {
            return Ok(None);
        }
        match &self.step {
            Step::Known(target, label, sigma, kids) => {
                let mut next = first;
                for kid in kids {
                    if let Some(step) = kid.first_long(alloc, db, line, theta, next)? {
                        return Ok(Some(step));
                    }
                    next += kid.size() as u32;
                }
                if is_long_known(alloc, db, line, theta, target, StmtId(*label), sigma)? {
                    return Ok(Some(next));
                }
                Ok(None)
            }
            Step::Unknown(target) => {
                let string = string_now(alloc, line, target.birth, &target.string)?;
                if is_long(theta, &string) {
                    return Ok(Some(first));
                }
                Ok(None)
            }
        }
    }
}

/// The index of the child that holds a step, and the step's number there; past the children where it is in none.
fn find(kids: &[Rc<Node>], step: u64) -> (usize, u64)
    ensures { (result.0, result.1) ≡ seat (means [] (values kids.now)) step }
{
    let mut left = step;
    let mut at = 0;
    for kid in kids {
        let size = kid.size();
        if left <= size {
            return (at, left);
        }
        left -= size;
        at += 1;
    }
    (at, left)
}

/// How many steps the nodes behind the first ones have.
fn steps_from(kids: &[Rc<Node>], first: usize) -> u64
    requires { counts kids.now < 2 ^ 63 }
    ensures { result ≡ counts (drop first kids.now) }
{
    let mut steps = 0;
    let mut at = first;
    while at < kids.len() {
        steps += kids[at].size();
        at += 1;
    }
    steps
}

/// How many steps a step over these children has.
fn steps_over(kids: &[Rc<Node>]) -> u64
    requires { counts kids.now < 2 ^ 63 }
    ensures { result ≡ counts kids.now + 1 }
{
    let mut steps = 1;
    for kid in kids {
        steps += kid.size();
    }
    steps
}

/// How many levels a step over these children has.
fn levels_over(kids: &[Rc<Node>]) -> u64
    requires { counts kids.now < 2 ^ 63 }
    ensures { result ≡ greatest (map tall (values kids.now)) + 1 }
{
    let mut levels = 0;
    for kid in kids {
        levels = levels.max(kid.height());
    }
    levels + 1
}

/// How many steps are unknown below a step over these children.
fn unknowns_over(kids: &[Rc<Node>]) -> u64
    requires { counts kids.now < 2 ^ 63 }
    ensures { result ≡ sum_by (λ r. unknown_count r.value) kids.now }
{
    let mut unknowns = 0;
    for kid in kids {
        unknowns += kid.unknowns();
    }
    unknowns
}

/// Whether one of some substitutions' values has a work variable.
pub fn has_values_with_work(sigma: &Subst) -> bool
    ensures { result ≡ has_values_with_work sigma.now }
{
    sigma.pairs().iter().any(|pair| has_work(&pair.1))
}

/// Whether one of these children has a string with a work variable.
fn any_live(kids: &[Rc<Node>]) -> bool
    ensures { result ≡ list_any (λ r. is_live r.value) kids.now }
{
    kids.iter().any(|kid| kid.is_live())
}

/// Whether a step of these strings, or a step below it, has a string with a work variable.
fn live_over(target: &Text, sigma: &Values, kids: &[Rc<Node>]) -> bool
    ensures { result ≡ has_work target.now.string || (has_values_with_work sigma.now.pairs || list_any (λ r. is_live r.value) kids.now) }
{
    has_work(&target.string) || has_values_with_work(&sigma.pairs) || any_live(kids)
}

/// The same nodes, shared.
fn share_all(alloc: Global, kids: &[Rc<Node>]) -> Result<Vec<Rc<Node>>, AllocError>
    ensures { IfOk result (λ v. values v.items ≡ values kids.now) }
{
    let mut shared = Vec::with_capacity(alloc, kids.len())?;
    for kid in kids {
        shared.push(kid.clone()?)?;
    }
    Ok(shared)
}

/// A known step made anew with another child at a place; its strings and its other children are shared.
fn with_child<L: Ledger>(
    alloc: Global,
    target: &Rc<Text>,
    label: u32,
    sigma: &Rc<Values>,
    kids: &[Rc<Node>],
    at: usize,
    child: Rc<Node>,
    steps: &mut Steps<L>,
) -> Result<Rc<Node>, AllocError>
    requires within { at < length kids.now }
    requires small { counts kids.now + count child.value < 2 ^ 63 }
    ensures meaning { IfOk result (λ r. IsRebuilt target.now.value label sigma.now.value (values kids.now) at child.value r.value) }
    ensures cost { steps.new ≤ steps.old + 1 }
{
    let mut kids = share_all(alloc, kids)?;
    kids[at] = child;
    let target = target.clone()?;
    let sigma = sigma.clone()?;
    Ok(Rc::new(
        alloc,
        Node::known(target, label, sigma, kids, Made::new(steps)),
    )?)
}

/// The node with the one at a step replaced. The nodes on the way to it are made anew, and all others are shared.
pub fn put<L: Ledger>(
    alloc: Global,
    node: &Node,
    step: u64,
    new: Rc<Node>,
    steps: &mut Steps<L>,
) -> Result<Rc<Node>, AllocError>
    requires small { count node.now + count new.value < 2 ^ 62 }
    requires exists { (1 ≤ step) × (step ≤ count node.now) }
    ensures meaning { IfOk result (λ r. IsPut node.now step new.value r.value) }
    ensures cost { steps.new ≤ steps.old + depth_at (mean node.now []) step }
{
    match &node.step {
        Step::Unknown(_) => Ok(new),
        Step::Known(target, label, sigma, kids) => {
            let (i, left) = find(kids, step);
            if i < kids.len() {
                let child = put(alloc, &kids[i], left, new, steps)?;
                with_child(alloc, target, *label, sigma, kids, i, child, steps)
            } else {
                Ok(new)
            }
        }
    }
}
